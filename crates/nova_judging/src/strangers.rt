ghost use Rattle.std.specs.Prelude.{◌≡◌, find, option_map};
ghost use Rattle.nova_judging.specs.Labelled.{at_line, first_stranger, is_domain_of, is_no_semaphore, is_semaphore_of, is_strange, is_stranger, stranger_in};
ghost use Rattle.nova_judging.specs.declared.strangers.Expected.TheVariants.{Domain, Semaphore};

use nova_kernel::{Kernel, Object};
use nova_naming::{Policy, Statement};
use std::fmt;

/// What a line of a policy names.
#[derive(Clone, Copy, Debug, PartialEq, Eq)]
pub enum Expected {
    /// A protection domain.
    Domain,

    /// A semaphore.
    Semaphore,
}

impl fmt::Display for Expected {
    ghost use Rattle.std.specs.Prelude.{Some};
    ghost use Rattle.nova_judging.specs.Labelled.{expected_text};

    ghost output = { λ expected. Some (expected_text expected) };

    fn fmt<W: fmt::Write>(&self, f: &mut fmt::Formatter<W>) -> fmt::Result {
        f.write_str(match self {
            Expected::Domain => "NoDomain",
            Expected::Semaphore => "NoSemaphore",
        })
    }
}

/// What a policy names as a domain or as a semaphore, and is none.
#[derive(Clone, Copy, Debug, PartialEq, Eq)]
pub struct Stranger {
    /// The line that names it, counted from 1.
    pub line: u64,

    /// What it is to be.
    pub expected: Expected,

    /// Its number.
    pub number: u32,
}

pub(crate) fn is_domain(kernel: &Kernel, n: u32) -> bool
    ensures { result ≡ is_domain_of kernel.now.state n }
{
    matches!(kernel.object(n), Some(Object::Pd))
}

fn is_semaphore(kernel: &Kernel, n: u32) -> bool
    ensures { result ≡ is_semaphore_of kernel.now.state n }
{
    matches!(kernel.object(n), Some(Object::Sm))
}

fn is_stranger(kernel: &Kernel, n: u32) -> bool
    ensures { result ≡ is_stranger kernel.now.state n }
{
    !is_domain(kernel, n)
}

fn is_no_semaphore(kernel: &Kernel, n: u32) -> bool
    ensures { result ≡ is_no_semaphore kernel.now.state n }
{
    !is_semaphore(kernel, n)
}

fn stranger_among<'a>(kernel: &Kernel, domains: &'a [u32]) -> Option<&'a u32>
    ensures { option_map (λ n. n.now) result ≡ find (is_stranger kernel.now.state) domains.now }
{
    domains.iter().find(|&&domain| is_stranger(kernel, domain))
}

fn no_semaphore_among<'a>(kernel: &Kernel, semaphores: &'a [u32]) -> Option<&'a u32>
    ensures { option_map (λ n. n.now) result ≡ find (is_no_semaphore kernel.now.state) semaphores.now }
{
    semaphores.iter().find(|&&sm| is_no_semaphore(kernel, sm))
}

/// The first number of a line that is to be of a domain, and of none.
fn stranger_of_domains(kernel: &Kernel, statement: &Statement) -> Option<Stranger>
    ensures { result ≡ at_line statement.now.line Domain (find (is_stranger kernel.now.state) statement.now.domains) }
{
    let number = *stranger_among(kernel, &statement.domains)?;
    Some(Stranger {
        line: statement.line,
        expected: Expected::Domain,
        number,
    })
}

/// The first that is to be of a semaphore, and of none.
fn stranger_of_semaphores(kernel: &Kernel, statement: &Statement) -> Option<Stranger>
    ensures { result ≡ at_line statement.now.line Semaphore (find (is_no_semaphore kernel.now.state) statement.now.semaphores) }
{
    let number = *no_semaphore_among(kernel, &statement.semaphores)?;
    Some(Stranger {
        line: statement.line,
        expected: Expected::Semaphore,
        number,
    })
}

/// The first number of a line that isn't of what it is to be.
fn stranger_in(kernel: &Kernel, statement: &Statement) -> Option<Stranger>
    ensures { result ≡ stranger_in kernel.now.state statement.now }
{
    match stranger_of_domains(kernel, statement) {
        Some(stranger) => Some(stranger),
        None => stranger_of_semaphores(kernel, statement),
    }
}

/// Whether a line names what is no domain, or no semaphore.
fn is_strange(kernel: &Kernel, statement: &Statement) -> bool
    ensures { result ≡ is_strange kernel.now.state statement.now }
{
    stranger_in(kernel, statement).is_some()
}

/// The first of some lines that does.
fn strange_in<'a>(kernel: &Kernel, statements: &'a [Statement]) -> Option<&'a Statement>
    ensures { option_map (λ s. s.now) result ≡ find (is_strange kernel.now.state) statements.now }
{
    statements
        .iter()
        .find(|statement| is_strange(kernel, statement))
}

/// What `policy` names first of all as a domain or as a semaphore that is none of `kernel`: its number, what it is to be, and the line; none exactly where each
/// number that it names is of what it is to be.
pub fn first_stranger(policy: &Policy, kernel: &Kernel) -> Option<Stranger>
    ensures { result ≡ first_stranger policy.now kernel.now.state }
{
    let statement = strange_in(kernel, policy.statements())?;
    stranger_in(kernel, statement)
}
