ghost use Rattle.std.specs.Prelude.{◌≡◌, ◌++◌, IfOk, OnOk, string_bytes, true};
ghost use Rattle.std.specs.List.{list_all};
ghost use Rattle.nova_naming.specs.Statements.{is_name, is_name_byte};
ghost use Rattle.nova_naming.specs.Labels.{label_as, name_of};
ghost use Rattle.nova_naming.specs.Policy.{flows_so, is_among, is_called, names, shares};

use std::alloc::{AllocError, Global};
use std::marker::Model;

/// That memory which one side may write another may reach.
#[derive(Drop)]
pub struct Flow {
    /// The name of the side that may write it: the source.
    pub from: String,

    /// The name of the side that may reach it: the sink.
    pub to: String,
}

impl Model for Flow {
    ghost use Rattle.std.specs.Prelude.{string_bytes};
    ghost use Rattle.nova_naming.specs.Statements.{OneWay};

    ghost Value = { OneWay };

    ghost view = { λ f. record { from = string_bytes f.from; to = string_bytes f.to } };
}

/// What a line says of some protection domains, of some semaphores, or of a flow.
#[derive(Drop)]
pub struct Statement {
    /// The line, counted from 1.
    pub line: u64,

    /// The name of the side that they are; none where they are trusted.
    pub side: Option<String>,

    /// Their object numbers.
    pub domains: Vec<u32>,

    /// The object numbers of semaphores that sides share.
    pub semaphores: Vec<u32>,

    /// A flow from one side to another.
    pub flow: Option<Flow>,
}

impl Model for Statement {
    ghost use Rattle.std.specs.Prelude.{option_map, string_bytes};
    ghost use Rattle.nova_naming.specs.Statements.{Stated};

    ghost Value = { Stated };

    ghost view = { λ s. record {
      line = s.line;
      side = option_map string_bytes s.side;
      domains = s.domains.items;
      semaphores = s.semaphores.items;
      flow = s.flow;
    } };
}

fn is_name_byte(byte: u8) -> bool
    ensures { result ≡ is_name_byte byte }
{
    byte.is_ascii_alphanumeric() || byte == b'-' || byte == b'_'
}

fn are_name_bytes(bytes: &[u8]) -> bool
    ensures { result ≡ list_all is_name_byte bytes.now }
{
    bytes.iter().all(|&byte| is_name_byte(byte))
}

/// Whether `word` is the name of a side.
pub(crate) fn is_name(word: &[u8]) -> bool
    ensures { result ≡ is_name word.now }
{
    let [first, rest @ ..] = word else {
        return false;
    };
    first.is_ascii_alphabetic()
        && are_name_bytes(rest)
        && rest.len() < 32
        && word != b"trusted".as_slice()
}

/// The name `word` as text.
pub(crate) fn name_of(alloc: Global, word: &[u8]) -> Result<String, AllocError>
    requires { is_name word.now ≡ true }
    ensures { IfOk result (λ name. string_bytes name ≡ word.now) }
{
    match str::from_utf8(word) {
        Ok(name) => String::from_str(alloc, name),
        Err(_) => unreachable!("a name is ASCII"),
    }
}

/// Whether a number is among some.
pub(crate) fn is_among(numbers: &[u32], number: u32) -> bool
    ensures { result ≡ is_among numbers.now number }
{
    numbers.iter().any(|&other| other == number)
}

impl Statement {
    /// Whether the line names `domain`.
    pub fn names(&self, domain: u32) -> bool
        ensures { result ≡ names domain self.now }
    {
        is_among(&self.domains, domain)
    }

    /// Whether the line says that sides share a semaphore.
    pub(crate) fn shares(&self, semaphore: u32) -> bool
        ensures { result ≡ shares semaphore self.now }
    {
        is_among(&self.semaphores, semaphore)
    }

    /// Whether the line says a flow.
    pub(crate) fn flows_so(&self, flow: &Flow) -> bool
        ensures { result ≡ flows_so flow.now self.now }
    {
        match &self.flow {
            Some(other) => {
                other.from.as_str() == flow.from.as_str() && other.to.as_str() == flow.to.as_str()
            }
            None => false,
        }
    }

    /// Whether the line is of the side of a name.
    pub(crate) fn is_called(&self, name: &str) -> bool
        ensures { result ≡ is_called name.now self.now.side }
    {
        match &self.side {
            Some(other) => other.as_str() == name,
            None => false,
        }
    }

    /// The label of the line's domains, by its `place`.
    pub(crate) fn label(&self, place: u32) -> u32
        ensures { result ≡ label_as place self.now.side }
    {
        match self.side {
            Some(_) => place,
            None => 0,
        }
    }

    /// Writes the name of the line's side.
    pub(crate) fn write_name(&self, out: &mut String) -> Result<(), AllocError>
        ensures { OnOk result (string_bytes out.new ≡ string_bytes out.old ++ name_of self.now.side) }
    {
        match &self.side {
            Some(name) => out.push_str(name.as_str()),
            None => out.push_str("trusted"),
        }
    }
}
