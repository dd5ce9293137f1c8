ghost use Rattle.std.specs.Prelude.{◌≡◌, ◌++◌, ◌<◌, ◌^◌, ◌∷◌, [], IfNone, IfOk, None, OnOk, Some, length, option_map, string_bytes};
ghost use Rattle.std.specs.List.{list_any};
ghost use Rattle.nova_text.specs.Line.{row_of};
ghost use Rattle.nova_naming.specs.Labels.{flow_by, flows_of, label_called, label_of, semaphores_of, side_text};
ghost use Rattle.nova_naming.specs.Policy.{AddsLine, Gives, clash, flow_clash, flows_so, is_full, is_named, is_shared, is_taken, policy_of, repeats};

use crate::fault::{PolicyFault, PolicyWhy};
use crate::lines::read_line;
use crate::statement::{Flow, Statement, is_among};
use nova_text::{Line, Lines};
use std::alloc::{AllocError, Global};
use std::marker::Model;

/// The most lines that say something.
const MOST: usize = 1000;

/// What the lines of a policy say. A domain that none of them names is a side of its own.
#[derive(Drop)]
pub struct Policy {
    statements: Vec<Statement>,
}

impl Model for Policy {
    ghost use Rattle.std.specs.Prelude.{List, length, ◌≤◌};
    ghost use Rattle.nova_naming.specs.Statements.{Stated};

    ghost Value = { List Stated };

    ghost view = { λ p. p.statements.items };

    ghost invariant = { λ p. length p.statements.items ≤ 1000 };
}

/// Whether one of the lines `policy` names `domain`.
fn is_named(policy: &[Statement], domain: u32) -> bool
    ensures { result ≡ is_named policy.now domain }
{
    policy.iter().any(|statement| statement.names(domain))
}

/// Whether one of the lines `policy` names one of `domains`.
fn are_named(policy: &[Statement], domains: &[u32]) -> bool
    ensures { result ≡ list_any (is_named policy.now) domains.now }
{
    domains.iter().any(|&domain| is_named(policy, domain))
}

/// Whether one of some lines says that sides share a semaphore.
fn is_shared(policy: &[Statement], semaphore: u32) -> bool
    ensures { result ≡ is_shared policy.now semaphore }
{
    policy.iter().any(|statement| statement.shares(semaphore))
}

/// Whether one of some lines says it of one of some semaphores.
fn are_shared(policy: &[Statement], semaphores: &[u32]) -> bool
    ensures { result ≡ list_any (is_shared policy.now) semaphores.now }
{
    semaphores
        .iter()
        .any(|&semaphore| is_shared(policy, semaphore))
}

/// Whether one of some lines has a name.
fn is_called(policy: &[Statement], name: &str) -> bool
    ensures { result ≡ is_taken policy.now (Some name.now) }
{
    policy.iter().any(|statement| statement.is_called(name))
}

/// Whether one of the lines `policy` has the name of `side`.
fn is_taken(policy: &[Statement], side: Option<&str>) -> bool
    ensures { result ≡ is_taken policy.now (option_map (λ name. name.now) side.entry) }
{
    match side {
        Some(name) => is_called(policy, name),
        None => false,
    }
}

/// Whether a number stands twice among `domains`.
fn repeats(domains: &[u32]) -> bool
    ensures { result ≡ repeats domains.now }
{
    let mut rest = domains;
    while let [first, after @ ..] = rest {
        if is_among(after, *first) {
            return true;
        }
        rest = after;
    }
    false
}

/// Whether one of some lines says a flow.
fn is_said(policy: &[Statement], flow: &Flow) -> bool
    ensures { result ≡ list_any (flows_so flow.now) policy.now }
{
    policy.iter().any(|statement| statement.flows_so(flow))
}

/// Why a flow can't stand behind some lines, if it can't.
fn flow_clash(policy: &[Statement], flow: Option<&Flow>) -> Option<PolicyWhy>
    ensures { result ≡ flow_clash policy.now (option_map (λ f. f.now) flow.entry) }
{
    let flow = flow?;
    let (from, to) = (flow.from.as_str(), flow.to.as_str());
    if !(is_called(policy, from) && is_called(policy, to)) {
        Some(PolicyWhy::NoSide)
    } else if from == to {
        Some(PolicyWhy::SameSide)
    } else if is_said(policy, flow) {
        Some(PolicyWhy::SameFlow)
    } else {
        None
    }
}

/// Whether there are too many lines for one more.
fn is_full(policy: &[Statement]) -> Option<PolicyWhy>
    ensures why { result ≡ is_full policy.now }
    ensures room { IfNone result (length policy.now < 1000) }
{
    if policy.len() >= MOST {
        Some(PolicyWhy::TooMany)
    } else {
        None
    }
}

/// Why `statement` can't stand behind the lines `policy`, if it can't.
fn clash(policy: &[Statement], statement: &Statement) -> Option<PolicyWhy>
    ensures why { result ≡ clash policy.now statement.now }
    ensures room { IfNone result (length policy.now < 1000) }
{
    if is_taken(policy, statement.side.as_deref()) {
        Some(PolicyWhy::SameName)
    } else if are_named(policy, &statement.domains) || repeats(&statement.domains) {
        Some(PolicyWhy::SameDomain)
    } else if are_shared(policy, &statement.semaphores) || repeats(&statement.semaphores) {
        Some(PolicyWhy::SameSemaphore)
    } else if let Some(why) = flow_clash(policy, statement.flow.as_ref()) {
        Some(why)
    } else {
        is_full(policy)
    }
}

impl Policy {
    /// The policy that names nothing but `domain`, which is trusted.
    pub fn trusting(alloc: Global, domain: u32) -> Result<Policy, AllocError>
        ensures { IfOk result (λ policy. policy ≡ record { line = 1; side = None; domains = domain ∷ []; semaphores = []; flow = None } ∷ []) }
    {
        let mut domains = Vec::new(alloc);
        domains.push(domain)?;
        let mut statements = Vec::new(alloc);
        statements.push(Statement {
            line: 1,
            side: None,
            domains,
            semaphores: Vec::new(alloc),
            flow: None,
        })?;
        Ok(Policy { statements })
    }

    fn push(&mut self, statement: Statement) -> Result<(), AllocError>
        requires { length self.old < 1000 }
        ensures { OnOk result (self.new ≡ self.old ++ statement ∷ []) }
    {
        self.statements.push(statement)?;
        Ok(())
    }

    /// Adds what `line` says.
    fn add_line(&mut self, alloc: Global, line: Line) -> Result<(), PolicyFault>
        ensures { AddsLine self.old (row_of line.entry) self.new result }
    {
        let mut line = line;
        let number = line.number;
        let Some(statement) = read_line(alloc, &mut line)? else {
            return Ok(());
        };
        if let Some(why) = clash(&self.statements, &statement) {
            return Err(why.at(number));
        }
        Ok(self.push(statement)?)
    }

    /// Reads a policy: lines `trusted DOMAIN..`, `side NAME DOMAIN..`, `shared SEMAPHORE..` and `flow NAME NAME`, where domains and semaphores are object
    /// numbers below 2^32, in decimal or behind `0x` in hexadecimal, and a comment runs from `#` to the end of a line. There are at most 1,000 such lines.
    /// Each of the first three names one or more, and none is named twice; the names of sides differ. A name is a letter and up to 31 letters, digits,
    /// `-` and `_`, but not `trusted`. A flow is from a side to another, both of lines before it, and is said once.
    ///
    /// `At` comes exactly where the text is no policy, and names the first line at fault with its first fault. `Memory` comes where memory is
    /// refused.
    #[tactic(auto, unfolding(crate::specs::Policy::policy_of))]
    pub fn read(alloc: Global, text: &[u8]) -> Result<Policy, PolicyFault>
        ensures { Gives (policy_of text.now) result }
    {
        let mut lines = Lines::new(text);
        let mut policy = Policy {
            statements: Vec::new(alloc),
        };
        while let Some(line) = lines.next() {
            policy.add_line(alloc, line)?;
        }
        Ok(policy)
    }

    /// What the lines of the policy say, in order.
    pub fn statements(&self) -> &[Statement]
        ensures { result.now ≡ self.now }
    {
        &self.statements
    }

    /// The semaphores that sides share on purpose, as its lines name them.
    pub fn semaphores(&self, alloc: Global) -> Result<Vec<u32>, AllocError>
        ensures { IfOk result (λ semaphores. semaphores.items ≡ semaphores_of self.now) }
    {
        let mut semaphores = Vec::new(alloc);
        for statement in &self.statements {
            semaphores.extend_from_slice(&statement.semaphores)?;
        }
        Ok(semaphores)
    }

    /// The label of the side of a name: the place of its line, from 1; 0 where no line has it.
    fn label_called(&self, name: &str) -> u32
        ensures { result ≡ label_called self.now name.now }
    {
        for (i, statement) in self.statements.iter().enumerate() {
            if statement.is_called(name) {
                return i as u32 + 1;
            }
        }
        0
    }

    fn push_flow(&self, flows: &mut Vec<(u32, u32)>, flow: &Option<Flow>) -> Result<(), AllocError>
        ensures { OnOk result (flows.new.items ≡ flows.old.items ++ flow_by self.now flow.now) }
    {
        if let Some(flow) = flow {
            let from = self.label_called(flow.from.as_str());
            let to = self.label_called(flow.to.as_str());
            flows.push((from, to))?;
        }
        Ok(())
    }

    /// The one-way flows of memory between its sides, as its lines say them: of each the label of the side that may write, and that of the side that may
    /// reach what it writes.
    pub fn flows(&self, alloc: Global) -> Result<Vec<(u32, u32)>, AllocError>
        ensures { IfOk result (λ flows. flows.items ≡ flows_of self.now) }
    {
        let mut flows = Vec::new(alloc);
        for statement in &self.statements {
            self.push_flow(&mut flows, &statement.flow)?;
        }
        Ok(flows)
    }

    /// The label of a domain: 0 where it is trusted; for the side of a line the line's place among those of the policy, from 1; and where no
    /// line names it, its own number behind these.
    #[tactic(auto, unfolding(crate::specs::Labels::label_of))]
    pub fn label_of(&self, domain: u32) -> u32
        requires { domain < 2 ^ 31 }
        ensures { result ≡ label_of self.now domain }
    {
        for (i, statement) in self.statements.iter().enumerate() {
            if statement.names(domain) {
                return statement.label(i as u32 + 1);
            }
        }
        self.statements.len() as u32 + 1 + domain
    }

    /// Writes what the side of `label` is called: its name; the number of its domain, where that is no line's; or `trusted`.
    pub fn write_side(&self, out: &mut String, label: u32) -> Result<(), AllocError>
        ensures { OnOk result (string_bytes out.new ≡ string_bytes out.old ++ side_text self.now label) }
    {
        if label == 0 {
            return out.push_str("trusted");
        }
        match self.statements.get(label as usize - 1) {
            Some(statement) => statement.write_name(out),
            None => {
                let domain = label as usize - 1 - self.statements.len();
                write!(out, "{domain}")
            }
        }
    }
}
