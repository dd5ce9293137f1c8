use nova_command::{Command, CommandFault, Name, read_command};
use std::alloc::{AllocError, Global};
use std::process::Abort;
use std::test::Fail;

/// The words of `line`.
fn words_of(alloc: Global, line: &str) -> Result<Vec<String>, AllocError> {
    let mut words = Vec::new(alloc);
    for word in line.split_whitespace() {
        words.push(String::from_str(alloc, word)?)?;
    }
    Ok(words)
}

/// What a solo run of a scenario is, as text.
fn solo_text(
    alloc: Global,
    name: &str,
    order: Option<&Name>,
    limit: u32,
) -> Result<String, AllocError> {
    match order {
        None => format!(in alloc; "run {name} for {limit}"),
        Some(order) => {
            let order = order.as_str();
            format!(in alloc; "run {name} by {order} for {limit}")
        }
    }
}

/// What a run of a scenario with threads is, as text.
fn run_text(alloc: Global, name: &str, order: &str, limit: u32) -> Result<String, AllocError> {
    format!(in alloc; "run {name} together for {limit} into {order}")
}

/// `command` as text.
fn text_of(alloc: Global, command: &Command) -> Result<String, AllocError> {
    match command {
        Command::Solo {
            scenario,
            order,
            limit,
        } => solo_text(alloc, scenario.as_str(), order.as_ref(), *limit),
        Command::Run {
            scenario,
            order,
            limit,
        } => run_text(alloc, scenario.as_str(), order.as_str(), *limit),
        Command::Bench { number, limit } => format!(in alloc; "bench {number} for {limit}"),
        Command::Twin { subjects, limit } => {
            let name = subjects.as_str();
            format!(in alloc; "compare {name} for {limit}")
        }
        Command::Check { scenario } => {
            let name = scenario.as_str();
            format!(in alloc; "check {name}")
        }
    }
}

/// What the line of words `line` asks for, as text.
fn asked(alloc: Global, line: &str) -> Result<String, AllocError> {
    let words = words_of(alloc, line)?;
    match read_command(alloc, &words) {
        Ok(command) => text_of(alloc, &command),
        Err(fault) => format!(in alloc; "{fault}"),
    }
}

/// Asserts what the line of words `line` asks for.
fn assert_asked(rt: &impl Abort, alloc: Global, line: &str, meant: &str) {
    let read = asked(alloc, line).expect(rt, "ample memory");
    assert!(rt; read.as_str() == meant, "{line}");
}

/// Lines of words, and what they ask for.
static COMMANDS: [(&str, &str); 26] = [
    ("solo a", "run a for 1000000"),
    ("solo a b", "run a by b for 1000000"),
    ("solo b --limit 9 a", "run b by a for 9"),
    ("solo a a", "run a by a for 1000000"),
    ("solo -- a --limit", "run a by --limit for 1000000"),
    ("check a", "check a"),
    ("run a b", "run a together for 1000000 into b"),
    ("run --limit 3 b a", "run b together for 3 into a"),
    ("bench 7", "bench 7 for 1000000"),
    ("bench 0x15F90 --limit 7", "bench 90000 for 7"),
    ("twin a", "compare a for 1000000"),
    ("twin --limit 0x20 a", "compare a for 32"),
    ("solo a --limit 7", "run a for 7"),
    ("solo a b --limit 7", "run a by b for 7"),
    ("solo a --limit 007", "run a for 7"),
    ("solo a --limit=0x10", "run a for 16"),
    ("solo --limit=0xfF a", "run a for 255"),
    ("--limit 5 solo a", "run a for 5"),
    ("solo a --limit 1", "run a for 1"),
    ("solo a --limit 10000000", "run a for 10000000"),
    ("check a --limit 7", "check a"),
    ("solo -- a", "run a for 1000000"),
    ("-- solo a", "run a for 1000000"),
    ("solo -- --limit", "run --limit for 1000000"),
    ("solo -", "run - for 1000000"),
    ("check solo", "check solo"),
];

#[test]
fn reads_commands(rt: HostRuntime) {
    for &(line, meant) in &COMMANDS {
        assert_asked(&rt, rt.alloc(), line, meant);
    }
}

/// Lines of words that ask for nothing.
static OTHERS: [&str; 35] = [
    "",
    "solo",
    "check",
    "solo a b c",
    "check a b",
    "run a",
    "run a b c",
    "bench",
    "bench a",
    "bench 0",
    "bench 90001",
    "bench 7 a",
    "twin",
    "twin a b",
    "twin a --limit 0",
    "Solo a",
    "a solo",
    "check a --limit 0",
    "solo a --limit 10000001",
    "solo a --limit 4294967297",
    "solo a --limit 0X1",
    "solo a --limit 0x",
    "solo a --limit -1",
    "solo a --limit=",
    "solo a --limit",
    "solo a --limit 5 --limit 6",
    "solo a --lim 5",
    "solo a --turns 5",
    "solo -a",
    "help",
    "--help",
    "-h",
    "solo a --help",
    "--version",
    "-V",
];

static USAGE: &str = "usage: nova run|solo|check|bench|twin NAME [ORDER] [--limit N]";

#[test]
fn refuses_other_words(rt: HostRuntime) {
    for line in &OTHERS {
        assert_asked(&rt, rt.alloc(), line, USAGE);
    }
}

/// The file of the scenario that the line of words `line` asks to check, and an empty text where it asks for anything else.
fn checked(alloc: Global, line: &str) -> Result<String, CommandFault> {
    let words = words_of(alloc, line)?;
    match read_command(alloc, &words)? {
        Command::Check { scenario } => Ok(scenario.into_string()),
        _ => Ok(String::new(alloc)),
    }
}

#[test]
fn long_names_are_read(rt: HostRuntime) -> Result<(), Fail> {
    let mut name = String::new(rt.alloc());
    for _ in 0..70_000 {
        name.push('a')?;
    }
    let mut line = String::from_str(rt.alloc(), "check ")?;
    line.push_str(name.as_str())?;
    let read = checked(rt.alloc(), line.as_str())?;
    assert!(rt; read == name);
    Ok(())
}
