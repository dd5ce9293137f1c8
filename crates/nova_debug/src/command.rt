ghost use Rattle.std.specs.Prelude.{◌≡◌, [], ◌∷◌};
ghost use Rattle.nova_text.specs.Token.{texts_of, tokens_left};
ghost use Rattle.nova_debug.specs.Commands.{command, command_of};

use crate::verb::Verb;
use nova_telling::Reading;
use nova_text::{Line, parse_number};

/// What is asked in a line.
#[derive(Clone, Copy)]
pub enum Command {
    /// Tells something of the present state.
    Tell(Reading),
    /// Tells what the next turn loads or stores.
    Access,
    /// Tells the text of an instruction's word.
    Code(u32),
    /// Tells the frame that a page of a domain leads to.
    Page(u32, u32),
    /// Goes to a turn.
    Go(u32),
    /// Goes on to the first turn that is looked for, at most to a turn.
    Run(u32),
    /// Goes on to a turn, and tells the last before it that is looked for.
    Last(u32),
    /// Looks for the instruction at an address of a domain.
    Break(u32, u32),
    /// Looks for the instructions of an execution context.
    By(u32),
    /// Looks for loads of bytes of a frame, from one to another.
    Loads(u32, u32, u32),
    /// Looks for stores to bytes of a frame, from one to another.
    Stores(u32, u32, u32),
    /// Looks for nothing more.
    Clear,
    /// Keeps states on the way, in at most a number of bytes.
    Keep(u32),
}

/// The command of `verb` with no number.
fn alone(verb: Verb) -> Option<Command>
    ensures { result ≡ command verb [] }
{
    match verb {
        Verb::At => Some(Command::Tell(Reading::Place)),
        Verb::Next => Some(Command::Tell(Reading::Instruction)),
        Verb::Contexts => Some(Command::Tell(Reading::Contexts)),
        Verb::Semaphores => Some(Command::Tell(Reading::Semaphores)),
        Verb::Consoles => Some(Command::Tell(Reading::Consoles)),
        Verb::Delegations => Some(Command::Tell(Reading::Delegations)),
        Verb::Objects => Some(Command::Tell(Reading::Objects)),
        Verb::Access => Some(Command::Access),
        Verb::Clear => Some(Command::Clear),
        _ => None,
    }
}

/// The command of `verb` with `number`.
fn with_number(verb: Verb, number: u32) -> Option<Command>
    ensures { result ≡ command verb (number ∷ []) }
{
    match verb {
        Verb::Words => Some(Command::Tell(Reading::Words(number))),
        Verb::Frame => Some(Command::Tell(Reading::Frame(number))),
        Verb::Queue => Some(Command::Tell(Reading::Queue(number))),
        Verb::Code => Some(Command::Code(number)),
        Verb::Go => Some(Command::Go(number)),
        Verb::Run => Some(Command::Run(number)),
        Verb::Last => Some(Command::Last(number)),
        Verb::By => Some(Command::By(number)),
        Verb::Keep => Some(Command::Keep(number)),
        _ => None,
    }
}

/// The command of `verb` with two numbers, `first` and `second`.
fn with_numbers(verb: Verb, first: u32, second: u32) -> Option<Command>
    ensures { result ≡ command verb (first ∷ second ∷ []) }
{
    match verb {
        Verb::Events => Some(Command::Tell(Reading::Events(first, second))),
        Verb::Slices => Some(Command::Tell(Reading::Slices(first, second))),
        Verb::Page => Some(Command::Page(first, second)),
        Verb::Break => Some(Command::Break(first, second)),
        _ => None,
    }
}

/// The command of `verb` with three numbers.
fn with_three(verb: Verb, frame: u32, first: u32, last: u32) -> Option<Command>
    ensures { result ≡ command verb (frame ∷ first ∷ last ∷ []) }
{
    match verb {
        Verb::Loads => Some(Command::Loads(frame, first, last)),
        Verb::Stores => Some(Command::Stores(frame, first, last)),
        _ => None,
    }
}

/// The command that the words of `line` ask; none where they are no command.
pub fn command_of(line: &mut Line) -> Option<Command>
    ensures { result ≡ command_of (texts_of (tokens_left line.old)) }
{
    let verb = Verb::named(line.next_token()?.text)?;
    let Some(first) = line.next_token() else {
        return alone(verb);
    };
    let first = parse_number(first.text).ok()?;
    let Some(second) = line.next_token() else {
        return with_number(verb, first);
    };
    let second = parse_number(second.text).ok()?;
    let Some(third) = line.next_token() else {
        return with_numbers(verb, first, second);
    };
    let third = parse_number(third.text).ok()?;
    match line.next_token() {
        Some(_) => None,
        None => with_three(verb, first, second, third),
    }
}
