ghost use Rattle.std.specs.Prelude.{◌≡◌, Some};
ghost use Rattle.nova_command.specs.declared.fault.CommandFault.TheVariants.{Memory};
ghost use Rattle.nova_command.specs.CommandFault.{message_of, of_words};

use std::alloc::AllocError;
use std::error::Error;
use std::fmt;
use std::io::ErrorKind;

/// Why no command was read.
#[derive(Clone, Copy, Debug, PartialEq, Eq)]
pub enum CommandFault {
    /// The words are no command.
    Usage,

    /// Memory was refused.
    Memory,
}

impl CommandFault {
    /// The fault of words that could not be read, by the error's `kind`: Usage where a word is no text, and else Memory.
    pub fn of_words(kind: ErrorKind) -> CommandFault
        ensures { result ≡ of_words kind }
    {
        match kind {
            ErrorKind::InvalidData => CommandFault::Usage,
            _ => CommandFault::Memory,
        }
    }
}

impl fmt::Display for CommandFault {
    ghost output = { λ fault. Some (message_of fault) };

    fn fmt<W: fmt::Write>(&self, f: &mut fmt::Formatter<W>) -> fmt::Result {
        f.write_str(match self {
            CommandFault::Usage => "usage: nova run|solo|check|bench|twin NAME [ORDER] [--limit N]",
            CommandFault::Memory => "out of memory",
        })
    }
}

impl Error for CommandFault {}

impl From<AllocError> for CommandFault {
    ghost from_gives = { λ _ fault. fault ≡ Memory };

    fn from(_: AllocError) -> Self {
        CommandFault::Memory
    }
}
