use clap::Error;
use clap::error::ErrorKind;
use std::alloc::AllocError;
use std::{error, fmt};

/// Why the words were not read as a command.
#[derive(Clone, Copy, Debug, PartialEq, Eq)]
pub enum WordsRefused {
    /// They are no command.
    Usage,
    /// The allocator had no room for what clap keeps of a command line.
    Memory,
}

impl fmt::Display for WordsRefused {
    fn fmt<W: fmt::Write>(&self, f: &mut fmt::Formatter<W>) -> fmt::Result {
        match self {
            WordsRefused::Usage => f.write_str("the words are no command"),
            WordsRefused::Memory => f.write_str("out of memory"),
        }
    }
}

impl error::Error for WordsRefused {}

impl From<Error> for WordsRefused {
    ghost use Rattle.std.specs.Prelude.{◌≡◌};
    ghost use Rattle.clap.specs.Words.{kind_of};
    ghost use Rattle.command_line.specs.Reading.{words_refused};

    ghost from_gives = { λ error refused. refused ≡ words_refused (kind_of error) };

    fn from(error: Error) -> WordsRefused {
        match error.kind() {
            ErrorKind::OutOfMemory => WordsRefused::Memory,
            _ => WordsRefused::Usage,
        }
    }
}

impl From<AllocError> for WordsRefused {
    ghost use Rattle.std.specs.Prelude.{◌≡◌};
    ghost use Rattle.command_line.specs.declared.refused.WordsRefused.TheVariants.{Memory};

    ghost from_gives = { λ _ refused. refused ≡ Memory };

    fn from(_: AllocError) -> WordsRefused {
        WordsRefused::Memory
    }
}
