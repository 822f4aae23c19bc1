ghost use Rattle.std.specs.Prelude.{◌≡◌, IfOk, IfSome, codes};
ghost use Rattle.clap.specs.Words.{first_value, found_of};
ghost use Rattle.command_line.specs.Commands.{AreNumbers, HasRanges, command_made, command_named, command_numbered, numbers};
ghost use Rattle.command_line.specs.Reading.{command_met};

use clap::ArgMatches;
use trace_lines::{TraceKind, number_in, number_within};

/// The most workers of a trace that a seed gives.
const MOST_WORKERS: u64 = 16;

/// The most steps of a trace that a seed gives.
const MOST_OPS: u64 = 50_000;

/// What the program is asked to do.
#[derive(Clone, Copy, Debug, PartialEq, Eq)]
pub enum Command {
    /// Replay a trace, and print its table.
    Replay,
    /// Play a schedule, and print what its steps see.
    Steps,
    /// Print the trace that a seed gives, of `ops` steps, 1 to 50,000, of `workers` workers, 1 to 16.
    Gen { seed: u64, workers: u32, ops: u32 },
    /// Replay that trace, and print what no schedule changes.
    Bulk { seed: u64, workers: u32, ops: u32 },
}

impl Command {
    /// The command of the name that clap met, with what it found behind the name.
    pub(crate) fn met(name: &str, found: &ArgMatches<'_>) -> Option<Command>
        ensures is { result ≡ command_met name.now (first_value (found_of found.now) (codes "seed"))
            (first_value (found_of found.now) (codes "workers")) (first_value (found_of found.now) (codes "ops")) }
        ensures ranges { IfSome result HasRanges }
    {
        match (
            found.get_str("seed"),
            found.get_str("workers"),
            found.get_str("ops"),
        ) {
            (Some(seed), Some(workers), Some(ops)) => Command::numbered(
                name.as_bytes(),
                seed.as_bytes(),
                workers.as_bytes(),
                ops.as_bytes(),
            ),
            _ => Command::named(name.as_bytes()),
        }
    }

    fn named(word: &[u8]) -> Option<Command>
        ensures is { result ≡ command_named word.now }
        ensures ranges { IfSome result HasRanges }
    {
        match word {
            b"replay" => Some(Command::Replay),
            b"steps" => Some(Command::Steps),
            _ => None,
        }
    }

    /// The command of a word with three more.
    fn numbered(word: &[u8], seed: &[u8], workers: &[u8], ops: &[u8]) -> Option<Command>
        ensures is { result ≡ command_numbered word.now seed.now workers.now ops.now }
        ensures ranges { IfSome result HasRanges }
    {
        let Ok((seed, workers, ops)) = Command::numbers(seed, workers, ops) else {
            return None;
        };
        Command::made(word, seed, workers, ops)
    }

    /// The command of a word with these numbers.
    fn made(word: &[u8], seed: u64, workers: u32, ops: u32) -> Option<Command>
        requires { AreNumbers (seed, workers, ops) }
        ensures is { result ≡ command_made word.now (seed, workers, ops) }
        ensures ranges { IfSome result HasRanges }
    {
        match word {
            b"gen" => Some(Command::Gen { seed, workers, ops }),
            b"bulk" => Some(Command::Bulk { seed, workers, ops }),
            _ => None,
        }
    }

    /// The seed, the workers and the steps, or what is wrong with the first that is none.
    fn numbers(seed: &[u8], workers: &[u8], ops: &[u8]) -> Result<(u64, u32, u32), TraceKind>
        ensures is { result ≡ numbers seed.now workers.now ops.now }
        ensures ranges { IfOk result AreNumbers }
    {
        let seed = number_in(seed)?;
        let workers = number_within(workers, 1, MOST_WORKERS)?;
        let ops = number_within(ops, 1, MOST_OPS)?;
        Ok((seed, workers as u32, ops as u32))
    }
}
