ghost use Rattle.std.specs.Prelude.{◌≡◌};
ghost use Rattle.trace_lines.specs.TextLines.{fields_of};
ghost use Rattle.trace_schedule.specs.ScheduleGrammar.{version_in};
ghost use Rattle.trace_schedule.specs.ScheduleText.{refused_at};

use listed::Listed;
use smr_core::{StepRefused, Turn};
use std::alloc::AllocError;
use std::error::Error;
use std::fmt;
use trace_lines::two_fields;

/// The version of a schedule, which its first line says.
#[derive(Clone, Copy, Debug, PartialEq, Eq)]
pub enum Version {
    /// All seats have a worker, and no line tells of them.
    One,
    /// Seats leave and come.
    Two,
}

impl Version {
    /// The version that a first line says, and None where it says none.
    pub(crate) fn by_head(line: &[u8]) -> Option<Version>
        ensures { result ≡ version_in (fields_of line.now) }
    {
        let Ok((word, version)) = two_fields(line) else {
            return None;
        };
        if word != b"smr".as_slice() {
            None
        } else if version == b"1".as_slice() {
            Some(Version::One)
        } else if version == b"2".as_slice() {
            Some(Version::Two)
        } else {
            None
        }
    }
}

/// A line of a schedule that takes steps.
#[derive(Clone, Copy, Debug, PartialEq, Eq)]
pub struct TurnLine {
    /// Its number in the text, from 1.
    pub line: u64,
    pub turn: Turn,
}

/// The lines that take steps, in order. Contracts see the list of them.
pub type TurnLines = Listed<TurnLine>;

/// A schedule: its version, the numbers of the clock that it plays on, and its lines.
#[derive(Drop)]
pub struct Schedule {
    pub version: Version,
    /// 1 to 64.
    pub seats: u32,
    /// Where both sequences begin: odd, at most 2^63 - 1.
    pub start: u64,
    /// How far the write sequence may go above the read sequence: even, 4 to 2^30.
    pub window: u64,
    pub lines: TurnLines,
}

/// Why a schedule was not played.
#[derive(Clone, Copy, Debug, PartialEq, Eq)]
pub enum ScheduleRefused {
    /// The first line whose step is refused, from 1, and why; `refused` is never `Memory`.
    Step { line: u64, refused: StepRefused },
    Memory,
}

impl ScheduleRefused {
    /// The refusal of a step at this line.
    pub(crate) fn at(line: u64, refused: StepRefused) -> ScheduleRefused
        ensures { result ≡ refused_at line refused }
    {
        match refused {
            StepRefused::Memory => ScheduleRefused::Memory,
            refused => ScheduleRefused::Step { line, refused },
        }
    }
}

impl fmt::Display for ScheduleRefused {
    fn fmt<W: fmt::Write>(&self, f: &mut fmt::Formatter<W>) -> fmt::Result {
        match self {
            ScheduleRefused::Step { line, refused } => write!(f, "line {line}: {refused}"),
            ScheduleRefused::Memory => f.write_str("out of memory"),
        }
    }
}

impl Error for ScheduleRefused {}

impl From<AllocError> for ScheduleRefused {
    ghost use Rattle.trace_schedule.specs.declared.schedule.ScheduleRefused.TheVariants.{Memory};

    ghost from_gives = { λ _ refused. refused ≡ Memory };

    fn from(_failed: AllocError) -> ScheduleRefused {
        ScheduleRefused::Memory
    }
}
