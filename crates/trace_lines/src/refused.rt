ghost use Rattle.std.specs.Prelude.{◌≡◌};
ghost use Rattle.trace_lines.specs.declared.refused.LineRefused.TheVariants as lines;
ghost use Rattle.trace_lines.specs.declared.refused.ParseRefused.TheVariants.{Memory};

use std::alloc::{AllocError, AllocFailed};
use std::error::Error;
use std::fmt;

/// What is wrong with a line.
#[derive(Clone, Copy, Debug, PartialEq, Eq)]
pub enum TraceKind {
    /// A byte that isn't allowed: neither a tab, nor from space to tilde, nor a line's end.
    Bytes,
    /// The first line that isn't skipped doesn't say what the text is.
    Head,
    /// A line after `end`.
    After,
    /// The first field is no word of the grammar.
    Word,
    /// The word may not stand here.
    Place,
    /// Too few fields, or too many.
    Fields,
    /// Not a number.
    Number,
    /// Not a name.
    Name,
    /// No kind of a zone.
    Kind,
    /// A number outside its range, or a worker that there isn't.
    Range,
    /// What needs a clock stands without the `clock` line.
    NoClock,
    /// What needs names stands without the `names` line.
    NoNames,
    /// A zone has this name already.
    DoubleName,
    /// No earlier zone of the kind wanted has this name.
    NoZone,
    /// More zones than a keg or a trace may have.
    Zones,
    /// The slot that is to be filled is filled.
    SlotBusy,
    /// The slot that is to be emptied is empty.
    SlotEmpty,
    /// The worker is in a section already.
    SectionOpen,
    /// The worker is in no section.
    SectionClosed,
    /// The worker is away.
    Absent,
    /// The worker isn't away.
    Present,
    /// The line after the last one: there is no `end`.
    NoEnd,
}

/// The first bad line of a text, from 1, and what is wrong with it.
#[derive(Clone, Copy, Debug, PartialEq, Eq)]
pub struct TraceRefused {
    pub line: u64,
    pub kind: TraceKind,
}

/// Why a line wasn't taken in: what is wrong with it, or want of memory.
#[derive(Clone, Copy, Debug, PartialEq, Eq)]
pub enum LineRefused {
    Kind { kind: TraceKind },
    Memory,
}

/// Why a text wasn't read.
#[derive(Clone, Copy, Debug, PartialEq, Eq)]
pub enum ParseRefused {
    Trace { refused: TraceRefused },
    Memory,
}

impl From<TraceKind> for LineRefused {
    ghost from_gives = { λ kind refused. refused ≡ lines.Kind kind };

    fn from(kind: TraceKind) -> LineRefused {
        LineRefused::Kind { kind }
    }
}

impl<T: Drop> From<AllocFailed<T>> for LineRefused {
    ghost from_gives = { λ _ refused. refused ≡ lines.Memory };

    fn from(_failed: AllocFailed<T>) -> LineRefused {
        LineRefused::Memory
    }
}

impl fmt::Display for TraceKind {
    fn fmt<W: fmt::Write>(&self, f: &mut fmt::Formatter<W>) -> fmt::Result {
        f.write_str(match self {
            TraceKind::Bytes => "bad byte",
            TraceKind::Head => "bad first line",
            TraceKind::After => "line after end",
            TraceKind::Word => "unknown word",
            TraceKind::Place => "out of place",
            TraceKind::Fields => "wrong fields",
            TraceKind::Number => "bad number",
            TraceKind::Name => "bad name",
            TraceKind::Kind => "bad kind",
            TraceKind::Range => "out of range",
            TraceKind::NoClock => "no clock",
            TraceKind::NoNames => "no names",
            TraceKind::DoubleName => "name taken",
            TraceKind::NoZone => "no such zone",
            TraceKind::Zones => "too many zones",
            TraceKind::SlotBusy => "slot busy",
            TraceKind::SlotEmpty => "slot empty",
            TraceKind::SectionOpen => "section open",
            TraceKind::SectionClosed => "no section",
            TraceKind::Absent => "worker away",
            TraceKind::Present => "worker there",
            TraceKind::NoEnd => "no end",
        })
    }
}

impl fmt::Display for TraceRefused {
    fn fmt<W: fmt::Write>(&self, f: &mut fmt::Formatter<W>) -> fmt::Result {
        let line = self.line;
        let kind = self.kind;
        write!(f, "line {line}: {kind}")
    }
}

impl Error for TraceRefused {}

impl fmt::Display for LineRefused {
    fn fmt<W: fmt::Write>(&self, f: &mut fmt::Formatter<W>) -> fmt::Result {
        match self {
            LineRefused::Kind { kind } => write!(f, "{kind}"),
            LineRefused::Memory => f.write_str("out of memory"),
        }
    }
}

impl Error for LineRefused {}

impl fmt::Display for ParseRefused {
    fn fmt<W: fmt::Write>(&self, f: &mut fmt::Formatter<W>) -> fmt::Result {
        match self {
            ParseRefused::Trace { refused } => write!(f, "{refused}"),
            ParseRefused::Memory => f.write_str("out of memory"),
        }
    }
}

impl Error for ParseRefused {}

impl From<AllocError> for ParseRefused {
    ghost from_gives = { λ _ refused. refused ≡ Memory };

    fn from(_failed: AllocError) -> ParseRefused {
        ParseRefused::Memory
    }
}

impl<T: Drop> From<AllocFailed<T>> for ParseRefused {
    ghost from_gives = { λ _ refused. refused ≡ Memory };

    fn from(_failed: AllocFailed<T>) -> ParseRefused {
        ParseRefused::Memory
    }
}
