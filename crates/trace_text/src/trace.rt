//! The values of a trace: its header, its operations and its rounds, and their limits.
ghost use Rattle.std.specs.Prelude.{◌≡◌};
ghost use Rattle.trace_lines.specs.TextLines.{fields_of};
ghost use Rattle.trace_text.specs.TraceLine.{version_in};
ghost use Rattle.trace_text.specs.Valid.{changes_limits, lets_leave};

use listed::Listed;
use trace_lines::two_fields;
use zone_stats::ZoneName;

/// How many slots a worker has. They are numbered from 0.
pub const SLOTS: usize = 65_536;

/// The most workers of a trace.
pub const MOST_WORKERS: usize = 16;

/// The greatest limit of a zone: so many items may be outside its keg.
pub const GREATEST_LIMIT: u64 = 1_000_000;

/// The version of a trace, which its first line says.
#[derive(Clone, Copy, Debug, PartialEq, Eq)]
pub enum Version {
    /// Each zone keeps the limit that the header gives it.
    One,
    /// Limits change between two rounds.
    Two,
    /// Limits change, and workers leave and come back.
    Three,
}

impl Version {
    /// The version that a first line says, and None where it says none.
    pub(crate) fn by_head(line: &[u8]) -> Option<Version>
        ensures { result ≡ version_in (fields_of line.now) }
    {
        let Ok((word, version)) = two_fields(line) else {
            return None;
        };
        if word != b"uma".as_slice() {
            None
        } else if version == b"1".as_slice() {
            Some(Version::One)
        } else if version == b"2".as_slice() {
            Some(Version::Two)
        } else if version == b"3".as_slice() {
            Some(Version::Three)
        } else {
            None
        }
    }

    /// Whether limits change between two rounds.
    pub(crate) fn changes_limits(self) -> bool
        ensures { result ≡ changes_limits self }
    {
        match self {
            Version::One => false,
            Version::Two | Version::Three => true,
        }
    }

    /// Whether workers leave and come back.
    pub(crate) fn lets_leave(self) -> bool
        ensures { result ≡ lets_leave self }
    {
        match self {
            Version::One | Version::Two => false,
            Version::Three => true,
        }
    }
}

/// Whether a zone's frees are deferred until no section that was open at the free is open any more.
#[derive(Clone, Copy, Debug, PartialEq, Eq)]
pub enum ZoneKind {
    /// Frees take effect at once.
    Plain,
    /// Frees are deferred, as by smr(9).
    Smr,
}

/// One `zone` or `second` line.
#[derive(Drop)]
pub struct ZoneHead {
    pub name: ZoneName,
    /// The place of the primary zone among the zones, where this is a secondary one.
    pub parent: Option<u32>,
    /// Bytes of an item, 8 to 4,096. A secondary zone has its parent's.
    pub size: u32,
    /// Slabs that the keg may have, 1 to 1,024. A secondary zone has its parent's.
    pub slabs: u32,
    /// Items of a bucket, 4 to 64.
    pub bucket: u32,
    /// Items that may be outside the keg in this zone, 0 for no limit; at most 1,000,000.
    pub limit: u64,
    /// Free items that the keg keeps for requests with `reserve`; at most 65,535. A secondary zone has its parent's.
    pub reserve: u64,
    pub kind: ZoneKind,
}

/// The `names` line: a cache of names with a zone of entries.
#[derive(Drop)]
pub struct NamesHead {
    pub name: ZoneName,
    /// Rows, 1 to 4,096.
    pub rows: u32,
    /// Slabs of the zone of entries, 1 to 1,024.
    pub slabs: u32,
    /// Items of a bucket, 4 to 64.
    pub bucket: u32,
}

/// The `clock` line.
#[derive(Clone, Copy, Debug, PartialEq, Eq)]
pub struct ClockHead {
    /// Where both sequences begin: odd, at most 2^63 - 1.
    pub start: u64,
    /// How far the write sequence may be above the read sequence: even, 4 to 2^30.
    pub window: u64,
}

/// What the header lines say.
#[derive(Drop)]
pub struct Head {
    /// Workers, 1 to 16.
    pub workers: u32,
    /// Memory domains, 1 to 4. Worker w is in domain w mod `domains`.
    pub domains: u8,
    pub clock: Option<ClockHead>,
    /// Whether the report has hook and keg lines.
    pub detail: bool,
    pub zones: ZoneHeads,
    pub names: Option<NamesHead>,
}

/// The zones in order of naming. Contracts see the list of them.
pub type ZoneHeads = Listed<ZoneHead>;

/// One operation of a worker. A zone is named by its place among the `zone` and `second` lines, from 0.
#[derive(Clone, Copy, Debug, PartialEq, Eq)]
pub enum Op {
    /// A request. `arg` is the argument of the constructor, 0 to 254; `reserve` says that the request may use the
    /// keg's reserve.
    Alloc {
        zone: u32,
        slot: u32,
        arg: u64,
        reserve: bool,
    },
    /// A free of what the slot holds.
    Free {
        slot: u32,
    },
    /// Enters a section.
    Enter,
    /// Leaves the section.
    Exit,
    /// Binds a name to a value.
    Bind {
        key: u64,
        value: u64,
    },
    /// Takes a name out.
    Unbind {
        key: u64,
    },
    /// Looks a name up.
    Look {
        key: u64,
    },
    /// Gives back what the working set doesn't need.
    Trim {
        zone: u32,
    },
    /// Gives back all that the zone's domains list.
    Drain {
        zone: u32,
    },
    /// Gives back what the worker's seat has, too.
    DrainSeat {
        zone: u32,
    },
    /// Brings in the slabs of so many items, at most 262,144.
    Prealloc {
        zone: u32,
        items: u64,
    },
    /// Leaves: the worker's seat is empty until it comes back. Of version 3.
    Away,
    /// Comes back. Of version 3.
    Back,
}

/// The operations of one worker in one round, in order. Contracts see the list of them.
pub type OpList = Listed<Op>;

/// One list of operations for each worker, in order of workers. Contracts see the list of them.
pub type OpLists = Listed<OpList>;

/// One line between two rounds. A zone is named by its place among the `zone` and `second` lines, from 0.
#[derive(Clone, Copy, Debug, PartialEq, Eq)]
pub enum Between {
    /// Moves what the giver's slot holds to the taker's.
    Give {
        giver: u32,
        slot: u32,
        taker: u32,
        slot2: u32,
    },
    /// Gives the zone another limit, at most 1,000,000; 0 is no limit.
    SetMax {
        zone: u32,
        limit: u64,
    },
}

/// The lines between two rounds, in order. Contracts see the list of them.
pub type Betweens = Listed<Between>;

/// The operations up to a `round` line or `end`, which workers run at the same time, and the lines that stand
/// between this round and the next, which are done in order.
#[derive(Drop)]
pub struct Round {
    pub ops: OpLists,
    pub between: Betweens,
}

/// The rounds in order. Contracts see the list of them.
pub type Rounds = Listed<Round>;

/// A trace: its version, what its header lines say, and its rounds.
#[derive(Drop)]
pub struct Trace {
    pub version: Version,
    pub head: Head,
    pub rounds: Rounds,
}
