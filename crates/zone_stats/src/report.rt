//! The report of a replay and its lines: what each zone, keg, clock and name cache counted, summed up from the seats' ledgers.
ghost use Rattle.std.specs.Prelude.{◌≡◌, sum_by};
ghost use Rattle.zone_stats.specs.Line.{count_of, zone_line};

use crate::{SeatLedger, ZoneName};
use listed::Listed;

/// The line of a zone whose seats counted these ledgers. Of its items `out` are outside the keg, and in the keg
/// `keg_free` are free; a secondary zone passes 0, since its keg's free items are its primary zone's. USED is 0 where the
/// frees are more than the allocs, and FREE is 0 where USED is more than there are items.
pub fn sum(
    name: ZoneName,
    size: u32,
    limit: u64,
    ledgers: &[SeatLedger],
    out: u64,
    keg_free: u64,
) -> ZoneLine
    ensures { result ≡ zone_line name size limit ledgers.now out keg_free }
{
    let req = total(Count::Allocs, ledgers);
    let used = req.saturating_sub(total(Count::Frees, ledgers));
    let items = u128::from(keg_free) + u128::from(out);
    ZoneLine {
        name,
        size,
        limit,
        used,
        free: items.saturating_sub(used),
        req,
        fail: total(Count::Fails, ledgers),
        xdomain: total(Count::Cross, ledgers),
    }
}

/// One of a ledger's counts.
#[derive(Clone, Copy)]
enum Count {
    Allocs,
    Fails,
    Frees,
    Cross,
}

impl Count {
    /// What a ledger counted of it.
    fn of(self, ledger: &SeatLedger) -> u64
        ensures { result ≡ count_of self ledger.now }
    {
        match self {
            Count::Allocs => ledger.allocs,
            Count::Fails => ledger.fails,
            Count::Frees => ledger.frees,
            Count::Cross => ledger.cross,
        }
    }
}

/// What the seats counted of it together.
fn total(count: Count, ledgers: &[SeatLedger]) -> u128
    ensures { result ≡ sum_by (count_of count) ledgers.now }
{
    let mut total = 0;
    for ledger in ledgers {
        total += u128::from(count.of(ledger));
    }
    total
}

/// The lines of the table, one a zone. Contracts see the list of them.
pub type Lines = Listed<ZoneLine>;

/// The ledgers of one zone's seats, from worker 0 on. Contracts see the list of them.
pub type ZoneLedgers = Listed<SeatLedger>;

/// For each zone, in order, the ledgers of its seats. Contracts see the list of these lists.
pub type Ledgers = Listed<ZoneLedgers>;

/// The lines of the hooks, one a zone. Contracts see the list of them.
pub type HookLines = Listed<HookLine>;

/// The lines of the kegs, one a primary zone. Contracts see the list of them.
pub type KegLines = Listed<KegLine>;

/// One line of the table.
#[derive(Debug, Drop, PartialEq, Eq)]
pub struct ZoneLine {
    pub name: ZoneName,
    /// Bytes of an item, as the table shows them. A secondary zone's are its keg's.
    pub size: u32,
    /// The most items that the zone may have outside its keg, or 0 for no limit.
    pub limit: u64,
    /// Items that are allocated.
    pub used: u128,
    /// Items that aren't allocated: those free in the keg, those cached, and those whose free is deferred.
    pub free: u128,
    /// Requests that got an item.
    pub req: u128,
    /// Requests that were refused.
    pub fail: u128,
    /// Frees of items that belong to another domain than the seat.
    pub xdomain: u128,
}

/// How often each of a zone's hooks ran, summed over the bodies.
#[derive(Debug, Drop, PartialEq, Eq)]
pub struct HookLine {
    pub name: ZoneName,
    pub inits: u128,
    pub ctors: u128,
    pub dtors: u128,
    pub finis: u128,
    /// Items whose free is deferred, so that their `dtor` hasn't run.
    pub deferred: u64,
}

/// What a keg has, and how often its own hooks ran.
#[derive(Debug, Drop, PartialEq, Eq)]
pub struct KegLine {
    /// The name of the keg's primary zone.
    pub name: ZoneName,
    pub slabs: u32,
    /// Items that are free in the keg.
    pub free: u64,
    pub inits: u128,
    pub finis: u128,
}

/// Where the clock stands, and how entries into sections ended.
#[derive(Clone, Copy, Debug, PartialEq, Eq)]
pub struct ClockLine {
    /// The read sequence.
    pub read: u64,
    /// The write sequence.
    pub write: u64,
    /// Sections that began in time.
    pub entered: u64,
    /// Entries that came too late, and began no section.
    pub late: u64,
}

/// What the name cache did. Of the looks each is a hit, a miss or late.
#[derive(Clone, Copy, Debug, PartialEq, Eq)]
pub struct NamesLine {
    pub looks: u64,
    pub hits: u64,
    pub misses: u64,
    pub late: u64,
    /// Names that were bound.
    pub binds: u64,
    /// Names that were unbound.
    pub unbound: u64,
    /// Binds that were refused.
    pub refused: u64,
}

/// What a replay ends with. The zones stand in the order of their naming, the names zone last.
#[derive(Drop)]
pub struct Report {
    /// One line a zone.
    pub lines: Lines,
    /// For each zone the ledgers of the workers, from worker 0 on.
    pub ledgers: Ledgers,
    /// One line a zone, or none where the hooks aren't counted.
    pub hooks: HookLines,
    /// One line a keg, or none where the hooks aren't counted.
    pub kegs: KegLines,
    pub clock: Option<ClockLine>,
    pub names: Option<NamesLine>,
    /// Whether the text has the lines of hooks and kegs.
    pub detail: bool,
    /// Waits for a gate that were given up.
    pub gave_up: u64,
}
