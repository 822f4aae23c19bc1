ghost use Rattle.std.specs.Prelude.{OnOk, OnErr, IfOk, IfSome, IfNone};
ghost use Rattle.uma_reclaim.specs.Frames.{LeavesAll, MayReclaim, IsPassFor, MayTake, TakesIn, LeavesRest};
ghost use Rattle.uma_reclaim.specs.Reclaimed.{HasSettled, StopsFlush, GivesItemsOnly, KeepsListsAt, StopsTaking, TakesAt};
ghost use Rattle.smr_clock.specs.Belongs.{view};
ghost use Rattle.std.specs.List.{All};
ghost use Rattle.uma_domain.specs.Taken.{taken_in};
ghost use Rattle.uma_reclaim.specs.Emptied.{GivesOne, GivesTaken, EmptiesSeat, HasNoCached, TakesCached};
ghost use Rattle.uma_reclaim.specs.Given.{IsFromZone};
ghost use Rattle.uma_zone.specs.Zone.{IsSeatOf};

use deed_book::Memory;
use listed::Log;
use smr_clock::{Clock, Host, Pass};
use std::alloc::Global;
use std::snapshot::Snapshot;
use std::sync::Wait;
use uma_domain::{Taken, TakenBucket};
use uma_life::{Body, Cached, Hooks};
use uma_seat::SeatCache;
use uma_zone::Zone;

/// What a reclaim call gave back.
///
/// Contracts see besides which buckets the domains gave up, take by take.
#[derive(Drop)]
pub struct Reclaimed<T: Body, H: Host> {
    /// How many items went back to the keg. The count stands still at its type's end.
    pub items: u64,
    /// How many slabs the keg gave up.
    pub slabs: u32,
    // What each take from a domain brought, in order. For contracts alone.
    pub(crate) takes: Log<Snapshot<Taken<T, H>>>,
}

/// How much a domain gives up of what it lists.
#[derive(Clone, Copy, Debug, PartialEq, Eq)]
pub(crate) enum Extent {
    /// What it didn't use since its last trim.
    Unused,
    /// All that may be given back.
    All,
}

/// Flushes the seat, and settles each domain of the zone, so that what the seat had on its shelf may be taken from a list.
pub(crate) fn flush_and_settle<T: Body + Drop, K: Hooks<T>, H: Host, R: Wait>(
    rt: &R,
    zone: &Zone<T, K, H>,
    clock: &Clock<H>,
    pass: &mut Pass<H>,
    seat: &mut SeatCache<T, H>,
) -> Result<(), Memory>
    requires { MayReclaim zone.now clock.now pass.old seat.old }
    ensures done { OnOk result (HasSettled zone.now H.copied seat.new) }
    ensures stopped { OnErr result (StopsFlush zone.now H.copied seat.old seat.new) }
    ensures kept { LeavesAll zone.now H.copied clock.now pass.old pass.new seat.old seat.new }
{
    zone.flush(rt, clock, pass, seat)?;
    zone.settle(rt, clock, pass)
}

/// Takes so much from each domain of the zone, one after another, and gives it back to the keg.
///
/// Where memory is wanting for a domain, that domain and those after it list what they did; the domains before it are done.
pub(crate) fn give_back<T: Body, K: Hooks<T>, H: Host, R: Wait>(
    rt: &R,
    alloc: Global,
    zone: &Zone<T, K, H>,
    clock: &Clock<H>,
    pass: &mut Pass<H>,
    extent: Extent,
) -> Result<Reclaimed<T, H>, Memory>
    requires { IsPassFor zone.now clock.now pass.old }
    ensures kept { TakesIn H.merged clock.now pass.old pass.new }
    ensures gives { IfOk result (GivesItemsOnly zone.now extent H.merged (view pass.old).host (view pass.new).host) }
    ensures stopped { OnErr result (StopsTaking zone.now extent H.merged (view pass.old).host (view pass.new).host) }
{
    let mut items = 0u64;
    let mut takes = Log::new();
    for domain in 0..zone.domains() {
        let taken = take_from(rt, alloc, zone, clock, domain, extent)?;
        takes.push(Snapshot::of(&taken));
        let given = give_taken(rt, zone, clock, pass, taken);
        items = items.saturating_add(given);
    }
    Ok(Reclaimed {
        items,
        slabs: 0,
        takes,
    })
}

/// Takes so much from one domain of the zone.
fn take_from<T: Body, K: Hooks<T>, H: Host, R: Wait>(
    rt: &R,
    alloc: Global,
    zone: &Zone<T, K, H>,
    clock: &Clock<H>,
    domain: u8,
    extent: Extent,
) -> Result<Taken<T, H>, Memory>
    requires { MayTake zone.now clock.now domain }
    ensures takes { IfOk result (TakesAt zone.now extent domain) }
    ensures keeps { OnErr result (KeepsListsAt zone.now domain) }
{
    match extent {
        Extent::Unused => zone.domain(domain).take_trim(rt, alloc, clock),
        Extent::All => zone.domain(domain).take_all(rt, alloc, clock),
    }
}

/// Gives the buckets that a domain of the zone gave up back to the keg, in their order, and answers how many items they
/// had. The count stands still at its type's end.
pub(crate) fn give_taken<T: Body, K: Hooks<T>, H: Host, R: Wait>(
    rt: &R,
    zone: &Zone<T, K, H>,
    clock: &Clock<H>,
    pass: &mut Pass<H>,
    mut taken: Taken<T, H>,
) -> u64
    requires pass { IsPassFor zone.now clock.now pass.old }
    requires of_zone { All (IsFromZone zone.now) (taken_in taken) }
    ensures { GivesTaken zone.now H.merged clock.now (taken_in taken) pass.old result pass.new }
{
    let mut count = 0u64;
    while let Some(bucket) = taken.pop() {
        let given = give_bucket(rt, zone, clock, pass, bucket);
        count = count.saturating_add(u64::from(given));
    }
    taken.end();
    count
}

/// Gives a bucket that a domain of the zone gave up back to the keg, and answers how many items it had. Those of a ripe
/// one pass `dtor` first, and the pass takes in what its note knows.
fn give_bucket<T: Body, K: Hooks<T>, H: Host, R: Wait>(
    rt: &R,
    zone: &Zone<T, K, H>,
    clock: &Clock<H>,
    pass: &mut Pass<H>,
    bucket: TakenBucket<T, H>,
) -> u32
    requires pass { IsPassFor zone.now clock.now pass.old }
    requires of_zone { IsFromZone zone.now bucket }
    ensures { GivesOne zone.now H.merged clock.now bucket pass.old result pass.new }
{
    match bucket {
        TakenBucket::Plain { bucket } => zone.give(rt, bucket),
        TakenBucket::Ripe { bucket } => {
            let (bucket, note) = bucket.into_cached(zone.hooks());
            clock.absorb(pass, note);
            zone.give(rt, bucket)
        }
    }
}

/// Gives the usable and the cross items of a seat back to the keg, and answers how many they were. Its deferred items, its
/// spares and its shelf stay.
pub(crate) fn give_cached<T: Body, K: Hooks<T>, H: Host, R: Wait>(
    rt: &R,
    zone: &Zone<T, K, H>,
    seat: &mut SeatCache<T, H>,
) -> u64
    requires { IsSeatOf zone.now seat.old }
    ensures { EmptiesSeat zone.now seat.old result seat.new }
{
    let mut count = 0u64;
    while let Some(item) = take_cached(zone, seat) {
        zone.give_one(rt, item);
        count = count.saturating_add(1);
    }
    count
}

/// Takes an item of the seat: a usable one, or where none is left a cross item. None exactly where it has neither.
fn take_cached<T: Body, K: Hooks<T>, H: Host>(
    zone: &Zone<T, K, H>,
    seat: &mut SeatCache<T, H>,
) -> Option<Cached<T>>
    requires { IsSeatOf zone.now seat.old }
    ensures takes { IfSome result (λ item. TakesCached zone.now seat.old item seat.new) }
    ensures none { IfNone result (HasNoCached seat.old seat.new) }
    ensures kept { LeavesRest zone.now seat.old seat.new }
{
    match seat.try_alloc() {
        Some(item) => Some(item),
        None => seat.take_cross(),
    }
}
