ghost use Rattle.std.specs.Prelude.{◌≡◌, ◌≢◌, IfOk, OnOk, false};
ghost use Rattle.uma_zone.specs.Zone.{zone_limit, zone_reserve, zone_size};
ghost use Rattle.name_cache.specs.Cache.{cache_zone};

use crate::replaying::{cache_over, open};
use name_cache::{BindRefused, NameCache, RaisedEntry};
use name_rows::{Names, find};
use replay_worker::{Memory, NameCalls};
use smr_clock::{Clock, Overtaken, Pass};
use std::alloc::Global;
use std::sync::Wait;
use trace_text::Trace;
use uma_bucket::Sums;
use uma_keg::Census;
use uma_seat::SeatCache;
use zone_stats::SeatLedger;

/// A cache of names as a `names` line makes it: its zone of entries has neither a limit nor a reserve, and its entries
/// have 64 bytes.
#[derive(Drop)]
pub struct TraceCache {
    pub cache: NameCache,
    ghost sized: { zone_size (cache_zone cache) ≡ 64 },
    ghost unlimited: { zone_limit (cache_zone cache) ≡ 0 },
    ghost unreserved: { zone_reserve (cache_zone cache) ≡ 0 },
}

// Whether a bind that was refused leaves the replay to go on.
fn turned(refused: BindRefused) -> Result<bool, Memory>
    ensures refuses { IfOk result (λ done. done ≡ false) }
    ensures not_memory { OnOk result (refused ≢ BindRefused.Memory) }
{
    match refused {
        BindRefused::Memory => Err(Memory),
        _ => Ok(false),
    }
}

/// Keeps names in a cache: for a trace with a `names` line.
#[derive(Drop)]
pub struct CacheNames;

impl NameCalls for CacheNames {
    type H = Names;

    type Cache = TraceCache;

    type Seat = SeatCache<RaisedEntry, Names>;

    ghost use Rattle.std.specs.Prelude.{refl, true, Some};
    ghost use Rattle.uma_seat.specs.Seat.{ledger_of, seat_domain};
    ghost use Rattle.uma_zone.specs.SafeReuse.{usable_tickets};
    ghost use Rattle.uma_seat.specs.Sums.{deferred_in_seat, times_in_seat};
    ghost use Rattle.umarun.specs.Caches.{CameIn, IsCensusIn, IsFoundIn, IsSeatIn, TurnsBackIn, clock_in, plan_for, sizes_in};
    ghost use Rattle.umarun.specs.Known.{KnowsRecord, told_in};

    ghost serves = { true };

    ghost clock_of = { clock_in };

    ghost sizes_of = { sizes_in };

    ghost IsSeat = { IsSeatIn };

    ghost domain_of = { seat_domain };

    ghost counted = { λ seat. Some (ledger_of seat) };

    ghost usable = { λ seat. usable_tickets seat };

    ghost Came = { CameIn };

    ghost IsFound = { IsFoundIn };

    ghost TurnsBack = { TurnsBackIn };

    ghost IsCensus = { IsCensusIn };

    ghost passed = { λ seat hook. times_in_seat hook seat };

    ghost deferred = { deferred_in_seat };

    ghost plans = { plan_for };

    ghost knows = { KnowsRecord };

    ghost told = { told_in };

    ghost counts_where_served = { λ seat. refl };

    fn set_up(
        &self,
        alloc: Global,
        trace: &Trace,
    ) -> Result<(TraceCache, Clock<Names>, Vec<Pass<Names>>), Memory> {
        let Some(line) = &trace.head.names else {
            unreachable!()
        };
        let Ok(opened) = open(alloc, &trace.head, line) else {
            return Err(Memory)
        };
        match cache_over(alloc, opened, &trace.head, line) {
            Ok(made) => Ok(made),
            Err(_) => Err(Memory),
        }
    }

    fn seat<R: Wait>(
        &self,
        cache: &TraceCache,
        rt: &R,
        alloc: Global,
        domain: u8,
    ) -> Result<SeatCache<RaisedEntry, Names>, Memory> {
        match cache.cache.seat(rt, alloc, domain) {
            Ok(seat) => Ok(seat),
            Err(_) => Err(Memory),
        }
    }

    fn bind<R: Wait>(
        &self,
        cache: &TraceCache,
        rt: &R,
        alloc: Global,
        clock: &Clock<Names>,
        pass: &mut Pass<Names>,
        seat: &mut SeatCache<RaisedEntry, Names>,
        key: u64,
        value: u64,
    ) -> Result<bool, Memory> {
        match cache.cache.bind(rt, alloc, clock, pass, seat, key, value) {
            Ok(_) => Ok(true),
            Err(refused) => turned(refused),
        }
    }

    fn unbind<R: Wait>(
        &self,
        cache: &TraceCache,
        rt: &R,
        alloc: Global,
        clock: &Clock<Names>,
        pass: &mut Pass<Names>,
        seat: &mut SeatCache<RaisedEntry, Names>,
        key: u64,
    ) -> Result<bool, Memory> {
        match cache.cache.unbind(rt, alloc, clock, pass, seat, key) {
            Ok(found) => Ok(found.is_some()),
            Err(_) => Err(Memory),
        }
    }

    fn find(
        &self,
        _cache: &TraceCache,
        clock: &Clock<Names>,
        pass: &mut Pass<Names>,
        key: u64,
    ) -> Option<u64> {
        find(clock, pass, key)
    }

    fn look(
        &self,
        cache: &TraceCache,
        clock: &Clock<Names>,
        pass: &mut Pass<Names>,
        key: u64,
    ) -> Result<Option<u64>, Overtaken> {
        cache.cache.look(clock, pass, key)
    }

    fn ledger(seat: &SeatCache<RaisedEntry, Names>) -> Option<SeatLedger> {
        Some(seat.ledger())
    }

    fn seat_sums(seat: &SeatCache<RaisedEntry, Names>) -> Sums {
        seat.sums()
    }

    fn census<R: Wait>(&self, cache: &TraceCache, rt: &R, alloc: Global) -> Result<Census, Memory> {
        match cache.cache.census(rt, alloc) {
            Ok(census) => Ok(census),
            Err(_) => Err(Memory),
        }
    }

    fn sums<R: Wait>(&self, cache: &TraceCache, rt: &R) -> Result<Sums, Memory> {
        match cache.cache.sums(rt) {
            Ok(sums) => Ok(sums),
            Err(_) => Err(Memory),
        }
    }
}
