//! The rounds of a trace, and the lines between two rounds.
ghost use Rattle.std.specs.Prelude.{◌≡◌, ◌<◌, All, OnOk, length, ◌≤◌};
ghost use Rattle.replay_rounds.specs.Asks.{EachAsks};
ghost use Rattle.replay_rounds.specs.Rounds.{AllReady, AllWorked, EachGaveUpAsBefore, HasEnded, AllMoved, IsMoved, AreAfter, GaveUpAsBefore, IsBegun, FitsTrace};
ghost use Rattle.replay_worker.specs.Asking.{AsksGate};
ghost use Rattle.replay_worker.specs.OwnLines.{own_ops, lines_before};
ghost use Rattle.replay_worker.specs.Turn.{HasWorked, IsReady};
ghost use Rattle.replay_rounds.specs.Betweens.{DoBetweens, DoesBetween, SetsLimitAt};
ghost use Rattle.replay_rounds.specs.Parts.{IsAmong, betweens_of as betweens_at};
ghost use Rattle.replay_worker.specs.Giving.{KeepsRest};
ghost use Rattle.replay_rounds.specs.RoundsPlayed.{IsPlayed, IsRoundPlayed};

use crate::setting::make_clock;
use replay_worker::{
    CountedZone, Gate, Memory, NameCalls, ReclaimCalls, Shared, WorkerRun, move_slot,
};
use smr_clock::{Bare, Clock, Host, Overtaken, Pass};
use std::alloc::Global;
use std::sync::Wait;
use std::thread::{self, Threads};
use trace_text::{Between, Trace};
use uma_bucket::Sums;
use uma_keg::Census;
use zone_stats::SeatLedger;

/// A round: each worker does its own list of it, on a thread of its own, and all threads are joined.
pub(crate) fn work_round<
    N: NameCalls + Sync,
    R: Threads + Wait + Sync,
    G: Gate + Sync,
    C: ReclaimCalls + Sync,
>(rt: &R, alloc: Global, shared: &Shared<'_, N, G, C>, round: usize, workers: &mut [WorkerRun<N>])
    requires some { 0 < length workers.old }
    requires ready { AllReady N.NameCalls shared.now.cache.now shared.now.trace.now shared.now.zones.now shared.now.clock.now round workers.old }
    ensures worked { AllWorked N.NameCalls shared.now.cache.now shared.now.trace.now shared.now.zones.now shared.now.clock.now round workers.old workers.new }
    ensures free { G.is_free shared.now.gate.now → EachGaveUpAsBefore workers.old workers.new }
    ensures asks { EachAsks G.Gate shared.now.gate.now shared.now.trace.now.rounds round workers.old workers.new }
{
    let threads = workers.len();
    thread::for_each_mut(
        rt,
        workers,
        threads,
        &|number, run: &mut WorkerRun<N>|
            requires { IsReady N.NameCalls shared.now.cache.now shared.now.trace.now shared.now.zones.now shared.now.clock.now round number run.old }
            ensures free { G.is_free shared.entry.now.gate.now → run.new.gave_up ≡ run.old.gave_up }
            ensures worked { OnOk run.new.ended (HasWorked N.NameCalls shared.entry.now.cache.now shared.entry.now.trace.now shared.entry.now.zones.now shared.entry.now.clock.now round number run.old run.new) }
            ensures asks { OnOk run.new.ended (AsksGate G.Gate shared.entry.now.gate.now number (length (own_ops shared.entry.now.trace.now.rounds round number)) run.old run.new) }
        { run.ended = run.turn(rt, alloc, shared, round, number) },
    );
}

/// Whether each worker's last turn ended without want of memory.
pub(crate) fn all_ended<N: NameCalls>(workers: &[WorkerRun<N>]) -> Result<(), Memory>
    ensures { OnOk result (All HasEnded workers.now) }
{
    for run in workers {
        run.ended?;
    }
    Ok(())
}

/// Does the lines between two rounds, in order. Waits where a `setmax` line does. After `Memory` the replay is over.
pub(crate) fn do_betweens<N: NameCalls, R: Wait>(
    rt: &R,
    alloc: Global,
    zones: &[CountedZone<N::H>],
    betweens: &[Between],
    workers: &mut [WorkerRun<N>],
) -> Result<(), Memory>
    requires { All (IsAmong (length workers.old) (length zones.now)) betweens.now }
    ensures rest { OnOk result (KeepsRest workers.old workers.new) }
    ensures moved { OnOk result (AllMoved betweens.now workers.old workers.new) }
    ensures does { OnOk result (DoBetweens zones.now betweens.now workers.old workers.new) }
{
    for between in betweens {
        do_between(rt, alloc, zones, *between, workers)?;
    }
    Ok(())
}

/// Does one line between two rounds. A `setmax` line leaves the workers as they are.
#[tactic(auto, using(crate::proofs::BetweenLines::limit_moved))]
fn do_between<N: NameCalls, R: Wait>(
    rt: &R,
    alloc: Global,
    zones: &[CountedZone<N::H>],
    between: Between,
    workers: &mut [WorkerRun<N>],
) -> Result<(), Memory>
    requires { IsAmong (length workers.old) (length zones.now) between }
    ensures rest { OnOk result (KeepsRest workers.old workers.new) }
    ensures moved { OnOk result (IsMoved between workers.old workers.new) }
    ensures does { OnOk result (DoesBetween zones.now between workers.old workers.new) }
{
    match between {
        Between::Give {
            giver,
            slot,
            taker,
            slot2,
        } => move_slot(alloc, workers, giver as usize, slot, taker as usize, slot2),
        Between::SetMax { zone, limit } => {
            set_limit(rt, zones, zone as usize, limit);
            Ok(())
        }
    }
}

/// A `setmax` line: gives the zone at this place another limit. Waits until it has the lock of the zone's keg.
fn set_limit<H: Host, R: Wait>(rt: &R, zones: &[CountedZone<H>], place: usize, limit: u64)
    requires place { place < length zones.now }
    requires limit { limit ≤ 1000000 }
    ensures { SetsLimitAt zones.now place limit }
{
    zones[place].set_max(rt, limit);
}

/// All rounds of a trace: in each round every worker does its own list on a thread of its own, and behind it the lines
/// between this round and the next are done in order: `give` lines, and `setmax` lines, each of which sets the limit of its
/// zone. Waits where these lines do. After `Memory` the replay is over.
pub fn play<N: NameCalls + Sync, R: Threads + Wait + Sync, G: Gate + Sync, C: ReclaimCalls + Sync>(
    rt: &R,
    alloc: Global,
    shared: &Shared<'_, N, G, C>,
    workers: &mut [WorkerRun<N>],
) -> Result<(), Memory>
    requires suits { FitsTrace N.NameCalls shared.now.cache.now shared.now.trace.now shared.now.zones.now shared.now.clock.now workers.old }
    requires begun { IsBegun N.NameCalls shared.now.cache.now shared.now.zones.now shared.now.clock.now workers.old }
    ensures played { OnOk result (IsPlayed N.NameCalls shared.now.cache.now G.Gate shared.now.gate.now shared.now.trace.now shared.now.zones.now shared.now.clock.now workers.old workers.new) }
    ensures count { length workers.new ≡ length workers.old }
    ensures free { G.is_free shared.now.gate.now → OnOk result (GaveUpAsBefore workers.old workers.new) }
{
    for round in 0..shared.trace.rounds.len() {
        play_round(rt, alloc, shared, round, workers)?;
    }
    Ok(())
}

/// One round, and the lines behind it.
fn play_round<
    N: NameCalls + Sync,
    R: Threads + Wait + Sync,
    G: Gate + Sync,
    C: ReclaimCalls + Sync,
>(
    rt: &R,
    alloc: Global,
    shared: &Shared<'_, N, G, C>,
    round: usize,
    workers: &mut [WorkerRun<N>],
) -> Result<(), Memory>
    requires suits { FitsTrace N.NameCalls shared.now.cache.now shared.now.trace.now shared.now.zones.now shared.now.clock.now workers.old }
    requires round { round < length shared.now.trace.now.rounds }
    requires after { AreAfter N.NameCalls shared.now.cache.now shared.now.zones.now shared.now.clock.now (lines_before shared.now.trace.now.rounds round) workers.old }
    ensures played { OnOk result (IsRoundPlayed N.NameCalls shared.now.cache.now G.Gate shared.now.gate.now shared.now.trace.now shared.now.zones.now shared.now.clock.now round workers.old workers.new) }
    ensures free { G.is_free shared.now.gate.now → OnOk result (GaveUpAsBefore workers.old workers.new) }
{
    work_round(rt, alloc, shared, round, workers);
    all_ended(workers)?;
    let between = betweens_of(shared.trace, round);
    do_betweens(rt, alloc, shared.zones, between, workers)
}

/// The lines between a round and the next.
fn betweens_of(trace: &Trace, round: usize) -> &[Between]
    requires { round < length trace.now.rounds }
    ensures { result.now ≡ betweens_at trace.now.rounds round }
{
    trace.rounds.as_slice()[round].between.as_slice()
}

/// Serves no names: for a trace without a `names` line. No key is ever bound in it.
#[derive(Drop)]
pub struct PlainNames;

/// Stands where a seat would, and counts nothing.
#[derive(Drop)]
pub struct NoSeat;

impl NameCalls for PlainNames {
    type H = Bare;

    // A handle of the clock stands where a cache would.
    type Cache = Clock<Bare>;

    type Seat = NoSeat;

    ghost use Rattle.std.specs.Prelude.{◌≡◌, refl, false, None, []};
    ghost use Rattle.smr_clock.specs.Belongs.{clock_id};
    ghost use Rattle.replay_rounds.specs.Plain.{no_sizes};

    ghost serves = { false };

    ghost clock_of = { λ clock. clock_id clock };

    ghost sizes_of = { λ cache. no_sizes };

    ghost IsSeat = { λ cache seat. Unit {0} };

    ghost domain_of = { λ seat. 0 };

    ghost counted = { λ seat. None };

    ghost usable = { λ seat. [] };

    // Nothing is ever fetched.
    ghost Came = { λ cache items. ⊥ };

    ghost IsFound = { λ cache refusal. ⊥ };

    ghost TurnsBack = { λ cache key v old v' new. ⊥ };

    ghost IsCensus = { λ cache census. ⊥ };

    ghost passed = { λ seat hook. 0 };

    ghost deferred = { λ seat. 0 };

    ghost plans = { λ head. (0, 0) };

    // Each row is as it began: it binds nothing.
    ghost knows = { λ v row version bound. (version ≡ 0) × (bound ≡ None) };

    // No row is ever loaded.
    ghost told = { λ v. [] };

    ghost counts_where_served = { λ seat. refl };

    fn set_up(
        &self,
        alloc: Global,
        trace: &Trace,
    ) -> Result<(Clock<Bare>, Clock<Bare>, Vec<Pass<Bare>>), Memory> {
        let (clock, passes) = make_clock(alloc, &trace.head)?;
        match clock.share(alloc) {
            Ok(handle) => Ok((handle, clock, passes)),
            Err(_) => Err(Memory),
        }
    }

    fn seat<R: Wait>(
        &self,
        _cache: &Clock<Bare>,
        _rt: &R,
        _alloc: Global,
        _domain: u8,
    ) -> Result<NoSeat, Memory> {
        Ok(NoSeat)
    }

    fn bind<R: Wait>(
        &self,
        _cache: &Clock<Bare>,
        _rt: &R,
        _alloc: Global,
        _clock: &Clock<Bare>,
        _pass: &mut Pass<Bare>,
        _seat: &mut NoSeat,
        _key: u64,
        _value: u64,
    ) -> Result<bool, Memory> {
        Ok(false)
    }

    fn unbind<R: Wait>(
        &self,
        _cache: &Clock<Bare>,
        _rt: &R,
        _alloc: Global,
        _clock: &Clock<Bare>,
        _pass: &mut Pass<Bare>,
        _seat: &mut NoSeat,
        _key: u64,
    ) -> Result<bool, Memory> {
        Ok(false)
    }

    fn find(
        &self,
        _cache: &Clock<Bare>,
        _clock: &Clock<Bare>,
        _pass: &mut Pass<Bare>,
        _key: u64,
    ) -> Option<u64> {
        None
    }

    fn look(
        &self,
        _cache: &Clock<Bare>,
        _clock: &Clock<Bare>,
        _pass: &mut Pass<Bare>,
        _key: u64,
    ) -> Result<Option<u64>, Overtaken> {
        Ok(None)
    }

    fn ledger(_seat: &NoSeat) -> Option<SeatLedger> {
        None
    }

    fn seat_sums(_seat: &NoSeat) -> Sums {
        Sums::none()
    }

    // There is no keg whose census it could be.
    fn census<R: Wait>(
        &self,
        _cache: &Clock<Bare>,
        _rt: &R,
        _alloc: Global,
    ) -> Result<Census, Memory> {
        Err(Memory)
    }

    fn sums<R: Wait>(&self, _cache: &Clock<Bare>, _rt: &R) -> Result<Sums, Memory> {
        Ok(Sums::none())
    }
}
