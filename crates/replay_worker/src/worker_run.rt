ghost use Rattle.std.specs.Prelude.{OnOk, ◌≡◌, ◌<◌, ◌≤◌, Some, length, IfSome, slice_get};
ghost use Rattle.smr_clock.specs.Belongs.{view};
ghost use Rattle.uma_zone.specs.Calling.{CanCall};
ghost use Rattle.replay_worker.specs.Calling.{StaysOf};
ghost use Rattle.replay_worker.specs.Reclaims.{HasDrained, HasDrainedSeat, HasTrimmed, KeepsSeat};
ghost use Rattle.replay_worker.specs.Asking.{Answers, IsAskedLast};
ghost use Rattle.replay_worker.specs.OwnLines.{own_ops as ops_at};
ghost use Rattle.replay_worker.specs.Turn.{most_asks};

use crate::Memory;
use crate::count_hooks::{CountHooks, Counted};
use crate::gate::{Attendance, Gate, Go};
use crate::name_calls::NameCalls;
use crate::name_work::NameWork;
use crate::worker::{CountedZone, Shared, Worker};
use crossbeam_utils::CachePadded;
use smr_clock::{Clock, Host, Pass};
use std::alloc::Global;
use std::sync::Wait;
use trace_text::{Op, Trace};
use uma_seat::SeatCache;
use uma_zone::Zone;

/// The calls behind the lines `trim`, `drain` and `drainseat`, so that a replay doesn't stand on the crate that reclaims.
///
/// None of them counts in the seat's ledger, and none changes the phase of the pass. Each waits for the locks of the zone.
/// After `Memory` the replay is over.
pub trait ReclaimCalls {
    /// Flushes the seat, and gives back what the domains of the zone didn't use since their last trim.
    fn trim<H: Host, R: Wait>(
        &self,
        rt: &R,
        alloc: Global,
        zone: &Zone<Counted, CountHooks, H>,
        clock: &Clock<H>,
        pass: &mut Pass<H>,
        seat: &mut SeatCache<Counted, H>,
    ) -> Result<(), Memory>
        requires { CanCall zone.now clock.now pass.old seat.old }
        ensures stays { StaysOf zone.now clock.now pass.old pass.new seat.new }
        ensures keeps { KeepsSeat seat.old seat.new }
        ensures trimmed { OnOk result (HasTrimmed zone.now (view pass.old) seat.old seat.new) };

    /// Flushes the seat, gives back all that may be given back of what the domains list, and has the keg give up its wholly
    /// free slabs.
    fn drain<H: Host, R: Wait>(
        &self,
        rt: &R,
        alloc: Global,
        zone: &Zone<Counted, CountHooks, H>,
        clock: &Clock<H>,
        pass: &mut Pass<H>,
        seat: &mut SeatCache<Counted, H>,
    ) -> Result<(), Memory>
        requires { CanCall zone.now clock.now pass.old seat.old }
        ensures stays { StaysOf zone.now clock.now pass.old pass.new seat.new }
        ensures keeps { KeepsSeat seat.old seat.new }
        ensures drained { OnOk result (HasDrained zone.now (view pass.old) seat.old seat.new) };

    /// Drains, and gives back the usable and the cross items of the seat besides. Its deferred items stay.
    fn drain_seat<H: Host, R: Wait>(
        &self,
        rt: &R,
        alloc: Global,
        zone: &Zone<Counted, CountHooks, H>,
        clock: &Clock<H>,
        pass: &mut Pass<H>,
        seat: &mut SeatCache<Counted, H>,
    ) -> Result<(), Memory>
        requires { CanCall zone.now clock.now pass.old seat.old }
        ensures stays { StaysOf zone.now clock.now pass.old pass.new seat.new }
        ensures keeps { KeepsSeat seat.old seat.new }
        ensures drained { OnOk result (HasDrainedSeat zone.now (view pass.old) seat.old seat.new) };
}

impl<H: Host> Worker<H> {
    ghost use Rattle.replay_worker.specs.Worker.{FitsZones, CanReclaim};
    ghost use Rattle.replay_worker.specs.Performs.{Reclaims};

    /// A `trim` line, through the worker's seat of the zone. Waits as the call does.
    ///
    /// After `Memory` the replay is over.
    pub fn trim<R: Wait, C: ReclaimCalls>(
        &mut self,
        rt: &R,
        alloc: Global,
        zones: &[CountedZone<H>],
        clock: &Clock<H>,
        reclaim: &C,
        zone: u32,
    ) -> Result<(), Memory>
        requires { CanReclaim zones.now clock.now self.old zone }
        ensures fits { OnOk result (FitsZones zones.now clock.now self.new) }
        ensures reclaims { OnOk result (Reclaims zones.now HasTrimmed self.old zone self.new) }
    {
        let place = zone as usize;
        let seat = &mut self.seats[place];
        reclaim.trim(rt, alloc, &zones[place], clock, &mut self.pass, seat)
    }

    /// A `drain` line, through the worker's seat of the zone. Waits as the call does.
    ///
    /// After `Memory` the replay is over.
    pub fn drain<R: Wait, C: ReclaimCalls>(
        &mut self,
        rt: &R,
        alloc: Global,
        zones: &[CountedZone<H>],
        clock: &Clock<H>,
        reclaim: &C,
        zone: u32,
    ) -> Result<(), Memory>
        requires { CanReclaim zones.now clock.now self.old zone }
        ensures fits { OnOk result (FitsZones zones.now clock.now self.new) }
        ensures reclaims { OnOk result (Reclaims zones.now HasDrained self.old zone self.new) }
    {
        let place = zone as usize;
        let seat = &mut self.seats[place];
        reclaim.drain(rt, alloc, &zones[place], clock, &mut self.pass, seat)
    }

    /// A `drainseat` line: the worker's seat of the zone gives its usable and cross items back besides. Waits as the call
    /// does.
    ///
    /// After `Memory` the replay is over.
    pub fn drain_seat<R: Wait, C: ReclaimCalls>(
        &mut self,
        rt: &R,
        alloc: Global,
        zones: &[CountedZone<H>],
        clock: &Clock<H>,
        reclaim: &C,
        zone: u32,
    ) -> Result<(), Memory>
        requires { CanReclaim zones.now clock.now self.old zone }
        ensures fits { OnOk result (FitsZones zones.now clock.now self.new) }
        ensures reclaims { OnOk result (Reclaims zones.now HasDrainedSeat self.old zone self.new) }
    {
        let place = zone as usize;
        let seat = &mut self.seats[place];
        reclaim.drain_seat(rt, alloc, &zones[place], clock, &mut self.pass, seat)
    }
}

/// How often a gate that holds is asked before one operation.
const MOST_ASKS: u64 = 100_000_000;

/// A worker between its turns, with what the report counts of its gate, and how its last turn ended.
#[derive(Drop)]
pub struct WorkerRun<N: NameCalls> {
    pub attendance: Attendance<N::H>,
    pub name_work: NameWork<N>,
    /// How often the gate was asked.
    pub asked: u64,
    /// Operations that were done though the gate held to the last.
    pub gave_up: u64,
    /// Want of memory in the last turn.
    pub ended: Result<(), Memory>,
    /// Unused bytes. The workers of a replay lie side by side in a list, and each writes to its own place in it at every
    /// operation: without these bytes two of them would write to one cache line.
    apart: CachePadded<()>,
}

/// An operation that the gate was asked for last, by the calls of a visit, and that isn't yet told as done.
#[derive(Drop)]
struct LastAsked<'a, G: Gate> {
    visit: &'a G::Visit,
    worker: u32,
    number: u64,
    ghost asked: { ∥ IsAskedLast worker number (G.heard visit.now) ∥₁ },
}

impl<N: NameCalls> WorkerRun<N> {
    ghost use Rattle.replay_worker.specs.Turn.{HasWorked, IsReady};
    ghost use Rattle.replay_worker.specs.NameLines.{line_state, StaysFit, KeepsGate, DoesLine, CanTurn, CanGoOn};
    ghost use Rattle.replay_worker.specs.Making.{IsIdle};
    ghost use Rattle.replay_worker.specs.Attendance.{worker_in};
    ghost use Rattle.replay_worker.specs.Asking.{heard_by, Waits, KeepsWork, CountsWait, CanWait, AsksGate};

    /// A worker before its first turn.
    pub fn new(worker: Worker<N::H>, seat: N::Seat) -> WorkerRun<N>
        ensures { IsIdle worker seat result }
    {
        WorkerRun {
            attendance: Attendance::There(worker),
            name_work: NameWork::new(seat),
            asked: 0,
            gave_up: 0,
            ended: Ok(()),
            apart: CachePadded::new(()),
        }
    }

    /// The turn of worker `number` in a round: it does its own list of operations, and asks the gate before each of them.
    /// A gate that holds is asked again, at most 100,000,000 times; then the worker goes on, and counts that it gave up.
    /// After the Err, which is want of memory, the replay is over. Waits where the worker's lines do.
    pub fn turn<R: Wait, G: Gate, C: ReclaimCalls>(
        &mut self,
        rt: &R,
        alloc: Global,
        shared: &Shared<'_, N, G, C>,
        round: usize,
        number: usize,
    ) -> Result<(), Memory>
        requires ready { IsReady N.NameCalls shared.now.cache.now shared.now.trace.now shared.now.zones.now shared.now.clock.now round number self.old }
        ensures worked { OnOk result (HasWorked N.NameCalls shared.now.cache.now shared.now.trace.now shared.now.zones.now shared.now.clock.now round number self.old self.new) }
        ensures free { G.is_free shared.now.gate.now → self.new.gave_up ≡ self.old.gave_up }
        ensures asks { OnOk result (AsksGate G.Gate shared.now.gate.now number (length (ops_at shared.now.trace.now.rounds round number)) self.old self.new) }
    {
        let ops = own_list(shared.trace, round, number);
        let worker = number as u32;
        let mut visit = shared.gate.open();
        for place in 0..ops.len() {
            let op = place as u64 + 1;
            self.await_gate(shared.gate, &mut visit, worker, op);
            let go: LastAsked<'_, G> = LastAsked {
                visit: &visit,
                worker,
                number: op,
            };
            self.perform(rt, alloc, shared, go, ops[place])?;
            shared.gate.done(&mut visit, worker, op);
        }
        Ok(())
    }

    /// Does one line of the worker, by its kind: the operation which the gate was asked for last. Waits where the zones' calls do, and those of the names.
    ///
    /// After the Err, which is want of memory, the replay is over.
    fn perform<R: Wait, G: Gate, C: ReclaimCalls>(
        &mut self,
        rt: &R,
        alloc: Global,
        shared: &Shared<'_, N, G, C>,
        _go: LastAsked<'_, G>,
        op: Op,
    ) -> Result<(), Memory>
        requires turn { CanTurn N.NameCalls shared.now.zones.now self.old op }
        requires able { CanGoOn N.NameCalls shared.now.cache.now shared.now.zones.now shared.now.clock.now (worker_in self.old) self.old.name_work }
        ensures stays { OnOk result (StaysFit N.NameCalls shared.now.cache.now shared.now.zones.now shared.now.clock.now (worker_in self.new) self.new.name_work) }
        ensures does { OnOk result (DoesLine N.NameCalls shared.now.cache.now shared.now.zones.now (line_state self.old) op (line_state self.new)) }
        ensures gate { KeepsGate self.old self.new }
    {
        match op {
            Op::Away => {
                self.attendance.leave(shared.clock);
                Ok(())
            }
            Op::Back => {
                self.attendance.come(shared.clock);
                Ok(())
            }
            _ => {
                let Attendance::There(worker) = &mut self.attendance else {
                    unreachable!()
                };
                let name_work = &mut self.name_work;
                name_work.act(worker, rt, alloc, shared, op)?;
                Ok(())
            }
        }
    }

    /// Asks the gate before an operation, and counts it.
    fn await_gate<G: Gate>(&mut self, gate: &G, visit: &mut G::Visit, worker: u32, op: u64)
        requires of_gate { G.is_of gate.now visit.old }
        requires room { CanWait self.old }
        ensures of_gate { G.is_of gate.now visit.new }
        ensures waits { Waits worker op (heard_by (G.heard visit.old) self.old) (heard_by (G.heard visit.new) self.new) }
        ensures asked { IsAskedLast worker op (G.heard visit.new) }
        ensures keeps { KeepsWork self.old self.new }
        ensures counts { CountsWait self.old self.new }
        ensures free { G.is_free gate.now → self.new.gave_up ≡ self.old.gave_up }
    {
        match ask(gate, visit, worker, op) {
            Some(times) => self.asked += times,
            None => {
                self.asked += MOST_ASKS;
                self.gave_up += 1;
            }
        }
    }
}

/// Asks the gate until it lets the operation go, and answers how often. None where it held each of 100,000,000 times.
fn ask<G: Gate>(gate: &G, visit: &mut G::Visit, worker: u32, op: u64) -> Option<u64>
    requires { G.is_of gate.now visit.old }
    ensures of_gate { G.is_of gate.now visit.new }
    ensures heard { Answers worker op (G.heard visit.old) result (G.heard visit.new) }
    ensures times { IfSome result (λ times. (1 ≤ times) × (times ≤ most_asks)) }
    ensures free { G.is_free gate.now → result ≡ Some 1 }
{
    for asked in 0..MOST_ASKS {
        match gate.at(visit, worker, op) {
            Go::Go => return Some(asked + 1),
            Go::Hold => (),
        }
    }
    None
}

/// What a worker does in a round.
fn own_list(trace: &Trace, round: usize, number: usize) -> &[Op]
    requires round { round < length trace.now.rounds }
    requires worker { IfSome (slice_get trace.now.rounds round) (λ r. number < length r.ops) }
    ensures { result.now ≡ ops_at trace.now.rounds round number }
{
    trace.rounds.as_slice()[round].ops.as_slice()[number].as_slice()
}
