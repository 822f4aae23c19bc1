ghost use Rattle.std.specs.Prelude.{◌≡◌, [], ◌∷◌, ◌++◌, true, false, OnOk};
ghost use Rattle.replay_worker.specs.declared.gate.Call.TheVariants.{Asked, Done};
ghost use Rattle.replay_worker.specs.declared.gate.Go.TheVariants as answers;
ghost use Rattle.smr_clock.specs.Belongs.{IsPassOf};
ghost use Rattle.replay_worker.specs.declared.gate.Attendance.TheVariants.{Away as gone};
ghost use Rattle.replay_worker.specs.Attendance.{worker_at, Attends, MayLeave, with_slots_at};
ghost use Rattle.replay_worker.specs.Performs.{IsOutside, StaysWhole};
ghost use Rattle.replay_worker.specs.Slots.{emptied, filled, slot_at};

use crate::Memory;
use crate::slots::Slots;
use crate::worker::{CountedSeat, Held, Worker, fill};
use core::mem::replace_with;
use listed::Log;
use smr_clock::{Clock, Host, Vacancy};
use std::alloc::Global;

/// Whether a worker may go on.
#[derive(Clone, Copy, Debug, PartialEq, Eq)]
pub enum Go {
    Go,
    Hold,
}

/// A call of a gate.
#[derive(Clone, Copy, Debug, PartialEq, Eq)]
pub enum Call {
    Asked { worker: u32, op: u64, answer: Go },
    Done { worker: u32, op: u64 },
}

/// The calls of a gate in one turn, which contracts alone see: it takes no more memory the more they are.
pub type Calls = Log<Call>;

/// What a worker asks before each of its operations, so that a test can bring about a schedule. Operations are
/// numbered from 1 in each worker's own list of a round.
///
/// A worker comes to its gate in each turn by a visit of its own, to which the gate alone adds its calls. So a contract
/// that says what a visit heard says what was asked, and how often, by the gate's own count.
pub trait Gate {
    type Visit: Send + Drop;

    ghost use Rattle.std.specs.Prelude.{List};
    ghost use Rattle.replay_worker.specs.declared.gate.Call.{Call};

    // The gate always answers `Go`.
    ghost is_free: { Self → Type 0 };

    // The visit is one of this gate.
    ghost is_of: { Self → Self.Visit → Type 0 };

    // The calls of this visit, the newest at the end.
    ghost heard: { Self.Visit → List Call };

    /// A visit without a call.
    fn open(&self) -> Self::Visit
        ensures of_gate { is_of self.now result }
        ensures nothing { heard result ≡ [] };

    fn at(&self, visit: &mut Self::Visit, worker: u32, op: u64) -> Go
        requires of_gate { is_of self.now visit.old }
        ensures of_gate { is_of self.now visit.new }
        ensures heard { heard visit.new ≡ heard visit.old ++ Asked worker op result ∷ [] }
        ensures free { is_free self.now → result ≡ answers.Go };

    /// Tells that the operation is done.
    fn done(&self, visit: &mut Self::Visit, worker: u32, op: u64)
        requires of_gate { is_of self.now visit.old }
        ensures of_gate { is_of self.now visit.new }
        ensures heard { heard visit.new ≡ heard visit.old ++ Done worker op ∷ [] };
}

/// The gate that holds nobody.
#[derive(Clone, Copy, Debug, PartialEq, Eq)]
pub struct FreeGate;

impl Gate for FreeGate {
    type Visit = Calls;

    ghost is_free = { λ _. Unit {0} };

    ghost is_of = { λ _ _. Unit {0} };

    ghost heard = { λ calls. calls };

    fn open(&self) -> Calls {
        Log::new()
    }

    fn at(&self, calls: &mut Calls, worker: u32, op: u64) -> Go {
        calls.push(Call::Asked {
            worker,
            op,
            answer: Go::Go,
        });
        Go::Go
    }

    fn done(&self, calls: &mut Calls, worker: u32, op: u64) {
        calls.push(Call::Done { worker, op });
    }
}

/// A worker that is away: its vacancy in place of its pass, and all else that it has.
#[derive(Drop)]
pub struct Absentee<H: Host> {
    pub vacancy: Vacancy<H>,
    pub seats: Vec<CountedSeat<H>>,
    pub slots: Slots,
    /// Enters that came in time.
    pub entered: u64,
    /// Enters that came too late.
    pub late: u64,
}

impl<H: Host> Worker<H> {
    /// An `away` line: the pass leaves. Nothing is counted.
    pub fn leave(self, clock: &Clock<H>) -> Absentee<H>
        requires { IsOutside clock.now self }
        ensures { StaysWhole clock.now self (worker_at (gone result)) }
    {
        let Worker {
            pass,
            seats,
            slots,
            entered,
            late,
        } = self;
        let vacancy = clock.leave(pass);
        Absentee {
            vacancy,
            seats,
            slots,
            entered,
            late,
        }
    }
}

impl<H: Host> Absentee<H> {
    /// A `back` line: the vacancy comes as the worker's pass. Nothing is counted.
    pub fn come(self, clock: &Clock<H>) -> Worker<H>
        requires pass { IsPassOf clock.now (worker_at (gone self)).pass }
        ensures { StaysWhole clock.now (worker_at (gone self)) result }
    {
        let Absentee {
            vacancy,
            seats,
            slots,
            entered,
            late,
        } = self;
        let pass = clock.come(vacancy);
        Worker {
            pass,
            seats,
            slots,
            entered,
            late,
        }
    }
}

/// A worker that is there with its pass, or away with a vacancy in its pass's place. Contracts see the worker as which it
/// is there or comes back.
#[derive(Drop)]
pub enum Attendance<H: Host> {
    There(Worker<H>),
    Away(Absentee<H>),
}

impl<H: Host> Attendance<H> {
    /// The worker, which comes back first where it is away.
    pub fn into_worker(self, clock: &Clock<H>) -> Worker<H>
        requires pass { IsPassOf clock.now (worker_at self).pass }
        ensures { StaysWhole clock.now (worker_at self) result }
    {
        match self {
            Attendance::There(worker) => worker,
            Attendance::Away(absentee) => absentee.come(clock),
        }
    }

    /// The worker that is there leaves.
    pub(crate) fn leave(&mut self, clock: &Clock<H>)
        requires { MayLeave clock.now self.old }
        ensures { Attends clock.now true self.old self.new }
    {
        replace_with(self, clock, left)
    }

    /// The worker comes back, and is there.
    pub(crate) fn come(&mut self, clock: &Clock<H>)
        requires { IsPassOf clock.now (worker_at self.old).pass }
        ensures { Attends clock.now false self.old self.new }
    {
        replace_with(self, clock, back)
    }

    /// What a slot of the worker holds, which is empty then.
    pub(crate) fn take(&mut self, slot: u32) -> Option<Held>
        ensures taken { result ≡ slot_at (worker_at self.old).slots slot }
        ensures left { self.new ≡ with_slots_at self.old (emptied (worker_at self.old).slots slot) }
    {
        match self {
            Attendance::There(worker) => worker.slots.take(slot),
            Attendance::Away(absentee) => absentee.slots.take(slot),
        }
    }

    /// Puts what is held, if there is something, into a slot of the worker.
    pub(crate) fn put(&mut self, alloc: Global, slot: u32, held: Option<Held>) -> Result<(), Memory>
        ensures { OnOk result (self.new ≡ with_slots_at self.old (filled (worker_at self.old).slots slot held)) }
    {
        match self {
            Attendance::There(worker) => fill(alloc, &mut worker.slots, slot, held),
            Attendance::Away(absentee) => fill(alloc, &mut absentee.slots, slot, held),
        }
    }
}

/// The worker that was there, away.
fn left<H: Host>(attendance: Attendance<H>, clock: &Clock<H>) -> (Attendance<H>, ())
    requires { MayLeave clock.now attendance }
    ensures { Attends clock.now true attendance result.0 }
{
    match attendance {
        Attendance::There(worker) => (Attendance::Away(worker.leave(clock)), ()),
        Attendance::Away(_) => unreachable!(),
    }
}

/// The worker, back.
fn back<H: Host>(attendance: Attendance<H>, clock: &Clock<H>) -> (Attendance<H>, ())
    requires { IsPassOf clock.now (worker_at attendance).pass }
    ensures { Attends clock.now false attendance result.0 }
{
    (Attendance::There(attendance.into_worker(clock)), ())
}
