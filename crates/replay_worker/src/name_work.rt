ghost use Rattle.std.specs.Prelude.{◌≡◌, ◌⊎◌, OnOk};
ghost use Rattle.replay_worker.specs.NameWork.{no_counts, CountsAnswer, CountsBind, CountsFew, CountsUnbind};
ghost use Rattle.smr_core.specs.declared.holder.Phase.{Phase};
ghost use Rattle.replay_worker.specs.NameLines.{Acts, BindsLine, CanAct, CanGoOn, CanLook, CanLookOutside, CanName, FindsLine, LookEnds, LooksLine, StaysFit, StaysNamed, UnbindsLine, line_state_there};
ghost use Rattle.replay_worker.specs.Worker.{phase_of};

use crate::Memory;
use crate::name_calls::NameCalls;
use crate::worker::{CountedZone, Shared, Worker};
use crate::worker_run::ReclaimCalls;
use smr_clock::Clock;
use smr_core::Phase;
use std::alloc::Global;
use std::sync::Wait;
use trace_text::Op;

/// What the lines of names of a worker came to, as the report counts it.
#[derive(Clone, Copy, Debug, PartialEq, Eq)]
pub struct NameCounts {
    /// Looks that found a value.
    pub hits: u64,
    /// Looks that found none.
    pub misses: u64,
    /// Looks whose enter came too late.
    pub late: u64,
    pub binds: u64,
    /// Unbinds that found the key.
    pub unbound: u64,
    /// Binds that were refused.
    pub refused: u64,
}

/// What a worker has of the names beside its pass: a seat of their zone, and the counts of its lines.
#[derive(Drop)]
pub struct NameWork<N: NameCalls> {
    pub seat: N::Seat,
    pub counts: NameCounts,
}

impl<N: NameCalls> NameWork<N> {
    /// Nothing is counted yet.
    pub fn new(seat: N::Seat) -> NameWork<N>
        ensures seat { result.seat ≡ seat }
        ensures counts { result.counts ≡ no_counts }
    {
        let counts = NameCounts {
            hits: 0,
            misses: 0,
            late: 0,
            binds: 0,
            unbound: 0,
            refused: 0,
        };
        NameWork { seat, counts }
    }

    /// Does a line of a worker that is there and stays, by its kind. Waits where the zones' calls do, and those of the names.
    ///
    /// After the Err, which is want of memory, the replay is over.
    pub(crate) fn act<R: Wait, G, C: ReclaimCalls>(
        &mut self,
        worker: &mut Worker<N::H>,
        rt: &R,
        alloc: Global,
        shared: &Shared<'_, N, G, C>,
        op: Op,
    ) -> Result<(), Memory>
        requires can { CanAct N.NameCalls shared.now.zones.now worker.old op }
        requires able { CanGoOn N.NameCalls shared.now.cache.now shared.now.zones.now shared.now.clock.now worker.old self.old }
        ensures stays { OnOk result (StaysFit N.NameCalls shared.now.cache.now shared.now.zones.now shared.now.clock.now worker.new self.new) }
        ensures acts { OnOk result (Acts N.NameCalls shared.now.cache.now shared.now.zones.now (line_state_there worker.old self.old) op (line_state_there worker.new self.new)) }
    {
        let Shared {
            zones,
            clock,
            names,
            cache,
            reclaim,
            ..
        } = *shared;
        match op {
            Op::Bind { key, value } => {
                self.bind(worker, rt, alloc, shared, key, value)?;
                Ok(())
            }
            Op::Unbind { key } => {
                self.unbind(worker, rt, alloc, shared, key)?;
                Ok(())
            }
            Op::Look { key } => {
                self.look(worker, names, cache, clock, key);
                Ok(())
            }
            _ => {
                worker.perform(rt, alloc, zones, clock, reclaim, op)?;
                Ok(())
            }
        }
    }

    /// A `bind` line, by the worker's seat of the names. It counts a bind, or a refused one. Waits as the call does.
    ///
    /// After `Memory` the replay is over.
    pub(crate) fn bind<R: Wait, G, C>(
        &mut self,
        worker: &mut Worker<N::H>,
        rt: &R,
        alloc: Global,
        shared: &Shared<'_, N, G, C>,
        key: u64,
        value: u64,
    ) -> Result<(), Memory>
        requires { CanName N.NameCalls shared.now.cache.now shared.now.clock.now worker.old self.old }
        ensures stays { StaysNamed N.NameCalls shared.now.cache.now shared.now.clock.now worker.new self.new }
        ensures binds { OnOk result (BindsLine N.NameCalls shared.now.cache.now (line_state_there worker.old self.old) key value (line_state_there worker.new self.new)) }
    {
        let Shared {
            names,
            cache,
            clock,
            ..
        } = *shared;
        let pass = &mut worker.pass;
        let done = names.bind(cache, rt, alloc, clock, pass, &mut self.seat, key, value)?;
        self.counts = counted_bind(self.counts, done);
        Ok(())
    }

    /// An `unbind` line, which counts one where it took the key out. Waits as the call does.
    ///
    /// After `Memory` the replay is over.
    pub(crate) fn unbind<R: Wait, G, C>(
        &mut self,
        worker: &mut Worker<N::H>,
        rt: &R,
        alloc: Global,
        shared: &Shared<'_, N, G, C>,
        key: u64,
    ) -> Result<(), Memory>
        requires { CanName N.NameCalls shared.now.cache.now shared.now.clock.now worker.old self.old }
        ensures stays { StaysNamed N.NameCalls shared.now.cache.now shared.now.clock.now worker.new self.new }
        ensures unbinds { OnOk result (UnbindsLine N.NameCalls shared.now.cache.now (line_state_there worker.old self.old) key (line_state_there worker.new self.new)) }
    {
        let Shared {
            names,
            cache,
            clock,
            ..
        } = *shared;
        let pass = &mut worker.pass;
        let done = names.unbind(cache, rt, alloc, clock, pass, &mut self.seat, key)?;
        self.counts = counted_unbind(self.counts, done);
        Ok(())
    }

    /// A `look` line. In a section the key is looked up there; elsewhere, so also after a late enter, in a section of its
    /// own, which is counted as entered, or as late where it was overtaken. A value is a hit, none a miss, and a late look
    /// neither.
    pub(crate) fn look(
        &mut self,
        worker: &mut Worker<N::H>,
        names: &N,
        cache: &N::Cache,
        clock: &Clock<N::H>,
        key: u64,
    )
        requires { CanLook N.NameCalls cache.now clock.now worker.old self.old }
        ensures stays { StaysNamed N.NameCalls cache.now clock.now worker.new self.new }
        ensures looks { LooksLine N.NameCalls cache.now (line_state_there worker.old self.old) key (line_state_there worker.new self.new) }
    {
        if worker.pass.phase() == Phase::Inside {
            self.find_inside(worker, names, cache, clock, key);
        } else {
            self.look_outside(worker, names, cache, clock, key);
        }
    }

    // A look in the section that is open.
    fn find_inside(
        &mut self,
        worker: &mut Worker<N::H>,
        names: &N,
        cache: &N::Cache,
        clock: &Clock<N::H>,
        key: u64,
    )
        requires can { CanName N.NameCalls cache.now clock.now worker.old self.old }
        requires inside { phase_of worker.old ≡ Phase.Inside }
        ensures stays { StaysNamed N.NameCalls cache.now clock.now worker.new self.new }
        ensures finds { FindsLine N.NameCalls cache.now (line_state_there worker.old self.old) key (line_state_there worker.new self.new) }
    {
        let found = names.find(cache, clock, &mut worker.pass, key);
        self.counts = counted_answer(self.counts, found);
    }

    // A look in a section of its own.
    fn look_outside(
        &mut self,
        worker: &mut Worker<N::H>,
        names: &N,
        cache: &N::Cache,
        clock: &Clock<N::H>,
        key: u64,
    )
        requires { CanLookOutside N.NameCalls cache.now clock.now worker.old self.old }
        ensures stays { StaysNamed N.NameCalls cache.now clock.now worker.new self.new }
        ensures looks { LookEnds N.NameCalls cache.now (line_state_there worker.old self.old) key (line_state_there worker.new self.new) }
    {
        match names.look(cache, clock, &mut worker.pass, key) {
            Ok(found) => {
                worker.entered += 1;
                self.counts = counted_answer(self.counts, found);
            }
            Err(_) => {
                worker.late += 1;
                self.counts.late += 1;
            }
        }
    }
}

/// One bind more, or one refused.
fn counted_bind(mut counts: NameCounts, done: bool) -> NameCounts
    requires { CountsFew counts }
    ensures { CountsBind done counts result }
{
    if done {
        counts.binds += 1;
    } else {
        counts.refused += 1;
    }
    counts
}

/// One unbound more, where the key was taken out.
fn counted_unbind(mut counts: NameCounts, done: bool) -> NameCounts
    requires { CountsFew counts }
    ensures { CountsUnbind done counts result }
{
    if done {
        counts.unbound += 1;
    }
    counts
}

/// One hit or one miss more.
fn counted_answer(mut counts: NameCounts, found: Option<u64>) -> NameCounts
    requires { CountsFew counts }
    ensures { CountsAnswer found counts result }
{
    match found {
        Some(_) => counts.hits += 1,
        None => counts.misses += 1,
    }
    counts
}
