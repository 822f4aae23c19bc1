//! The lines below the header, put into rounds as they come.
ghost use Rattle.std.specs.Prelude.{◌≡◌, ◌≤◌, ℕ, [], OnOk, OnErr, vec_len, ◌∷◌, ◌++◌, IfOk};
ghost use Rattle.trace_text.specs.declared.trace_reading.fields.Entry.TheVariants.{Does, Moves, Round as RoundLine};
ghost use Rattle.trace_text.specs.Parts.{StaysSame, TakesLine, list_at, lists_for, rounds_by};
ghost use Rattle.std.specs.List.{slice_split};
ghost use Rattle.trace_text.specs.Grammar.{is_round, rounds_in};

use crate::trace_reading::fields::Entry;
use crate::{Between, Op, OpList, OpLists, Round, Rounds};
use listed::{Listed, Log};
use std::alloc::{AllocError, Global};
use std::marker::Model;
use std::mem::replace;
use std::snapshot::Snapshot;

/// What the lines of one part of a trace said so far. The `round` lines cut the lines into parts.
#[derive(Drop)]
pub struct PartSoFar {
    /// What the workers do, in order of workers. Those behind the last list do nothing.
    pub ops: Vec<Vec<Op>>,
    /// What stands between the round before this one and this one.
    pub between: Vec<Between>,
}

/// Appends lists of nothing until there are so many.
pub fn fill_up(alloc: Global, lists: &mut Vec<Vec<Op>>, count: usize) -> Result<(), AllocError>
    ensures kept { (worker : ℕ) → list_at lists.new.items worker ≡ list_at lists.old.items worker }
    ensures filled { OnOk result (vec_len lists.old ≤ count → vec_len lists.new ≡ count) }
{
    while lists.len() < count {
        lists.push(Vec::new(alloc))?;
    }
    Ok(())
}

impl PartSoFar {
    /// Of no lines. Takes no memory.
    pub fn new(alloc: Global) -> PartSoFar
        ensures ops { result.ops.items ≡ [] }
        ensures between { result.between.items ≡ [] }
    {
        PartSoFar {
            ops: Vec::new(alloc),
            between: Vec::new(alloc),
        }
    }

    /// Appends an operation of this worker.
    #[inline(always)]
    pub fn push_op(&mut self, alloc: Global, worker: u32, op: Op) -> Result<(), AllocError>
        ensures taken { OnOk result (TakesLine (Does worker op) self.old self.new) }
        ensures same { OnErr result (StaysSame self.old self.new) }
    {
        match self.ops.get_mut(worker as usize) {
            Some(list) => Ok(list.push(op)?),
            None => self.push_first_op(alloc, worker, op),
        }
    }

    /// The same, where this worker has no list yet.
    #[cold]
    fn push_first_op(&mut self, alloc: Global, worker: u32, op: Op) -> Result<(), AllocError>
        requires { vec_len self.old.ops ≤ worker }
        ensures taken { OnOk result (TakesLine (Does worker op) self.old self.new) }
        ensures same { OnErr result (StaysSame self.old self.new) }
    {
        fill_up(alloc, &mut self.ops, worker as usize)?;
        let mut list = Vec::new(alloc);
        list.push(op)?;
        self.ops.push(list)?;
        Ok(())
    }

    /// Appends a line between two rounds.
    pub fn push_between(&mut self, between: Between) -> Result<(), AllocError>
        ensures taken { OnOk result (TakesLine (Moves between) self.old self.new) }
        ensures same { OnErr result (StaysSame self.old self.new) }
    {
        self.between.push(between)?;
        Ok(())
    }
}

/// The lines below the header of a trace that is being read, each put where its round has it. Contracts see the list of them.
#[derive(Drop)]
pub struct RoundsSoFar {
    alloc: Global,
    /// All lines, which contracts alone see.
    lines: Log<Snapshot<Entry>>,
    /// The parts that a `round` line ended.
    ended: Vec<PartSoFar>,
    /// The part that is being read.
    part: PartSoFar,
}

impl Model for RoundsSoFar {
    ghost use Rattle.std.specs.Prelude.{List, [], ◌∷◌, ◌++◌, map};
    ghost use Rattle.std.specs.List.{slice_split};
    ghost use Rattle.trace_text.specs.declared.trace_reading.fields.Entry.{Entry as Line};
    ghost use Rattle.trace_text.specs.Grammar.{is_round};
    ghost use Rattle.trace_text.specs.Parts.{ArePartsOf, shown};

    ghost Value = { List Line };

    ghost view = { λ so_far. map shown so_far.lines };

    ghost invariant = { λ so_far. ArePartsOf (slice_split is_round (map shown so_far.lines)) (so_far.ended.items ++ so_far.part ∷ []) };
}

/// Ends the part: what comes is of another one.
fn end_part(
    alloc: Global,
    ended: &mut Vec<PartSoFar>,
    part: &mut PartSoFar,
) -> Result<(), AllocError>
    ensures ended { OnOk result (ended.new.items ≡ ended.old.items ++ part.old ∷ []) }
    ensures ops { OnOk result (part.new.ops.items ≡ []) }
    ensures between { OnOk result (part.new.between.items ≡ []) }
    ensures same_ended { OnErr result (ended.new.items ≡ ended.old.items) }
    ensures same_part { OnErr result (part.new ≡ part.old) }
{
    match ended.push(replace(part, PartSoFar::new(alloc))) {
        Ok(()) => Ok(()),
        Err(failed) => {
            *part = failed.value;
            Err(AllocError)
        }
    }
}

impl RoundsSoFar {
    /// Of no lines. Takes no memory.
    pub fn new(alloc: Global) -> RoundsSoFar
        ensures { result ≡ [] }
    {
        RoundsSoFar {
            alloc,
            lines: Log::new(),
            ended: Vec::new(alloc),
            part: PartSoFar::new(alloc),
        }
    }

    /// Appends a line.
    #[inline(always)]
    pub fn push(&mut self, entry: Entry) -> Result<(), AllocError>
        ensures { OnOk result (self.new ≡ self.old ++ entry ∷ []) }
    {
        match entry {
            Entry::Does { worker, op } => self.push_op(worker, op),
            Entry::Moves { between } => self.push_between(between),
            Entry::Round => self.push_round(),
        }
    }

    #[inline(always)]
    fn push_op(&mut self, worker: u32, op: Op) -> Result<(), AllocError>
        ensures { OnOk result (self.new ≡ self.old ++ Does worker op ∷ []) }
    {
        self.part.push_op(self.alloc, worker, op)?;
        self.lines.push(Snapshot::of(&Entry::Does { worker, op }));
        Ok(())
    }

    fn push_between(&mut self, between: Between) -> Result<(), AllocError>
        ensures { OnOk result (self.new ≡ self.old ++ Moves between ∷ []) }
    {
        self.part.push_between(between)?;
        self.lines.push(Snapshot::of(&Entry::Moves { between }));
        Ok(())
    }

    fn push_round(&mut self) -> Result<(), AllocError>
        ensures { OnOk result (self.new ≡ self.old ++ RoundLine ∷ []) }
    {
        end_part(self.alloc, &mut self.ended, &mut self.part)?;
        self.lines.push(Snapshot::of(&Entry::Round));
        Ok(())
    }

    /// The rounds of these lines, with so many workers.
    pub fn into_rounds(self, alloc: Global, workers: u32) -> Result<Rounds, AllocError>
        ensures { IfOk result (λ rounds. rounds ≡ rounds_in workers (slice_split is_round self)) }
    {
        let mut parts = self.ended;
        parts.push(self.part)?;
        rounds_of_parts(alloc, workers, parts)
    }
}

/// The lists of so many workers. One that has no list does nothing.
fn lists_for(alloc: Global, workers: u32, mut lists: Vec<Vec<Op>>) -> Result<OpLists, AllocError>
    ensures { IfOk result (λ ops. ops ≡ lists_for workers lists.items) }
{
    lists.truncate(workers as usize);
    fill_up(alloc, &mut lists, workers as usize)?;
    let ops: Vec<OpList> = lists.into_iter().map(Listed::from_vec).collect(alloc)?;
    Ok(Listed::from_vec(ops))
}

/// The rounds of these parts, with so many workers. What stands at the front of a part is of the round before it.
pub fn rounds_of_parts(
    alloc: Global,
    workers: u32,
    parts: Vec<PartSoFar>,
) -> Result<Rounds, AllocError>
    ensures { IfOk result (λ rounds. rounds ≡ rounds_by workers parts.items) }
{
    let mut rounds = Vec::with_capacity(alloc, parts.len())?;
    let mut parts = parts.into_iter();
    let Some(first) = parts.next() else {
        return Ok(Listed::from_vec(rounds));
    };
    let mut lists = first.ops;
    for part in parts {
        rounds.push(Round {
            ops: lists_for(alloc, workers, lists)?,
            between: Listed::from_vec(part.between),
        })?;
        lists = part.ops;
    }
    rounds.push(Round {
        ops: lists_for(alloc, workers, lists)?,
        between: Listed::from_vec(Vec::new(alloc)),
    })?;
    Ok(Listed::from_vec(rounds))
}
