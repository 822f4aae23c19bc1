//! Which slots of a worker are filled, and the rounds of the lines that are drawn.
ghost use Rattle.std.specs.Prelude.{◌≡◌, ◌<◌, length, not, position, slice_index_or, IfSome, ◌++◌, [], ◌∷◌, IfOk, OnOk, List, map, option_to_list};
ghost use Rattle.trace_gen.specs.Generator.{filled_slots, least_filled, least_free, entries_of};
ghost use Rattle.std.specs.List.{flat_map};
ghost use Rattle.trace_text.specs.Grammar.{op_by, ops_in};
ghost use Rattle.trace_text.specs.declared.trace_reading.fields.Entry.{Entry};
ghost use Rattle.trace_gen.specs.Rounds.{StandAlone, did_entry, rounds_with};

use crate::generator::{Did, Drawn};
use listed::Listed;
use std::alloc::{AllocError, Global};
use trace_text::{Between, Betweens, Op, OpList, OpLists, Round, Rounds};

/// How many slots of a worker are used. They are numbered from 0.
pub const SLOTS: usize = 256;

/// Of each slot, whether it is filled.
pub type Slots = [bool; SLOTS];

/// The least slot that isn't filled.
pub fn least_free(slots: &Slots) -> Option<u32>
    ensures least { result ≡ least_free slots.now }
    ensures within { IfSome result (λ slot. slot < 256) }
{
    let slot = first_false(slots)?;
    Some(slot as u32)
}

/// The least slot that is filled.
pub fn least_filled(slots: &Slots) -> Option<u32>
    ensures least { result ≡ least_filled slots.now }
    ensures within { IfSome result (λ slot. slot < 256) }
{
    let slot = first_true(slots)?;
    Some(slot as u32)
}

/// The first place of false.
fn first_false(marks: &[bool]) -> Option<usize>
    ensures first { result ≡ position not marks.now }
    ensures within { IfSome result (λ place. place < length marks.now) }
{
    marks.iter().position(|mark| !*mark)
}

/// The first place of true.
fn first_true(marks: &[bool]) -> Option<usize>
    ensures first { result ≡ position (λ mark. mark) marks.now }
    ensures within { IfSome result (λ place. place < length marks.now) }
{
    marks.iter().position(|mark| *mark)
}

/// How many slots are filled.
#[tactic(auto, using(crate::proofs::FilledSlots::left_full, crate::proofs::FilledSlots::left_empty))]
pub fn filled_count(slots: &Slots) -> u64
    ensures { result ≡ length (filled_slots slots.now) }
{
    let mut count = 0;
    for slot in 0..SLOTS {
        if slots[slot] {
            count += 1;
        }
    }
    count
}

/// The filled slot of this number, from 0 in rising order.
#[tactic(auto, using(crate::proofs::FilledSlots::left_full, crate::proofs::FilledSlots::left_empty))]
pub fn filled_slot(slots: &Slots, number: u64) -> u32
    requires { number < length (filled_slots slots.now) }
    ensures slot { result ≡ slice_index_or (filled_slots slots.now) number 0 }
    ensures within { result < 256 }
{
    let mut left = number;
    for slot in 0..SLOTS {
        if slots[slot] {
            if left == 0 {
                return slot as u32;
            }
            left -= 1;
        }
    }
    0
}

/// The rounds that are ended, and what was done since, in order.
#[derive(Drop)]
pub struct RoundsMade {
    pub ended: Vec<Round>,
    pub part: Vec<Did>,
}

impl RoundsMade {
    /// Before the first line.
    pub fn new(alloc: Global) -> RoundsMade
        ensures ended { result.ended.items ≡ [] }
        ensures part { result.part.items ≡ [] }
    {
        RoundsMade {
            ended: Vec::new(alloc),
            part: Vec::new(alloc),
        }
    }

    /// Takes in what one step drew.
    #[tactic(auto, using(crate::proofs::RoundLines::with_did, crate::proofs::RoundLines::with_round))]
    pub fn push(&mut self, alloc: Global, workers: u32, drawn: Drawn) -> Result<(), AllocError>
        ensures { OnOk result ((rest : List Entry) → StandAlone rest
            → rounds_with workers self.new.ended.items self.new.part.items rest
            ≡ rounds_with workers self.old.ended.items self.old.part.items (entries_of drawn ++ rest)) }
    {
        match drawn {
            Drawn::Does { worker, op } => self.part.push(Did { worker, op })?,
            Drawn::Round { give } => self.end(alloc, workers, give)?,
        }
        Ok(())
    }

    /// Ends the round.
    fn end(&mut self, alloc: Global, workers: u32, give: Option<Between>) -> Result<(), AllocError>
        ensures ended { OnOk result (self.new.ended.items ≡ self.old.ended.items
            ++ record { ops = ops_in workers (map did_entry self.old.part.items); between = option_to_list give } ∷ []) }
        ensures part { OnOk result (self.new.part.items ≡ []) }
    {
        let ops = ops_of_all(alloc, workers, self.part.as_slice())?;
        let between = gives_of(alloc, give)?;
        self.ended.push(Round { ops, between })?;
        self.part = Vec::new(alloc);
        Ok(())
    }

    #[tactic(auto, using(crate::proofs::RoundLines::with_last))]
    /// All rounds: the last one ends without a `round` line.
    pub fn finish(mut self, alloc: Global, workers: u32) -> Result<Rounds, AllocError>
        ensures { IfOk result (λ rounds. rounds ≡ rounds_with workers self.ended.items self.part.items []) }
    {
        self.end(alloc, workers, None)?;
        Ok(Listed::from_vec(self.ended))
    }
}

/// What is given, as a list.
fn gives_of(alloc: Global, give: Option<Between>) -> Result<Betweens, AllocError>
    ensures { IfOk result (λ gives. gives ≡ option_to_list give) }
{
    let mut gives = Vec::new(alloc);
    if let Some(between) = give {
        gives.push(between)?;
    }
    Ok(Listed::from_vec(gives))
}

/// What each of so many workers does in a part.
#[tactic(auto, using(crate::proofs::RoundLines::ops_in_more))]
fn ops_of_all(alloc: Global, workers: u32, part: &[Did]) -> Result<OpLists, AllocError>
    ensures { IfOk result (λ ops. ops ≡ ops_in workers (map did_entry part.now)) }
{
    let mut ops = Vec::new(alloc);
    for worker in 0..workers {
        ops.push(ops_of(alloc, worker, part)?)?;
    }
    Ok(Listed::from_vec(ops))
}

/// What a worker does in a part.
fn ops_of(alloc: Global, worker: u32, part: &[Did]) -> Result<OpList, AllocError>
    ensures { IfOk result (λ ops. ops ≡ flat_map (op_by worker) (map did_entry part.now)) }
{
    let mut ops = Vec::new(alloc);
    for did in part {
        if did.worker == worker {
            ops.push(did.op)?;
        }
    }
    Ok(Listed::from_vec(ops))
}
