//! The steps of the generator, and what each draws.
ghost use Rattle.std.specs.Prelude.{◌≡◌, ◌<◌, ◌≤◌, ℕ, length, IfOk, slice_index_or, slice_set};
ghost use Rattle.trace_gen.specs.Generator.{alloc_drawn, begun, bind_drawn, draw, free_drawn, give_drawn, look_drawn, op_drawn, round_step, seeded, slots_given, step, unbind_drawn, work_step};
ghost use Rattle.trace_gen.specs.Rounds.{MayBeDrawn};

use crate::rounds::{SLOTS, Slots, filled_count, filled_slot, least_filled, least_free};
use rand_core::SeedableRng;
use rand_core::utils::NextWord;
use rand_xoshiro::Xoshiro256PlusPlus;
use std::alloc::{AllocError, Global};
use std::marker::Model;
use trace_text::{Between, Op};

/// What a worker does.
#[derive(Clone, Copy)]
pub struct Did {
    pub worker: u32,
    pub op: Op,
}

/// What one step draws: an operation, or the end of a round with what is given behind it.
#[derive(Clone, Copy)]
pub enum Drawn {
    Does { worker: u32, op: Op },
    Round { give: Option<Between> },
}

/// How many names are drawn from.
const KEYS: u64 = 256;

/// How many values are drawn from.
const VALUES: u64 = 4_294_967_296;

/// How many choices a step has.
const CHOICES: u64 = 64;

/// The zones `alpha`, `beta` and `gamma`.
const ZONES: u64 = 3;

/// The most binds of a trace.
const MOST_BINDS: u32 = 3000;

/// The choice of a `round` line.
const ROUND: u64 = 50;

/// A number below `n`, from the next word.
fn draw(random: &mut Xoshiro256PlusPlus, n: u64) -> u64
    requires { 0 < n }
    ensures drawn { (result, random.new) ≡ draw n random.old }
    ensures below { result < n }
{
    random.next_word() % n
}

/// A look at a name.
fn draw_look(random: &mut Xoshiro256PlusPlus) -> Op
    ensures { (result, random.new) ≡ look_drawn random.old }
{
    let key = draw(random, KEYS);
    Op::Look { key }
}

/// A name is taken out.
fn draw_unbind(random: &mut Xoshiro256PlusPlus) -> Op
    ensures { (result, random.new) ≡ unbind_drawn random.old }
{
    let key = draw(random, KEYS);
    Op::Unbind { key }
}

/// A name is bound, where fewer than the most binds were made.
fn draw_bind(random: &mut Xoshiro256PlusPlus, binds: u32) -> Op
    ensures drawn { (result, random.new) ≡ bind_drawn binds random.old }
    ensures may { MayBeDrawn binds result }
{
    if binds >= MOST_BINDS {
        return draw_look(random);
    }
    let key = draw(random, KEYS);
    let value = draw(random, VALUES);
    Op::Bind { key, value }
}

/// A filled slot is freed, where there is one.
fn draw_free(random: &mut Xoshiro256PlusPlus, slots: &Slots) -> Op
    ensures drawn { (result, random.new) ≡ free_drawn slots.now random.old }
    ensures may { (binds : ℕ) → MayBeDrawn binds result }
{
    let count = filled_count(slots);
    if count == 0 {
        return draw_look(random);
    }
    let number = draw(random, count);
    Op::Free {
        slot: filled_slot(slots, number),
    }
}

/// A request into the least free slot, where there is one.
fn draw_alloc(random: &mut Xoshiro256PlusPlus, slots: &Slots) -> Op
    ensures drawn { (result, random.new) ≡ alloc_drawn slots.now random.old }
    ensures may { (binds : ℕ) → MayBeDrawn binds result }
{
    let Some(slot) = least_free(slots) else {
        return draw_free(random, slots);
    };
    let zone = draw(random, ZONES) as u32;
    Op::Alloc {
        zone,
        slot,
        arg: 0,
        reserve: false,
    }
}

/// What a worker does by a choice.
fn draw_op(random: &mut Xoshiro256PlusPlus, slots: &Slots, binds: u32, choice: u64) -> Op
    ensures drawn { (result, random.new) ≡ op_drawn slots.now binds choice random.old }
    ensures may { MayBeDrawn binds result }
{
    match choice {
        0..24 => draw_alloc(random, slots),
        24..44 => draw_free(random, slots),
        44..48 => draw_bind(random, binds),
        48..50 => draw_unbind(random),
        _ => draw_look(random),
    }
}

/// The generator between two steps.
#[derive(Drop)]
pub struct Generator {
    slots: Vec<Slots>,
    binds: u32,
    random: Xoshiro256PlusPlus,
}

impl Model for Generator {
    ghost use Rattle.trace_gen.specs.Generator.{State};

    ghost Value = { State };

    ghost view = { λ g. record { slots = g.slots.items; binds = g.binds; random = g.random } };
}

impl Generator {
    /// Before the first step.
    pub fn new(alloc: Global, seed: u64, workers: u32) -> Result<Generator, AllocError>
        ensures { IfOk result (λ generator. generator ≡ begun seed workers) }
    {
        let mut slots = Vec::new(alloc);
        for worker in 0..workers {
            slots.push([false; SLOTS])?;
        }
        Ok(Generator {
            slots,
            binds: 0,
            random: seeded(seed),
        })
    }

    /// What the next step draws.
    pub fn step(&mut self, workers: u32) -> Drawn
        requires workers { 0 < workers }
        requires whole { length self.old.slots ≡ workers }
        requires binds { self.old.binds ≤ 3000 }
        ensures stepped { (result, self.new) ≡ step workers self.old }
        ensures whole { length self.new.slots ≡ workers }
        ensures binds { self.new.binds ≤ 3000 }
    {
        let worker = draw(&mut self.random, workers.into());
        let choice = draw(&mut self.random, CHOICES);
        if choice == ROUND {
            self.step_round(workers)
        } else {
            self.step_work(worker as u32, choice)
        }
    }

    /// What a worker does by a choice.
    fn step_work(&mut self, worker: u32, choice: u64) -> Drawn
        requires worker { worker < length self.old.slots }
        requires binds { self.old.binds ≤ 3000 }
        ensures stepped { (result, self.new) ≡ work_step worker choice self.old }
        ensures whole { length self.new.slots ≡ length self.old.slots }
        ensures binds { self.new.binds ≤ 3000 }
    {
        let slots = &mut self.slots[worker as usize];
        let op = draw_op(&mut self.random, slots, self.binds, choice);
        match op {
            Op::Alloc { slot, .. } => slots[slot as usize] = true,
            Op::Free { slot } => slots[slot as usize] = false,
            Op::Bind { .. } => self.binds += 1,
            _ => {}
        }
        Drawn::Does { worker, op }
    }

    /// The end of a round, and what is given behind it.
    fn step_round(&mut self, workers: u32) -> Drawn
        requires whole { length self.old.slots ≡ workers }
        ensures stepped { (result, self.new) ≡ round_step workers self.old }
        ensures whole { length self.new.slots ≡ workers }
        ensures binds { self.new.binds ≡ self.old.binds }
    {
        Drawn::Round {
            give: self.give(workers),
        }
    }

    /// Gives worker 0's least filled slot to worker 1's least free one, where there are these.
    fn give(&mut self, workers: u32) -> Option<Between>
        requires whole { length self.old.slots ≡ workers }
        ensures given { result ≡ give_drawn workers self.old.slots }
        ensures slots { self.new.slots ≡ slots_given result self.old.slots }
        ensures binds { self.new.binds ≡ self.old.binds }
        ensures random { self.new.random ≡ self.old.random }
    {
        if workers < 2 {
            return None;
        }
        let slot = least_filled(&self.slots[0])?;
        let slot2 = least_free(&self.slots[1])?;
        self.slots[0][slot as usize] = false;
        self.slots[1][slot2 as usize] = true;
        Some(Between::Give {
            giver: 0,
            slot,
            taker: 1,
            slot2,
        })
    }
}

/// The random numbers that a seed gives.
fn seeded(seed: u64) -> Xoshiro256PlusPlus
    ensures { result ≡ seeded seed }
{
    Xoshiro256PlusPlus::seed_from_u64(seed)
}
