//! Which slots of the workers are filled, which workers are in a section and which are away, and what a line says against that.
ghost use Rattle.std.specs.Prelude.{◌≡◌, ◌≤◌, ◌<◌, ◌&&◌, ◌==◌, ℕ, length, vec_len, get_or, if◌then◌else◌, All, IfOk, OnOk, false};
ghost use Rattle.trace_text.specs.Limits.{last_slot, slots};
ghost use Rattle.trace_text.specs.TraceShown.{slot_at, is_marked};
ghost use Rattle.trace_text.specs.declared.trace_reading.fields.Entry.TheVariants.{Does, Moves};
ghost use Rattle.trace_text.specs.TraceTables.{AreEmpty, AreWhole, EntryFits, Marks, OpSlotFits, most_workers};
ghost use Rattle.trace_text.specs.Grammar.{needs_clock, needs_names, takes_name, lacks_zone, fills_keg, passes_most, finds_filled, finds_empty, finds_open, finds_closed, finds_away, finds_there, first_failed, worker_tests, conflict};

use crate::trace::{MOST_WORKERS, SLOTS};
use crate::trace_reading::fields::Entry;
use crate::trace_reading::head::Zones;
use crate::trace_reading::parsed_line::{ParsedLine, ZoneWork};
use crate::{Between, Op, TraceKind, ZoneKind};
use std::alloc::{AllocError, Global};

/// Whether a worker's slot is filled, in a table of all slots, one worker's behind the other's.
pub fn slot_at(table: &[bool], worker: u32, slot: u32) -> bool
    ensures { result ≡ slot_at table.now worker slot }
{
    match table.get(worker as usize * SLOTS + slot as usize) {
        Some(&filled) => filled,
        None => false,
    }
}

/// Has a table reach up to here, with empty slots at its end.
fn reach(table: &mut Vec<bool>, end: usize) -> Result<(), AllocError>
    ensures same { (i : ℕ) → get_or table.new.items i false ≡ get_or table.old.items i false }
    ensures reaches { OnOk result (end ≤ vec_len table.new) }
{
    while table.len() < end {
        table.push(false)?;
    }
    Ok(())
}

/// Has a worker's slot filled or empty, and leaves the others. The table grows up to this slot where it was shorter.
pub fn set_slot(
    table: &mut Vec<bool>,
    worker: u32,
    slot: u32,
    filled: bool,
) -> Result<(), AllocError>
    requires worker { worker < most_workers }
    requires slot { slot ≤ last_slot }
    ensures each { OnOk result ((v t : ℕ) → t ≤ last_slot
        → slot_at table.new.items v t ≡ (if (worker == v) && (slot == t) then filled else slot_at table.old.items v t)) }
{
    let place = worker as usize * SLOTS + slot as usize;
    reach(table, place + 1)?;
    table[place] = filled;
    Ok(())
}

/// Whether a table of workers marks this one.
pub fn is_marked(table: &[bool], worker: u32) -> bool
    ensures { result ≡ is_marked table.now worker }
{
    match table.get(worker as usize) {
        Some(&marked) => marked,
        None => false,
    }
}

/// Has a table mark a worker or not, and leaves the others.
pub fn set_mark(table: &mut [bool], worker: u32, marked: bool)
    requires { worker < length table.old }
    ensures each { (v : ℕ) → is_marked table.new v ≡ (if worker == v then marked else is_marked table.old v) }
    ensures length { length table.new ≡ length table.old }
{
    table[worker as usize] = marked;
}

/// Which slots are filled, which workers are in a section, and which are away.
#[derive(Drop)]
pub struct Tables {
    /// One worker's behind the other's, up to the last one that was ever filled.
    pub slots: Vec<bool>,
    pub sections: Vec<bool>,
    pub away: Vec<bool>,
}

/// So many times false.
fn all_false(alloc: Global, count: usize) -> Result<Vec<bool>, AllocError>
    ensures len { IfOk result (λ table. length table.items ≡ count) }
    ensures all { IfOk result (λ table. All (λ is. is ≡ false) table.items) }
{
    vec![in alloc; false; count]
}

impl Tables {
    /// All slots empty, no section open, and no worker away.
    pub fn new(alloc: Global) -> Result<Tables, AllocError>
        ensures whole { IfOk result AreWhole }
        ensures empty { IfOk result AreEmpty }
    {
        Ok(Tables {
            slots: Vec::new(alloc),
            sections: all_false(alloc, MOST_WORKERS)?,
            away: all_false(alloc, MOST_WORKERS)?,
        })
    }

    /// Does a line to them.
    #[inline(always)]
    pub fn mark(&mut self, entry: Entry) -> Result<(), AllocError>
        requires whole { AreWhole self.old }
        requires fits { EntryFits entry }
        ensures marks { OnOk result (Marks entry self.old self.new) }
        ensures whole { AreWhole self.new }
    {
        match entry {
            Entry::Does { worker, op } => self.mark_op(worker, op),
            Entry::Moves { between } => self.mark_between(between),
            Entry::Round => Ok(()),
        }
    }

    #[inline(always)]
    fn mark_op(&mut self, worker: u32, op: Op) -> Result<(), AllocError>
        requires whole { AreWhole self.old }
        requires worker { worker < most_workers }
        requires slot { OpSlotFits op }
        ensures marks { OnOk result (Marks (Does worker op) self.old self.new) }
        ensures whole { AreWhole self.new }
    {
        match op {
            Op::Alloc { slot, .. } => set_slot(&mut self.slots, worker, slot, true)?,
            Op::Free { slot } => set_slot(&mut self.slots, worker, slot, false)?,
            Op::Enter => set_mark(self.sections.as_mut_slice(), worker, true),
            Op::Exit => set_mark(self.sections.as_mut_slice(), worker, false),
            Op::Away => set_mark(self.away.as_mut_slice(), worker, true),
            Op::Back => set_mark(self.away.as_mut_slice(), worker, false),
            _ => {}
        }
        Ok(())
    }

    fn mark_between(&mut self, between: Between) -> Result<(), AllocError>
        requires whole { AreWhole self.old }
        requires fits { EntryFits (Moves between) }
        ensures marks { OnOk result (Marks (Moves between) self.old self.new) }
        ensures whole { AreWhole self.new }
    {
        match between {
            Between::Give {
                giver,
                slot,
                taker,
                slot2,
            } => {
                let filled = slot_at(self.slots.as_slice(), giver, slot);
                set_slot(&mut self.slots, giver, slot, false)?;
                set_slot(&mut self.slots, taker, slot2, filled)
            }
            Between::SetMax { .. } => Ok(()),
        }
    }
}

/// The most zones of a trace.
const MOST_ZONES: usize = 16;

/// The most secondary zones of a keg.
const MOST_SECONDS: usize = 7;

impl<'a> ParsedLine<'a> {
    #[inline(always)]
    fn needs_clock(&self) -> bool
        ensures { result ≡ needs_clock self.now }
    {
        match self {
            ParsedLine::Zone { zone } => zone.kind == ZoneKind::Smr,
            ParsedLine::Second { second } => second.kind == ZoneKind::Smr,
            ParsedLine::Names { .. } => true,
            ParsedLine::Work { op, .. } => {
                matches!(op, Op::Enter | Op::Exit | Op::Away | Op::Back)
            }
            _ => false,
        }
    }

    #[inline(always)]
    fn needs_names(&self) -> bool
        ensures { result ≡ needs_names self.now }
    {
        match self {
            ParsedLine::Work { op, .. } => {
                matches!(op, Op::Bind { .. } | Op::Unbind { .. } | Op::Look { .. })
            }
            _ => false,
        }
    }

    #[inline(always)]
    fn takes_name(&self, zones: &Zones) -> bool
        ensures { result ≡ takes_name zones.now self.now }
    {
        match self {
            ParsedLine::Zone { zone } => zones.named(&zone.name).is_some(),
            ParsedLine::Second { second } => zones.named(&second.name).is_some(),
            ParsedLine::Names { names } => zones.named(&names.name).is_some(),
            _ => false,
        }
    }

    #[inline(always)]
    fn lacks_zone(&self, zones: &Zones) -> bool
        ensures { result ≡ lacks_zone zones.now self.now }
    {
        match self {
            ParsedLine::Second { second } => !zones.primary_named(&second.of).is_some(),
            ParsedLine::InZone { zone, .. } | ParsedLine::SetMax { zone, .. } => {
                !zones.place_of(zone.as_bytes()).is_some()
            }
            _ => false,
        }
    }

    #[inline(always)]
    fn passes_most(&self, zones: &Zones) -> bool
        ensures { result ≡ passes_most zones.now self.now }
    {
        match self {
            ParsedLine::Zone { .. } | ParsedLine::Names { .. } => MOST_ZONES <= zones.len(),
            ParsedLine::Second { second } => {
                let primary = zones.primary_named(&second.of);
                MOST_ZONES <= zones.len() || fills_keg(zones, primary)
            }
            _ => false,
        }
    }

    #[inline(always)]
    fn finds_filled(&self, slots: &[bool]) -> bool
        ensures { result ≡ finds_filled (slot_at slots.now) self.now }
    {
        match self {
            ParsedLine::InZone { worker, work, .. } => match work {
                ZoneWork::Alloc { slot, .. } => slot_at(slots, *worker, *slot),
                _ => false,
            },
            ParsedLine::Give {
                giver,
                slot,
                taker,
                slot2,
            } => (giver == taker && slot == slot2) || slot_at(slots, *taker, *slot2),
            _ => false,
        }
    }

    #[inline(always)]
    fn finds_empty(&self, slots: &[bool]) -> bool
        ensures { result ≡ finds_empty (slot_at slots.now) self.now }
    {
        match self {
            ParsedLine::Work { worker, op } => match op {
                Op::Free { slot } => !slot_at(slots, *worker, *slot),
                _ => false,
            },
            ParsedLine::Give { giver, slot, .. } => !slot_at(slots, *giver, *slot),
            _ => false,
        }
    }

    #[inline(always)]
    fn finds_open(&self, sections: &[bool]) -> bool
        ensures { result ≡ finds_open (is_marked sections.now) self.now }
    {
        match self {
            ParsedLine::Work { worker, op } => {
                matches!(op, Op::Enter | Op::Away) && is_marked(sections, *worker)
            }
            _ => false,
        }
    }

    #[inline(always)]
    fn finds_closed(&self, sections: &[bool]) -> bool
        ensures { result ≡ finds_closed (is_marked sections.now) self.now }
    {
        match self {
            ParsedLine::Work { worker, op } => matches!(op, Op::Exit)
                && !is_marked(sections, *worker),
            _ => false,
        }
    }

    #[inline(always)]
    fn finds_away(&self, away: &[bool]) -> bool
        ensures { result ≡ finds_away (is_marked away.now) self.now }
    {
        match self {
            ParsedLine::Work { worker, op } => !matches!(op, Op::Back) && is_marked(away, *worker),
            ParsedLine::InZone { worker, .. } => is_marked(away, *worker),
            _ => false,
        }
    }

    #[inline(always)]
    fn finds_there(&self, away: &[bool]) -> bool
        ensures { result ≡ finds_there (is_marked away.now) self.now }
    {
        match self {
            ParsedLine::Work { worker, op } => matches!(op, Op::Back) && !is_marked(away, *worker),
            _ => false,
        }
    }

    /// What is wrong with a line that says this, where there are these zones, slots and sections, and workers that are
    /// away.
    #[inline(always)]
    pub fn conflict(
        &self,
        has_clock: bool,
        has_names: bool,
        zones: &Zones,
        tables: &Tables,
    ) -> Option<TraceKind>
        ensures { result ≡ conflict has_clock has_names zones.now (slot_at tables.now.slots.items) (is_marked tables.now.sections.items) (is_marked tables.now.away.items) self.now }
    {
        if self.needs_clock() && !has_clock {
            return Some(TraceKind::NoClock);
        }
        if self.needs_names() && !has_names {
            return Some(TraceKind::NoNames);
        }
        if self.takes_name(zones) {
            return Some(TraceKind::DoubleName);
        }
        if self.lacks_zone(zones) {
            return Some(TraceKind::NoZone);
        }
        if self.passes_most(zones) {
            return Some(TraceKind::Zones);
        }
        self.worker_conflict(tables)
    }

    /// What is wrong with what a line says of a worker, where there are these slots and sections, and workers that are
    /// away.
    #[inline(always)]
    fn worker_conflict(&self, tables: &Tables) -> Option<TraceKind>
        ensures { result ≡ first_failed (worker_tests (slot_at tables.now.slots.items) (is_marked tables.now.sections.items) (is_marked tables.now.away.items) self.now) }
    {
        let slots = tables.slots.as_slice();
        let sections = tables.sections.as_slice();
        let away = tables.away.as_slice();
        if self.finds_filled(slots) {
            return Some(TraceKind::SlotBusy);
        }
        if self.finds_empty(slots) {
            return Some(TraceKind::SlotEmpty);
        }
        if self.finds_open(sections) {
            return Some(TraceKind::SectionOpen);
        }
        if self.finds_closed(sections) {
            return Some(TraceKind::SectionClosed);
        }
        if self.finds_away(away) {
            return Some(TraceKind::Absent);
        }
        if self.finds_there(away) {
            return Some(TraceKind::Present);
        }
        None
    }
}

/// Whether the keg of the primary zone at this place has all the zones that it may have.
fn fills_keg(zones: &Zones, primary: Option<u32>) -> bool
    ensures { result ≡ fills_keg zones.now primary }
{
    match primary {
        Some(primary) => MOST_SECONDS <= zones.sharer_count(primary),
        None => false,
    }
}
