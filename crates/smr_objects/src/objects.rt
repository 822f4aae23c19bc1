ghost use Rattle.std.specs.Prelude.{◌≡◌, ◌+◌, ◌*◌, ◌<◌};
ghost use Rattle.smr_clock.specs.Belongs.{setup_of};
ghost use Rattle.smr_objects.specs.Belongs.{HasCell, HasSlot};
ghost use Rattle.smr_objects.specs.Cells.{cell_place, value_place, hold_place};
ghost use Rattle.smr_clock.specs.Making.{setup};

use crate::cell::{CellView, Looked, Record};
use smr_clock::{Clock, Host};
use std::collections::LinkedList;

/// What a seat of a clock of objects has beside its clock part. No value of it is made.
pub struct Part {
    /// The cells that it owns: a cell's seat has one, the first seat those that aren't split off yet.
    pub cells: LinkedList<CellView>,
    /// The records that it knows, the last loaded first.
    pub known: LinkedList<Record>,
    /// Of a pass: its looks, the last first.
    pub looks: LinkedList<Looked>,
    /// Of a pass: the cells in which it found no record, the last first.
    pub blanks: LinkedList<u64>,
    /// Of a pass: the records whose slots it holds.
    pub holds: LinkedList<Record>,
    /// Of a cell's seat: the place of the hold word whose slot is stamped next.
    pub picked: u64,
}

/// The host of a clock of objects. Its words are 48 a cell: the cell's word, at 16 the value words of its slots, and at
/// 32 their hold words. Its plan is the counts of cells and of slots.
#[derive(Clone, Copy, Debug)]
pub struct Objects;

impl Host for Objects {
    type Part = Part;

    ghost use Rattle.std.specs.Prelude.{refl};
    ghost use Rattle.smr_objects.specs.Cells.{first_part, blank_part, may_note, told, learned};
    ghost use Rattle.smr_objects.specs.ObjectsLaw.{Objected};
    ghost use Rattle.smr_objects.specs.Laws.{objects_include, objects_frame, objects_split, objects_join};

    ghost holds = { λ setup words views. Objected setup words views };

    ghost first = { first_part };

    ghost blank = { blank_part };

    ghost may_note = { may_note };

    ghost copied = { told };

    ghost merged = { learned };

    ghost may_copy = { λ _. refl };

    ghost includes = { objects_include };

    ghost frame = { objects_frame };

    ghost split = { objects_split };

    ghost join = { objects_join };
}

/// How many words a cell has: its own has a line for itself, and so do the values and the holds of up to sixteen slots.
pub(crate) const WORDS: u32 = 48;

pub(crate) fn cell_place(clock: &Clock<Objects>, cell: u32) -> u32
    requires { HasCell clock.now cell }
    ensures { result ≡ cell_place (setup_of clock.now) cell }
{
    clock.host_place() + WORDS * cell
}

pub(crate) fn value_place(clock: &Clock<Objects>, cell: u32, slot: u32) -> u32
    requires { HasSlot clock.now cell slot }
    ensures { result ≡ value_place (setup_of clock.now) cell slot }
{
    cell_place(clock, cell) + 16 + slot
}

pub(crate) fn hold_place(clock: &Clock<Objects>, cell: u32, slot: u32) -> u32
    requires { HasSlot clock.now cell slot }
    ensures { result ≡ hold_place (setup_of clock.now) cell slot }
{
    cell_place(clock, cell) + 32 + slot
}
