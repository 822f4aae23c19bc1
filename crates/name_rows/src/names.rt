ghost use Rattle.std.specs.Prelude.{◌≡◌, ◌*◌};
ghost use Rattle.smr_clock.specs.Belongs.{setup_of};
ghost use Rattle.name_rows.specs.Belongs.{IsNamesClock, HasRow, HasEntry};
ghost use Rattle.name_rows.specs.Records.{row_place, key_place, value_place};
ghost use Rattle.smr_clock.specs.Making.{setup};

use crate::entry::Owned;
use smr_clock::{Clock, Host};
use std::collections::LinkedList;

/// What a seat of the names' clock has beside its clock part. No value of it is made.
pub struct Part {
    /// The rows that it owns: a row's seat has one, the root those that aren't split off yet.
    pub rows: LinkedList<RowView>,
    /// The entries that it owns: an entry's seat has one, a row's up to two, the root many.
    pub owned: LinkedList<Owned>,
    /// The records that it knows, the last loaded first.
    pub known: LinkedList<Record>,
    /// Of a pass: the record that it has loaded last inside a section.
    pub hold: Option<Hold>,
    /// Of the root: the number that is split off next.
    pub next: Option<u64>,
}

// What seats know of rows. No value of these types is made.

/// An entry, and the key and the value in its words.
pub struct Bound {
    pub entry: u64,
    pub key: u64,
    pub value: u64,
}

/// What a row's word says from one store to the next.
pub struct Record {
    pub row: u64,
    /// Below 2^44.
    pub version: u64,
    pub content: Option<Bound>,
    /// Of an unbinding: the key and the value that it took out.
    pub took: Option<(u64, u64)>,
}

/// A row, as the seat that owns it knows it: its records, newest first. A row without records stands for
/// its opening one, which its word spells.
pub struct RowView {
    pub number: u64,
    pub records: LinkedList<Record>,
}

/// The record that a pass has loaded last inside a section, and the entry mark of that section.
pub struct Hold {
    pub loaded: Record,
    pub mark: u64,
}

/// The host of a clock of names. Its words are one a row, and then two an entry, the key's and the value's. Its plan is
/// the counts of rows and of entries.
#[derive(Clone, Copy, Debug)]
pub struct Names;

impl Host for Names {
    type Part = Part;

    ghost use Rattle.std.specs.Prelude.{refl};
    ghost use Rattle.name_rows.specs.Records.{first_part, blank_part, may_note, told, learned};
    ghost use Rattle.name_rows.specs.NamesLaw.{Named};
    ghost use Rattle.name_rows.specs.Laws.{names_include, names_frame, names_split, names_join};

    ghost holds = { λ setup words views. Named setup words views };

    ghost first = { first_part };

    ghost blank = { blank_part };

    ghost may_note = { may_note };

    ghost copied = { told };

    ghost merged = { learned };

    ghost may_copy = { λ _. refl };

    ghost includes = { names_include };

    ghost frame = { names_frame };

    ghost split = { names_split };

    ghost join = { names_join };
}

// The place of the first word behind the clock's own.
fn first_place(clock: &Clock<Names>) -> u32
    requires names { IsNamesClock clock.now }
    ensures { result ≡ row_place (setup_of clock.now) 0 }
{
    clock.host_place()
}

pub(crate) fn row_place(clock: &Clock<Names>, row: u32) -> u32
    requires { HasRow clock.now row }
    ensures { result ≡ row_place (setup_of clock.now) row }
{
    first_place(clock) + row
}

pub(crate) fn key_place(clock: &Clock<Names>, entry: u32) -> u32
    requires { HasEntry clock.now entry }
    ensures { result ≡ key_place (setup_of clock.now) entry }
{
    first_place(clock) + clock.plan().0 + 2 * entry
}

pub(crate) fn value_place(clock: &Clock<Names>, entry: u32) -> u32
    requires { HasEntry clock.now entry }
    ensures { result ≡ value_place (setup_of clock.now) entry }
{
    key_place(clock, entry) + 1
}
