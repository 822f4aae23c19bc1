ghost use Rattle.std.specs.Prelude.{◌≡◌, ℕ, [], true, None, slice_index_or, length};
ghost use Rattle.smr_clock.specs.Notes.{seat_knows};
ghost use Rattle.name_rows.specs.Moving.{entry_no, found};
ghost use Rattle.name_rows.specs.RootStates.{is_loose_at};

use crate::entry::Owned;
use crate::names::Names;
use smr_clock::HostSeat;
use uma_life::{BodyPhase, Tally};

/// The entry that a row names: what its body says, and what stands in its words.
#[derive(Clone, Copy, Debug, PartialEq, Eq)]
pub struct Guest {
    pub(crate) no: u32,
    pub(crate) phase: BodyPhase,
    pub(crate) tally: Tally,
    pub(crate) key: u64,
    pub(crate) value: u64,
}

/// The owner of the entries that aren't raised.
#[derive(Drop)]
pub struct Root {
    pub(crate) seat: HostSeat<Names>,
    // By number. None where the entry is raised.
    pub(crate) kept: Vec<Option<Owned>>,
    ghost no_rows: { (seat_knows seat).host.rows ≡ [] },
    ghost owns: { (n : ℕ) → found entry_no n (seat_knows seat).host.owned ≡ slice_index_or kept.items n None },
    ghost loose: { (n : ℕ) → is_loose_at (slice_index_or kept.items n None) ≡ true },
    ghost all: { length kept.items ≡ (seat_knows seat).setup.plan.1 },
}
