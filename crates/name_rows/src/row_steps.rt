ghost use Rattle.std.specs.Prelude.{◌≡◌, ℕ};
ghost use Rattle.smr_clock.specs.HostSteps.{with_host};
ghost use Rattle.smr_clock.specs.Notes.{IsSeatOf, seat_knows};
ghost use Rattle.smr_clock.specs.Steps.{joined_view};
ghost use Rattle.name_rows.specs.Linking.{linking, unlinking};
ghost use Rattle.name_rows.specs.Moving.{taken, linked_rest, unlinked_entry};
ghost use Rattle.name_rows.specs.SeatCalls.{CanTakeIn, SeatHas, SplitsSeat, CanStore, CanStoreLink, OwnsUnlinked, IsTakenOut};
ghost use Rattle.name_rows.specs.RowCalls.{CanLink, LinksEntry, CanUnlink, UnlinksEntry};

use crate::entry::{Entry, EntryState, Owned};
use crate::names::{Names, row_place};
use crate::root::Guest;
use crate::row::Row;
use crate::words::Words;
use smr_clock::{Clock, HostAct, HostJoin, HostPlay, HostSeat, HostSplit};

// The steps of a row's seat.

/// The row's seat takes in an entry's.
struct TakesIn;

impl HostJoin<Names> for TakesIn {
    ghost use Rattle.name_rows.specs.Moving.{taken};

    ghost both = { taken };
}

/// An unlinked entry gets a seat of its own.
struct GivesOut;

impl HostSplit<Names> for GivesOut {
    ghost use Rattle.name_rows.specs.Moving.{linked_rest, unlinked_entry};

    ghost left = { linked_rest };

    ghost right = { unlinked_entry };
}

/// The store of a row's word that links an entry.
struct Links;

impl HostPlay<Names> for Links {
    ghost use Rattle.name_rows.specs.Linking.{links};

    ghost changes = { links };
}

/// The store of a row's word that names no entry.
struct Unlinks;

impl HostPlay<Names> for Unlinks {
    ghost use Rattle.name_rows.specs.Linking.{unlinks};

    ghost changes = { unlinks };
}

pub(crate) fn take_in(clock: &Clock<Names>, seat: &mut HostSeat<Names>, words: Words)
    requires { CanTakeIn clock.now seat.old words }
    ensures { SeatHas clock.now seat.new (joined_view taken (seat_knows seat.old) (seat_knows words.seat)) }
{
    let Words {
        seat: other,
        kept: _,
    } = words;
    clock.seat_join::<TakesIn>(seat, other);
}

pub(crate) fn give_out(clock: &Clock<Names>, seat: &mut HostSeat<Names>) -> HostSeat<Names>
    requires here { IsSeatOf clock.now seat.old }
    ensures { SplitsSeat clock.now linked_rest unlinked_entry seat.old seat.new result }
{
    clock.seat_split::<GivesOut>(seat)
}

/// One store of the row's word: the next version, and the entry.
pub(crate) fn store_link(
    clock: &Clock<Names>,
    seat: &mut HostSeat<Names>,
    number: u32,
    version: u64,
    guest: &Guest,
)
    requires { CanStoreLink clock.now seat.old number version guest.now }
    ensures here { IsSeatOf clock.now seat.new }
    ensures view { (found : ℕ) × (seat_knows seat.new ≡ with_host (seat_knows seat.old) (linking found (seat_knows seat.old).host)) }
{
    let value = (version + 1) * (1 << 20) + u64::from(guest.no) + 1;
    let place = row_place(clock, number);
    clock.seat_step::<Links>(seat, place, HostAct::Store { value });
}

/// One store of the row's word: the next version, and no entry.
pub(crate) fn store_unlink(
    clock: &Clock<Names>,
    seat: &mut HostSeat<Names>,
    number: u32,
    version: u64,
)
    requires { CanStore clock.now seat.old number version }
    ensures here { IsSeatOf clock.now seat.new }
    ensures view { (found : ℕ) × (seat_knows seat.new ≡ with_host (seat_knows seat.old) (unlinking found (seat_knows seat.old).host)) }
{
    let value = (version + 1) * (1 << 20);
    let place = row_place(clock, number);
    clock.seat_step::<Unlinks>(seat, place, HostAct::Store { value });
}

// The entry that a row named, with its seat.
fn evicted(seat: HostSeat<Names>, guest: Guest) -> Entry
    requires { OwnsUnlinked seat guest }
    ensures { IsTakenOut seat guest result }
{
    let kept = Owned {
        entry: guest.no,
        key: guest.key,
        value: guest.value,
        state: EntryState::Unlinked,
    };
    Entry {
        no: guest.no,
        phase: guest.phase,
        tally: guest.tally,
        words: Some(Words { seat, kept }),
    }
}

/// Links a written entry of this row's keys, with the next version, by one store of the row's word. Returns the
/// version, and the entry that was there, which is now unlinked and has no stamp yet. The row's version must be below
/// 2^44 - 2.
pub fn link(clock: &Clock<Names>, row: &mut Row, entry: Entry) -> (u64, Option<Entry>)
    requires { CanLink clock.now row.old entry }
    ensures { LinksEntry clock.now row.old entry result.0 result.1 row.new }
{
    let Entry {
        no: _,
        phase,
        tally,
        words,
    } = entry;
    let Some(words) = words else { unreachable!() };
    let guest = Guest {
        no: words.kept.entry,
        phase,
        tally,
        key: words.kept.key,
        value: words.kept.value,
    };
    take_in(clock, &mut row.seat, words);
    store_link(clock, &mut row.seat, row.number, row.version, &guest);
    row.version += 1;
    let old = row.guest;
    row.guest = Some(guest);
    match old {
        Some(old) => (
            row.version,
            Some(evicted(give_out(clock, &mut row.seat), old)),
        ),
        None => (row.version, None),
    }
}

/// Unlinks the row's entry, with the next version, by one store of the row's word. The entry has no stamp yet. Returns
/// None exactly if the row is empty; nothing changes then. The row's version must be below 2^44 - 1.
pub fn unlink(clock: &Clock<Names>, row: &mut Row) -> Option<Entry>
    requires { CanUnlink clock.now row.old }
    ensures { UnlinksEntry clock.now row.old result row.new }
{
    let Some(guest) = row.guest else {
        return None;
    };
    store_unlink(clock, &mut row.seat, row.number, row.version);
    let seat = give_out(clock, &mut row.seat);
    row.version += 1;
    row.guest = None;
    Some(evicted(seat, guest))
}
