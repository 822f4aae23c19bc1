ghost use Rattle.std.specs.Prelude.{◌≡◌, ◌%◌, ◌^◌};
ghost use Rattle.smr_clock.specs.Belongs.{IsPassOf, view, setup_of};
ghost use Rattle.name_rows.specs.Belongs.{IsNamesClock};
ghost use Rattle.name_rows.specs.Finding.{CanFind, CanLoadRow, CanLoadEntry, LoadsEntry, IsRowOfKey};
ghost use Rattle.name_rows.specs.Reading.{Finds, ReadsRecord, slot_entry};
ghost use Rattle.name_rows.specs.RowCalls.{CanMeet, MeetsPass};

use crate::names::{Names, key_place, row_place, value_place};
use crate::row::Row;
use smr_clock::{Clock, HostAct, HostJoin, HostPlay, HostSplit, Note, Pass};

/// A load of a row's word.
struct ReadsRow;

impl HostPlay<Names> for ReadsRow {
    ghost use Rattle.name_rows.specs.Reading.{reads_row};

    ghost changes = { reads_row };
}

/// A load of an entry's word.
struct ReadsEntry;

impl HostPlay<Names> for ReadsEntry {
    ghost use Rattle.name_rows.specs.Reading.{reads_entry};

    ghost changes = { reads_entry };
}

// The row of a key.
pub(crate) fn row_of(clock: &Clock<Names>, key: u64) -> u32
    requires names { IsNamesClock clock.now }
    ensures { IsRowOfKey (setup_of clock.now) key result }
{
    (key % u64::from(clock.plan().0)) as u32
}

// The entry that the slot of a row's word names: the lower 20 bits are 0, or the entry plus 1.
fn entry_of(word: u64) -> Option<u32>
    ensures { result ≡ slot_entry (word % 2 ^ 20) }
{
    let slot = (word % (1 << 20)) as u32;
    if slot == 0 { None } else { Some(slot - 1) }
}

// The entry that the row's word names.
fn load_row(clock: &Clock<Names>, pass: &mut Pass<Names>, row: u32) -> Option<u32>
    requires { CanLoadRow clock.now pass.old row }
    ensures here { IsPassOf clock.now pass.new }
    ensures reads { ReadsRecord (view pass.old) row result (view pass.new) }
{
    let word = clock.host_step::<ReadsRow>(pass, row_place(clock, row), HostAct::Load);
    entry_of(word)
}

fn load_key(clock: &Clock<Names>, pass: &mut Pass<Names>, entry: u32) -> u64
    requires { CanLoadEntry clock.now pass.old entry }
    ensures { LoadsEntry (λ b. b.key) clock.now pass.old entry result pass.new }
{
    clock.host_step::<ReadsEntry>(pass, key_place(clock, entry), HostAct::Load)
}

fn load_value(clock: &Clock<Names>, pass: &mut Pass<Names>, entry: u32) -> u64
    requires { CanLoadEntry clock.now pass.old entry }
    ensures { LoadsEntry (λ b. b.value) clock.now pass.old entry result pass.new }
{
    clock.host_step::<ReadsEntry>(pass, value_place(clock, entry), HostAct::Load)
}

/// Returns the value that the key's row binds to the key, at the load of the row's word in this call. Returns None if
/// the row is empty or binds another key. The row's record is at least as new as every record of it that the pass knew.
/// The pass must be inside a section, and the entry that the word names isn't written again while it is.
///
/// # Arguments
///
/// - `key`: the key, any number.
pub fn find(clock: &Clock<Names>, pass: &mut Pass<Names>, key: u64) -> Option<u64>
    requires { CanFind clock.now pass.old }
    ensures here { IsPassOf clock.now pass.new }
    ensures finds { Finds (view pass.old) (view pass.new) key result }
{
    let Some(entry) = load_row(clock, pass, row_of(clock, key)) else {
        return None;
    };
    if load_key(clock, pass, entry) != key {
        return None;
    }
    Some(load_value(clock, pass, entry))
}

/// The row's seat learns what a note knows.
struct Learns;

impl HostJoin<Names> for Learns {
    ghost use Rattle.name_rows.specs.Records.{learned};

    ghost both = { learned };
}

/// A load of the row's own word, which tells that its last record is the newest known.
struct Meets;

impl HostPlay<Names> for Meets {
    ghost use Rattle.name_rows.specs.Linking.{meets};

    ghost changes = { meets };
}

/// A note with the row's last record.
struct Tells;

impl HostSplit<Names> for Tells {
    ghost use Rattle.name_rows.specs.Linking.{telling};

    ghost left = { λ part. part };

    ghost right = { telling };
}

/// Gives the pass the row's last record, which is at least as new as every record of the row that the pass knew.
pub fn meet(clock: &Clock<Names>, row: &mut Row, pass: &mut Pass<Names>)
    requires { CanMeet clock.now row.old pass.old }
    ensures { MeetsPass clock.now row.old pass.old row.new pass.new }
{
    let note = clock.note(pass).into_host();
    clock.seat_join::<Learns>(&mut row.seat, note);
    let place = row_place(clock, row.number);
    clock.seat_step::<Meets>(&mut row.seat, place, HostAct::Load);
    let told = clock.seat_split::<Tells>(&mut row.seat);
    clock.absorb(pass, Note::of_host(told));
}
