ghost use Rattle.std.specs.Prelude.{IfErr, OnOk, ◌≡◌, Some, None, slice_index_or, slice_set};
ghost use Rattle.name_rows.specs.Entries.{OnWords, CanWrite, CanStamp, HasWords, KeepsLife};
ghost use Rattle.name_rows.specs.Ripening.{StampsAt, IsRipe, IsUnripe};
ghost use Rattle.name_rows.specs.Writing.{Writes};
ghost use Rattle.uma_life.specs.Life.{no_tally};
ghost use Rattle.name_rows.specs.Roots.{root_kept, RootHas, CanSplitOff, SplitsOff, CanRaise, RaisesEntry, CanTakeBack, CanLower, LowersEntry};

use crate::entry::{Entry, Owned};
use crate::names::{Names, key_place};
use crate::root::Root;
use crate::words::Words;
use smr_clock::{Clock, HostAct, HostJoin, HostPlay, HostSplit};
use uma_life::{BodyPhase, Tally, ZoneTally};

/// Why an entry isn't clean: a section that may still read it may be open.
#[derive(Clone, Copy, Debug, PartialEq, Eq)]
pub struct Unripe {
    /// The read sequence that was loaded.
    pub read: u64,
    /// The entry's stamp, which is above it.
    pub stamp: u64,
}

/// Writes a key and its value into the words of a clean entry, which no section can read.
///
/// # Arguments
///
/// - `key`: the key, any number.
/// - `value`: the value, any number.
pub fn write(clock: &Clock<Names>, entry: &mut Entry, key: u64, value: u64)
    requires { CanWrite clock.now entry.old }
    ensures same { KeepsLife clock.now entry.old entry.new }
    ensures written { OnWords (Writes key value) entry.old.words entry.new.words }
{
    let Some(words) = &mut entry.words else {
        unreachable!()
    };
    words.write(clock, key, value);
}

/// Stamps an unlinked entry. The stamp is two above the write sequence that the call loads. A section that may still read
/// the entry was entered before the stamp.
pub fn stamp(clock: &Clock<Names>, entry: &mut Entry)
    requires { CanStamp clock.now entry.old }
    ensures same { KeepsLife clock.now entry.old entry.new }
    ensures stamped { OnWords StampsAt entry.old.words entry.new.words }
{
    let Some(words) = &mut entry.words else {
        unreachable!()
    };
    words.stamp(clock);
}

/// Cleans an entry that no section may still read. An unlinked entry without a stamp is stamped first. An entry that
/// has no stamp since it wasn't linked is always cleaned. The contract doesn't promise that a call ever succeeds.
///
/// # Errors
///
/// `Unripe { read, stamp }`: the read sequence that the call loads is below the stamp. The entry stays stamped.
pub fn ripe(clock: &Clock<Names>, entry: &mut Entry) -> Result<(), Unripe>
    requires { HasWords clock.now entry.old }
    ensures same { KeepsLife clock.now entry.old entry.new }
    ensures ripe { OnOk result (OnWords IsRipe entry.old.words entry.new.words) }
    ensures unripe { IfErr result (λ unripe. OnWords (IsUnripe unripe) entry.old.words entry.new.words) }
{
    let Some(words) = &mut entry.words else {
        unreachable!()
    };
    words.ripe(clock)
}

/// A load of an entry's key word, which names the entry.
struct NamesNext;

impl HostPlay<Names> for NamesNext {
    ghost use Rattle.name_rows.specs.RootStates.{names_next};

    ghost changes = { names_next };
}

/// The entry that was named gets a seat of its own.
struct GivesNext;

impl HostSplit<Names> for GivesNext {
    ghost use Rattle.name_rows.specs.Moving.{rest_of_entries, next_entry};

    ghost left = { rest_of_entries };

    ghost right = { next_entry };
}

/// The root's seat takes in an entry's.
struct TakesBack;

impl HostJoin<Names> for TakesBack {
    ghost use Rattle.name_rows.specs.Moving.{taken};

    ghost both = { taken };
}

// What the root keeps of the entry of this number.
fn kept_at(kept: &Vec<Option<Owned>>, no: u32) -> Option<Owned>
    ensures { result ≡ slice_index_or kept.now.items no None }
{
    let at = no as usize;
    if at < kept.len() { kept[at] } else { None }
}

// The tally of a body that passed no hook.
fn no_tally() -> Tally
    ensures { result ≡ no_tally }
{
    let zone = ZoneTally {
        inits: 0,
        ctors: 0,
        dtors: 0,
        finis: 0,
    };
    Tally {
        keg_inits: 0,
        keg_finis: 0,
        zones: [zone; 8],
    }
}

// The words of an entry that the root has.
fn split_off(clock: &Clock<Names>, root: &mut Root, no: u32, owned: Owned) -> Words
    requires { CanSplitOff clock.now root.old no owned }
    ensures { SplitsOff clock.now root.old no owned result root.new }
{
    let place = key_place(clock, no);
    clock.seat_step::<NamesNext>(&mut root.seat, place, HostAct::Load);
    let seat = clock.seat_split::<GivesNext>(&mut root.seat);
    root.kept[no as usize] = None;
    Words { seat, kept: owned }
}

/// Returns an entry of this number that has passed no hook. If the root has the number, the entry gets its words and
/// its state, and the root loses the number. Otherwise the entry has no words.
///
/// # Arguments
///
/// - `no`: the number of the entry.
pub fn raise(clock: &Clock<Names>, root: &mut Root, no: u32) -> Entry
    requires { CanRaise clock.now root.old }
    ensures { RaisesEntry clock.now root.old no result root.new }
{
    let words = match kept_at(&root.kept, no) {
        Some(owned) => Some(split_off(clock, root, no, owned)),
        None => None,
    };
    Entry {
        no,
        phase: BodyPhase::Raw,
        tally: no_tally(),
        words,
    }
}

// The root has the entry of these words again.
fn take_back(clock: &Clock<Names>, root: &mut Root, words: Words)
    requires { CanTakeBack clock.now root.old words }
    ensures { RootHas clock.now root.new (slice_set (root_kept root.old) words.kept.entry (Some words.kept)) }
{
    let Words { seat, kept } = words;
    clock.seat_join::<TakesBack>(&mut root.seat, seat);
    root.kept[kept.entry as usize] = Some(kept);
}

/// Ends an entry that has passed no hook, or all, and returns its tally. If the entry has words, the root gets its
/// number again, with the entry's state.
pub fn lower(clock: &Clock<Names>, root: &mut Root, entry: Entry) -> Tally
    requires { CanLower clock.now root.old entry }
    ensures { LowersEntry clock.now root.old entry result root.new }
{
    let Entry {
        no: _,
        phase: _,
        tally,
        words,
    } = entry;
    if let Some(words) = words {
        take_back(clock, root, words);
    }
    tally
}
