ghost use Rattle.std.specs.Prelude.{◌≡◌, ◌<◌, ◌+◌, ◌%◌, ◌^◌, Some, IsSome, IfOk, IfSome};
ghost use Rattle.smr_clock.specs.Belongs.{IsPassOf, setup_of};
ghost use Rattle.name_rows.specs.Belongs.{IsNamesClock};
ghost use Rattle.name_rows.specs.Entries.{IsEntryOf, entry_state};
ghost use Rattle.name_rows.specs.Roots.{IsRootOf};
ghost use Rattle.name_rows.specs.Rows.{IsRowOf};
ghost use Rattle.name_rows.specs.declared.entry.EntryState.{EntryState};

use super::one_row;
use name_rows::{Entry, Names, Root, Row, Unripe, link, raise, ripe, stamp, unlink, write};
use smr_clock::{AdvanceRefused, Clock, Memory, Pass};
use std::alloc::Global;
use std::test::Fail;

// Writes a clean entry, links it, and stamps that which was there.
fn bind(clock: &Clock<Names>, row: &mut Row, entry: Entry, key: u64, value: u64) -> Option<Entry>
    requires here { IsRowOf clock.now row.old × IsEntryOf clock.now entry }
    requires names { IsNamesClock clock.now }
    requires clean { entry_state entry ≡ Some EntryState.Clean }
    requires of_row { key % (setup_of clock.now).plan.0 ≡ row.old.number }
    requires low { row.old.version + 2 < 2 ^ 44 }
    ensures here { IsRowOf clock.now row.new }
    ensures other_here { IfSome result (λ other. IsEntryOf clock.now other) }
    ensures row { (row.new.number ≡ row.old.number) × (row.new.version ≡ row.old.version + 1) }
    ensures stamped { IfSome result (λ other. IsSome other.words) }
{
    let mut entry = entry;
    write(clock, &mut entry, key, value);
    let (_version, evicted) = link(clock, row, entry);
    let mut evicted = evicted?;
    stamp(clock, &mut evicted);
    Some(evicted)
}

// The read sequence goes on as far as the open sections let it.
fn go_on(clock: &Clock<Names>, pass: &mut Pass<Names>) -> Result<bool, AdvanceRefused>
    requires here { IsPassOf clock.now pass.old }
    ensures here { IsPassOf clock.now pass.new }
{
    let goal = clock.advance(pass)?;
    let mut note = clock.note(pass);
    Ok(clock.poll(&mut note, &goal))
}

// An entry that may be written: both hooks of its life that ask for words are behind it.
fn clean(clock: &Clock<Names>, root: &mut Root, no: u32) -> Result<Entry, Memory>
    requires here { IsRootOf clock.now root.old }
    requires names { IsNamesClock clock.now }
    ensures here { IsRootOf clock.now root.new }
    ensures entry_here { IfOk result (λ entry. IsEntryOf clock.now entry) }
    ensures clean { IfOk result (λ entry. entry_state entry ≡ Some EntryState.Clean) }
{
    let mut entry = raise(clock, root, no);
    let Ok(()) = entry.keg_init() else {
        return Err(Memory);
    };
    let Ok(()) = ripe(clock, &mut entry) else {
        return Err(Memory);
    };
    Ok(entry)
}

#[test]
fn an_entry_is_unripe_until_the_read_hand_comes_to_its_stamp(rt: HostRuntime) -> Result<(), Fail> {
    let (clock, mut writer, _reader, mut row, mut root) = one_row(rt.alloc())?;
    let first = clean(&clock, &mut root, 0)?;
    bind(&clock, &mut row, first, 3, 30);
    let Some(mut entry) = unlink(&clock, &mut row) else {
        return Err(Memory)?;
    };
    stamp(&clock, &mut entry);
    let unripe = Unripe { read: 1, stamp: 3 };
    assert_eq!(rt; ripe(&clock, &mut entry), Err(unripe));
    assert!(rt; go_on(&clock, &mut writer)?);
    assert_eq!(rt; ripe(&clock, &mut entry), Ok(()));
    Ok(())
}
