ghost use Rattle.std.specs.Prelude.{◌≡◌};
ghost use Rattle.smr_clock.specs.Belongs.{IsPassOf, clock_id};
ghost use Rattle.smr_deferred.specs.RetireList.{IsUsedWith};

use super::*;
use smr_deferred::{LimitRefused, ReapNo, RetireList, RetireRefused};

const LAST: u64 = 9_223_372_036_854_775_807;

// Lists 10 and 11.
fn retire_two(
    alloc: Global,
    clock: &Clock<Bare>,
    pass: &mut Pass<Bare>,
    list: &mut RetireList<u32, Bare>,
) -> Result<(), (u32, RetireRefused)>
    requires here { IsPassOf clock.now pass.old }
    requires mine { IsUsedWith (clock_id clock.now) list.old }
    ensures here { IsPassOf clock.now pass.new }
    ensures mine { IsUsedWith (clock_id clock.now) list.new }
{
    list.retire(alloc, clock, pass, 10)?;
    list.retire(alloc, clock, pass, 11)
}

// Whether these values come out, in this order.
fn gives(
    clock: &Clock<Bare>,
    pass: &mut Pass<Bare>,
    list: &mut RetireList<u32, Bare>,
    values: &[u32],
) -> bool
    requires here { IsPassOf clock.now pass.old }
    requires mine { IsUsedWith (clock_id clock.now) list.old }
    ensures here { IsPassOf clock.now pass.new }
    ensures mine { IsUsedWith (clock_id clock.now) list.new }
{
    let mut all = true;
    for value in values {
        all &= list.reap(clock, pass) == Ok(Some(*value));
    }
    all
}

#[test]
fn three_retirements_move_the_hand_once(rt: HostRuntime) -> Result<(), Fail> {
    let (clock, _reader, mut pass) = two_seats(rt.alloc(), 1, 8)?;
    let mut list = new_list(rt.alloc(), &clock, 3)?;
    retire_two(rt.alloc(), &clock, &mut pass, &mut list)?;
    list.retire(rt.alloc(), &clock, &mut pass, 12)?;
    assert_eq!(rt; clock.hands(&mut pass), (1, 3));
    assert!(rt; gives(&clock, &mut pass, &mut list, &[10, 11, 12]));
    assert_eq!(rt; list.reap(&clock, &mut pass), Ok(None));
    assert_eq!(rt; clock.hands(&mut pass), (3, 3));
    Ok(())
}

#[test]
fn two_retirements_are_ahead_until_a_push(rt: HostRuntime) -> Result<(), Fail> {
    let (clock, _reader, mut pass) = two_seats(rt.alloc(), 1, 8)?;
    let mut list = new_list(rt.alloc(), &clock, 3)?;
    retire_two(rt.alloc(), &clock, &mut pass, &mut list)?;
    let ahead = ReapNo::Ahead { goal: 3, moved: 0 };
    assert_eq!(rt; list.reap(&clock, &mut pass), Err(ahead));
    assert_eq!(rt; list.push(&clock, &mut pass), Ok(()));
    assert!(rt; gives(&clock, &mut pass, &mut list, &[10, 11]));
    Ok(())
}

#[test]
fn a_section_holds_what_was_retired_in_it(rt: HostRuntime) -> Result<(), Fail> {
    let (clock, mut reader, mut pass) = two_seats(rt.alloc(), 1, 8)?;
    let mut list = new_list(rt.alloc(), &clock, 3)?;
    clock.enter(&mut reader)?;
    retire_two(rt.alloc(), &clock, &mut pass, &mut list)?;
    list.retire(rt.alloc(), &clock, &mut pass, 12)?;
    let held = ReapNo::Held { goal: 3 };
    assert_eq!(rt; list.reap(&clock, &mut pass), Err(held));
    clock.exit(&mut reader);
    assert_eq!(rt; list.reap(&clock, &mut pass), Ok(Some(10)));
    Ok(())
}

#[test]
fn no_goal_is_left_at_the_last_hand(rt: HostRuntime) -> Result<(), Fail> {
    let (clock, _reader, mut pass) = two_seats(rt.alloc(), LAST, 8)?;
    let mut list = new_list(rt.alloc(), &clock, 3)?;
    let spent = RetireRefused::Spent { write: LAST };
    assert_eq!(rt;
        list.retire(rt.alloc(), &clock, &mut pass, 10),
        Err((10, spent))
    );
    assert_eq!(rt; list.reap(&clock, &mut pass), Ok(None));
    let spent = AdvanceRefused::Spent { write: LAST };
    assert_eq!(rt; list.push(&clock, &mut pass), Err(spent));
    assert_eq!(rt; list.refused(), Some(spent));
    Ok(())
}

#[test]
fn a_refusal_says_why(rt: HostRuntime) -> Result<(), Fail> {
    let texts = [
        format!(in rt.alloc(); "{}", LimitRefused { limit: 0 })?,
        format!(in rt.alloc(); "{}", RetireRefused::Spent { write: 9 })?,
        format!(in rt.alloc(); "{}", RetireRefused::Memory)?,
        format!(in rt.alloc(); "{}", ReapNo::Ahead { goal: 5, moved: 3 })?,
        format!(in rt.alloc(); "{}", ReapNo::Held { goal: 5 })?,
    ];
    let wanted = [
        "an advance in 0 retirements: it is one in 1 to 65536",
        "no goal is left: the write hand is 9",
        "out of memory",
        "the goal 5 is ahead of 3, the last asked for",
        "a section before the goal 5 may be open",
    ];
    for (text, want) in texts.iter().zip(wanted) {
        assert_eq!(rt; text.as_str(), want);
    }
    Ok(())
}

#[test]
fn limits_are_1_to_65536(rt: HostRuntime) -> Result<(), Fail> {
    for limit in [0, 65_537] {
        let refused = RetireList::<u32, Bare>::new(rt.alloc(), limit).err();
        assert_eq!(rt; refused, Some(LimitRefused { limit }));
    }
    for limit in [1, 65_536] {
        let list = RetireList::<u32, Bare>::new(rt.alloc(), limit)?;
        assert_eq!(rt; list.refused(), None);
    }
    Ok(())
}

#[test]
fn a_refused_advance_is_kept_until_one_answers(rt: HostRuntime) -> Result<(), Fail> {
    let (clock, mut reader, mut pass) = two_seats(rt.alloc(), 1, 4)?;
    let mut list = new_list(rt.alloc(), &clock, 1)?;
    clock.enter(&mut reader)?;
    retire_two(rt.alloc(), &clock, &mut pass, &mut list)?;
    assert_eq!(rt; list.refused(), None);
    list.retire(rt.alloc(), &clock, &mut pass, 12)?;
    let too_far = AdvanceRefused::TooFar { read: 1, write: 5 };
    assert_eq!(rt; list.refused(), Some(too_far));
    assert_eq!(rt; list.push(&clock, &mut pass), Err(too_far));
    clock.exit(&mut reader);
    assert!(rt; gives(&clock, &mut pass, &mut list, &[10, 11]));
    let ahead = ReapNo::Ahead { goal: 7, moved: 5 };
    assert_eq!(rt; list.reap(&clock, &mut pass), Err(ahead));
    assert_eq!(rt; list.push(&clock, &mut pass), Ok(()));
    assert_eq!(rt; list.refused(), None);
    assert_eq!(rt; list.reap(&clock, &mut pass), Ok(Some(12)));
    Ok(())
}
