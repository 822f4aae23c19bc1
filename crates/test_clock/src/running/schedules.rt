use super::*;

#[test]
fn a_stale_enter_counts_as_one_at_the_read_hand(rt: HostRuntime) -> Result<(), Fail> {
    let (clock, mut reader, mut writer) = two_seats(rt.alloc(), 1, 8)?;
    clock.enter_load(&mut reader);
    let third = clock.advance(&mut writer)?;
    let mut note = clock.note(&mut writer);
    assert!(rt; third.tag().raw == 3 && clock.poll(&mut note, &third));
    clock.enter_store(&mut reader);
    assert_eq!(rt; clock.enter_check(&mut reader), Ok(()));
    let fifth = clock.advance(&mut writer)?;
    let mut note = clock.note(&mut writer);
    assert!(rt; fifth.tag().raw == 5 && !clock.poll(&mut note, &fifth));
    clock.exit(&mut reader);
    assert!(rt; clock.poll(&mut note, &fifth));
    assert_eq!(rt; clock.hands(&mut writer), (5, 5));
    Ok(())
}

#[test]
fn an_enter_is_overtaken_by_the_window(rt: HostRuntime) -> Result<(), Fail> {
    let (clock, mut reader, mut writer) = two_seats(rt.alloc(), 1, 4)?;
    clock.enter_load(&mut reader);
    let third = clock.advance(&mut writer)?;
    assert!(rt; clock.poll(&mut clock.note(&mut writer), &third));
    let fifth = clock.advance(&mut writer)?;
    assert!(rt; clock.poll(&mut clock.note(&mut writer), &fifth));
    clock.enter_store(&mut reader);
    let late = Overtaken {
        loaded: 1,
        found: 5,
    };
    assert_eq!(rt; clock.enter_check(&mut reader), Err(late));
    assert_eq!(rt; clock.enter(&mut reader), Ok(()));
    assert_eq!(rt; clock.hands(&mut writer), (5, 5));
    Ok(())
}

#[test]
fn an_advance_has_no_room_while_a_section_is_open(rt: HostRuntime) -> Result<(), Fail> {
    let (clock, mut reader, mut writer) = two_seats(rt.alloc(), 1, 4)?;
    clock.enter(&mut reader)?;
    clock.advance(&mut writer)?;
    let fifth = clock.advance(&mut writer)?;
    let too_far = AdvanceRefused::TooFar { read: 1, write: 5 };
    assert_eq!(rt; clock.advance(&mut writer), Err(too_far));
    clock.exit(&mut reader);
    let mut note = clock.note(&mut writer);
    assert!(rt; clock.poll(&mut note, &fifth));
    assert_eq!(rt; clock.advance(&mut writer)?.tag().raw, 7);
    clock.absorb(&mut writer, note);
    assert_eq!(rt; clock.hands(&mut writer), (5, 7));
    Ok(())
}

#[test]
fn a_poll_reads_tags_and_words_across_the_wrap(rt: HostRuntime) -> Result<(), Fail> {
    let (below, above) = (4_294_967_295, 4_294_967_297);
    let (clock, mut reader, mut writer) = two_seats(rt.alloc(), below, 8)?;
    clock.enter(&mut reader)?;
    let goal = clock.advance(&mut writer)?;
    let mut note = clock.note(&mut writer);
    assert!(rt; goal.tag().raw == 1 && !clock.poll(&mut note, &goal));
    assert_eq!(rt; clock.hands(&mut writer), (below, above));
    clock.exit(&mut reader);
    assert!(rt; clock.poll(&mut note, &goal));
    assert_eq!(rt; clock.hands(&mut writer), (above, above));
    Ok(())
}

#[test]
fn a_poll_does_without_a_seat_that_has_left(rt: HostRuntime) -> Result<(), Fail> {
    let (clock, reader, mut writer) = two_seats(rt.alloc(), 1, 8)?;
    let _vacancy = clock.leave(reader);
    let goal = clock.advance(&mut writer)?;
    let mut note = clock.note(&mut writer);
    assert!(rt; goal.tag().raw == 3 && clock.poll(&mut note, &goal));
    assert_eq!(rt; clock.hands(&mut writer), (3, 3));
    Ok(())
}

#[test]
fn a_poll_finds_the_section_of_who_came(rt: HostRuntime) -> Result<(), Fail> {
    let (clock, reader, mut writer) = two_seats(rt.alloc(), 1, 8)?;
    let vacancy = clock.leave(reader);
    let mut reader = clock.come(vacancy);
    clock.enter(&mut reader)?;
    let goal = clock.advance(&mut writer)?;
    let mut note = clock.note(&mut writer);
    assert!(rt; !clock.poll(&mut note, &goal));
    clock.exit(&mut reader);
    assert!(rt; clock.poll(&mut note, &goal));
    Ok(())
}

// The other pass's advance, which is interrupted before its exchange, can't be written as a call.
#[test]
fn an_advance_alone_moves_the_write_hand_by_two(rt: HostRuntime) -> Result<(), Fail> {
    let (clock, _, mut writer) = two_seats(rt.alloc(), 1, 8)?;
    assert_eq!(rt; clock.advance(&mut writer)?.tag().raw, 3);
    assert_eq!(rt; clock.hands(&mut writer), (1, 3));
    Ok(())
}

#[test]
fn an_advance_loads_the_hand_anew(rt: HostRuntime) -> Result<(), Fail> {
    let (clock, mut first, mut second) = two_seats(rt.alloc(), 1, 8)?;
    assert_eq!(rt; clock.advance(&mut first)?.tag().raw, 3);
    assert_eq!(rt; clock.advance(&mut second)?.tag().raw, 5);
    Ok(())
}
