use super::*;

#[test]
fn numbers_out_of_range_are_refused_in_order(rt: HostRuntime) {
    let high = 9_223_372_036_854_775_809;
    let rows = [
        (0, 1, 8, CoreRefused::Seats { seats: 0 }),
        (0, 2, 8, CoreRefused::Seats { seats: 0 }),
        (65, 1, 8, CoreRefused::Seats { seats: 65 }),
        (1, 2, 5, CoreRefused::Even { start: 2 }),
        (1, high, 5, CoreRefused::High { start: high }),
        (1, 1, 5, CoreRefused::Window { window: 5 }),
        (1, 1, 2, CoreRefused::Window { window: 2 }),
    ];
    for (seats, start, window, refused) in rows {
        assert_eq!(rt;
            Core::new(rt.alloc(), seats, start, window).err(),
            Some(refused)
        );
    }
}

#[test]
fn a_new_core_has_both_hands_at_the_start(rt: HostRuntime) -> Result<(), Fail> {
    let core = Core::new(rt.alloc(), 64, 3, 1_073_741_824)?;
    assert_eq!(rt; (core.read_hand(), core.write_hand()), (3, 3));
    assert_eq!(rt;
        (core.word(0), core.word(63), core.word(64)),
        (Some(0), Some(0), None)
    );
    Ok(())
}

#[test]
fn a_core_is_crowded_at_its_last_holder(rt: HostRuntime) -> Result<(), Fail> {
    let alloc = rt.alloc();
    let mut core = Core::new(alloc, 1, 1, 8)?;
    let note = Step::Note { seat: 0 };
    for number in 1..65_536 {
        assert_eq!(rt; core.apply(alloc, note)?, Seen::Holder { number });
    }
    let crowded = StepRefused::Crowded { holders: 65_536 };
    assert_eq!(rt; core.apply(alloc, note), Err(crowded));
    Ok(())
}
