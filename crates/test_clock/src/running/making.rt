use super::*;

#[test]
fn numbers_out_of_range_are_refused_in_order(rt: HostRuntime) {
    let high = 9_223_372_036_854_775_809;
    let rows = [
        (0, 2, 8, ClockRefused::Seats { seats: 0 }),
        (65, 1, 8, ClockRefused::Seats { seats: 65 }),
        (1, 2, 5, ClockRefused::Even { start: 2 }),
        (1, high, 5, ClockRefused::High { start: high }),
        (1, 1, 5, ClockRefused::Window { window: 5 }),
        (1, 1, 2, ClockRefused::Window { window: 2 }),
    ];
    for (seats, start, window, refused) in rows {
        assert_eq!(rt;
            Clock::<Bare>::new(rt.alloc(), seats, start, window).err(),
            Some(refused)
        );
    }
}

#[test]
fn a_clock_has_a_pass_for_each_seat(rt: HostRuntime) -> Result<(), Fail> {
    let (clock, passes) = Clock::<Bare>::new(rt.alloc(), 64, 3, 1_073_741_824)?;
    let outside = passes.iter().all(|pass| pass.phase() == Phase::Outside);
    assert!(rt; outside && passes.len() == 64);
    let again = clock.share(rt.alloc())?;
    assert!(rt; again.seats() == 64 && again.plan() == (0, 0));
    Ok(())
}
