use super::*;

/// Worker 1 makes the first note of a core of two seats.
const NOTE: [(Step, Seen); 1] = [(Step::Note { seat: 1 }, Seen::Holder { number: 2 })];

/// The refusal of a holder that is in no task.
fn idle(seat: u32, phase: Phase) -> StepRefused {
    StepRefused::OutOfTurn {
        seat,
        phase,
        task: Task::Idle,
    }
}

#[test]
fn a_refusal_names_the_first_holder_that_fails(rt: HostRuntime) -> Result<(), Fail> {
    let mut core = Core::new(rt.alloc(), 2, 1, 8)?;
    play(&rt, rt.alloc(), &mut core, &NOTE)?;
    let rows = [
        (
            Step::EnterLoad { seat: 3 },
            StepRefused::NoSeat { seat: 3, seats: 3 },
        ),
        (Step::EnterStore { seat: 0 }, idle(0, Phase::Outside)),
        (Step::EnterLoad { seat: 2 }, idle(2, Phase::Note)),
        (Step::Note { seat: 2 }, idle(2, Phase::Note)),
        (
            Step::Absorb { seat: 4, note: 3 },
            StepRefused::NoSeat { seat: 4, seats: 3 },
        ),
        (
            Step::Absorb { seat: 2, note: 3 },
            StepRefused::NoSeat { seat: 3, seats: 3 },
        ),
        (Step::Absorb { seat: 2, note: 1 }, idle(2, Phase::Note)),
        (Step::Absorb { seat: 0, note: 1 }, idle(1, Phase::Outside)),
    ];
    for (step, refused) in rows {
        assert_eq!(rt; core.apply(rt.alloc(), step), Err(refused), "at {step:?}");
    }
    Ok(())
}

#[test]
fn a_vacant_seat_is_no_worker(rt: HostRuntime) -> Result<(), Fail> {
    let mut core = Core::new(rt.alloc(), 2, 1, 8)?;
    let come = Step::Come { seat: 0 };
    assert_eq!(rt; core.apply(rt.alloc(), come), Err(idle(0, Phase::Outside)));
    let rows = [
        (Step::Leave { seat: 0 }, Seen::Done),
        (Step::Note { seat: 1 }, Seen::Holder { number: 2 }),
    ];
    play(&rt, rt.alloc(), &mut core, &rows)?;
    let steps = [
        Step::EnterLoad { seat: 0 },
        Step::Leave { seat: 0 },
        Step::AdvanceRead { seat: 0 },
        Step::PollRead { seat: 0, tag: 1 },
        Step::PollPresent { seat: 0 },
        Step::Note { seat: 0 },
        Step::Absorb { seat: 0, note: 2 },
    ];
    for step in steps {
        let refused = idle(0, Phase::Vacant);
        assert_eq!(rt; core.apply(rt.alloc(), step), Err(refused), "at {step:?}");
    }
    assert_eq!(rt; core.apply(rt.alloc(), come), Ok(Seen::Done));
    Ok(())
}

#[test]
fn a_worker_leaves_outside_a_section_and_in_no_advance_or_poll(
    rt: HostRuntime,
) -> Result<(), Fail> {
    let mut core = Core::new(rt.alloc(), 2, 1, 8)?;
    let rows = [
        (Step::EnterLoad { seat: 0 }, Seen::Hand { value: 1 }),
        (Step::AdvanceRead { seat: 1 }, Seen::Hand { value: 1 }),
    ];
    play(&rt, rt.alloc(), &mut core, &rows)?;
    let in_enter = idle(0, Phase::Loaded);
    let in_advance = StepRefused::OutOfTurn {
        seat: 1,
        phase: Phase::Outside,
        task: Task::AdvRead,
    };
    let leaves = [in_enter, in_advance];
    for (seat, refused) in (0..).zip(leaves) {
        assert_eq!(rt; core.apply(rt.alloc(), Step::Leave { seat }), Err(refused));
    }
    Ok(())
}

#[test]
fn a_replay_stops_at_the_first_refused_step(rt: HostRuntime) -> Result<(), Fail> {
    let mut core = Core::new(rt.alloc(), 2, 1, 8)?;
    let steps = [
        Step::Note { seat: 1 },
        Step::Absorb { seat: 0, note: 2 },
        Step::Absorb { seat: 0, note: 2 },
    ];
    let seens = replay(rt.alloc(), &mut core, &steps[..2])?.into_vec();
    assert_eq!(rt;
        seens.as_slice(),
        [Seen::Holder { number: 2 }, Seen::Done].as_slice()
    );
    let stop = replay(rt.alloc(), &mut core, &steps).err();
    assert_eq!(rt; stop, Some((1, idle(2, Phase::Absorbed))));
    Ok(())
}
