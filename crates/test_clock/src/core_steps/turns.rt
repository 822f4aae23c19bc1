use super::*;

/// Takes each turn and compares what its steps saw.
fn take_turns(
    rt: &impl Abort,
    alloc: Global,
    core: &mut Core,
    rows: &[(Turn, &[Seen])],
) -> Result<(), Fail> {
    for (turn, sees) in rows {
        let seen = core.turn(alloc, *turn)?;
        assert_eq!(rt; seen.as_slice(), *sees, "at {turn:?}");
    }
    Ok(())
}

const ENTER: (Turn, &[Seen]) = (
    Turn::Enter { seat: 0 },
    &[
        Seen::Hand { value: 1 },
        Seen::Done,
        Seen::Inside {
            loaded: 1,
            found: 1,
        },
    ],
);

/// An advance from the write sequence 1.
const ADVANCE: (Turn, &[Seen]) = (
    Turn::Advance { seat: 1 },
    &[
        Seen::Hand { value: 1 },
        Seen::Hand { value: 1 },
        Seen::Goal {
            goal: 3,
            moved: true,
        },
    ],
);

const NOTE: (Turn, &[Seen]) = (
    Turn::One {
        step: Step::Note { seat: 1 },
    },
    &[Seen::Holder { number: 2 }],
);

#[test]
fn an_advance_that_is_too_far_ends_at_its_load(rt: HostRuntime) -> Result<(), Fail> {
    let mut core = Core::new(rt.alloc(), 2, 1, 4)?;
    let rows: [(Turn, &[Seen]); 4] = [
        ENTER,
        ADVANCE,
        (
            Turn::Advance { seat: 1 },
            &[
                Seen::Hand { value: 1 },
                Seen::Hand { value: 3 },
                Seen::Goal {
                    goal: 5,
                    moved: true,
                },
            ],
        ),
        (
            Turn::Advance { seat: 1 },
            &[Seen::Hand { value: 1 }, Seen::TooFar { read: 1, write: 5 }],
        ),
    ];
    take_turns(&rt, rt.alloc(), &mut core, &rows)
}

#[test]
fn a_poll_scans_all_seats_or_says_yes_at_its_load(rt: HostRuntime) -> Result<(), Fail> {
    let mut core = Core::new(rt.alloc(), 2, 1, 8)?;
    let rows: [(Turn, &[Seen]); 5] = [
        NOTE,
        (
            Turn::Poll { seat: 2, tag: 1 },
            &[Seen::Hand { value: 1 }, Seen::Yes { read: 1 }],
        ),
        ENTER,
        ADVANCE,
        (
            Turn::Poll { seat: 2, tag: 3 },
            &[
                Seen::Hand { value: 1 },
                Seen::Hand { value: 3 },
                Seen::Present { seats: 3 },
                Seen::Word {
                    seat: 0,
                    word: 1,
                    least: 1,
                },
                Seen::Word {
                    seat: 1,
                    word: 0,
                    least: 1,
                },
                Seen::No { read: 1 },
            ],
        ),
    ];
    take_turns(&rt, rt.alloc(), &mut core, &rows)
}

#[test]
fn a_poll_loads_the_words_of_the_seats_that_have_a_worker(rt: HostRuntime) -> Result<(), Fail> {
    let mut core = Core::new(rt.alloc(), 64, 1, 8)?;
    for seat in 1..63 {
        core.apply(rt.alloc(), Step::Leave { seat })?;
    }
    core.turn(rt.alloc(), Turn::Advance { seat: 63 })?;
    let turn = Turn::Poll { seat: 63, tag: 3 };
    let seen = core.turn(rt.alloc(), turn)?;
    let sees = [
        Seen::Hand { value: 1 },
        Seen::Hand { value: 3 },
        Seen::Present {
            seats: (1 << 63) + 1,
        },
        Seen::Word {
            seat: 0,
            word: 0,
            least: 3,
        },
        Seen::Word {
            seat: 63,
            word: 0,
            least: 3,
        },
        Seen::Yes { read: 3 },
    ];
    assert_eq!(rt; seen.as_slice(), sees.as_slice());
    Ok(())
}

#[test]
fn a_turn_is_refused_at_its_first_step(rt: HostRuntime) -> Result<(), Fail> {
    let mut core = Core::new(rt.alloc(), 2, 1, 8)?;
    let load = Step::EnterLoad { seat: 0 };
    core.turn(rt.alloc(), Turn::One { step: load })?;
    let loaded = StepRefused::OutOfTurn {
        seat: 0,
        phase: Phase::Loaded,
        task: Task::Idle,
    };
    let missing = StepRefused::NoSeat { seat: 2, seats: 2 };
    let rows = [
        (Turn::One { step: load }, loaded),
        (Turn::Enter { seat: 0 }, loaded),
        (Turn::Advance { seat: 2 }, missing),
        (Turn::Poll { seat: 2, tag: 3 }, missing),
    ];
    for (turn, refused) in rows {
        assert_eq!(rt;
            core.turn(rt.alloc(), turn).err(),
            Some(refused),
            "at {turn:?}"
        );
    }
    Ok(())
}
