use super::schedules::OLD_TAGS;
use super::*;

/// The tag of a goal that no advance has answered yet has no reading near the write sequence, so the
/// poll says yes though a section is open. A goal of that tag that is answered now is above its mark.
#[test]
fn a_yes_says_nothing_of_a_goal_above_the_write_hand(rt: HostRuntime) -> Result<(), Fail> {
    let mut core = Core::new(rt.alloc(), 2, 1, 8)?;
    let goal = Seen::Goal {
        goal: 3,
        moved: true,
    };
    let rows = [
        (Step::EnterLoad { seat: 0 }, Seen::Hand { value: 1 }),
        (Step::EnterStore { seat: 0 }, Seen::Done),
        (
            Step::EnterCheck { seat: 0 },
            Seen::Inside {
                loaded: 1,
                found: 1,
            },
        ),
        (Step::Note { seat: 1 }, Seen::Holder { number: 2 }),
        (Step::PollRead { seat: 2, tag: 3 }, Seen::Hand { value: 1 }),
        (Step::PollLoad { seat: 2 }, Seen::Yes { read: 1 }),
        (Step::AdvanceRead { seat: 1 }, Seen::Hand { value: 1 }),
        (Step::AdvanceLoad { seat: 1 }, Seen::Hand { value: 1 }),
        (Step::AdvanceSwap { seat: 1 }, goal),
    ];
    play(&rt, rt.alloc(), &mut core, &rows)?;
    assert_eq!(rt; core.word(0), Some(1));
    Ok(())
}

/// The yes for the tag 9 says nothing of the goal 4294967305, which has that tag and is answered
/// later, while a section is open that is before it.
#[test]
fn a_yes_for_an_old_tag_says_nothing_of_a_later_goal(rt: HostRuntime) -> Result<(), Fail> {
    let schedule = OLD_TAGS;
    let mut core = Core::new(rt.alloc(), schedule.seats, schedule.start, schedule.window)?;
    play(&rt, rt.alloc(), &mut core, schedule.rows)?;
    let goal = Seen::Goal {
        goal: 4_294_967_305,
        moved: true,
    };
    let rows = [
        (
            Step::AdvanceRead { seat: 1 },
            Seen::Hand {
                value: schedule.read_hand,
            },
        ),
        (
            Step::AdvanceLoad { seat: 1 },
            Seen::Hand {
                value: schedule.write_hand,
            },
        ),
        (Step::AdvanceSwap { seat: 1 }, goal),
    ];
    play(&rt, rt.alloc(), &mut core, &rows)?;
    assert_eq!(rt; core.word(0), Some(5));
    Ok(())
}
