use super::*;

macro_rules! inside {
    ($loaded:expr, $found:expr) => {
        Seen::Inside { loaded: $loaded, found: $found }
    };
}

macro_rules! late {
    ($loaded:expr, $found:expr) => {
        Seen::Late { loaded: $loaded, found: $found }
    };
}

macro_rules! goal {
    ($goal:expr, $moved:expr) => {
        Seen::Goal { goal: $goal, moved: $moved }
    };
}

macro_rules! word {
    ($seat:expr, $word:expr, $least:expr) => {
        Seen::Word { seat: $seat, word: $word, least: $least }
    };
}

/// What is played on a new core, what each step sees, and where the sequences are then.
#[derive(Clone, Copy)]
pub struct Schedule {
    pub seats: u32,
    pub start: u64,
    pub window: u64,
    pub rows: &'static [(Step, Seen)],
    pub read_hand: u64,
    pub write_hand: u64,
}

/// The poll of the note finds that both seats have a worker.
const PRESENT: (Step, Seen) = (Step::PollPresent { seat: 2 }, Seen::Present { seats: 3 });

/// A stale enter counts as one at the read sequence.
pub const STALE_ENTER: Schedule = Schedule {
    seats: 2,
    start: 1,
    window: 8,
    rows: &[
        (Step::EnterLoad { seat: 0 }, Seen::Hand { value: 1 }),
        (Step::AdvanceRead { seat: 1 }, Seen::Hand { value: 1 }),
        (Step::AdvanceLoad { seat: 1 }, Seen::Hand { value: 1 }),
        (Step::AdvanceSwap { seat: 1 }, goal!(3, true)),
        (Step::Note { seat: 1 }, Seen::Holder { number: 2 }),
        (Step::PollRead { seat: 2, tag: 3 }, Seen::Hand { value: 1 }),
        (Step::PollLoad { seat: 2 }, Seen::Hand { value: 3 }),
        PRESENT,
        (Step::PollScan { seat: 2 }, word!(0, 0, 3)),
        (Step::PollScan { seat: 2 }, word!(1, 0, 3)),
        (Step::PollSwap { seat: 2 }, Seen::Yes { read: 3 }),
        (Step::EnterStore { seat: 0 }, Seen::Done),
        (Step::EnterCheck { seat: 0 }, inside!(1, 3)),
        (Step::AdvanceRead { seat: 1 }, Seen::Hand { value: 3 }),
        (Step::AdvanceLoad { seat: 1 }, Seen::Hand { value: 3 }),
        (Step::AdvanceSwap { seat: 1 }, goal!(5, true)),
        (Step::PollRead { seat: 2, tag: 5 }, Seen::Hand { value: 3 }),
        (Step::PollLoad { seat: 2 }, Seen::Hand { value: 5 }),
        PRESENT,
        (Step::PollScan { seat: 2 }, word!(0, 1, 3)),
        (Step::PollScan { seat: 2 }, word!(1, 0, 3)),
        (Step::PollSwap { seat: 2 }, Seen::No { read: 3 }),
        (Step::Clear { seat: 0 }, Seen::Done),
        (Step::PollRead { seat: 2, tag: 5 }, Seen::Hand { value: 3 }),
        (Step::PollLoad { seat: 2 }, Seen::Hand { value: 5 }),
        PRESENT,
        (Step::PollScan { seat: 2 }, word!(0, 0, 5)),
        (Step::PollScan { seat: 2 }, word!(1, 0, 5)),
        (Step::PollSwap { seat: 2 }, Seen::Yes { read: 5 }),
    ],
    read_hand: 5,
    write_hand: 5,
};

/// An enter finds that the write sequence moved on by the window.
pub const OVERTAKEN: Schedule = Schedule {
    seats: 2,
    start: 1,
    window: 4,
    rows: &[
        (Step::EnterLoad { seat: 0 }, Seen::Hand { value: 1 }),
        (Step::AdvanceRead { seat: 1 }, Seen::Hand { value: 1 }),
        (Step::AdvanceLoad { seat: 1 }, Seen::Hand { value: 1 }),
        (Step::AdvanceSwap { seat: 1 }, goal!(3, true)),
        (Step::Note { seat: 1 }, Seen::Holder { number: 2 }),
        (Step::PollRead { seat: 2, tag: 3 }, Seen::Hand { value: 1 }),
        (Step::PollLoad { seat: 2 }, Seen::Hand { value: 3 }),
        PRESENT,
        (Step::PollScan { seat: 2 }, word!(0, 0, 3)),
        (Step::PollScan { seat: 2 }, word!(1, 0, 3)),
        (Step::PollSwap { seat: 2 }, Seen::Yes { read: 3 }),
        (Step::AdvanceRead { seat: 1 }, Seen::Hand { value: 3 }),
        (Step::AdvanceLoad { seat: 1 }, Seen::Hand { value: 3 }),
        (Step::AdvanceSwap { seat: 1 }, goal!(5, true)),
        (Step::PollRead { seat: 2, tag: 5 }, Seen::Hand { value: 3 }),
        (Step::PollLoad { seat: 2 }, Seen::Hand { value: 5 }),
        PRESENT,
        (Step::PollScan { seat: 2 }, word!(0, 0, 5)),
        (Step::PollScan { seat: 2 }, word!(1, 0, 5)),
        (Step::PollSwap { seat: 2 }, Seen::Yes { read: 5 }),
        (Step::EnterStore { seat: 0 }, Seen::Done),
        (Step::EnterCheck { seat: 0 }, late!(1, 5)),
        (Step::Clear { seat: 0 }, Seen::Done),
        (Step::EnterLoad { seat: 0 }, Seen::Hand { value: 5 }),
        (Step::EnterStore { seat: 0 }, Seen::Done),
        (Step::EnterCheck { seat: 0 }, inside!(5, 5)),
    ],
    read_hand: 5,
    write_hand: 5,
};

/// An advance finds no room for two more.
pub const WINDOW_USED_UP: Schedule = Schedule {
    seats: 2,
    start: 1,
    window: 4,
    rows: &[
        (Step::EnterLoad { seat: 0 }, Seen::Hand { value: 1 }),
        (Step::EnterStore { seat: 0 }, Seen::Done),
        (Step::EnterCheck { seat: 0 }, inside!(1, 1)),
        (Step::AdvanceRead { seat: 1 }, Seen::Hand { value: 1 }),
        (Step::AdvanceLoad { seat: 1 }, Seen::Hand { value: 1 }),
        (Step::AdvanceSwap { seat: 1 }, goal!(3, true)),
        (Step::AdvanceRead { seat: 1 }, Seen::Hand { value: 1 }),
        (Step::AdvanceLoad { seat: 1 }, Seen::Hand { value: 3 }),
        (Step::AdvanceSwap { seat: 1 }, goal!(5, true)),
        (Step::AdvanceRead { seat: 1 }, Seen::Hand { value: 1 }),
        (
            Step::AdvanceLoad { seat: 1 },
            Seen::TooFar { read: 1, write: 5 },
        ),
        (Step::Clear { seat: 0 }, Seen::Done),
        (Step::Note { seat: 1 }, Seen::Holder { number: 2 }),
        (Step::PollRead { seat: 2, tag: 5 }, Seen::Hand { value: 1 }),
        (Step::PollLoad { seat: 2 }, Seen::Hand { value: 5 }),
        PRESENT,
        (Step::PollScan { seat: 2 }, word!(0, 0, 5)),
        (Step::PollScan { seat: 2 }, word!(1, 0, 5)),
        (Step::PollSwap { seat: 2 }, Seen::Yes { read: 5 }),
        (Step::AdvanceRead { seat: 1 }, Seen::Hand { value: 5 }),
        (Step::AdvanceLoad { seat: 1 }, Seen::Hand { value: 5 }),
        (Step::AdvanceSwap { seat: 1 }, goal!(7, true)),
    ],
    read_hand: 5,
    write_hand: 7,
};

/// Sequences wrap.
pub const ACROSS_THE_WRAP: Schedule = Schedule {
    seats: 2,
    start: 4_294_967_295,
    window: 8,
    rows: &[
        (
            Step::EnterLoad { seat: 0 },
            Seen::Hand {
                value: 4_294_967_295,
            },
        ),
        (Step::EnterStore { seat: 0 }, Seen::Done),
        (
            Step::EnterCheck { seat: 0 },
            inside!(4_294_967_295, 4_294_967_295),
        ),
        (
            Step::AdvanceRead { seat: 1 },
            Seen::Hand {
                value: 4_294_967_295,
            },
        ),
        (
            Step::AdvanceLoad { seat: 1 },
            Seen::Hand {
                value: 4_294_967_295,
            },
        ),
        (Step::AdvanceSwap { seat: 1 }, goal!(4_294_967_297, true)),
        (Step::Note { seat: 1 }, Seen::Holder { number: 2 }),
        (
            Step::PollRead { seat: 2, tag: 1 },
            Seen::Hand {
                value: 4_294_967_295,
            },
        ),
        (
            Step::PollLoad { seat: 2 },
            Seen::Hand {
                value: 4_294_967_297,
            },
        ),
        PRESENT,
        (
            Step::PollScan { seat: 2 },
            word!(0, 4_294_967_295, 4_294_967_295),
        ),
        (Step::PollScan { seat: 2 }, word!(1, 0, 4_294_967_295)),
        (
            Step::PollSwap { seat: 2 },
            Seen::No {
                read: 4_294_967_295,
            },
        ),
        (Step::Clear { seat: 0 }, Seen::Done),
        (
            Step::PollRead { seat: 2, tag: 1 },
            Seen::Hand {
                value: 4_294_967_295,
            },
        ),
        (
            Step::PollLoad { seat: 2 },
            Seen::Hand {
                value: 4_294_967_297,
            },
        ),
        PRESENT,
        (Step::PollScan { seat: 2 }, word!(0, 0, 4_294_967_297)),
        (Step::PollScan { seat: 2 }, word!(1, 0, 4_294_967_297)),
        (
            Step::PollSwap { seat: 2 },
            Seen::Yes {
                read: 4_294_967_297,
            },
        ),
    ],
    read_hand: 4_294_967_297,
    write_hand: 4_294_967_297,
};

/// The write sequence is at the end of its range.
pub const SPENT: Schedule = Schedule {
    seats: 1,
    start: 9_223_372_036_854_775_807,
    window: 4,
    rows: &[
        (
            Step::AdvanceRead { seat: 0 },
            Seen::Hand {
                value: 9_223_372_036_854_775_807,
            },
        ),
        (
            Step::AdvanceLoad { seat: 0 },
            Seen::Spent {
                write: 9_223_372_036_854_775_807,
            },
        ),
    ],
    read_hand: 9_223_372_036_854_775_807,
    write_hand: 9_223_372_036_854_775_807,
};

/// An advance whose exchange fails answers its goal all the same.
pub const EXCHANGE_THAT_FAILS: Schedule = Schedule {
    seats: 2,
    start: 1,
    window: 8,
    rows: &[
        (Step::AdvanceRead { seat: 0 }, Seen::Hand { value: 1 }),
        (Step::AdvanceLoad { seat: 0 }, Seen::Hand { value: 1 }),
        (Step::AdvanceRead { seat: 1 }, Seen::Hand { value: 1 }),
        (Step::AdvanceLoad { seat: 1 }, Seen::Hand { value: 1 }),
        (Step::AdvanceSwap { seat: 1 }, goal!(3, true)),
        (Step::AdvanceSwap { seat: 0 }, goal!(3, false)),
    ],
    read_hand: 1,
    write_hand: 3,
};

/// The tag 7 may be that of 7, one lap behind: it reads into the live range, and a no does no harm. The tag 9 reads past the write sequence, so it is old and expired.
pub const OLD_TAGS: Schedule = Schedule {
    seats: 2,
    start: 4_294_967_301,
    window: 8,
    rows: &[
        (
            Step::EnterLoad { seat: 0 },
            Seen::Hand {
                value: 4_294_967_301,
            },
        ),
        (Step::EnterStore { seat: 0 }, Seen::Done),
        (
            Step::EnterCheck { seat: 0 },
            inside!(4_294_967_301, 4_294_967_301),
        ),
        (
            Step::AdvanceRead { seat: 1 },
            Seen::Hand {
                value: 4_294_967_301,
            },
        ),
        (
            Step::AdvanceLoad { seat: 1 },
            Seen::Hand {
                value: 4_294_967_301,
            },
        ),
        (Step::AdvanceSwap { seat: 1 }, goal!(4_294_967_303, true)),
        (Step::Note { seat: 1 }, Seen::Holder { number: 2 }),
        (
            Step::PollRead { seat: 2, tag: 7 },
            Seen::Hand {
                value: 4_294_967_301,
            },
        ),
        (
            Step::PollLoad { seat: 2 },
            Seen::Hand {
                value: 4_294_967_303,
            },
        ),
        PRESENT,
        (Step::PollScan { seat: 2 }, word!(0, 5, 4_294_967_301)),
        (Step::PollScan { seat: 2 }, word!(1, 0, 4_294_967_301)),
        (
            Step::PollSwap { seat: 2 },
            Seen::No {
                read: 4_294_967_301,
            },
        ),
        (
            Step::PollRead { seat: 2, tag: 9 },
            Seen::Hand {
                value: 4_294_967_301,
            },
        ),
        (
            Step::PollLoad { seat: 2 },
            Seen::Yes {
                read: 4_294_967_301,
            },
        ),
    ],
    read_hand: 4_294_967_301,
    write_hand: 4_294_967_303,
};

/// A seat leaves, so a poll doesn't scan it; it comes while the next poll is under way, and its
/// section, whose mark is the write sequence, doesn't hold that poll back.
pub const SEAT_THAT_LEAVES: Schedule = Schedule {
    seats: 2,
    start: 1,
    window: 8,
    rows: &[
        (Step::Leave { seat: 0 }, Seen::Done),
        (Step::AdvanceRead { seat: 1 }, Seen::Hand { value: 1 }),
        (Step::AdvanceLoad { seat: 1 }, Seen::Hand { value: 1 }),
        (Step::AdvanceSwap { seat: 1 }, goal!(3, true)),
        (Step::Note { seat: 1 }, Seen::Holder { number: 2 }),
        (Step::PollRead { seat: 2, tag: 3 }, Seen::Hand { value: 1 }),
        (Step::PollLoad { seat: 2 }, Seen::Hand { value: 3 }),
        (Step::PollPresent { seat: 2 }, Seen::Present { seats: 2 }),
        (Step::Come { seat: 0 }, Seen::Done),
        (Step::EnterLoad { seat: 0 }, Seen::Hand { value: 3 }),
        (Step::EnterStore { seat: 0 }, Seen::Done),
        (Step::EnterCheck { seat: 0 }, inside!(3, 3)),
        (Step::PollScan { seat: 2 }, word!(1, 0, 3)),
        (Step::PollSwap { seat: 2 }, Seen::Yes { read: 3 }),
        (Step::PollRead { seat: 2, tag: 5 }, Seen::Hand { value: 3 }),
        (Step::PollLoad { seat: 2 }, Seen::Yes { read: 3 }),
    ],
    read_hand: 3,
    write_hand: 3,
};

#[test]
fn schedules_see_what_they_should(rt: HostRuntime) -> Result<(), Fail> {
    let schedules = [
        STALE_ENTER,
        OVERTAKEN,
        WINDOW_USED_UP,
        ACROSS_THE_WRAP,
        SPENT,
        EXCHANGE_THAT_FAILS,
        OLD_TAGS,
        SEAT_THAT_LEAVES,
    ];
    for schedule in schedules {
        let mut core = Core::new(rt.alloc(), schedule.seats, schedule.start, schedule.window)?;
        play(&rt, rt.alloc(), &mut core, schedule.rows)?;
        assert_eq!(rt; core.read_hand(), schedule.read_hand);
        assert_eq!(rt; core.write_hand(), schedule.write_hand);
    }
    Ok(())
}
