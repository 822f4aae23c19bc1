use smr_core::Step;
use std::alloc::Global;
use std::process::Abort;
use std::test::Fail;
use trace_schedule::{ParseRefused, TraceKind, TraceRefused, Turn, TurnLine, parse_schedule};

#[test]
fn a_schedule_is_read_in_every_spelling(rt: HostRuntime) -> Result<(), Fail> {
    let text = "# one poll\n\n smr\t1 \r\nclock 64 9223372036854775807 1073741824\n\
        \tpoll 7  4294967295\n #note 0\nnote 0\nend\n\n# behind the end";
    let schedule = parse_schedule(rt.alloc(), text.as_bytes())?;
    assert_eq!(rt; (schedule.seats, schedule.window), (64, 1 << 30));
    assert_eq!(rt; schedule.start, 9_223_372_036_854_775_807);
    let lines = [
        TurnLine {
            line: 5,
            turn: Turn::Poll {
                seat: 7,
                tag: 4_294_967_295,
            },
        },
        TurnLine {
            line: 7,
            turn: Turn::One {
                step: Step::Note { seat: 0 },
            },
        },
    ];
    assert_eq!(rt; schedule.lines.as_slice(), lines.as_slice());
    Ok(())
}

fn one(step: Step) -> Turn {
    Turn::One { step }
}

/// Each line, in this version, is read as its turn.
fn reads(rt: &impl Abort, alloc: Global, version: u32, rows: &[(&str, Turn)]) -> Result<(), Fail> {
    for (line, turn) in rows {
        let text = format!(in alloc; "smr {version}\nclock 2 1 8\n{line}\nend")?;
        let schedule = parse_schedule(alloc, text.as_bytes())?;
        let line = TurnLine {
            line: 3,
            turn: *turn,
        };
        assert_eq!(rt; schedule.lines.as_slice(), [line].as_slice());
    }
    Ok(())
}

#[test]
fn each_word_takes_its_step(rt: HostRuntime) -> Result<(), Fail> {
    let rows = [
        ("load 1", one(Step::EnterLoad { seat: 1 })),
        ("store 1", one(Step::EnterStore { seat: 1 })),
        ("check 1", one(Step::EnterCheck { seat: 1 })),
        ("exit 1", one(Step::Clear { seat: 1 })),
        ("aread 1", one(Step::AdvanceRead { seat: 1 })),
        ("aload 1", one(Step::AdvanceLoad { seat: 1 })),
        ("aswap 1", one(Step::AdvanceSwap { seat: 1 })),
        ("pread 1 2", one(Step::PollRead { seat: 1, tag: 2 })),
        ("pload 1", Turn::PollLoads { seat: 1 }),
        ("pscan 1", one(Step::PollScan { seat: 1 })),
        ("pswap 1", one(Step::PollSwap { seat: 1 })),
        ("note 1", one(Step::Note { seat: 1 })),
        ("absorb 1 2", one(Step::Absorb { seat: 1, note: 2 })),
        ("enter 1", Turn::Enter { seat: 1 }),
        ("advance 1", Turn::Advance { seat: 1 }),
        ("poll 1 2", Turn::Poll { seat: 1, tag: 2 }),
    ];
    reads(&rt, rt.alloc(), 1, &rows)
}

#[test]
fn version_two_has_words_for_seats_that_leave_and_come(rt: HostRuntime) -> Result<(), Fail> {
    let rows = [
        ("leave 1", one(Step::Leave { seat: 1 })),
        ("come 1", one(Step::Come { seat: 1 })),
        ("pload 1", one(Step::PollLoad { seat: 1 })),
        ("ppres 1", one(Step::PollPresent { seat: 1 })),
        ("pscan 1", one(Step::PollScan { seat: 1 })),
        ("poll 1 2", Turn::Poll { seat: 1, tag: 2 }),
    ];
    reads(&rt, rt.alloc(), 2, &rows)
}

#[test]
fn the_first_bad_line_is_named(rt: HostRuntime) -> Result<(), Fail> {
    let text = "smr 1\nclock 2 1 8\n# a comment\nload x\nclock 2 1 8\nend\n\x07";
    let refused = TraceRefused {
        line: 4,
        kind: TraceKind::Number,
    };
    let found = parse_schedule(rt.alloc(), text.as_bytes()).err();
    assert_eq!(rt; found, Some(ParseRefused::Trace { refused }));
    Ok(())
}
