use smr_core::{Phase, StepRefused, Task};
use std::alloc::Global;
use std::test::Fail;
use trace_schedule::{ScheduleRefused, parse_schedule, schedule_text};

/// What a text of a schedule prints, or why its step is refused.
fn played(alloc: Global, text: &str) -> Result<Result<Vec<u8>, ScheduleRefused>, Fail> {
    let schedule = parse_schedule(alloc, text.as_bytes())?;
    Ok(schedule_text(alloc, &schedule))
}

#[test]
fn the_window_is_used_up(rt: HostRuntime) -> Result<(), Fail> {
    let text = "\
smr 1
clock 2 1 4
enter 0
advance 1
advance 1
advance 1
exit 0
end
";
    let expected = "\
hand 1
done
in 1 1
hand 1
hand 1
goal 3 moved
hand 1
hand 3
goal 5 moved
hand 1
toofar 1 5
done
hands 1 5
";
    assert_eq!(rt; played(rt.alloc(), text)??.as_slice(), expected.as_bytes());
    Ok(())
}

#[test]
fn a_seat_leaves_and_comes(rt: HostRuntime) -> Result<(), Fail> {
    let text = "\
smr 2
clock 2 1 8
enter 0
exit 0
leave 0
advance 1
note 1
poll 2 3
come 0
enter 0
end
";
    let expected = "\
hand 1
done
in 1 1
done
done
hand 1
hand 1
goal 3 moved
holder 2
hand 1
hand 3
present 2
word 1 0 least 3
yes 3
done
hand 3
done
in 3 3
hands 3 3
";
    assert_eq!(rt; played(rt.alloc(), text)??.as_slice(), expected.as_bytes());
    Ok(())
}

#[test]
fn a_refused_step_is_named_with_its_line(rt: HostRuntime) -> Result<(), Fail> {
    let rows = [
        (
            "smr 1\nclock 2 1 8\nstore 0\nenter 2\nend",
            3,
            StepRefused::OutOfTurn {
                seat: 0,
                phase: Phase::Outside,
                task: Task::Idle,
            },
            "line 3: out of turn",
        ),
        (
            "smr 1\nclock 2 1 8\nload 2\nend\n",
            3,
            StepRefused::NoSeat { seat: 2, seats: 2 },
            "line 3: no such seat",
        ),
        (
            "smr 2\nclock 2 1 8\nleave 0\nleave 0\nend\n",
            4,
            StepRefused::OutOfTurn {
                seat: 0,
                phase: Phase::Vacant,
                task: Task::Idle,
            },
            "line 4: out of turn",
        ),
        (
            "smr 2\nclock 2 1 8\nenter 0\nleave 0\nexit 0\nend\n",
            4,
            StepRefused::OutOfTurn {
                seat: 0,
                phase: Phase::Inside,
                task: Task::Idle,
            },
            "line 4: out of turn",
        ),
    ];
    for (text, line, refused, fault) in rows {
        let step = ScheduleRefused::Step { line, refused };
        assert_eq!(rt; played(rt.alloc(), text)?.err(), Some(step));
        assert_eq!(rt; format!(in rt.alloc(); "{step}")?.as_str(), fault);
    }
    let crowded = ScheduleRefused::Step {
        line: 65_538,
        refused: StepRefused::Crowded { holders: 65_536 },
    };
    assert_eq!(rt;
        format!(in rt.alloc(); "{crowded}")?.as_str(),
        "line 65538: too many holders"
    );
    Ok(())
}
