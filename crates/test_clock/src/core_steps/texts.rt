use super::*;

#[test]
fn a_refusal_says_what_is_wrong_with_which_number(rt: HostRuntime) -> Result<(), Fail> {
    let rows = [
        (
            CoreRefused::Seats { seats: 65 },
            "65 seats: a clock has from 1 to 64",
        ),
        (
            CoreRefused::Even { start: 2 },
            "start 2 is even: hands are odd",
        ),
        (
            CoreRefused::High {
                start: 9_223_372_036_854_775_809,
            },
            "start 9223372036854775809 is 2^63 or more",
        ),
        (
            CoreRefused::Window { window: 5 },
            "window 5 is no even number from 4 to 2^30",
        ),
        (CoreRefused::Memory, "out of memory"),
    ];
    for (refused, text) in rows {
        assert_eq!(rt; format!(in rt.alloc(); "{refused}")?.as_str(), text);
    }
    Ok(())
}
