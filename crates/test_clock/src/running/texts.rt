use super::*;
use smr_clock::Memory;

#[test]
fn a_refusal_says_what_is_wrong_and_where_the_hands_are(rt: HostRuntime) -> Result<(), Fail> {
    let late = Overtaken {
        loaded: 1,
        found: 9,
    };
    let too_far = AdvanceRefused::TooFar { read: 3, write: 11 };
    let spent = AdvanceRefused::Spent {
        write: 9_223_372_036_854_775_807,
    };
    let texts = [
        format!(in rt.alloc(); "{late}")?,
        format!(in rt.alloc(); "{too_far}")?,
        format!(in rt.alloc(); "{spent}")?,
        format!(in rt.alloc(); "{Memory}")?,
    ];
    let wanted = [
        "too late to enter: the write hand went from 1 to 9",
        "too far to advance: the read hand is 3, the write hand 11",
        "no hand is left: the write hand is 9223372036854775807",
        "out of memory, or too many handles",
    ];
    for (text, want) in texts.iter().zip(wanted) {
        assert_eq!(rt; text.as_str(), want);
    }
    Ok(())
}
