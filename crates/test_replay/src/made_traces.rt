//! Made traces against those of a second generator, and read back.
use std::process::Abort;
use std::test::Fail;
use trace_gen::make_trace;
use trace_print::print;
use trace_text::parse;
use vectors::{HEAD, rows};

mod vectors;

/// The text of a made trace.
fn made_text<R: Abort + AllocGlobal>(
    rt: &R,
    seed: u64,
    workers: u32,
    ops: u32,
) -> Result<Vec<u8>, Fail> {
    assert!(rt; 1 <= workers && workers <= 16 && 1 <= ops && ops <= 50_000);
    let trace = make_trace(rt.alloc(), seed, workers, ops)?;
    Ok(print(rt.alloc(), &trace)?)
}

/// The sum of a text, by FNV-1a of 64 bits.
fn sum_of(text: &[u8]) -> u64 {
    let mut sum: u64 = 0xcbf2_9ce4_8422_2325;
    for byte in text {
        sum = (sum ^ *byte as u64).wrapping_mul(0x0000_0100_0000_01b3);
    }
    sum
}

#[test]
fn small_traces_are_those_of_a_second_generator(rt: HostRuntime) -> Result<(), Fail> {
    for (seed, workers, ops, first, lines) in rows() {
        let text = made_text(&rt, seed, workers, ops)?;
        let mut expected = Vec::new(rt.alloc());
        for part in [first, HEAD, lines] {
            expected.extend_from_slice(part.as_bytes())?;
        }
        assert_eq!(rt; text.as_slice(), expected.as_slice());
    }
    Ok(())
}

#[test]
fn long_traces_are_those_of_a_second_generator_and_are_read_back(
    rt: HostRuntime,
) -> Result<(), Fail> {
    let rows = [
        (1, 1, 50_000, 674_010, 6_584_596_869_762_766_998),
        (7, 4, 20_000, 271_406, 17_731_664_146_928_667_927),
        (2, 16, 50_000, 688_811, 2_549_954_594_894_331_862),
    ];
    for (seed, workers, ops, bytes, sum) in rows {
        let text = made_text(&rt, seed, workers, ops)?;
        assert_eq!(rt; text.len(), bytes);
        assert_eq!(rt; sum_of(text.as_slice()), sum);
        let trace = parse(rt.alloc(), text.as_slice())?;
        let again = print(rt.alloc(), &trace)?;
        assert!(rt; again.as_slice() == text.as_slice());
    }
    Ok(())
}
