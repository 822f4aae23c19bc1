//! Sets at the borders of words, and counts against the plain sum.

use slab_bits::{Bits, Wide, count_lanes};
use std::test::Fail;

/// The set of these places, those past the end left out.
fn set_of(places: &[u32]) -> Bits {
    let mut bits = Bits::empty();
    for &place in places {
        if place < 256 {
            bits.set(place);
        }
    }
    bits
}

/// The bits that are set, word by word.
fn plain_count(words: &[u64]) -> u64 {
    let mut count: u64 = 0;
    for word in words {
        count = count.wrapping_add(word.count_ones() as u64);
    }
    count
}

#[test]
fn finds_the_least_member_at_the_borders_of_words(rt: HostRuntime) {
    let bits = set_of(&[63, 64, 128, 255]);
    let rows = [
        (0, Some(63)),
        (63, Some(63)),
        (64, Some(64)),
        (65, Some(128)),
        (128, Some(128)),
        (129, Some(255)),
        (255, Some(255)),
        (256, None),
        (u32::MAX, None),
    ];
    for (from, least) in rows {
        assert_eq!(rt; bits.next(from), least);
    }
    assert_eq!(rt; bits.first(), Some(63));
    assert_eq!(rt; bits.count(), 4);
    assert_eq!(rt; Bits::empty().first(), None);
}

#[test]
fn sets_and_clears_at_the_borders_of_words(rt: HostRuntime) {
    let mut bits = set_of(&[0, 63, 64, 255]);
    bits.clear(63);
    bits.clear(255);
    let rows = [
        (0, true),
        (62, false),
        (63, false),
        (64, true),
        (65, false),
        (255, false),
        (256, false),
        (320, false),
    ];
    for (place, member) in rows {
        assert_eq!(rt; bits.has(place), member);
    }
}

#[test]
fn takes_the_places_below_a_number(rt: HostRuntime) {
    for n in [0, 1, 63, 64, 65, 128, 255, 256] {
        let bits = Bits::first_n(n);
        assert_eq!(rt; bits.count(), n);
        assert_eq!(rt; bits.has(n), false);
        assert_eq!(rt; bits.next(n), None);
    }
}

#[test]
fn counts_lanes_as_the_plain_sum_does(rt: HostRuntime) -> Result<(), Fail> {
    for length in [0, 1, 7, 8, 9, 1000] {
        let mut words = Vec::new(rt.alloc());
        for index in 0..length {
            words.push(u64::MAX.wrapping_mul(index) ^ 0x0123_4567_89AB_CDEF)?;
        }
        assert_eq!(rt; count_lanes(&words), plain_count(&words));
    }
    assert_eq!(rt; count_lanes(&[u64::MAX, 0, 1, 1 << 63]), 66);
    Ok(())
}

#[test]
fn finds_the_ends_of_a_wide_set_at_the_borders_of_words(rt: HostRuntime) {
    let mut wide = Wide::empty();
    assert_eq!(rt; (wide.first(), wide.last(), wide.count()), (None, None, 0));
    wide.set(63);
    wide.set(64);
    wide.set(1023);
    assert_eq!(rt;
        (wide.first(), wide.last(), wide.count()),
        (Some(63), Some(1023), 3)
    );
    assert_eq!(rt; (wide.has(1023), wide.has(1024)), (true, false));
    wide.clear(63);
    assert_eq!(rt; (wide.first(), wide.last()), (Some(64), Some(1023)));
    wide.clear(1023);
    assert_eq!(rt;
        (wide.first(), wide.last(), wide.count()),
        (Some(64), Some(64), 1)
    );
    wide.clear(64);
    assert_eq!(rt; (wide.first(), wide.last(), wide.count()), (None, None, 0));
}
