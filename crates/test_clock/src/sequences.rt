use smr_seq::*;

fn seq(raw: u32) -> Seq {
    Seq { raw }
}

#[test]
fn sequences_are_ordered_round_the_circle(rt: HostRuntime) {
    // self, other, self - other, lt, leq
    let rows = [
        (0xFFFF_FFFF, 1, -2, true, true),
        (1, 0xFFFF_FFFF, 2, false, false),
        (7, 7, 0, false, true),
        (0, 0x7FFF_FFFF, -0x7FFF_FFFF, true, true),
        (0x7FFF_FFFF, 0, 0x7FFF_FFFF, false, false),
        // At a distance of exactly 2^31 both directions are true.
        (3, 0x8000_0003, i32::MIN, true, true),
        (0x8000_0003, 3, i32::MIN, true, true),
    ];
    for (a, b, delta, lt, leq) in rows {
        assert_eq!(rt; seq(a).delta(seq(b)), delta, "{a} - {b}");
        assert_eq!(rt; seq(a).lt(seq(b)), lt, "{a} lt {b}");
        assert_eq!(rt; seq(a).leq(seq(b)), leq, "{a} leq {b}");
    }
}

#[test]
fn the_least_is_the_one_before(rt: HostRuntime) {
    // self, other, the least
    let rows = [
        (0xFFFF_FFFF, 1, 0xFFFF_FFFF),
        (1, 0xFFFF_FFFF, 0xFFFF_FFFF),
        (9, 5, 5),
        // Each is before the other, so the other is taken.
        (3, 0x8000_0003, 0x8000_0003),
    ];
    for (a, b, least) in rows {
        assert_eq!(rt; seq(a).least(seq(b)).raw, least, "{a} and {b}");
    }
}

#[test]
fn a_sequence_is_read_less_than_half_a_circle_below(rt: HostRuntime) {
    // the sequence, near which hand, the reading
    let rows = [
        (0xFFFF_FFFD, 0x1_0000_0003, Some(0xFFFF_FFFD)),
        (3, 0x1_0000_0003, Some(0x1_0000_0003)),
        (3, 0x8000_0002, Some(3)),
        (3, 0x8000_0003, None),
        (0xFFFF_FFFF, 1, None),
        (0xFFFF_FFFF, u64::MAX, Some(u64::MAX)),
        (0, 0, Some(0)),
    ];
    for (raw, near, reading) in rows {
        assert_eq!(rt; seq(raw).read(near), reading, "{raw} near {near}");
    }
}

#[test]
fn a_hand_is_read_back_from_its_low_half(rt: HostRuntime) {
    for hand in [1u64, 0xFFFF_FFFF, 0x1_0000_0001, 0x7FFF_FFFF_FFFF_FFFF] {
        assert_eq!(rt;
            Seq::low(hand).read(hand + 0x7FFF_FFFF),
            Some(hand),
            "{hand}"
        );
    }
}
