use std::test::Fail;
use zone_stats::{Refusal, SeatLedger, ZoneName, sum};

const SERVED: SeatLedger = SeatLedger {
    requests: 3,
    allocs: 3,
    fails: 0,
    turned: 0,
    frees: 1,
    cross: 0,
    last: None,
};

const REFUSED: SeatLedger = SeatLedger {
    requests: 1,
    allocs: 0,
    fails: 1,
    turned: 1,
    frees: 4,
    cross: 2,
    last: Some(Refusal::AtLimit { out: 4, limit: 4 }),
};

#[test]
fn a_line_adds_up_the_seats_and_stops_at_0(rt: HostRuntime) -> Result<(), Fail> {
    let name = ZoneName::new(b"box").ok_or("no name")?;
    let cases: [(&[SeatLedger], u64, u64, [u128; 5]); 4] = [
        (&[], 0, 0, [0, 0, 0, 0, 0]),
        (&[SERVED], 2, 14, [2, 14, 3, 0, 0]),
        (&[SERVED, REFUSED], 2, 14, [0, 16, 3, 1, 2]),
        (&[SERVED], 1, 0, [2, 0, 3, 0, 0]),
    ];
    for (ledgers, out, keg_free, expected) in cases {
        let line = sum(name.copied(), 256, 7, ledgers, out, keg_free);
        assert_eq!(rt; (&line.name, line.size, line.limit), (&name, 256, 7));
        assert_eq!(rt;
            [line.used, line.free, line.req, line.fail, line.xdomain],
            expected
        );
    }
    Ok(())
}
