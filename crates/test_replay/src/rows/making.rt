use name_rows::{NamesRefused, make};
use smr_clock::ClockRefused;
use std::test::Fail;

#[test]
fn numbers_out_of_range_are_refused_in_order(rt: HostRuntime) -> Result<(), Fail> {
    let seats = ClockRefused::Seats { seats: 0 };
    let version = 17_592_186_044_416;
    let rows = [
        (
            0,
            0,
            65_537,
            version,
            NamesRefused::Clock { refused: seats },
        ),
        (1, 4097, 65_537, version, NamesRefused::Rows { rows: 4097 }),
        (1, 0, 65_537, version, NamesRefused::Rows { rows: 0 }),
        (
            1,
            4096,
            65_537,
            version,
            NamesRefused::Entries { entries: 65_537 },
        ),
        (1, 4096, 65_536, version, NamesRefused::Version { version }),
    ];
    for (seats, rows, entries, version, refused) in rows {
        let made = make(rt.alloc(), seats, 1, 8, rows, entries, version);
        assert_eq!(rt; made.err(), Some(refused));
    }
    Ok(())
}
