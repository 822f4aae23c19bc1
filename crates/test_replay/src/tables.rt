use std::alloc::Global;
use std::test::Fail;
use zone_stats::{
    ClockLine, HookLine, HookLines, KegLine, KegLines, Ledgers, Lines, NamesLine, Report, ZoneLine,
    ZoneName, table_text,
};

/// A report with this table and nothing else.
fn report_of(alloc: Global, lines: Vec<ZoneLine>) -> Report {
    Report {
        lines: Lines::from_vec(lines),
        ledgers: Ledgers::from_vec(Vec::new(alloc)),
        hooks: HookLines::from_vec(Vec::new(alloc)),
        kegs: KegLines::from_vec(Vec::new(alloc)),
        clock: None,
        names: None,
        detail: false,
        gave_up: 0,
    }
}

/// A report that shows lines of each kind.
fn whole_report(alloc: Global) -> Result<Report, Fail> {
    let mut report = report_of(alloc, vec![in alloc; plain_zone()?]?);
    report.hooks = HookLines::from_vec(hook_lines(alloc)?);
    report.kegs = KegLines::from_vec(keg_lines(alloc)?);
    report.clock = Some(CLOCK);
    report.names = Some(NAMES);
    report.detail = true;
    Ok(report)
}

fn plain_zone() -> Result<ZoneLine, Fail> {
    Ok(ZoneLine {
        name: name(b"box")?,
        size: 256,
        limit: 0,
        used: 2,
        free: 14,
        req: 3,
        fail: 0,
        xdomain: 0,
    })
}

fn hook_lines(alloc: Global) -> Result<Vec<HookLine>, Fail> {
    let plain = HookLine {
        name: name(b"box")?,
        inits: 16,
        ctors: 3,
        dtors: 1,
        finis: 0,
        deferred: 2,
    };
    let greatest = HookLine {
        name: name(b"dir")?,
        inits: 340282366920938463463374607431768211455,
        ctors: 8,
        dtors: 7,
        finis: 6,
        deferred: 18446744073709551615,
    };
    Ok(vec![in alloc; plain, greatest]?)
}

fn keg_lines(alloc: Global) -> Result<Vec<KegLine>, Fail> {
    let plain = KegLine {
        name: name(b"box")?,
        slabs: 1,
        free: 14,
        inits: 16,
        finis: 0,
    };
    let greatest = KegLine {
        name: name(b"dir")?,
        slabs: 4294967295,
        free: 18446744073709551615,
        inits: 64,
        finis: 340282366920938463463374607431768211455,
    };
    Ok(vec![in alloc; plain, greatest]?)
}

const CLOCK: ClockLine = ClockLine {
    read: 1,
    write: 1025,
    entered: 7,
    late: 2,
};

const NAMES: NamesLine = NamesLine {
    looks: 9,
    hits: 4,
    misses: 3,
    late: 2,
    binds: 5,
    unbound: 1,
    refused: 6,
};

fn name(bytes: &[u8]) -> Result<ZoneName, Fail> {
    Ok(ZoneName::new(bytes).ok_or("no name")?)
}

#[test]
fn the_table_is_padded_and_a_long_value_is_whole(rt: HostRuntime) -> Result<(), Fail> {
    let long = ZoneLine {
        name: name(b"abcdefghijklmnop")?,
        size: 4294967295,
        limit: 18446744073709551615,
        used: 123456789,
        free: 7,
        req: 12345678901,
        fail: 0,
        xdomain: 340282366920938463463374607431768211455,
    };
    let report = report_of(rt.alloc(), vec![in rt.alloc(); plain_zone()?, long]?);
    let text = table_text(rt.alloc(), &report)?;
    let expected = "\
ITEM              SIZE    LIMIT     USED     FREE        REQ     FAIL SLEEP  XDOMAIN
box                256        0        2       14          3        0     0        0
abcdefghijklmnop 4294967295 18446744073709551615 123456789        7 12345678901        0     0 340282366920938463463374607431768211455
";
    assert_eq!(rt; text.as_slice(), expected.as_bytes());
    Ok(())
}

#[test]
fn lines_of_each_kind_stand_in_their_order(rt: HostRuntime) -> Result<(), Fail> {
    let report = whole_report(rt.alloc())?;
    let text = table_text(rt.alloc(), &report)?;
    let expected = "\
ITEM              SIZE    LIMIT     USED     FREE        REQ     FAIL SLEEP  XDOMAIN
box                256        0        2       14          3        0     0        0
hooks box 16 3 1 0 2
hooks dir 340282366920938463463374607431768211455 8 7 6 18446744073709551615
keg box 1 14 16 0
keg dir 4294967295 18446744073709551615 64 340282366920938463463374607431768211455
clock 1 1025 7 2
names 9 4 3 2 5 1 6
";
    assert_eq!(rt; text.as_slice(), expected.as_bytes());
    Ok(())
}

#[test]
fn hooks_and_kegs_are_shown_only_if_asked_for(rt: HostRuntime) -> Result<(), Fail> {
    let mut report = whole_report(rt.alloc())?;
    report.detail = false;
    let text = table_text(rt.alloc(), &report)?;
    let expected = "\
ITEM              SIZE    LIMIT     USED     FREE        REQ     FAIL SLEEP  XDOMAIN
box                256        0        2       14          3        0     0        0
clock 1 1025 7 2
names 9 4 3 2 5 1 6
";
    assert_eq!(rt; text.as_slice(), expected.as_bytes());
    Ok(())
}

#[test]
fn a_line_that_is_not_there_is_left_out(rt: HostRuntime) -> Result<(), Fail> {
    let mut report = report_of(rt.alloc(), Vec::new(rt.alloc()));
    report.detail = true;
    let text = table_text(rt.alloc(), &report)?;
    let expected = "\
ITEM              SIZE    LIMIT     USED     FREE        REQ     FAIL SLEEP  XDOMAIN
";
    assert_eq!(rt; text.as_slice(), expected.as_bytes());

    report.names = Some(NAMES);
    let text = table_text(rt.alloc(), &report)?;
    let expected = "\
ITEM              SIZE    LIMIT     USED     FREE        REQ     FAIL SLEEP  XDOMAIN
names 9 4 3 2 5 1 6
";
    assert_eq!(rt; text.as_slice(), expected.as_bytes());
    Ok(())
}
