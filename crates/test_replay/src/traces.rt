use std::process::Abort;
use std::test::Fail;
use trace_text::{Between, Op, ParseRefused, TraceKind, TraceRefused, Version, parse};

const ALLOC: Op = Op::Alloc {
    zone: 0,
    slot: 0,
    arg: 0,
    reserve: false,
};

const FREE: Op = Op::Free { slot: 7 };

const GIVE: Between = Between::Give {
    giver: 0,
    slot: 0,
    taker: 1,
    slot2: 7,
};

const LIMIT: Between = Between::SetMax { zone: 0, limit: 2 };

/// What each of two workers does in a round, and the lines behind it.
type Row<'a> = (&'a [Op], &'a [Op], &'a [Between]);

/// Compares the rounds of a trace of two workers over one zone, with these lines.
fn expect_rounds<R: Abort + AllocGlobal>(rt: &R, lines: &str, rows: &[Row]) -> Result<(), Fail> {
    let text = format!(in rt.alloc();
        "uma 3\nworkers 2\ndomains 1\nclock 1 8\nzone box 256 4 4 0 0 plain\n{lines}end\n"
    )?;
    let trace = parse(rt.alloc(), text.as_bytes())?;
    assert_eq!(rt; trace.rounds.len(), rows.len());
    for (round, row) in trace.rounds.as_slice().iter().zip(rows) {
        let ops = round.ops.as_slice();
        assert_eq!(rt; ops.len(), 2);
        assert_eq!(rt; ops[0].as_slice(), row.0);
        assert_eq!(rt; ops[1].as_slice(), row.1);
        assert_eq!(rt; round.between.as_slice(), row.2);
    }
    Ok(())
}

#[test]
fn round_lines_cut_the_lines_into_rounds(rt: HostRuntime) -> Result<(), Fail> {
    expect_rounds(
        &rt,
        "alloc 0 box 0\nround\ngive 0 0 1 7\nfree 1 7\n",
        &[(&[ALLOC], &[], &[GIVE]), (&[], &[FREE], &[])],
    )?;
    expect_rounds(&rt, "", &[(&[], &[], &[])])?;
    expect_rounds(&rt, "round\n", &[(&[], &[], &[]), (&[], &[], &[])])
}

#[test]
fn a_worker_leaves_and_comes_back(rt: HostRuntime) -> Result<(), Fail> {
    expect_rounds(
        &rt,
        "alloc 0 box 0\naway 1\nround\ngive 0 0 1 7\nback 1\nfree 1 7\n",
        &[
            (&[ALLOC], &[Op::Away], &[GIVE]),
            (&[], &[Op::Back, FREE], &[]),
        ],
    )
}

/// What stands behind the first line of a trace of version 2: four requests, a lower limit behind a round, and more.
const LOWERED: &str = "\
workers 1
domains 1
zone box 256 4 4 4 0 plain
alloc 0 box 0
alloc 0 box 1
alloc 0 box 2
alloc 0 box 3
round
setmax box 2
alloc 0 box 4
free 0 0
free 0 1
alloc 0 box 5
end
";

#[test]
fn a_limit_changes_between_two_rounds(rt: HostRuntime) -> Result<(), Fail> {
    let text = format!(in rt.alloc(); "uma 2\n{LOWERED}")?;
    let trace = parse(rt.alloc(), text.as_bytes())?;
    assert_eq!(rt; trace.version, Version::Two);
    assert_eq!(rt; trace.rounds.len(), 2);
    assert_eq!(rt;
        trace.rounds.as_slice()[0].between.as_slice(),
        [LIMIT].as_slice()
    );
    let text = "uma 2\nworkers 2\ndomains 1\nzone bag 8 1 4 0 0 plain\nsecond box bag 4 9 plain\n\
        alloc 0 box 0\nround\nsetmax box 1000000\ngive 0 0 1 7\nsetmax bag 0\nend\n";
    let trace = parse(rt.alloc(), text.as_bytes())?;
    let betweens = [
        Between::SetMax {
            zone: 1,
            limit: 1_000_000,
        },
        GIVE,
        Between::SetMax { zone: 0, limit: 0 },
    ];
    assert_eq!(rt;
        trace.rounds.as_slice()[0].between.as_slice(),
        betweens.as_slice()
    );
    Ok(())
}

#[test]
fn a_version_is_that_of_the_first_line(rt: HostRuntime) -> Result<(), Fail> {
    for (first, version) in [
        ("uma 1", Version::One),
        (" uma\t2", Version::Two),
        ("uma  3", Version::Three),
    ] {
        let text = format!(in rt.alloc(); "{first}\nworkers 1\ndomains 1\nend\n")?;
        let trace = parse(rt.alloc(), text.as_bytes())?;
        assert_eq!(rt; trace.version, version);
    }
    Ok(())
}

#[test]
fn version_one_has_no_word_for_a_limit(rt: HostRuntime) -> Result<(), Fail> {
    let text = format!(in rt.alloc(); "uma 1\n{LOWERED}")?;
    let refused = TraceRefused {
        line: 10,
        kind: TraceKind::Word,
    };
    let found = parse(rt.alloc(), text.as_bytes()).err();
    assert_eq!(rt; found, Some(ParseRefused::Trace { refused }));
    Ok(())
}

#[test]
fn a_limit_that_may_not_stand_is_refused(rt: HostRuntime) -> Result<(), Fail> {
    let rows = [
        (1, "round\nsetmax box 2", 6, TraceKind::Word),
        (1, "setmax box 2", 5, TraceKind::Word),
        (2, "setmax box 2", 5, TraceKind::Place),
        (2, "round\nalloc 0 box 0\nsetmax box 2", 7, TraceKind::Place),
        (2, "round\nsetmax box", 6, TraceKind::Fields),
        (2, "round\nsetmax b*x 02", 6, TraceKind::Name),
        (2, "round\nsetmax bax 02", 6, TraceKind::Number),
        (2, "round\nsetmax bax 1000001", 6, TraceKind::Range),
        (2, "round\nsetmax bax 2", 6, TraceKind::NoZone),
        (2, "round\nsetmax box 2\nsetmax dir 2", 7, TraceKind::NoZone),
        (4, "round\nsetmax box 2", 1, TraceKind::Head),
    ];
    for (version, lines, line, kind) in rows {
        let text = format!(in rt.alloc();
            "uma {version}\nworkers 1\ndomains 1\nzone box 256 4 4 0 0 plain\n{lines}\nend\n"
        )?;
        let refused = TraceRefused { line, kind };
        let found = parse(rt.alloc(), text.as_bytes()).err();
        assert_eq!(rt; found, Some(ParseRefused::Trace { refused }));
    }
    Ok(())
}

#[test]
fn a_worker_that_may_not_leave_or_come_is_refused(rt: HostRuntime) -> Result<(), Fail> {
    let rows = [
        (2, "away 0", 6, TraceKind::Word),
        (2, "back 0", 6, TraceKind::Word),
        (3, "back 0", 6, TraceKind::Present),
        (3, "enter 0\nback 0", 7, TraceKind::Present),
        (3, "enter 0\naway 0", 7, TraceKind::SectionOpen),
        (3, "away 0\naway 0", 7, TraceKind::Absent),
        (3, "away 0\nenter 0", 7, TraceKind::Absent),
        (3, "away 0\nexit 0", 7, TraceKind::SectionClosed),
        (3, "away 0\nfree 0 0", 7, TraceKind::SlotEmpty),
        (3, "away 0\ntrim 0 box", 7, TraceKind::Absent),
    ];
    for (version, lines, line, kind) in rows {
        let text = format!(in rt.alloc();
            "uma {version}\nworkers 1\ndomains 1\nclock 1 8\nzone box 256 4 4 0 0 plain\n{lines}\nend\n"
        )?;
        let refused = TraceRefused { line, kind };
        let found = parse(rt.alloc(), text.as_bytes()).err();
        assert_eq!(rt; found, Some(ParseRefused::Trace { refused }));
    }
    Ok(())
}
