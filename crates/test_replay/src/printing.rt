use listed::Listed;
use std::alloc::{AllocError, Global};
use std::test::Fail;
use trace_print::print;
use trace_text::{
    Between, ClockHead, Head, NamesHead, Op, Round, Trace, Version, ZoneHead, ZoneKind,
};
use zone_stats::ZoneName;

/// What is printed of `whole`.
const WHOLE: &str = "\
uma 3
workers 2
domains 4
clock 5 8
detail
zone box 64 10 8 500 3 plain
second late box 16 0 smr
names cache 128 4 32
alloc 0 box 7 arg 9 reserve
alloc 0 late 8
enter 0
bind 0 11 12
look 0 11
unbind 0 11
exit 0
away 0
alloc 1 late 2 arg 254
alloc 1 box 1 reserve
free 1 1
round
give 0 7 1 1
setmax late 1000000
setmax box 0
give 0 8 1 3
back 0
trim 0 box
drain 1 late
drainseat 1 box
prealloc 1 box 20
end
";

/// What is printed of `bare` behind the first line.
const BARE: &str = "workers 1\ndomains 1\nround\nround\nfree 0 65535\nend\n";

fn request(zone: u32, slot: u32, arg: u64, reserve: bool) -> Op {
    Op::Alloc {
        zone,
        slot,
        arg,
        reserve,
    }
}

/// Worker 0 gives what is in its slot to worker 1.
fn give(slot: u32, slot2: u32) -> Between {
    Between::Give {
        giver: 0,
        slot,
        taker: 1,
        slot2,
    }
}

/// The zone at this place gets another limit.
fn limit(zone: u32, limit: u64) -> Between {
    Between::SetMax { zone, limit }
}

fn name(bytes: &[u8]) -> Result<ZoneName, Fail> {
    Ok(ZoneName::new(bytes).ok_or("no name")?)
}

fn zones(alloc: Global) -> Result<Vec<ZoneHead>, Fail> {
    let primary = ZoneHead {
        name: name(b"box")?,
        parent: None,
        size: 64,
        slabs: 10,
        bucket: 8,
        limit: 500,
        reserve: 3,
        kind: ZoneKind::Plain,
    };
    let secondary = ZoneHead {
        name: name(b"late")?,
        parent: Some(0),
        size: 64,
        slabs: 10,
        bucket: 16,
        limit: 0,
        reserve: 3,
        kind: ZoneKind::Smr,
    };
    Ok(vec![in alloc; primary, secondary]?)
}

/// A round of these operations, one slice a worker.
fn round(alloc: Global, workers: &[&[Op]], betweens: &[Between]) -> Result<Round, AllocError> {
    let mut lists = Vec::new(alloc);
    for ops in workers {
        lists.push(Listed::from_vec(ops.to_vec(alloc)?))?;
    }
    Ok(Round {
        ops: Listed::from_vec(lists),
        between: Listed::from_vec(betweens.to_vec(alloc)?),
    })
}

/// The rounds of `whole`, each of two workers.
fn rounds(alloc: Global) -> Result<Vec<Round>, AllocError> {
    let ops = [
        request(0, 7, 9, true),
        request(1, 8, 0, false),
        Op::Enter,
        Op::Bind { key: 11, value: 12 },
        Op::Look { key: 11 },
        Op::Unbind { key: 11 },
        Op::Exit,
        Op::Away,
    ];
    let others = [
        request(1, 2, 254, false),
        request(0, 1, 0, true),
        Op::Free { slot: 1 },
    ];
    let betweens = [give(7, 1), limit(1, 1_000_000), limit(0, 0), give(8, 3)];
    let first = round(alloc, &[&ops, &others], &betweens)?;
    let ops = [Op::Back, Op::Trim { zone: 0 }];
    let others = [
        Op::Drain { zone: 1 },
        Op::DrainSeat { zone: 0 },
        Op::Prealloc { zone: 0, items: 20 },
    ];
    let second = round(alloc, &[&ops, &others], &[])?;
    Ok(vec![in alloc; first, second]?)
}

/// A trace of version 3, of all header lines and all operations.
fn whole(alloc: Global) -> Result<Trace, Fail> {
    let names = NamesHead {
        name: name(b"cache")?,
        rows: 128,
        slabs: 4,
        bucket: 32,
    };
    let head = Head {
        workers: 2,
        domains: 4,
        clock: Some(ClockHead {
            start: 5,
            window: 8,
        }),
        detail: true,
        zones: Listed::from_vec(zones(alloc)?),
        names: Some(names),
    };
    Ok(Trace {
        version: Version::Three,
        head,
        rounds: Listed::from_vec(rounds(alloc)?),
    })
}

/// A trace of no zone and no more header lines than there must be, of three rounds of which two are empty.
fn bare(alloc: Global, version: Version) -> Result<Trace, Fail> {
    let head = Head {
        workers: 1,
        domains: 1,
        clock: None,
        detail: false,
        zones: Listed::from_vec(Vec::new(alloc)),
        names: None,
    };
    let first = round(alloc, &[&[]], &[])?;
    let second = round(alloc, &[&[]], &[])?;
    let third = round(alloc, &[&[Op::Free { slot: 65535 }]], &[])?;
    Ok(Trace {
        version,
        head,
        rounds: Listed::from_vec(vec![in alloc; first, second, third]?),
    })
}

#[test]
fn a_trace_is_printed_line_by_line(rt: HostRuntime) -> Result<(), Fail> {
    let text = print(rt.alloc(), &whole(rt.alloc())?)?;
    assert_eq!(rt; text.as_slice(), WHOLE.as_bytes());
    Ok(())
}

#[test]
fn each_version_is_printed(rt: HostRuntime) -> Result<(), Fail> {
    for (version, number) in [(Version::One, 1), (Version::Two, 2), (Version::Three, 3)] {
        let text = print(rt.alloc(), &bare(rt.alloc(), version)?)?;
        let expected = format!(in rt.alloc(); "uma {number}\n{BARE}")?;
        assert_eq!(rt; text.as_slice(), expected.as_bytes());
    }
    Ok(())
}
