//! The workers of a replay: before their first turns, at work, and at the end, and the whole report.
ghost use Rattle.std.specs.Prelude.{◌≤◌, IfOk, IsTrue, length, ◌≡◌, ◌<◌, ◌^◌, ℕ, Some, slice_get, sum, is_some};
ghost use Rattle.trace_text.specs.Limits.{IsWithin};
ghost use Rattle.uma_replay.specs.Playing.{AreFirst, AllBack, gave_ups_of, name_works_of};
ghost use Rattle.smr_clock.specs.Belongs.{IsPassOf};
ghost use Rattle.replay_worker.specs.Clocks.{KnowsBeginning};
ghost use Rattle.trace_text.specs.Valid.{IsValid};
ghost use Rattle.replay_worker.specs.declared.worker_run.WorkerRun.{WorkerRun};
ghost use Rattle.replay_worker.specs.Attendance.{worker_in};
ghost use Rattle.replay_worker.specs.Together.{crew};
ghost use Rattle.replay_rounds.specs.Clock.{ReadsHands};
ghost use Rattle.replay_rounds.specs.Closes.{AllClose};
ghost use Rattle.uma_replay.specs.Ending.{CanEnd, HasLooked, IsEndOf, TakesStock};
ghost use Rattle.uma_replay.specs.Hall.{AreDone};
ghost use Rattle.trace_text.specs.Lines.{lines_of};
ghost use Rattle.uma_replay.specs.Replaying.{HasReplayed};
ghost use Rattle.uma_replay.specs.Counting.{entry_zone as zone_of};
ghost use Rattle.uma_replay.specs.Names.{CountsFit, HasNames, IsNamesPart, IsWhole, SeatsFit};

use crate::Memory;
use crate::limits::check_ledgers;
use crate::names::{NameTotals, NamesPart, name_ledgers, names_line, take_names, with_names};
use crate::report::{Stock, hook_line, keg_line, report_of, zone_line};
use listed::Listed;
use replay_rounds::{Setting, clock_head, play, read_hands, set_up_with, take_totals};
use replay_worker::{
    CountedZone, Gate, NameCalls, NameWork, ReclaimCalls, Shared, Worker, WorkerRun,
};
use smr_clock::{Clock, Host, Note};
use std::alloc::Global;
use std::sync::Wait;
use std::thread::Threads;
use trace_text::{NamesHead, Trace, ZoneHead, ZoneKind};
use uma_keg::Census;
use zone_stats::Report;

/// The zones, in order of naming. Contracts see the list of them.
pub type ZoneList<H> = Listed<CountedZone<H>>;

/// The workers, in order of number. Contracts see the list of them.
pub type Workers<H> = Listed<Worker<H>>;

/// What each worker has of the names, in order of number. Contracts see the list of them.
pub type NameWorks<N> = Listed<NameWork<N>>;

/// How often each worker gave up waiting for its gate, in order of number. Contracts see the list of them.
pub type GaveUps = Listed<u64>;

/// A census of each keg, in the order of the primary zones. Contracts see the list of them.
pub type CensusList = Listed<Census>;

/// All that a replay leaves behind: the zones and their clock, who keeps the names, the workers with their seats, passes and
/// live items, what each has of the names and how often it gave up waiting, and of each keg but that of the names the census
/// from which the report was made.
#[derive(Drop)]
pub struct Hall<N: NameCalls> {
    pub zones: ZoneList<N::H>,
    pub clock: Clock<N::H>,
    pub names: N::Cache,
    pub workers: Workers<N::H>,
    pub name_works: NameWorks<N>,
    pub gave_ups: GaveUps,
    pub censuses: CensusList,
}

/// What a replay made: its report, and what it leaves behind.
#[derive(Drop)]
pub struct Played<N: NameCalls> {
    pub report: Report,
    pub hall: Hall<N>,
}

/// The workers before their first turns, each with a seat of the names in its domain. Waits as the seats do.
pub(crate) fn begin<N: NameCalls, R: Wait>(
    rt: &R,
    alloc: Global,
    names: &N,
    cache: &N::Cache,
    domains: u8,
    workers: Vec<Worker<N::H>>,
) -> Result<Vec<WorkerRun<N>>, Memory>
    requires domains { IsWithin 1 4 domains }
    requires few { length workers.items ≤ 16 }
    requires served { IsTrue N.serves → domains ≤ (N.sizes_of cache.now).domains }
    ensures { IfOk result (λ runs. AreFirst N.NameCalls cache.now domains workers.items runs.items) }
{
    let mut runs = Vec::with_capacity(alloc, workers.len())?;
    for worker in workers {
        let domain = runs.len() as u8 % domains;
        let seat = names.seat(cache, rt, alloc, domain)?;
        runs.push(WorkerRun::new(worker, seat))?;
    }
    Ok(runs)
}

/// Ends a replay whose hall has no censuses yet: reads the clock's hands, takes a census of each keg, and makes the report.
pub(crate) fn close<N: NameCalls, R: Wait>(
    rt: &R,
    alloc: Global,
    trace: &Trace,
    names: &N,
    begun: Note<N::H>,
    hall: Hall<N>,
) -> Result<Played<N>, Memory>
    requires can { CanEnd N.NameCalls trace.now hall }
    requires begun { KnowsBeginning hall.clock begun }
    ensures { IfOk result (IsEndOf N.NameCalls trace.now hall.clock hall.gave_ups) }
{
    let mut workers = hall.workers.into_vec();
    let stock = take_stock(
        rt,
        alloc,
        trace,
        &hall.clock,
        hall.zones.as_slice(),
        workers.as_mut_slice(),
        begun,
    )?;
    let hall = Hall {
        workers: Listed::from_vec(workers),
        ..hall
    };
    reported(rt, alloc, trace, names, hall, stock)
}

/// Reads the clock's hands, and takes a census of each keg.
fn take_stock<H: Host, R: Wait>(
    rt: &R,
    alloc: Global,
    trace: &Trace,
    clock: &Clock<H>,
    zones: &[CountedZone<H>],
    workers: &mut [Worker<H>],
    begun: Note<H>,
) -> Result<Stock, Memory>
    requires valid { IsValid trace.now }
    requires done { AreDone trace.now zones.now clock.now workers.old }
    requires begun { KnowsBeginning clock.now begun }
    ensures { IfOk result (TakesStock trace.now zones.now clock.now workers.old workers.new) }
{
    let (read, write) = closing_hands(trace, clock, zones, workers, begun);
    let totals = take_totals(rt, alloc, &trace.head, zones, clock, workers)?;
    Ok(Stock {
        read,
        write,
        totals,
    })
}

/// Reads the clock's hands, the read sequence first.
fn closing_hands<H: Host>(
    trace: &Trace,
    clock: &Clock<H>,
    zones: &[CountedZone<H>],
    workers: &mut [Worker<H>],
    begun: Note<H>,
) -> (u64, u64)
    requires valid { IsValid trace.now }
    requires done { AreDone trace.now zones.now clock.now workers.old }
    requires begun { KnowsBeginning clock.now begun }
    ensures { HasLooked trace.now zones.now clock.now workers.old workers.new result.0 result.1 }
{
    let window = clock_head(&trace.head.clock).window;
    read_hands(clock, workers, begun, window)
}

/// The report of what the replay came to, with its hall.
fn reported<N: NameCalls, R: Wait>(
    rt: &R,
    alloc: Global,
    trace: &Trace,
    names: &N,
    mut hall: Hall<N>,
    stock: Stock,
) -> Result<Played<N>, Memory>
    requires can { CanEnd N.NameCalls trace.now hall }
    requires hands { ReadsHands hall.clock hall.workers stock.read stock.write }
    requires closes { AllClose trace.now.head hall.zones hall.workers stock.totals.censuses.items stock.totals.tallies.items stock.totals.deferred.items }
    ensures { IfOk result (IsEndOf N.NameCalls trace.now hall.clock hall.gave_ups) }
{
    let gave_up = all_gave_up(hall.gave_ups.as_slice());
    let first = report_of(alloc, trace, &hall.workers, &stock, gave_up)?;
    let line = &trace.head.names;
    let name_works = hall.name_works.as_slice();
    let report = whole_report(rt, alloc, line, names, &hall.names, name_works, first)?;
    hall.censuses = Listed::from_vec(stock.totals.censuses);
    Ok(Played { report, hall })
}

/// How often all workers gave up waiting for their gate.
fn all_gave_up(gave_ups: &[u64]) -> u64
    requires { sum gave_ups.now < 2 ^ 64 }
    ensures { result ≡ sum gave_ups.now }
{
    gave_ups.iter().sum()
}

/// The workers, out of their turns, each that is away back, which nothing counts; what each has of the names, and how often
/// it gave up waiting for its gate.
pub(crate) fn dismiss<N: NameCalls>(
    alloc: Global,
    clock: &Clock<N::H>,
    runs: Vec<WorkerRun<N>>,
) -> Result<(Workers<N::H>, NameWorks<N>, GaveUps), Memory>
    requires here { (n : ℕ) (r : WorkerRun N N.H N.Cache N.Seat N.H.Part N.H.Host) → slice_get runs.items n ≡ Some r → IsPassOf clock.now (worker_in r).pass }
    ensures workers { IfOk result (λ (workers, name_works, gave_ups). AllBack clock.now (crew runs.items) workers) }
    ensures name_works { IfOk result (λ (workers, name_works, gave_ups). name_works ≡ name_works_of runs.items) }
    ensures gave_ups { IfOk result (λ (workers, name_works, gave_ups). gave_ups ≡ gave_ups_of runs.items) }
{
    let mut workers = Vec::with_capacity(alloc, runs.len())?;
    let mut name_works = Vec::with_capacity(alloc, runs.len())?;
    let mut gave_ups = Vec::with_capacity(alloc, runs.len())?;
    for worker_run in runs {
        let WorkerRun {
            attendance,
            name_work,
            gave_up,
            ..
        } = worker_run;
        workers.push(attendance.into_worker(clock))?;
        name_works.push(name_work)?;
        gave_ups.push(gave_up)?;
    }
    Ok((
        Listed::from_vec(workers),
        Listed::from_vec(name_works),
        Listed::from_vec(gave_ups),
    ))
}

/// Replays a trace, each worker on a thread of its own, and reports what its ledgers, its kegs, its clock and its names
/// counted, and how often its workers gave up waiting.
///
/// The gate is asked before each operation, in one visit of each worker in each round; `names` does the lines of names,
/// which it serves where the trace has a names line, and `reclaim` the lines of reclaim. When all lines are done, each
/// worker that is away comes back, which counts nothing, a census of each keg is taken, and the clock's hands are read.
/// Waits where a worker's lines do. `Memory` where memory is wanting; nothing else refuses a valid trace.
pub fn replay<
    N: NameCalls + Sync,
    R: Threads + Wait + Sync,
    G: Gate + Sync,
    C: ReclaimCalls + Sync,
>(
    rt: &R,
    alloc: Global,
    trace: &Trace,
    gate: &G,
    names: &N,
    reclaim: &C,
) -> Result<Played<N>, Memory>
    requires valid { IsValid trace.now }
    requires serves { N.serves ≡ is_some trace.now.head.names }
    requires few { length (lines_of trace.now.rounds) ≤ 16777216 }
    ensures { IfOk result (HasReplayed N.NameCalls G.Gate gate.now trace.now) }
{
    let (cache, clock, passes) = names.set_up(alloc, trace)?;
    let setting = set_up_with(rt, alloc, trace, clock, passes)?;
    let Setting {
        clock,
        zones,
        workers,
        begun,
    } = setting;
    let mut runs = begin(rt, alloc, names, &cache, trace.head.domains, workers)?;
    let shared = Shared {
        trace,
        zones: zones.as_slice(),
        clock: &clock,
        names,
        cache: &cache,
        gate,
        reclaim,
    };
    play(rt, alloc, &shared, runs.as_mut_slice())?;
    let (workers, name_works, gave_ups) = dismiss(alloc, &clock, runs)?;
    let hall = Hall {
        zones: Listed::from_vec(zones),
        clock,
        names: cache,
        workers,
        name_works,
        gave_ups,
        censuses: Listed::from_vec(Vec::new(alloc)),
    };
    close(rt, alloc, trace, names, begun, hall)
}

/// The bytes that an entry of names takes in its slab.
const ENTRY_SIZE: u32 = 64;

/// The whole report, by that of the zones of the zone lines. Waits where a trace with names has to.
pub(crate) fn whole_report<N: NameCalls, R: Wait>(
    rt: &R,
    alloc: Global,
    line: &Option<NamesHead>,
    names: &N,
    cache: &N::Cache,
    name_works: &[NameWork<N>],
    first: Report,
) -> Result<Report, Memory>
    requires serves { N.serves ≡ is_some line.now }
    requires fit { SeatsFit N.NameCalls cache.now name_works.now }
    requires counts { CountsFit name_works.now }
    ensures { IfOk result (IsWhole N.NameCalls cache.now line.now name_works.now first) }
{
    match line {
        Some(line) => named_report(rt, alloc, line, names, cache, name_works, first),
        None => Ok(first),
    }
}

/// The report with the zone of the names. Waits until it has the lock of that zone's keg, of each of its domains and of each
/// row.
fn named_report<N: NameCalls, R: Wait>(
    rt: &R,
    alloc: Global,
    line: &NamesHead,
    names: &N,
    cache: &N::Cache,
    name_works: &[NameWork<N>],
    first: Report,
) -> Result<Report, Memory>
    requires serves { IsTrue N.serves }
    requires fit { SeatsFit N.NameCalls cache.now name_works.now }
    requires counts { CountsFit name_works.now }
    ensures { IfOk result (HasNames N.NameCalls cache.now line.now name_works.now first) }
{
    let totals = take_names(rt, alloc, names, cache, name_works)?;
    let part = names_part(alloc, line, name_works, &totals)?;
    with_names(first, part)
}

/// What a report has of the zone of the names.
fn names_part<N: NameCalls>(
    alloc: Global,
    line: &NamesHead,
    name_works: &[NameWork<N>],
    totals: &NameTotals,
) -> Result<NamesPart, Memory>
    requires serves { IsTrue N.serves }
    requires counts { CountsFit name_works.now }
    ensures { IfOk result (IsNamesPart N.NameCalls line.now name_works.now totals.now.census totals.now.tally totals.now.deferred) }
{
    let ledgers = name_ledgers(alloc, name_works)?;
    let zone = entry_zone(line);
    check_ledgers(&[zone.limit], ledgers.as_slice())?;
    Ok(NamesPart {
        line: zone_line(&zone, zone.limit, 0, &ledgers, &totals.census),
        hooks: hook_line(&zone, 0, &totals.tally, totals.deferred),
        keg: keg_line(&zone, &totals.census, &totals.tally),
        counts: names_line(name_works),
        ledgers,
    })
}

/// The zone of the entries, as a zone line would have it.
fn entry_zone(line: &NamesHead) -> ZoneHead
    ensures { result ≡ zone_of line.now }
{
    ZoneHead {
        name: line.name.copied(),
        parent: None,
        size: ENTRY_SIZE,
        slabs: line.slabs,
        bucket: line.bucket,
        limit: 0,
        reserve: 0,
        kind: ZoneKind::Smr,
    }
}
