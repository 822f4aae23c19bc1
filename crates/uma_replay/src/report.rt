//! The lines of a report, from the workers' ledgers, the kegs' censuses and the clock's hands.
ghost use Rattle.std.specs.Prelude.{◌≡◌, ◌<◌, ℕ, IfOk, Some, length, slice_get, ◌^◌, option_map, ◌+◌, OnOk, slice_index};
ghost use Rattle.replay_worker.specs.declared.worker.Worker.{Worker};
ghost use Rattle.replay_worker.specs.Together.{ledger_at};
ghost use Rattle.uma_replay.specs.Names.{AreAllLedgers, first_counts};
ghost use Rattle.uma_replay.specs.Reporting.{AreLedgers, AreLedgersOf, zone_count, SectionsFit, line_by, hook_line as hooks_of, keg_line as keg_of, clock_line as clock_of, shown_free as shown, AreLines, AreHooks, AreKegs, AreKegsTo, HaveKegs, IsLineAt, IsHookWith, KegsFit, LinesFit, keg_line as keg_by, CanReport, IsReportOf};
ghost use Rattle.std.specs.List.{sum_by};
ghost use Rattle.trace_text.specs.declared.trace.ClockHead.{ClockHead};
ghost use Rattle.uma_keg.specs.Census.{census_outs};
ghost use Rattle.trace_text.specs.Lines.{lines_of};
ghost use Rattle.uma_replay.specs.Limits.{KeepLimits, last_limit};

use crate::Memory;
use crate::hall::{NameWorks, Workers};
use crate::limits::{keg_of, last_limits, number_in_keg};
use crate::names::{do_count, name_ledgers, with_last};
use listed::Listed;
use replay_rounds::Totals;
use replay_worker::{NameCalls, Worker};
use smr_clock::Host;
use std::alloc::Global;
use trace_text::{ClockHead, Round, Trace, ZoneHead};
use uma_keg::Census;
use uma_life::TallySum;
use zone_stats::{
    ClockLine, HookLine, HookLines, KegLine, KegLines, Ledgers, Lines, Report, SeatLedger,
    ZoneLedgers, ZoneLine, sum,
};

/// What the clock, the zones and the workers come to.
#[derive(Drop)]
pub(crate) struct Stock {
    pub(crate) read: u64,
    pub(crate) write: u64,
    pub(crate) totals: Totals,
}

/// The ledgers of the workers' seats: zone by zone in order, in each from worker 0 on. Each worker has a seat of each zone.
/// Where names are served, those of the workers' seats of the names come last.
pub fn collect<N: NameCalls>(
    alloc: Global,
    workers: &Workers<N::H>,
    name_works: &NameWorks<N>,
) -> Result<Ledgers, Memory>
    requires { (n : ℕ) (w : Worker N.H N.H.Part N.H.Host) → slice_get workers.now n ≡ Some w → length w.seats.items ≡ zone_count workers.now }
    ensures { IfOk result (AreAllLedgers N.NameCalls (first_counts N.NameCalls name_works.now) (zone_count workers.now) workers.now name_works.now) }
{
    let ledgers = collect_zones(alloc, seat_count(workers.as_slice()), workers)?;
    if do_count(name_works.as_slice()) {
        let names = name_ledgers(alloc, name_works.as_slice())?;
        return with_last(ledgers, names);
    }
    Ok(ledgers)
}

/// Of how many zones worker 0 has a seat.
fn seat_count<H: Host>(workers: &[Worker<H>]) -> usize
    ensures { result ≡ zone_count workers.now }
{
    match workers.first() {
        Some(worker) => worker.seats.len(),
        None => 0,
    }
}

/// The ledgers of the workers' seats in so many zones.
pub(crate) fn collect_zones<H: Host>(
    alloc: Global,
    zones: usize,
    workers: &Workers<H>,
) -> Result<Ledgers, Memory>
    requires { (n : ℕ) (w : Worker H H.Part H.Host) → slice_get workers.now n ≡ Some w → length w.seats.items ≡ zones }
    ensures { IfOk result (AreLedgers zones workers.now) }
{
    let mut ledgers = Vec::with_capacity(alloc, zones)?;
    for place in 0..zones {
        ledgers.push(seat_ledgers(alloc, place, workers.as_slice())?)?;
    }
    Ok(Listed::from_vec(ledgers))
}

/// The ledgers of the workers' seats in one zone.
fn seat_ledgers<H: Host>(
    alloc: Global,
    place: usize,
    workers: &[Worker<H>],
) -> Result<ZoneLedgers, Memory>
    requires { (n : ℕ) (w : Worker H H.Part H.Host) → slice_get workers.now n ≡ Some w → place < length w.seats.items }
    ensures { IfOk result (AreLedgersOf place workers.now) }
{
    let mut ledgers = Vec::with_capacity(alloc, workers.len())?;
    for number in 0..workers.len() {
        ledgers.push(seat_ledger(place, &workers[number]))?;
    }
    Ok(Listed::from_vec(ledgers))
}

/// The ledger of a worker's seat.
fn seat_ledger<H: Host>(place: usize, worker: &Worker<H>) -> SeatLedger
    requires { place < length worker.now.seats.items }
    ensures { ledger_at place worker.now ≡ Some result }
{
    worker.seats[place].ledger()
}

/// The line of a zone, by its limit at the end and its number in its keg.
pub(crate) fn zone_line(
    head: &ZoneHead,
    limit: u64,
    index: usize,
    ledgers: &ZoneLedgers,
    census: &Census,
) -> ZoneLine
    requires { index < 8 }
    ensures { result ≡ line_by head.now limit index ledgers.now census.now }
{
    let out = census.outs()[index];
    let free = shown_free(head, census);
    sum(
        head.name.copied(),
        head.size,
        limit,
        ledgers.as_slice(),
        out,
        free,
    )
}

/// What the zone's line shows of the items that are free in its keg.
fn shown_free(head: &ZoneHead, census: &Census) -> u64
    ensures { result ≡ shown head.now census.now }
{
    if head.parent.is_some() {
        return 0;
    }
    census.counts().free
}

/// The hooks line of a zone, by its number in its keg.
pub(crate) fn hook_line(head: &ZoneHead, index: usize, tally: &TallySum, deferred: u64) -> HookLine
    requires { index < 8 }
    ensures { result ≡ hooks_of head.now.name index tally.now deferred }
{
    let zone = tally.zones[index];
    HookLine {
        name: head.name.copied(),
        inits: zone.inits,
        ctors: zone.ctors,
        dtors: zone.dtors,
        finis: zone.finis,
        deferred,
    }
}

/// The line of a keg.
pub(crate) fn keg_line(head: &ZoneHead, census: &Census, tally: &TallySum) -> KegLine
    ensures { result ≡ keg_of head.now.name census.now tally.now }
{
    let counts = census.counts();
    KegLine {
        name: head.name.copied(),
        slabs: counts.slabs,
        free: counts.free,
        inits: tally.keg_inits,
        finis: tally.keg_finis,
    }
}

/// How many zones a census counts the items of.
pub(crate) fn zones_of(census: &Census) -> usize
    ensures count { result ≡ length (census_outs census.now) }
    ensures eight { length (census_outs census.now) ≡ 8 }
{
    census.outs().len()
}

/// The line of the clock, where the trace has one.
pub(crate) fn clock_line<H: Host>(
    head: Option<ClockHead>,
    read: u64,
    write: u64,
    workers: &[Worker<H>],
) -> Option<ClockLine>
    requires { SectionsFit workers.now }
    ensures { result ≡ option_map (λ (c : ClockHead). clock_of read write workers.now) head }
{
    match head {
        Some(_) => Some(ClockLine {
            read,
            write,
            entered: entered(workers),
            late: late(workers),
        }),
        None => None,
    }
}

/// How many sections all workers entered.
fn entered<H: Host>(workers: &[Worker<H>]) -> u64
    requires { sum_by (λ (w : Worker H H.Part H.Host). w.entered) workers.now < 2 ^ 64 }
    ensures { result ≡ sum_by (λ (w : Worker H H.Part H.Host). w.entered) workers.now }
{
    let mut total = 0;
    for number in 0..workers.len() {
        total += workers[number].entered;
    }
    total
}

/// How many enters of all workers came too late.
fn late<H: Host>(workers: &[Worker<H>]) -> u64
    requires { sum_by (λ (w : Worker H H.Part H.Host). w.late) workers.now < 2 ^ 64 }
    ensures { result ≡ sum_by (λ (w : Worker H H.Part H.Host). w.late) workers.now }
{
    let mut total = 0;
    for number in 0..workers.len() {
        total += workers[number].late;
    }
    total
}

/// The lines of the zones of a trace with these rounds, by their ledgers and their kegs' censuses. `Memory` also where a
/// ledger keeps a refusal by a limit that its zone never had.
pub(crate) fn tested_lines(
    alloc: Global,
    heads: &[ZoneHead],
    rounds: &[Round],
    ledgers: &[ZoneLedgers],
    censuses: &[Census],
) -> Result<Lines, Memory>
    requires fit { LinesFit heads.now (length ledgers.now) censuses.now }
    ensures lines { IfOk result (AreLines heads.now (last_limit (lines_of rounds.now)) ledgers.now censuses.now) }
    ensures limits { OnOk result (KeepLimits (lines_of rounds.now) heads.now ledgers.now) }
{
    let limits = last_limits(alloc, heads, rounds, ledgers)?;
    zone_lines(alloc, heads, limits.as_slice(), ledgers, censuses)
}

/// The lines of the zones, by their limits at the end, their ledgers and their kegs' censuses.
fn zone_lines(
    alloc: Global,
    heads: &[ZoneHead],
    limits: &[u64],
    ledgers: &[ZoneLedgers],
    censuses: &[Census],
) -> Result<Lines, Memory>
    requires fit { LinesFit heads.now (length ledgers.now) censuses.now }
    requires limits { length limits.now ≡ length heads.now }
    ensures { IfOk result (AreLines heads.now (λ z head. slice_index limits.now z) ledgers.now censuses.now) }
{
    let mut lines = Vec::with_capacity(alloc, heads.len())?;
    for place in 0..heads.len() {
        lines.push(line_at(heads, place, limits[place], ledgers, censuses))?;
    }
    Ok(Listed::from_vec(lines))
}

/// The line of the zone at a place, by its limit at the end.
fn line_at(
    heads: &[ZoneHead],
    place: usize,
    limit: u64,
    ledgers: &[ZoneLedgers],
    censuses: &[Census],
) -> ZoneLine
    requires place { place < length heads.now }
    requires fit { LinesFit heads.now (length ledgers.now) censuses.now }
    ensures { IsLineAt heads.now (λ z head. limit) ledgers.now censuses.now place result }
{
    let head = &heads[place];
    let index = number_in_keg(heads, place, head);
    let keg = keg_of(heads, place, head);
    zone_line(head, limit, index, &ledgers[place], &censuses[keg])
}

/// The hooks lines of the zones, by their kegs' sums and how many of their items are deferred.
pub(crate) fn hook_lines(
    alloc: Global,
    heads: &[ZoneHead],
    tallies: &[TallySum],
    deferred: &[u64],
) -> Result<HookLines, Memory>
    requires kegs { HaveKegs heads.now (length tallies.now) }
    requires deferred { length deferred.now ≡ length heads.now }
    ensures { IfOk result (AreHooks heads.now tallies.now deferred.now) }
{
    let mut lines = Vec::with_capacity(alloc, heads.len())?;
    for place in 0..heads.len() {
        lines.push(hooks_at(heads, place, tallies, deferred[place]))?;
    }
    Ok(Listed::from_vec(lines))
}

/// The hooks line of the zone at a place.
fn hooks_at(heads: &[ZoneHead], place: usize, tallies: &[TallySum], deferred: u64) -> HookLine
    requires place { place < length heads.now }
    requires kegs { HaveKegs heads.now (length tallies.now) }
    ensures { IsHookWith heads.now tallies.now place deferred result }
{
    let head = &heads[place];
    let index = number_in_keg(heads, place, head);
    let keg = keg_of(heads, place, head);
    hook_line(head, index, &tallies[keg], deferred)
}

/// The lines of the kegs, by their censuses and their sums.
pub(crate) fn keg_lines(
    alloc: Global,
    heads: &[ZoneHead],
    censuses: &[Census],
    tallies: &[TallySum],
) -> Result<KegLines, Memory>
    requires each { KegsFit heads.now censuses.now tallies.now }
    ensures { IfOk result (AreKegs heads.now censuses.now tallies.now) }
{
    let mut lines = Vec::with_capacity(alloc, heads.len())?;
    for place in 0..heads.len() {
        add_keg(heads, place, censuses, tallies, &mut lines)?;
    }
    Ok(Listed::from_vec(lines))
}

/// Adds the line of the keg of the zone at a place, where it has one of its own.
fn add_keg(
    heads: &[ZoneHead],
    place: usize,
    censuses: &[Census],
    tallies: &[TallySum],
    lines: &mut Vec<KegLine>,
) -> Result<(), Memory>
    requires place { place < length heads.now }
    requires each { KegsFit heads.now censuses.now tallies.now }
    requires so_far { AreKegsTo heads.now censuses.now tallies.now place lines.old.items }
    ensures { OnOk result (AreKegsTo heads.now censuses.now tallies.now (place + 1) lines.new.items) }
{
    let head = &heads[place];
    if head.parent.is_some() {
        return Ok(());
    }
    let keg = lines.len();
    lines.push(line_of_keg(head, &censuses[keg], &tallies[keg]))?;
    Ok(())
}

/// The line of a keg whose census counts what is out in eight zones.
fn line_of_keg(head: &ZoneHead, census: &Census, tally: &TallySum) -> KegLine
    ensures line { result ≡ keg_by head.now.name census.now tally.now }
    ensures eight { length (census_outs census.now) ≡ 8 }
{
    let _zones = zones_of(census);
    keg_line(head, census, tally)
}

/// The report of a replay of this trace, by what its workers counted, a census and the hooks' sums of each keg, how many
/// items of each zone are deferred, the clock's hands, and how often a worker gave up waiting.
pub(crate) fn report_of<H: Host>(
    alloc: Global,
    trace: &Trace,
    workers: &Workers<H>,
    stock: &Stock,
    gave_up: u64,
) -> Result<Report, Memory>
    requires { CanReport trace.now workers.now stock.now.totals.censuses.items stock.now.totals.tallies.items stock.now.totals.deferred.items }
    ensures { IfOk result (IsReportOf trace.now workers.now stock.now.totals.censuses.items stock.now.totals.tallies.items stock.now.totals.deferred.items stock.now.read stock.now.write gave_up) }
{
    let head = &trace.head;
    let heads = head.zones.as_slice();
    let censuses = stock.totals.censuses.as_slice();
    let tallies = stock.totals.tallies.as_slice();
    let ledgers = collect_zones(alloc, heads.len(), workers)?;
    let rounds = trace.rounds.as_slice();
    let lines = tested_lines(alloc, heads, rounds, ledgers.as_slice(), censuses)?;
    let hooks = hook_lines(alloc, heads, tallies, stock.totals.deferred.as_slice())?;
    let kegs = keg_lines(alloc, heads, censuses, tallies)?;
    let clock = clock_line(head.clock, stock.read, stock.write, workers.as_slice());
    Ok(Report {
        lines,
        ledgers,
        hooks,
        kegs,
        clock,
        names: None,
        detail: head.detail,
        gave_up,
    })
}
