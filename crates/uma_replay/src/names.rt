//! The names in a report: what all workers counted of them, and the part of their zone.
ghost use Rattle.std.specs.Prelude.{◌≡◌, ◌<◌, ◌^◌, IfOk, IsTrue, Some, ◌≤◌, ◌+◌, length, ◌++◌, ◌∷◌, []};
ghost use Rattle.uma_replay.specs.Names.{AreNameLedgers, CountsFit, count_of, first_counts, names_line as line_of, total_of, AreNameSums, AreSeatSums, NamesClose, SeatsFit, with_names as with_part};
ghost use Rattle.uma_bucket.specs.Sums.{AreOfAtMost};
ghost use Rattle.uma_keg.specs.Census.{census_tally};
ghost use Rattle.uma_life.specs.Hook.{Hook};
ghost use Rattle.uma_life.specs.Sum.{sum_of};

use crate::Memory;
use listed::Listed;
use replay_worker::{NameCalls, NameCounts, NameWork};
use std::alloc::Global;
use std::sync::Wait;
use uma_bucket::Sums;
use uma_keg::Census;
use uma_life::TallySum;
use zone_stats::{HookLine, KegLine, NamesLine, Report, SeatLedger, ZoneLedgers, ZoneLine};

/// One of a worker's counts of the names.
#[derive(Clone, Copy)]
pub(crate) enum NameCount {
    Hits,
    Misses,
    Late,
    Binds,
    Unbound,
    Refused,
}

impl NameCount {
    /// What a worker counted of it.
    fn of(self, counts: NameCounts) -> u64
        ensures { result ≡ count_of self counts }
    {
        match self {
            NameCount::Hits => counts.hits,
            NameCount::Misses => counts.misses,
            NameCount::Late => counts.late,
            NameCount::Binds => counts.binds,
            NameCount::Unbound => counts.unbound,
            NameCount::Refused => counts.refused,
        }
    }
}

/// What all workers counted of it together.
fn total<N: NameCalls>(count: NameCount, name_works: &[NameWork<N>]) -> u64
    requires { total_of count name_works.now < 2 ^ 64 }
    ensures { result ≡ total_of count name_works.now }
{
    let mut total = 0;
    for number in 0..name_works.len() {
        total += count.of(name_works[number].counts);
    }
    total
}

/// The names line of a report.
pub(crate) fn names_line<N: NameCalls>(name_works: &[NameWork<N>]) -> NamesLine
    requires { CountsFit name_works.now }
    ensures { result ≡ line_of name_works.now }
{
    let hits = total(NameCount::Hits, name_works);
    let misses = total(NameCount::Misses, name_works);
    let late = total(NameCount::Late, name_works);
    NamesLine {
        looks: hits + misses + late,
        hits,
        misses,
        late,
        binds: total(NameCount::Binds, name_works),
        unbound: total(NameCount::Unbound, name_works),
        refused: total(NameCount::Refused, name_works),
    }
}

/// The ledgers of the workers' seats of the names, where names are served.
pub(crate) fn name_ledgers<N: NameCalls>(
    alloc: Global,
    name_works: &[NameWork<N>],
) -> Result<ZoneLedgers, Memory>
    requires { IsTrue N.serves }
    ensures { IfOk result (AreNameLedgers N.NameCalls name_works.now) }
{
    let mut ledgers = Vec::with_capacity(alloc, name_works.len())?;
    for number in 0..name_works.len() {
        ledgers.push(name_ledger(&name_works[number]))?;
    }
    Ok(Listed::from_vec(ledgers))
}

/// The ledger of a worker's seat of the names.
fn name_ledger<N: NameCalls>(name_work: &NameWork<N>) -> SeatLedger
    requires { IsTrue N.serves }
    ensures { N.counted name_work.now.seat ≡ Some result }
{
    match N::ledger(&name_work.seat) {
        Some(ledger) => ledger,
        None => unreachable!(),
    }
}

/// Whether the first seat counts, as each does where names are served.
pub(crate) fn do_count<N: NameCalls>(name_works: &[NameWork<N>]) -> bool
    ensures { result ≡ first_counts N.NameCalls name_works.now }
{
    match name_works.first() {
        Some(name_work) => N::ledger(&name_work.seat).is_some(),
        None => false,
    }
}

/// What the zone of the names comes to.
#[derive(Drop)]
pub(crate) struct NameTotals {
    pub(crate) census: Census,
    /// How often its entries passed each hook, wherever they are.
    pub(crate) tally: TallySum,
    pub(crate) deferred: u64,
}

/// What the zone of the names comes to: a census of its keg, and what its domains have, its rows link and the workers'
/// seats hold. Waits until it has the lock of the keg, of each domain and of each row.
pub(crate) fn take_names<N: NameCalls, R: Wait>(
    rt: &R,
    alloc: Global,
    names: &N,
    cache: &N::Cache,
    name_works: &[NameWork<N>],
) -> Result<NameTotals, Memory>
    requires serves { IsTrue N.serves }
    requires fit { SeatsFit N.NameCalls cache.now name_works.now }
    ensures { IfOk result (λ t. NamesClose N.NameCalls cache.now name_works.now t.census t.tally t.deferred) }
{
    let census = names.census(cache, rt, alloc)?;
    let sums = name_sums(rt, names, cache, name_works)?;
    let tally = with_sums(&census, &sums);
    Ok(NameTotals {
        census,
        tally,
        deferred: sums.deferred,
    })
}

/// How often the entries outside the keg passed each hook, and how many of them are deferred.
fn name_sums<N: NameCalls, R: Wait>(
    rt: &R,
    names: &N,
    cache: &N::Cache,
    name_works: &[NameWork<N>],
) -> Result<Sums, Memory>
    requires serves { IsTrue N.serves }
    requires fit { SeatsFit N.NameCalls cache.now name_works.now }
    ensures { IfOk result (AreNameSums N.NameCalls cache.now name_works.now) }
{
    let seats = seat_sums(name_works);
    let mut sums = names.sums(cache, rt)?;
    sums.add_sums(seats);
    Ok(sums)
}

/// The same of those that the workers' seats hold.
fn seat_sums<N: NameCalls>(name_works: &[NameWork<N>]) -> Sums
    requires { length name_works.now ≤ 16 }
    ensures { AreSeatSums N.NameCalls (length name_works.now) name_works.now result }
{
    let mut sums = Sums::none();
    for name_work in name_works {
        sums.add_sums(N::seat_sums(&name_work.seat));
    }
    sums
}

/// How often the entries of the census and those of the sums passed each hook.
fn with_sums(census: &Census, sums: &Sums) -> TallySum
    requires { AreOfAtMost (2 ^ 36) sums.now }
    ensures { (hook : Hook) → sum_of result hook ≡ sum_of (census_tally census.now) hook + sum_of sums.now.tally hook }
{
    let mut all = *census.tally();
    all.add_sums(sums.tally);
    all
}

/// What a report has of the zone of the names: a line of each kind, the ledgers of its seats, and what the lines of names
/// came to.
#[derive(Drop)]
pub(crate) struct NamesPart {
    pub(crate) line: ZoneLine,
    /// From worker 0 on.
    pub(crate) ledgers: ZoneLedgers,
    pub(crate) hooks: HookLine,
    pub(crate) keg: KegLine,
    pub(crate) counts: NamesLine,
}

/// The report with the zone of the names behind the others.
pub(crate) fn with_names(first: Report, part: NamesPart) -> Result<Report, Memory>
    ensures { IfOk result (λ report. report ≡ with_part first part) }
{
    Ok(Report {
        lines: with_last(first.lines, part.line)?,
        ledgers: with_last(first.ledgers, part.ledgers)?,
        hooks: with_last(first.hooks, part.hooks)?,
        kegs: with_last(first.kegs, part.keg)?,
        clock: first.clock,
        names: Some(part.counts),
        detail: first.detail,
        gave_up: first.gave_up,
    })
}

/// The list with one entry more.
pub(crate) fn with_last<T: Drop>(list: Listed<T>, last: T) -> Result<Listed<T>, Memory>
    ensures { IfOk result (λ all. all ≡ list ++ last ∷ []) }
{
    let mut all = list.into_vec();
    all.push(last)?;
    Ok(Listed::from_vec(all))
}
