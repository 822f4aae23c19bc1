//! What the command `replay` does, and the replay itself.
ghost use Rattle.std.specs.Prelude.{◌≡◌, IfErr, IfOk, ◌≤◌, ℕ, List, length};
ghost use Rattle.smr_clock.specs.Belongs.{clock_id};
ghost use Rattle.replay_worker.specs.NameSizes.{sizes_for};
ghost use Rattle.umarun.specs.Caches.{clock_in, sizes_in};
ghost use Rattle.umarun.specs.Opening.{MayOpen, OpensNames, MayCache};
ghost use Rattle.umarun.specs.Wanting.{LacksMemory, lacking};
ghost use Rattle.trace_lines.specs.declared.refused.TraceRefused.{TraceRefused as Refused};
ghost use Rattle.trace_text.specs.Lines.{lines_of};
ghost use Rattle.trace_text.specs.Valid.{IsValid};
ghost use Rattle.uma_io.specs.Faults.{Rose};
ghost use Rattle.umarun.specs.Answers.{AnswersReplay, ReadsTrace, StandsReplayed};
ghost use Rattle.umarun.specs.Replaying.{Replays, AreInput, AreRefused, RefusesTrace, most_bytes};
ghost use Rattle.umarun.specs.declared.replaying.AnyHall.{AnyHall as AnyHallValue};
ghost use Rattle.zone_stats.specs.declared.report.Report.{Report as ReportValue};

use crate::cache_names::{CacheNames, TraceCache};
use crate::fault::Fault;
use crate::reclaim::Reclaim;
use crate::run::MOST_BYTES;
use name_cache::NameCache;
use name_rows::{Names, NamesRefused, Opened, make};
use replay_rounds::PlainNames;
use smr_clock::{Clock, Pass};
use std::alloc::Global;
use std::sync::Wait;
use std::thread::Threads;
use trace_lines::one_verdict;
use trace_text::{Head, NamesHead, ParseRefused, Trace, parse, traces_are_no_longer};
use uma_io::{Source, read_all};
use uma_replay::{Gate, Hall, Memory, Played};
use uma_zone::{ZoneRefused, ZoneSet};
use zone_stats::{Report, table_text};

/// What the replay of a run leaves behind.
#[derive(Drop)]
pub enum AnyHall {
    /// That of a trace without names.
    Plain { hall: Hall<PlainNames> },
    /// That of a trace with names.
    Named { hall: Hall<CacheNames> },
}

/// How many entries a slab of the zone of entries has.
const ENTRIES_OF_A_SLAB: u32 = 64;

/// The clock of a trace with this `names` line, its passes, its rows and the root of its entries. Nothing but want of memory
/// refuses them.
pub(crate) fn open(alloc: Global, head: &Head, line: &NamesHead) -> Result<Opened, NamesRefused>
    requires { MayOpen head.now line.now }
    ensures opens { IfOk result (OpensNames head.now line.now) }
    ensures refused { IfErr result LacksMemory }
{
    let Some(clock) = head.clock else {
        unreachable!()
    };
    let entries = line.slabs * ENTRIES_OF_A_SLAB;
    match make(
        alloc,
        head.workers,
        clock.start,
        clock.window,
        line.rows,
        entries,
        0,
    ) {
        Ok(opened) => Ok(opened),
        Err(refused) => Err(refused),
    }
}

/// The cache of a trace with this `names` line, over its clock and its rows. The clock and its passes come back. Nothing but
/// want of memory refuses it.
pub(crate) fn cache_over(
    alloc: Global,
    opened: Opened,
    head: &Head,
    line: &NamesHead,
) -> Result<(TraceCache, Clock<Names>, Vec<Pass<Names>>), ZoneRefused>
    requires { MayCache head.now line.now opened }
    ensures parts { IfOk result (λ (cache, clock, passes). (clock ≡ opened.clock) × (passes.items ≡ opened.passes)) }
    ensures cache { IfOk result (λ (cache, clock, passes). (clock_in cache ≡ clock_id opened.clock) × (sizes_in cache ≡ sizes_for head.now line.now)) }
    ensures refused { IfErr result (λ refused. refused ≡ lacking) }
{
    let set = ZoneSet {
        slabs: line.slabs,
        bucket: line.bucket,
        limit: 0,
        reserve: 0,
        domains: head.domains,
        smr: true,
    };
    match NameCache::new(alloc, opened, set) {
        Ok((cache, clock, passes)) => Ok((TraceCache { cache }, clock, passes)),
        Err(refused) => Err(refused),
    }
}

/// A replay that is done.
#[derive(Drop)]
pub struct Replayed {
    pub report: Report,
    /// What it leaves behind.
    pub ended: AnyHall,
}

/// Reads a trace, replays it under a gate, and answers its report with what it leaves behind, and the report's text.
pub fn replay<R: Threads + Wait + Sync, S: Source, G: Gate + Sync>(
    rt: &R,
    alloc: Global,
    source: &mut S,
    gate: &G,
) -> Result<(Replayed, Vec<u8>), Fault>
    ensures { AnswersReplay result (S.bytes_left source.old) (S.bytes_left source.new) (Rose (S.fault_count source.old) (S.fault_count source.new)) (G.is_free gate.now) }
{
    let bytes = read_all(alloc, source, MOST_BYTES)?;
    let trace = read_trace(alloc, &bytes)?;
    let played = play(rt, alloc, &trace, gate)?;
    let text = table_text(alloc, &played.report)?;
    Ok((played, text))
}

/// The trace of a text. It has no more lines than the text has bytes.
fn read_trace(alloc: Global, bytes: &[u8]) -> Result<Trace, ParseRefused>
    ensures { ReadsTrace bytes.now result }
{
    traces_are_no_longer();
    parse(alloc, bytes)
}

/// Replays a trace, over a cache of names where it has a names line.
pub(crate) fn play<R: Threads + Wait + Sync, G: Gate + Sync>(
    rt: &R,
    alloc: Global,
    trace: &Trace,
    gate: &G,
) -> Result<Replayed, Memory>
    requires valid { IsValid trace.now }
    requires few { length (lines_of trace.now.rounds) ≤ most_bytes }
    ensures { IfOk result (λ played. StandsReplayed trace.now (G.is_free gate.now) played.report played.ended) }
{
    match &trace.head.names {
        None => {
            let Played { report, hall } = uma_replay::replay(
                rt,
                alloc,
                trace,
                gate,
                &PlainNames,
                &Reclaim,
            )?;
            Ok(Replayed {
                report,
                ended: AnyHall::Plain { hall },
            })
        }
        Some(_) => {
            let Played { report, hall } = uma_replay::replay(
                rt,
                alloc,
                trace,
                gate,
                &CacheNames,
                &Reclaim,
            )?;
            Ok(Replayed {
                report,
                ended: AnyHall::Named { hall },
            })
        }
    }
}

/// Bytes that are replayed are refused for no reason, and other bytes for one reason at most. The call does nothing: its
/// contract is the law.
pub fn replayed_or_refused()
    ensures report { (report : ReportValue) (ended : AnyHallValue) (bytes : List ℕ) → Replays report ended bytes → AreRefused bytes → ⊥ }
    ensures input { (refused : Refused) (bytes : List ℕ) → RefusesTrace refused bytes → AreInput bytes → ⊥ }
    ensures one { (refused other : Refused) (bytes : List ℕ)
        → RefusesTrace refused bytes → RefusesTrace other bytes → refused ≡ other }
{
    one_verdict();
}

/// How a run ended, for the program's exit status.
#[derive(Clone, Copy, Debug, PartialEq, Eq)]
pub enum Status {
    /// Exit status 0.
    Good,
    /// Exit status 2: the words are no command.
    Usage,
    /// Exit status 3: the input is refused.
    Refused,
    /// Exit status 4: reading failed.
    ReadFault,
    /// Exit status 5: writing failed.
    WriteFault,
    /// Exit status 6: memory was wanting.
    Memory,
}

impl Status {
    ghost use Rattle.umarun.specs.Ending.{exit_code};

    /// The status by which the program ends.
    pub fn exit_code(self) -> u8
        ensures { result ≡ exit_code self }
    {
        match self {
            Status::Good => 0,
            Status::Usage => 2,
            Status::Refused => 3,
            Status::ReadFault => 4,
            Status::WriteFault => 5,
            Status::Memory => 6,
        }
    }
}

/// What the process shows of a run.
#[derive(Clone, Copy, Debug, PartialEq, Eq)]
pub struct Ending {
    /// The exit status.
    pub code: u8,
    /// The fault that standard error is told before.
    pub told: Option<Fault>,
}

/// What a run leaves behind: its status, the fault that goes with it, and, once a replay is done, its report and all that it
/// leaves behind, from which the report was made.
#[derive(Drop)]
pub struct Finish {
    pub status: Status,
    pub fault: Option<Fault>,
    pub report: Option<Report>,
    pub hall: Option<AnyHall>,
}

impl Finish {
    ghost use Rattle.std.specs.Prelude.{Some, None};
    ghost use Rattle.umarun.specs.Ending.{status_of, status_at, exit_code};

    /// How the process ends after the run: with the status's number, and no fault is hidden.
    pub fn ending(&self) -> Ending
        ensures { result ≡ record { code = exit_code self.now.status; told = self.now.fault } }
    {
        Ending {
            code: self.status.exit_code(),
            told: self.fault,
        }
    }

    /// A run that ended before its report was done.
    pub(crate) fn refused(fault: Fault) -> Finish
        ensures { result ≡ record { status = status_of fault; fault = Some fault; report = None; hall = None } }
    {
        Finish {
            status: fault.status(),
            fault: Some(fault),
            report: None,
            hall: None,
        }
    }

    /// A run that did what it was asked, and makes no report.
    pub(crate) fn good() -> Finish
        ensures { result ≡ record { status = status_at None; fault = None; report = None; hall = None } }
    {
        Finish {
            status: Status::Good,
            fault: None,
            report: None,
            hall: None,
        }
    }

    /// A run whose replay is done.
    pub(crate) fn replayed(played: Replayed, fault: Option<Fault>) -> Finish
        ensures { result ≡ record { status = status_at fault; fault = fault; report = Some played.report; hall = Some played.ended } }
    {
        Finish {
            status: fault.map_or(Status::Good, |fault| fault.status()),
            fault,
            report: Some(played.report),
            hall: Some(played.ended),
        }
    }
}
