ghost use Rattle.std.specs.Prelude.{◌≡◌, ◌≢◌, ◌<◌, ◌≤◌, ◌+◌, ◌==◌, ◌↔◌, [], false, length, IfOk, OnOk, IsTrue, None, Some, ◌%◌, All, slice_get, ◌^◌, IfSome};
ghost use Rattle.std.specs.Option.{option_map_or};
ghost use Rattle.smr_clock.specs.Belongs.{clock_id, IsPassOf, setup_of};
ghost use Rattle.uma_zone.specs.Zone.{zone_index, zone_rights, zone_domains};
ghost use Rattle.trace_text.specs.Limits.{IsWithin};
ghost use Rattle.trace_text.specs.Valid.{HeadFits, PrimaryFits, sharer_count, IsValid, ClockFits};
ghost use Rattle.replay_rounds.specs.Zones.{AreZones, is_smr as is_smr_kind};
ghost use Rattle.replay_rounds.specs.ZonesSoFar.{cut, CanAddZone, CanMakeFirst, CanMakeFurther, IsFirst, IsFurther, IsNextLine};
ghost use Rattle.replay_rounds.specs.Beginners.{CanMakeWorkers, IsBeginner, AreBeginners};
ghost use Rattle.replay_worker.specs.Clocks.{IsNewPass, ArePasses, start_of, window_of, setup_for, KnowsBeginning};
ghost use Rattle.replay_rounds.specs.Setting.{CanSetUp, IsSetUp};

use crate::Memory;
use replay_worker::{CountHooks, CountedZone, Worker};
use smr_clock::{Bare, Clock, ClockRefused, Host, Note, Pass};
use std::alloc::Global;
use std::sync::Wait;
use trace_text::{ClockHead, Head, Trace, ZoneHead, ZoneKind};
use uma_zone::{SecondSet, Zone, ZoneRefused, ZoneSet};

/// The zones of a trace's zone lines, in order, of readers by its clock. A `zone` line makes a keg with its primary zone,
/// a `second` line a zone over its parent's keg. Waits until it has the locks of the kegs.
pub fn make_zones<H: Host, R: Wait>(
    rt: &R,
    alloc: Global,
    clock: &Clock<H>,
    head: &Head,
) -> Result<Vec<CountedZone<H>>, Memory>
    requires { HeadFits head.now }
    ensures { IfOk result (λ zones. AreZones head.now clock.now zones.items) }
{
    let count = head.zones.len();
    let mut zones = Vec::with_capacity(alloc, count)?;
    for place in 0..count {
        add_zone(rt, alloc, clock, head, place, &mut zones)?;
    }
    Ok(zones)
}

// Adds the zone of the line at this place to those of the lines before it.
fn add_zone<H: Host, R: Wait>(
    rt: &R,
    alloc: Global,
    clock: &Clock<H>,
    head: &Head,
    place: usize,
    zones: &mut Vec<CountedZone<H>>,
) -> Result<(), Memory>
    requires { CanAddZone head.now clock.now place zones.old.items }
    ensures { OnOk result (AreZones (cut (place + 1) head.now) clock.now zones.new.items) }
{
    let line = &head.zones.as_slice()[place];
    match line.parent {
        None => add_first(alloc, clock, head, place, line, zones),
        Some(parent) => add_further(rt, alloc, clock, head, place, line, parent, zones),
    }
}

// Adds the zone of a `zone` line.
fn add_first<H: Host>(
    alloc: Global,
    clock: &Clock<H>,
    head: &Head,
    place: usize,
    line: &ZoneHead,
    zones: &mut Vec<CountedZone<H>>,
) -> Result<(), Memory>
    requires next { IsNextLine head.now clock.now place line.now zones.old.items }
    requires primary { line.now.parent ≡ None }
    ensures { OnOk result (AreZones (cut (place + 1) head.now) clock.now zones.new.items) }
{
    let zone = make_first(alloc, clock, head.domains, line)?;
    zones.push(zone)?;
    Ok(())
}

// Adds the zone of a `second` line.
fn add_further<H: Host, R: Wait>(
    rt: &R,
    alloc: Global,
    clock: &Clock<H>,
    head: &Head,
    place: usize,
    line: &ZoneHead,
    parent: u32,
    zones: &mut Vec<CountedZone<H>>,
) -> Result<(), Memory>
    requires next { IsNextLine head.now clock.now place line.now zones.old.items }
    requires parent { line.now.parent ≡ Some parent }
    ensures { OnOk result (AreZones (cut (place + 1) head.now) clock.now zones.new.items) }
{
    let zone = make_further(rt, alloc, &mut zones[parent as usize], line)?;
    zones.push(zone)?;
    Ok(())
}

// The zone of a `zone` line, and its keg.
fn make_first<H: Host>(
    alloc: Global,
    clock: &Clock<H>,
    domains: u8,
    line: &ZoneHead,
) -> Result<CountedZone<H>, Memory>
    requires { CanMakeFirst domains line.now }
    ensures { IfOk result (IsFirst (clock_id clock.now) domains line.now) }
{
    let set = ZoneSet {
        slabs: line.slabs,
        bucket: line.bucket,
        limit: line.limit,
        reserve: line.reserve,
        domains,
        smr: is_smr(line.kind),
    };
    match Zone::primary(alloc, clock, line.size, set, CountHooks, CountHooks) {
        Ok(zone) => Ok(zone),
        Err(ZoneRefused::Memory) => Err(Memory),
        Err(_) => unreachable!(),
    }
}

// The zone of a `second` line, over the keg of its parent.
fn make_further<H: Host, R: Wait>(
    rt: &R,
    alloc: Global,
    primary: &mut CountedZone<H>,
    line: &ZoneHead,
) -> Result<CountedZone<H>, Memory>
    requires { CanMakeFurther primary.old line.now }
    ensures { IfOk result (IsFurther line.now primary.old primary.new) }
{
    let set = SecondSet {
        bucket: line.bucket,
        limit: line.limit,
        smr: is_smr(line.kind),
    };
    match primary.secondary(rt, alloc, set, CountHooks) {
        Ok(zone) => Ok(zone),
        Err(ZoneRefused::Memory) => Err(Memory),
        Err(_) => unreachable!(),
    }
}

// Whether the readers of a zone of this kind hold no lock.
fn is_smr(kind: ZoneKind) -> bool
    ensures { result ≡ is_smr_kind kind }
{
    match kind {
        ZoneKind::Plain => false,
        ZoneKind::Smr => true,
    }
}

/// A worker for each pass, in order, with a seat of each zone. Waits until it has the locks of the zones' kegs and of their
/// domains.
pub fn make_workers<H: Host, R: Wait>(
    rt: &R,
    alloc: Global,
    domains: u8,
    zones: &[CountedZone<H>],
    clock: &Clock<H>,
    passes: Vec<Pass<H>>,
) -> Result<Vec<Worker<H>>, Memory>
    requires { CanMakeWorkers domains zones.now clock.now passes.items }
    ensures { IfOk result (λ workers. AreBeginners zones.now clock.now domains (length passes.items) workers.items) }
{
    let mut workers = Vec::with_capacity(alloc, passes.len())?;
    for pass in passes {
        let domain = workers.len() as u8 % domains;
        workers.push(new_worker(rt, alloc, zones, clock, pass, domain)?)?;
    }
    Ok(workers)
}

// A worker whose seats are in this domain.
fn new_worker<H: Host, R: Wait>(
    rt: &R,
    alloc: Global,
    zones: &[CountedZone<H>],
    clock: &Clock<H>,
    pass: Pass<H>,
    domain: u8,
) -> Result<Worker<H>, Memory>
    requires domain { All (λ zone. domain < zone_domains zone) zones.now }
    requires pass { IsNewPass clock.now pass }
    ensures { IfOk result (IsBeginner zones.now clock.now domain) }
{
    Worker::new(rt, alloc, zones, clock, pass, domain, 0)
}

/// What a trace begins with.
#[derive(Drop)]
pub struct Setting<H: Host> {
    pub clock: Clock<H>,
    /// What is known before the first line: where the clock's hands began.
    pub begun: Note<H>,
    /// One zone a line, in order.
    pub zones: Vec<CountedZone<H>>,
    /// The workers before their first lines, in order of number.
    pub workers: Vec<Worker<H>>,
}

/// Makes the clock of a trace without names, its zones and its workers. Waits as [`set_up_with`] does.
pub fn set_up<R: Wait>(rt: &R, alloc: Global, trace: &Trace) -> Result<Setting<Bare>, Memory>
    requires { IsValid trace.now }
    ensures plan { IfOk result (λ setting. (setup_of setting.clock).plan ≡ (0, 0)) }
    ensures set_up { IfOk result (IsSetUp trace.now) }
{
    let (clock, passes) = make_clock(alloc, &trace.head)?;
    set_up_with(rt, alloc, trace, clock, passes)
}

/// Makes the zones and the workers of a trace over this clock and its new passes. Waits until it has the locks of the
/// zones' kegs and of their domains, which nobody else knows of yet.
pub fn set_up_with<H: Host, R: Wait>(
    rt: &R,
    alloc: Global,
    trace: &Trace,
    clock: Clock<H>,
    mut passes: Vec<Pass<H>>,
) -> Result<Setting<H>, Memory>
    requires { CanSetUp trace.now clock passes.items }
    ensures clock { IfOk result (λ setting. setting.clock ≡ clock) }
    ensures set_up { IfOk result (IsSetUp trace.now) }
{
    let head = &trace.head;
    let begun = note_beginning(&clock, &mut passes);
    let zones = make_zones(rt, alloc, &clock, head)?;
    let workers = make_workers(rt, alloc, head.domains, zones.as_slice(), &clock, passes)?;
    Ok(Setting {
        clock,
        begun,
        zones,
        workers,
    })
}

/// Where the sequences of a trace's clock begin where no line says so.
const START: u64 = 1;

/// How far its write sequence may then be above its read sequence.
const WINDOW: u64 = 1024;

/// The clock of a trace without names, and a pass for each worker, in order of number.
pub fn make_clock(alloc: Global, head: &Head) -> Result<(Clock<Bare>, Vec<Pass<Bare>>), Memory>
    requires workers { IsWithin 1 16 head.now.workers }
    requires clock { IfSome head.now.clock ClockFits }
    ensures clock { IfOk result (λ made. setup_of made.0 ≡ setup_for (0, 0) head.now) }
    ensures passes { IfOk result (λ made. ArePasses head.now.workers made.0 made.1.items) }
{
    let ClockHead { start, window } = clock_head(&head.clock);
    match Clock::<Bare>::new(alloc, head.workers, start, window) {
        Ok(made) => Ok(made),
        Err(ClockRefused::Memory) => Err(Memory),
        Err(_) => unreachable!(),
    }
}

/// A note that knows where the sequences of the clock began, by worker 0's pass.
pub fn note_beginning<H: Host>(clock: &Clock<H>, passes: &mut Vec<Pass<H>>) -> Note<H>
    requires some { 0 < length passes.old.items }
    requires passes { ArePasses (length passes.old.items) clock.now passes.old.items }
    ensures passes { ArePasses (length passes.old.items) clock.now passes.new.items }
    ensures note { KnowsBeginning clock.now result }
{
    note_of(clock, &mut passes[0])
}

fn note_of<H: Host>(clock: &Clock<H>, pass: &mut Pass<H>) -> Note<H>
    requires { IsNewPass clock.now pass.old }
    ensures pass { IsNewPass clock.now pass.new }
    ensures note { KnowsBeginning clock.now result }
{
    clock.note(pass)
}

/// The numbers of a trace's clock: those of its clock line, or 1 and 1,024.
pub fn clock_head(line: &Option<ClockHead>) -> ClockHead
    requires { IfSome line.now ClockFits }
    ensures fits { ClockFits result }
    ensures start { result.start ≡ start_of line.now }
    ensures window { result.window ≡ window_of line.now }
{
    match *line {
        Some(clock) => clock,
        None => ClockHead {
            start: START,
            window: WINDOW,
        },
    }
}
