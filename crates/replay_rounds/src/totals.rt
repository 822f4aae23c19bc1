ghost use Rattle.std.specs.Prelude.{◌≡◌, ◌≤◌, ◌<◌, ℕ, Some, IfOk, length, slice_get, OnOk, map};
ghost use Rattle.replay_worker.specs.declared.worker.Worker.{Worker};
ghost use Rattle.replay_rounds.specs.Summing.{AreOfSeat, HasSeat, SumsOfFirst, SumsUp};
ghost use Rattle.replay_worker.specs.Items.{CountedZone};
ghost use Rattle.replay_rounds.specs.Lending.{KeepsWorkers};
ghost use Rattle.replay_rounds.specs.Closes.{AllClose};
ghost use Rattle.replay_rounds.specs.Taking.{AllSumUp, AreZoneSums, CanTake, TakesKegs};
ghost use Rattle.smr_clock.specs.Belongs.{IsPassOf, setup_of};
ghost use Rattle.smr_clock.specs.Notes.{IsNoteOf};
ghost use Rattle.replay_rounds.specs.Clock.{AllLearn, AreHere, CanGather, CanLookAt, CanReadHands, Gathers, HasWorker, Knows, Learns, Looks, LooksAt, NotesAt, PassesOn, ReadsHands, TakesAt, Tells};

use crate::census::take_keg;
use replay_worker::{CountedZone, Memory, Worker};
use smr_clock::{Clock, Host, Note};
use std::alloc::Global;
use std::sync::Wait;
use trace_text::Head;
use uma_bucket::Sums;
use uma_keg::Census;
use uma_life::TallySum;

/// What the zone's domains and all workers' seats of it have, summed up. Its seats stand at this place. Waits until it has
/// each domain's lock.
pub(crate) fn zone_sums<H: Host, R: Wait>(
    rt: &R,
    zone: &CountedZone<H>,
    place: usize,
    workers: &[Worker<H>],
) -> Result<Sums, Memory>
    requires few { length workers.now ≤ 16 }
    requires seats { (n : ℕ) (w : Worker H H.Part H.Host) → slice_get workers.now n ≡ Some w → HasSeat zone.now place w }
    ensures { IfOk result (SumsUp zone.now place workers.now) }
{
    let Ok(mut sums) = zone.sums(rt) else {
        return Err(Memory);
    };
    for worker in workers {
        sums.add_sums(seat_sums(worker, place));
    }
    Ok(sums)
}

/// What the worker's seat of the zone at this place lists, summed up.
fn seat_sums<H: Host>(worker: &Worker<H>, place: usize) -> Sums
    requires { place < length worker.now.seats.items }
    ensures { AreOfSeat place worker.now result }
{
    worker.seats[place].sums()
}

/// What the zones come to when all lines are done.
#[derive(Drop)]
pub struct Totals {
    /// Of each keg, in the order of the primary zones' lines: its census.
    pub censuses: Vec<Census>,
    /// And how often the items of its zones passed each hook, wherever they are.
    pub tallies: Vec<TallySum>,
    /// Of each zone, in order: how many items are deferred.
    pub deferred: Vec<u64>,
}

// The kegs that were taken.
#[derive(Drop)]
struct Kegs {
    censuses: Vec<Census>,
    tallies: Vec<TallySum>,
}

/// What the zones and the workers come to when all lines are done. The zones are those of the head's lines, over this
/// clock. The workers' items stay in their slots. Waits until it has each domain's and each keg's lock. After the Err slots
/// may have lost items.
pub fn take_totals<H: Host, R: Wait>(
    rt: &R,
    alloc: Global,
    head: &Head,
    zones: &[CountedZone<H>],
    clock: &Clock<H>,
    workers: &mut [Worker<H>],
) -> Result<Totals, Memory>
    requires { CanTake head.now clock.now zones.now workers.old }
    ensures closes { IfOk result (λ t. AllClose head.now zones.now workers.new t.censuses.items t.tallies.items t.deferred.items) }
    ensures workers { OnOk result (KeepsWorkers workers.old workers.new) }
{
    let sums = all_sums(rt, alloc, zones, workers)?;
    let kegs = take_kegs(rt, alloc, head, clock, zones, sums.as_slice(), workers)?;
    let deferred = all_deferred(alloc, sums.as_slice())?;
    Ok(Totals {
        censuses: kegs.censuses,
        tallies: kegs.tallies,
        deferred,
    })
}

/// What each zone's domains and seats list, summed up.
fn all_sums<H: Host, R: Wait>(
    rt: &R,
    alloc: Global,
    zones: &[CountedZone<H>],
    workers: &[Worker<H>],
) -> Result<Vec<Sums>, Memory>
    requires few { length workers.now ≤ 16 }
    requires seats { (z n : ℕ) (zone : CountedZone H H.Part H.Host) (w : Worker H H.Part H.Host) → slice_get zones.now z ≡ Some zone → slice_get workers.now n ≡ Some w → HasSeat zone z w }
    ensures { IfOk result (λ sums. AllSumUp zones.now workers.now sums.items) }
{
    let mut all = Vec::new(alloc);
    for place in 0..zones.len() {
        let sums = zone_sums(rt, &zones[place], place, workers)?;
        all.push(sums)?;
    }
    Ok(all)
}

/// Of each zone, how many items are deferred.
fn all_deferred(alloc: Global, sums: &[Sums]) -> Result<Vec<u64>, Memory>
    ensures { IfOk result (λ all. all.items ≡ map (λ s. s.deferred) sums.now) }
{
    let mut all = Vec::new(alloc);
    for of_zone in sums {
        all.push(of_zone.deferred)?;
    }
    Ok(all)
}

/// Each keg, in the order of the primary zones' lines.
fn take_kegs<H: Host, R: Wait>(
    rt: &R,
    alloc: Global,
    head: &Head,
    clock: &Clock<H>,
    zones: &[CountedZone<H>],
    sums: &[Sums],
    workers: &mut [Worker<H>],
) -> Result<Kegs, Memory>
    requires can { CanTake head.now clock.now zones.now workers.old }
    requires sums { AreZoneSums (length zones.now) sums.now }
    ensures kegs { IfOk result (λ kegs. TakesKegs head.now zones.now workers.old sums.now head.now.zones kegs.censuses.items kegs.tallies.items) }
    ensures workers { OnOk result (KeepsWorkers workers.old workers.new) }
{
    let lines = head.zones.as_slice();
    let mut kegs = Kegs {
        censuses: Vec::new(alloc),
        tallies: Vec::new(alloc),
    };
    for place in 0..lines.len() {
        if lines[place].parent.is_some() {
            continue;
        }
        let (census, tally) = take_keg(rt, alloc, head, clock, zones, place, sums, workers)?;
        kegs.censuses.push(census)?;
        kegs.tallies.push(tally)?;
    }
    Ok(kegs)
}

/// The read sequence and the write sequence when all lines are done. Worker 0's pass takes in what each other worker's knows, and
/// looks at both sequences; the read sequence is the greatest number that it then knows to be at or below it. `begun` is the note from
/// before the first line, and `window` the clock's.
pub fn read_hands<H: Host>(
    clock: &Clock<H>,
    workers: &mut [Worker<H>],
    begun: Note<H>,
    window: u64,
) -> (u64, u64)
    requires { CanReadHands clock.now workers.old begun window }
    ensures reads { ReadsHands clock.now workers.new result.0 result.1 }
    ensures learn { AllLearn clock.now workers.old workers.new }
{
    gather(clock, workers, begun);
    hands_by_first(clock, workers, window)
}

/// Worker 0's pass takes in the note, and what each other worker's knows.
fn gather<H: Host>(clock: &Clock<H>, workers: &mut [Worker<H>], begun: Note<H>)
    requires { CanGather clock.now workers.old begun }
    ensures { Gathers clock.now (length workers.old) workers.old workers.new }
{
    take_at(clock, workers, 0, begun);
    for number in 1..workers.len() {
        pass_on(clock, workers, number);
    }
}

/// Worker 0's pass takes in what another worker's knows.
fn pass_on<H: Host>(clock: &Clock<H>, workers: &mut [Worker<H>], number: usize)
    requires at { number < length workers.old }
    requires here { AreHere clock.now workers.old }
    ensures { PassesOn clock.now number workers.old workers.new }
{
    let note = note_at(clock, workers, number);
    take_at(clock, workers, 0, note);
}

/// A note of what the pass of the worker with this number knows.
fn note_at<H: Host>(clock: &Clock<H>, workers: &mut [Worker<H>], number: usize) -> Note<H>
    requires { HasWorker clock.now number workers.old }
    ensures { NotesAt clock.now number workers.old result workers.new }
{
    note_of(clock, &mut workers[number])
}

/// The pass of the worker with this number takes the note in.
fn take_at<H: Host>(clock: &Clock<H>, workers: &mut [Worker<H>], number: usize, note: Note<H>)
    requires worker { HasWorker clock.now number workers.old }
    requires note_here { IsNoteOf clock.now note }
    ensures { TakesAt clock.now number workers.old note workers.new }
{
    take_in(clock, &mut workers[number], note);
}

/// The sequences, by worker 0's pass.
fn hands_by_first<H: Host>(clock: &Clock<H>, workers: &mut [Worker<H>], window: u64) -> (u64, u64)
    requires { CanLookAt clock.now workers.old window }
    ensures { LooksAt clock.now workers.old result.0 result.1 workers.new }
{
    hands_by(clock, &mut workers[0], window)
}

/// A note of what the worker's pass knows, the write sequence as it is now included.
fn note_of<H: Host>(clock: &Clock<H>, worker: &mut Worker<H>) -> Note<H>
    requires { IsPassOf clock.now worker.old.pass }
    ensures learns { Learns clock.now worker.old worker.new }
    ensures tells { Tells clock.now result worker.new }
{
    clock.note(&mut worker.pass)
}

/// The worker's pass takes the note in.
fn take_in<H: Host>(clock: &Clock<H>, worker: &mut Worker<H>, note: Note<H>)
    requires here { IsPassOf clock.now worker.old.pass }
    requires note_here { IsNoteOf clock.now note }
    ensures learns { Learns clock.now worker.old worker.new }
    ensures knows { Knows note worker.new }
{
    clock.absorb(&mut worker.pass, note);
}

/// The read sequence, or where it stands at least by the write sequence, and the write sequence.
fn hands_by<H: Host>(clock: &Clock<H>, worker: &mut Worker<H>, window: u64) -> (u64, u64)
    requires here { IsPassOf clock.now worker.old.pass }
    requires window { window ≡ (setup_of clock.now).config.window }
    ensures { Looks clock.now worker.old result.0 result.1 worker.new }
{
    let (read, write) = clock.hands(&mut worker.pass);
    (read.max(write.saturating_sub(window)), write)
}
