//! The census of a keg: all workers' slots lend their live items to it, and get them back.
ghost use Rattle.std.specs.Prelude.{◌≡◌, ◌≤◌, ◌+◌, ◌^◌, length, ◌<◌, ◌++◌, IfOk, OnOk, option_to_list, slice_set, reverse, cond};
ghost use Rattle.uma_life.specs.Hook.{Hook};
ghost use Rattle.uma_life.specs.Sum.{sum_of, AreBelow};
ghost use Rattle.replay_rounds.specs.Slots.{live_sum, in_keg, mark_of, lent_item, left_of, AllLend, LendSlots, LendsItems, MarksEach, MarksFit, next_held, next_lives, refilled, over, refilled_worker, all_refilled};
ghost use Rattle.replay_worker.specs.Slots.{slot_at};
ghost use Rattle.replay_rounds.specs.Lending.{AreFew, KeepsWorkers, TakesCensusAt};
ghost use Rattle.uma_bucket.specs.Sums.{AreOfAtMost};
ghost use Rattle.replay_rounds.specs.Kegs.{keg_place};
ghost use Rattle.replay_rounds.specs.Taking.{is_of_keg, keg_sums, AreZoneSums, CanAddZones, CanTake, TakesKeg};

use listed::Listed;
use replay_worker::{Counted, CountedZone, Held, Memory, Slots, Worker};
use smr_clock::{Clock, Host};
use std::alloc::Global;
use std::sync::Wait;
use trace_text::{Head, ZoneHead};
use uma_bucket::Sums;
use uma_keg::Census;
use uma_life::{Body, Live, Lives, TallySum};

/// These sums with the tallies of live items.
pub(crate) fn with_lives(sums: TallySum, lives: &[Live<Counted>]) -> TallySum
    requires below { AreBelow (2 ^ 121) sums }
    requires few { length lives.now ≤ 2 ^ 20 }
    ensures { (hook : Hook) → sum_of result hook ≡ sum_of sums hook + live_sum hook lives.now }
{
    let mut sums = sums;
    for item in lives {
        sums.add(item.body().tally());
    }
    sums
}

/// Which slots of a worker lent an item, and of which zone it is, by the zone's place.
pub(crate) type Marks = Listed<Option<u32>>;

/// Takes the items of the keg whose primary zone stands at `place` out of all slots, one worker after another, and marks
/// the slots that held them.
pub(crate) fn lend_all<H: Host>(
    alloc: Global,
    head: &Head,
    place: usize,
    workers: &mut [Worker<H>],
) -> Result<(Vec<Marks>, Vec<Live<Counted>>), Memory>
    requires few { AreFew workers.old }
    ensures { IfOk result (λ (marks, lives). AllLend (in_keg head.now.zones place) workers.old workers.new marks.items lives.items) }
{
    let count = workers.len();
    let mut marks = Vec::with_capacity(alloc, count)?;
    let mut lives = Vec::new(alloc);
    for number in 0..count {
        marks.push(lend_by(alloc, head, place, &mut workers[number], &mut lives)?)?;
    }
    Ok((marks, lives))
}

/// Takes the keg's items out of the worker's slots, behind the others, and marks the slots that held them.
fn lend_by<H: Host>(
    alloc: Global,
    head: &Head,
    place: usize,
    worker: &mut Worker<H>,
    lives: &mut Vec<Live<Counted>>,
) -> Result<Marks, Memory>
    requires few { length worker.old.slots ≤ 65536 }
    ensures { IfOk result (LendsItems (in_keg head.now.zones place) worker.old lives.old.items worker.new lives.new.items) }
{
    lend(alloc, head, place, &mut worker.slots, lives)
}

/// The same of these slots.
fn lend(
    alloc: Global,
    head: &Head,
    place: usize,
    slots: &mut Slots,
    lives: &mut Vec<Live<Counted>>,
) -> Result<Marks, Memory>
    requires few { length slots.old ≤ 65536 }
    ensures { IfOk result (LendSlots (in_keg head.now.zones place) slots.old lives.old.items slots.new lives.new.items) }
{
    let count = slots.len();
    let mut marks = Vec::with_capacity(alloc, count)?;
    for slot in 0..count {
        marks.push(lend_one(alloc, head, place, slot as u32, slots, lives)?)?;
    }
    Ok(Listed::from_vec(marks))
}

/// Takes the slot's item behind the others, if it is one of the keg, and says of which zone it is.
fn lend_one(
    alloc: Global,
    head: &Head,
    place: usize,
    slot: u32,
    slots: &mut Slots,
    lives: &mut Vec<Live<Counted>>,
) -> Result<Option<u32>, Memory>
    requires within { slot < length slots.old }
    ensures mark { IfOk result (λ mark. mark ≡ mark_of (in_keg head.now.zones place) (slot_at slots.old slot)) }
    ensures lives { OnOk result (lives.new.items ≡ lives.old.items ++ option_to_list (lent_item (in_keg head.now.zones place) (slot_at slots.old slot))) }
    ensures left { OnOk result (slots.new ≡ slice_set slots.old slot (left_of (in_keg head.now.zones place) (slot_at slots.old slot))) }
{
    let Some(held) = slots.take(slot) else {
        return Ok(None);
    };
    if !is_of_keg(head, place, held.zone) {
        slots.put(alloc, slot, held)?;
        return Ok(None);
    }
    let Held { zone, item } = held;
    lives.push(item)?;
    Ok(Some(zone))
}

/// Whether the zone at this place has the keg of the primary zone at `place`.
fn is_of_keg(head: &Head, place: usize, zone: u32) -> bool
    ensures { result ≡ in_keg head.now.zones place zone }
{
    match head.zones.as_slice().get(zone as usize) {
        Some(line) => match line.parent {
            Some(parent) => parent as usize == place,
            None => zone as usize == place,
        },
        None => false,
    }
}

/// Puts the items back into the marked slots, one worker after another, in order. The last item of the list goes first.
pub(crate) fn put_all_back<H: Host>(
    alloc: Global,
    marks: &[Marks],
    lives: &mut Vec<Live<Counted>>,
    workers: &mut [Worker<H>],
) -> Result<(), Memory>
    requires { MarksFit marks.now workers.old }
    ensures { OnOk result (workers.new ≡ all_refilled marks.now (reverse lives.old.items) workers.old) }
{
    for number in 0..marks.len() {
        put_back_by(alloc, marks[number].as_slice(), lives, &mut workers[number])?;
    }
    Ok(())
}

/// Puts the next items back into the worker's marked slots.
fn put_back_by<H: Host>(
    alloc: Global,
    marks: &[Option<u32>],
    lives: &mut Vec<Live<Counted>>,
    worker: &mut Worker<H>,
) -> Result<(), Memory>
    requires { MarksEach marks.now worker.old.slots }
    ensures worker { OnOk result (worker.new ≡ refilled_worker marks.now (reverse lives.old.items) worker.old) }
    ensures lives { OnOk result (reverse lives.new.items ≡ over marks.now (reverse lives.old.items)) }
{
    put_back(alloc, marks, lives, &mut worker.slots)
}

/// The same of these slots.
fn put_back(
    alloc: Global,
    marks: &[Option<u32>],
    lives: &mut Vec<Live<Counted>>,
    slots: &mut Slots,
) -> Result<(), Memory>
    requires { MarksEach marks.now slots.old }
    ensures slots { OnOk result (slots.new ≡ refilled marks.now (reverse lives.old.items) slots.old) }
    ensures lives { OnOk result (reverse lives.new.items ≡ over marks.now (reverse lives.old.items)) }
{
    for slot in 0..marks.len() {
        put_one(alloc, marks[slot], slot as u32, lives, slots)?;
    }
    Ok(())
}

/// Puts the next item into the slot, if it is marked. The mark is the place of the item's zone.
fn put_one(
    alloc: Global,
    mark: Option<u32>,
    slot: u32,
    lives: &mut Vec<Live<Counted>>,
    slots: &mut Slots,
) -> Result<(), Memory>
    requires within { slot < length slots.old }
    ensures slots { OnOk result (slots.new ≡ slice_set slots.old slot (next_held mark (reverse lives.old.items) (slot_at slots.old slot))) }
    ensures lives { OnOk result (reverse lives.new.items ≡ next_lives mark (reverse lives.old.items)) }
{
    if let Some(zone) = mark
        && let Some(item) = lives.pop()
    {
        slots.put(alloc, slot, Held { zone, item })?;
    }
    Ok(())
}

/// The census of the keg whose primary zone stands at `place`, and its hooks' sums: with those of its zones, which `sums`
/// has for each zone. Waits until it has the keg's lock. After the Err slots may have lost items.
pub(crate) fn take_keg<H: Host, R: Wait>(
    rt: &R,
    alloc: Global,
    head: &Head,
    clock: &Clock<H>,
    zones: &[CountedZone<H>],
    place: usize,
    sums: &[Sums],
    workers: &mut [Worker<H>],
) -> Result<(Census, TallySum), Memory>
    requires can { CanTake head.now clock.now zones.now workers.old }
    requires place { place < length zones.now }
    requires sums { AreZoneSums (length zones.now) sums.now }
    ensures keg { IfOk result (λ (census, tally). TakesKeg head.now zones.now workers.old sums.now place census tally) }
    ensures workers { OnOk result (KeepsWorkers workers.old workers.new) }
{
    let (census, lent) = take_census(rt, alloc, head, clock, zones, place, workers)?;
    let tally = with_zones(head.zones.as_slice(), sums, place, lent);
    Ok((census, tally))
}

/// The tally with the sums of each zone of the keg whose primary zone stands at this place.
fn with_zones(lines: &[ZoneHead], sums: &[Sums], place: usize, tally: TallySum) -> TallySum
    requires { CanAddZones lines.now sums.now tally }
    ensures { (hook : Hook) → sum_of result hook ≡ sum_of tally hook + keg_sums hook place lines.now sums.now }
{
    let mut all = tally;
    for number in 0..lines.len() {
        add_zone(&mut all, &lines[number], number, &sums[number], place);
    }
    all
}

/// Adds the sums of the zone at place `number`, if it is of the keg whose primary zone stands at `place`.
fn add_zone(all: &mut TallySum, line: &ZoneHead, number: usize, sums: &Sums, place: usize)
    requires room { AreBelow (2 ^ 127) all.old }
    requires small { AreOfAtMost (2 ^ 35) sums.now }
    ensures { (hook : Hook) → sum_of all.new hook ≡ sum_of all.old hook + cond (is_of_keg place number line.now) (sum_of sums.now.tally hook) 0 }
{
    if keg_of(number, line) != place {
        return;
    }
    all.add_sums(sums.tally);
}

/// The place of the primary zone of the keg that the zone at place `number` has.
fn keg_of(number: usize, line: &ZoneHead) -> usize
    ensures { result ≡ keg_place number line.now }
{
    match line.parent {
        Some(parent) => parent as usize,
        None => number,
    }
}

/// The census of the keg whose primary zone stands at `place`, to which all workers' slots lend the items of all the keg's
/// zones, and how often each hook was passed by its items and by those in the slots, summed up. The zones are those of the
/// head's lines, over this clock. Waits until it has the keg's lock. After the Err slots may have lost items.
pub(crate) fn take_census<H: Host, R: Wait>(
    rt: &R,
    alloc: Global,
    head: &Head,
    clock: &Clock<H>,
    zones: &[CountedZone<H>],
    place: usize,
    workers: &mut [Worker<H>],
) -> Result<(Census, TallySum), Memory>
    requires can { CanTake head.now clock.now zones.now workers.old }
    requires place { place < length zones.now }
    ensures census { IfOk result (λ (census, tally). TakesCensusAt head.now zones.now workers.old place census tally) }
    ensures workers { OnOk result (KeepsWorkers workers.old workers.new) }
{
    let (marks, lives) = lend_all(alloc, head, place, workers)?;
    let Ok((census, lives)) = zones[place].census(rt, alloc, Lives::from_vec(lives)) else {
        return Err(Memory);
    };
    let tally = with_lives(*census.tally(), lives.as_slice());
    let mut lives = lives.into_vec();
    lives.reverse();
    put_all_back(alloc, &marks, &mut lives, workers)?;
    Ok((census, tally))
}
