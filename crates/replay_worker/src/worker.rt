ghost use Rattle.std.specs.Prelude.{◌≡◌, ◌<◌, All, IfOk, ◌≤◌, OnOk, ◌⊎◌, ◌^◌, option_map};
ghost use Rattle.smr_clock.specs.Belongs.{IsPassOf, view};
ghost use Rattle.uma_zone.specs.Zone.{zone_domains, IsSeatOf};
ghost use Rattle.replay_worker.specs.Worker.{FitsZones, CanPrealloc, CanWork, CanAlloc};
ghost use Rattle.replay_worker.specs.Making.{IsNewWorker, AreSeats};
ghost use Rattle.replay_worker.specs.Performs.{BringsIn, CanPerform, Performs, EntersInTime, EntersLate, IsBetween, IsOutside, Leaves, Allocs, FreesSlot};
ghost use Rattle.replay_worker.specs.Requests.{BringsItems, Reaches, Requests, IsGivenBack, MakesReady, ReadiesSeat, Releases, ReleasesBy};
ghost use Rattle.uma_seat.specs.Seat.{seat_domain, ledger_of};
ghost use Rattle.replay_worker.specs.Items.{CountedZone};
ghost use Rattle.zone_stats.specs.LedgerSteps.{HasRoom};
ghost use Rattle.uma_zone.specs.Calling.{CanCall};
ghost use Rattle.replay_worker.specs.Calling.{StaysOf, CanGiveBack, CanRelease};
ghost use Rattle.replay_worker.specs.Live.{holding};
ghost use Rattle.replay_worker.specs.Slots.{filled};

use crate::Memory;
use crate::count_hooks::{CountHooks, Counted};
use crate::name_calls::NameCalls;
use crate::slots::Slots;
use crate::worker_run::ReclaimCalls;
use smr_clock::{Clock, Host, Pass};
use smr_core::Phase;
use std::alloc::Global;
use std::sync::Wait;
use trace_text::{Op, Trace};
use uma_keg::FetchRefused;
use uma_life::Live;
use uma_seat::SeatCache;
use uma_zone::{AllocAsk, AllocRefused, Zone};

/// A zone of a replay's items.
pub type CountedZone<H> = Zone<Counted, CountHooks, H>;

/// A worker's seat of such a zone.
pub type CountedSeat<H> = SeatCache<Counted, H>;

/// What the workers of a replay share, each on its thread: none of it is changed but behind locks.
#[derive(Drop)]
pub struct Shared<'a, N: NameCalls, G, C> {
    pub trace: &'a Trace,
    pub zones: &'a [CountedZone<N::H>],
    pub clock: &'a Clock<N::H>,
    /// Who does the lines of names.
    pub names: &'a N,
    pub cache: &'a N::Cache,
    /// Who is asked before each operation.
    pub gate: &'a G,
    /// Who does the lines of reclaim.
    pub reclaim: &'a C,
}

/// What a slot holds: a live item, and the zone that it is of.
#[derive(Drop)]
pub struct Held {
    /// The zone's place among the zones of the trace, from 0.
    pub zone: u32,
    pub item: Live<Counted>,
}

/// A worker of a replay: its pass of the clock, its seat of each zone in order of naming, and what its slots hold. It
/// shares the zones and the clock with the other workers by reference.
///
/// It is a plain struct; that seats, pass and items belong to the zones and the clock is a clause of each call.
#[derive(Drop)]
pub struct Worker<H: Host> {
    pub pass: Pass<H>,
    pub seats: Vec<CountedSeat<H>>,
    pub slots: Slots,
    /// Enters that came in time.
    pub entered: u64,
    /// Enters that came too late.
    pub late: u64,
}

impl<H: Host> Worker<H> {
    /// A worker in a memory domain, with a new seat of each zone and room for so many slots. Waits until it has the locks
    /// of the zones' kegs and of their domains.
    pub fn new<R: Wait>(
        rt: &R,
        alloc: Global,
        zones: &[CountedZone<H>],
        clock: &Clock<H>,
        pass: Pass<H>,
        domain: u8,
        slots: usize,
    ) -> Result<Worker<H>, Memory>
        requires domain { All (λ zone. domain < zone_domains zone) zones.now }
        requires pass { IsPassOf clock.now pass }
        ensures fits { IfOk result (FitsZones zones.now clock.now) }
        ensures new { IfOk result (IsNewWorker zones.now pass domain) }
    {
        let seats = new_seats(rt, alloc, zones, domain)?;
        Ok(Worker {
            pass,
            seats,
            slots: Slots::with_room(alloc, slots)?,
            entered: 0,
            late: 0,
        })
    }

    /// Does one line of the worker, by its kind. Waits where the zones' calls do.
    ///
    /// After the Err, which is want of memory, the replay is over.
    pub fn perform<R: Wait, C: ReclaimCalls>(
        &mut self,
        rt: &R,
        alloc: Global,
        zones: &[CountedZone<H>],
        clock: &Clock<H>,
        reclaim: &C,
        op: Op,
    ) -> Result<(), Memory>
        requires can { CanPerform zones.now self.old op }
        requires able { CanWork zones.now clock.now self.old }
        ensures fits { OnOk result (FitsZones zones.now clock.now self.new) }
        ensures performs { OnOk result (Performs zones.now self.old op self.new) }
    {
        match op {
            Op::Alloc {
                zone,
                slot,
                arg,
                reserve,
            } => {
                let ask = AllocAsk { arg, reserve };
                self.alloc(rt, alloc, zones, clock, zone, slot, ask)
            }
            Op::Free { slot } => self.free(rt, alloc, zones, clock, slot),
            Op::Enter => {
                self.enter(clock);
                Ok(())
            }
            Op::Exit => {
                self.exit(clock);
                Ok(())
            }
            Op::Prealloc { zone, items } => self.prealloc(rt, alloc, zones, zone, items),
            Op::Trim { zone } => self.trim(rt, alloc, zones, clock, reclaim, zone),
            Op::Drain { zone } => self.drain(rt, alloc, zones, clock, reclaim, zone),
            Op::DrainSeat { zone } => self.drain_seat(rt, alloc, zones, clock, reclaim, zone),
            _ => unreachable!(),
        }
    }

    /// A `prealloc` line: brings in the slabs that so many items fill, of the domain of the worker's seat. A refusal but
    /// want of memory is passed over, and counts nothing. The worker stays as it is. Waits until it has the keg's lock.
    pub fn prealloc<R: Wait>(
        &self,
        rt: &R,
        alloc: Global,
        zones: &[CountedZone<H>],
        zone: u32,
        items: u64,
    ) -> Result<(), Memory>
        requires { CanPrealloc zones.now self.now zone items }
        ensures brings { OnOk result (BringsIn zones.now self.now zone items self.now) }
    {
        let place = zone as usize;
        bring(rt, alloc, &zones[place], &self.seats[place], items)
    }

    /// An `enter` line: enters a section, which is counted as entered, or as late where it was overtaken.
    pub fn enter(&mut self, clock: &Clock<H>)
        requires outside { IsOutside clock.now self.old }
        requires entered { self.old.entered < 2 ^ 62 }
        requires late { self.old.late < 2 ^ 62 }
        ensures pass { IsPassOf clock.now self.new.pass }
        ensures enters { EntersInTime self.old self.new ⊎ EntersLate self.old self.new }
    {
        match clock.enter(&mut self.pass) {
            Ok(()) => self.entered += 1,
            Err(_) => self.late += 1,
        }
    }

    /// An `exit` line: leaves the section. After an enter that was late there is none, and nothing is done.
    pub fn exit(&mut self, clock: &Clock<H>)
        requires between { IsBetween self.old }
        requires pass { IsPassOf clock.now self.old.pass }
        ensures pass { IsPassOf clock.now self.new.pass }
        ensures leaves { Leaves self.old self.new }
    {
        if self.pass.phase() == Phase::Inside {
            clock.exit(&mut self.pass);
        }
    }

    /// An `alloc` line: one request of a zone by the worker's seat. The slot holds the item then, or stays empty where
    /// the request is refused. Waits as [`uma_zone::Zone::alloc`] does.
    ///
    /// After `Memory` the replay is over; the worker may have lost an item.
    pub fn alloc<R: Wait>(
        &mut self,
        rt: &R,
        alloc: Global,
        zones: &[CountedZone<H>],
        clock: &Clock<H>,
        zone: u32,
        slot: u32,
        ask: AllocAsk,
    ) -> Result<(), Memory>
        requires { CanAlloc zones.now clock.now self.old zone slot }
        ensures fits { OnOk result (FitsZones zones.now clock.now self.new) }
        ensures allocs { OnOk result (Allocs zones.now self.old zone slot ask self.new) }
    {
        let place = zone as usize;
        let seat = &mut self.seats[place];
        let got = request(rt, alloc, &zones[place], clock, &mut self.pass, seat, ask)?;
        fill(alloc, &mut self.slots, slot, held_of(zone, got))
    }

    /// A `free` line: the item that the slot holds is freed by the worker's seat of its zone, which is made ready first
    /// where it has no spare bucket. Where the slot is empty, since its request was refused, nothing is done. Waits as
    /// [`uma_zone::Zone::make_room`] does.
    ///
    /// After `Memory` the replay is over; the item is lost.
    pub fn free<R: Wait>(
        &mut self,
        rt: &R,
        alloc: Global,
        zones: &[CountedZone<H>],
        clock: &Clock<H>,
        slot: u32,
    ) -> Result<(), Memory>
        requires { CanWork zones.now clock.now self.old }
        ensures fits { OnOk result (FitsZones zones.now clock.now self.new) }
        ensures frees { OnOk result (FreesSlot zones.now self.old slot self.new) }
    {
        let Some(held) = self.slots.take(slot) else {
            return Ok(());
        };
        let place = held.zone as usize;
        let seat = &mut self.seats[place];
        give_back(
            rt,
            alloc,
            &zones[place],
            clock,
            &mut self.pass,
            seat,
            held.item,
        )
    }
}

// A seat of each zone in this memory domain, in order.
fn new_seats<H: Host, R: Wait>(
    rt: &R,
    alloc: Global,
    zones: &[CountedZone<H>],
    domain: u8,
) -> Result<Vec<CountedSeat<H>>, Memory>
    requires { All (λ zone. domain < zone_domains zone) zones.now }
    ensures { IfOk result (λ seats. AreSeats zones.now domain seats.items) }
{
    let mut seats = Vec::with_capacity(alloc, zones.len())?;
    for zone in zones {
        let Ok(seat) = zone.seat(rt, alloc, domain) else {
            return Err(Memory);
        };
        seats.push(seat)?;
    }
    Ok(seats)
}

/// Brings in the slabs that so many items fill, of the seat's domain.
fn bring<H: Host, R: Wait>(
    rt: &R,
    alloc: Global,
    zone: &CountedZone<H>,
    seat: &CountedSeat<H>,
    items: u64,
) -> Result<(), Memory>
    requires items { items ≤ 262144 }
    requires seat { IsSeatOf zone.now seat.now }
    ensures { OnOk result (BringsItems zone.now items (seat_domain seat.now)) }
{
    match zone.prealloc(rt, alloc, items, seat.domain()) {
        Ok(_) => Ok(()),
        Err(FetchRefused::Refused { .. }) => Ok(()),
        Err(FetchRefused::Memory) => Err(Memory),
    }
}

/// One request of a zone. None where it is refused, which the seat's ledger counts and keeps.
pub(crate) fn request<H: Host, R: Wait>(
    rt: &R,
    alloc: Global,
    zone: &CountedZone<H>,
    clock: &Clock<H>,
    pass: &mut Pass<H>,
    seat: &mut CountedSeat<H>,
    ask: AllocAsk,
) -> Result<Option<Live<Counted>>, Memory>
    requires can { CanCall zone.now clock.now pass.old seat.old }
    requires room { HasRoom (ledger_of seat.old) }
    ensures stays { StaysOf zone.now clock.now pass.old pass.new seat.new }
    ensures requests { IfOk result (λ got. Requests zone.now ask seat.old got seat.new) }
    ensures reaches { OnOk result (Reaches zone.now (view pass.old) seat.old seat.new (view pass.new)) }
{
    match zone.alloc(rt, alloc, clock, pass, seat, ask) {
        Ok(item) => Ok(Some(item)),
        Err(AllocRefused::Refused { .. }) => Ok(None),
        Err(AllocRefused::Memory) => Err(Memory),
    }
}

/// What a slot holds after a request.
fn held_of(zone: u32, got: Option<Live<Counted>>) -> Option<Held>
    ensures { result ≡ option_map (holding zone) got }
{
    got.map(|item| Held { zone, item })
}

/// Puts what is held, if there is something, into the slot.
pub(crate) fn fill(
    alloc: Global,
    slots: &mut Slots,
    slot: u32,
    held: Option<Held>,
) -> Result<(), Memory>
    ensures { OnOk result (slots.new ≡ filled slots.old slot held) }
{
    match held {
        Some(held) => slots.put(alloc, slot, held),
        None => Ok(()),
    }
}

/// Makes the seat ready, and frees the item.
fn give_back<H: Host, R: Wait>(
    rt: &R,
    alloc: Global,
    zone: &CountedZone<H>,
    clock: &Clock<H>,
    pass: &mut Pass<H>,
    seat: &mut CountedSeat<H>,
    item: Live<Counted>,
) -> Result<(), Memory>
    requires { CanGiveBack zone.now clock.now pass.old seat.old item }
    ensures stays { OnOk result (StaysOf zone.now clock.now pass.old pass.new seat.new) }
    ensures gives_back { OnOk result (IsGivenBack zone.now (view pass.old) seat.old item seat.new (view pass.new)) }
{
    make_ready(rt, alloc, zone, clock, pass, seat)?;
    release(zone, clock, pass, seat, item);
    Ok(())
}

/// Makes room for the next frees where the seat has no spare bucket.
fn make_ready<H: Host, R: Wait>(
    rt: &R,
    alloc: Global,
    zone: &CountedZone<H>,
    clock: &Clock<H>,
    pass: &mut Pass<H>,
    seat: &mut CountedSeat<H>,
) -> Result<(), Memory>
    requires { CanCall zone.now clock.now pass.old seat.old }
    ensures stays { StaysOf zone.now clock.now pass.old pass.new seat.new }
    ensures ready { OnOk result (MakesReady seat.old seat.new) }
    ensures readies { OnOk result (ReadiesSeat zone.now (view pass.old) seat.old seat.new (view pass.new)) }
{
    if seat.spare() > 0 {
        return Ok(());
    }
    match zone.make_room(rt, alloc, clock, pass, seat) {
        Ok(()) => Ok(()),
        Err(_) => Err(Memory),
    }
}

/// Frees an item by the zone's kind.
fn release<H: Host>(
    zone: &CountedZone<H>,
    clock: &Clock<H>,
    pass: &mut Pass<H>,
    seat: &mut CountedSeat<H>,
    item: Live<Counted>,
)
    requires { CanRelease zone.now clock.now pass.old seat.old item }
    ensures stays { StaysOf zone.now clock.now pass.old pass.new seat.new }
    ensures released { Releases zone.now seat.old item seat.new }
    ensures by { ReleasesBy zone.now (view pass.old) seat.old item seat.new (view pass.new) }
{
    if zone.is_smr() {
        zone.free_smr(clock, pass, seat, item);
    } else {
        zone.free(seat, item);
    }
}
