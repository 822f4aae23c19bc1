ghost use Rattle.std.specs.Prelude.{◌≡◌, [], None, Some, OnErr};
ghost use Rattle.uma_seat.specs.Seat.{seat_clock, shelf_of};
ghost use Rattle.uma_zone.specs.Calling.{IsBy, CanFlush};
ghost use Rattle.uma_zone.specs.Domains.{IsSeatOf};
ghost use Rattle.uma_zone.specs.Flushed.{in_order, AreLastOf};
ghost use Rattle.uma_zone.specs.Flushing.{FlushesSeat, MakesRoom, TakesOldest, CanPutOne, PutsOne, CanPutInOrder, PutsInOrder, CanPutBack, PutsBackOn, AddsSpares};

use crate::domains::ZoneDomains;
use deed_book::Memory;
use smr_clock::{Clock, Host, Pass};
use std::alloc::Global;
use std::sync::Wait;
use uma_bucket::Shelved;
use uma_life::Body;
use uma_seat::{SeatCache, try_to_seal};

impl<T: Body + Drop, H: Host> ZoneDomains<T, H> {
    /// Takes the buckets of the seat's shelf to their domains, oldest first.
    ///
    /// Before that each loose bucket of the shelf tries once to be sealed, and then each loose one that the seat's own domain
    /// lists does, oldest first. A bucket goes to the inbox of its domain, without that domain's lock; where the inbox returns
    /// it, it goes to the list. Where the list has no memory for it either, or would hold 2^32 items or more, that bucket and
    /// those behind it stay on the shelf, and at least one is there then.
    /// In an SMR zone this blocks on the lock of the seat's own domain. In a plain zone a domain's lock is taken only for a
    /// bucket that an inbox returns. A push may wait for another push.
    pub(crate) fn flush<R: Wait>(
        &self,
        rt: &R,
        clock: &Clock<H>,
        pass: &mut Pass<H>,
        seat: &mut SeatCache<T, H>,
    ) -> Result<(), Memory>
        requires { CanFlush self.now clock.now pass.old seat.old }
        ensures { FlushesSeat (IsSeatOf self.now) self.now H.copied clock.now pass.old seat.old result pass.new seat.new }
    {
        let oldest = take_tried(clock, pass, seat);
        let newest = take_tried(clock, pass, seat);
        self.try_listed(rt, clock, pass, seat.domain());
        self.put_in_order(rt, seat, oldest, newest)
    }

    /// Flushes the seat, and then makes spare buckets until there are two. Waits as a flush does.
    pub(crate) fn make_room<R: Wait>(
        &self,
        rt: &R,
        alloc: Global,
        clock: &Clock<H>,
        pass: &mut Pass<H>,
        seat: &mut SeatCache<T, H>,
    ) -> Result<(), Memory>
        requires { CanFlush self.now clock.now pass.old seat.old }
        ensures { MakesRoom (IsSeatOf self.now) self.now H.copied clock.now pass.old seat.old result pass.new seat.new }
    {
        self.flush(rt, clock, pass, seat)?;
        add_spares(alloc, seat)
    }

    // Takes the buckets that were on the seat's shelf to their domains. What can't go is on the shelf again.
    fn put_in_order<R: Wait>(
        &self,
        rt: &R,
        seat: &mut SeatCache<T, H>,
        oldest: Option<Shelved<T, H>>,
        newest: Option<Shelved<T, H>>,
    ) -> Result<(), Memory>
        requires { CanPutInOrder self.now seat.old oldest newest }
        ensures done { PutsInOrder self.now (in_order oldest newest) seat.old result seat.new }
        ensures stay { OnErr result (AreLastOf (in_order oldest newest) (shelf_of seat.new)) }
    {
        match self.put_if_some(rt, seat, oldest) {
            Ok(()) => self.put_newest(rt, seat, newest),
            Err(oldest) => {
                put_back(seat, newest);
                seat.put_shelf(oldest);
                Err(Memory)
            }
        }
    }

    // Takes the last bucket that was on the seat's shelf to its domain.
    fn put_newest<R: Wait>(
        &self,
        rt: &R,
        seat: &mut SeatCache<T, H>,
        newest: Option<Shelved<T, H>>,
    ) -> Result<(), Memory>
        requires { CanPutInOrder self.now seat.old None newest }
        ensures done { PutsInOrder self.now (in_order None newest) seat.old result seat.new }
        ensures stay { OnErr result (shelf_of seat.new ≡ in_order None newest) }
    {
        match self.put_if_some(rt, seat, newest) {
            Ok(()) => Ok(()),
            Err(newest) => {
                seat.put_shelf(newest);
                Err(Memory)
            }
        }
    }

    fn put_if_some<R: Wait>(
        &self,
        rt: &R,
        seat: &mut SeatCache<T, H>,
        shelved: Option<Shelved<T, H>>,
    ) -> Result<(), Shelved<T, H>>
        requires { CanPutOne self.now seat.old shelved }
        ensures { PutsOne self.now seat.old shelved result seat.new }
    {
        match shelved {
            Some(shelved) => self.put(rt, seat, shelved),
            None => Ok(()),
        }
    }

    // Takes a bucket to its domain, by the seat's port.
    fn put<R: Wait>(
        &self,
        rt: &R,
        seat: &mut SeatCache<T, H>,
        shelved: Shelved<T, H>,
    ) -> Result<(), Shelved<T, H>>
        requires { CanPutOne self.now seat.old (Some shelved) }
        ensures { PutsOne self.now seat.old (Some shelved) result seat.new }
    {
        match shelved {
            Shelved::Plain { domain, bucket } => match self
                .get(domain)
                .put_plain(rt, seat.port(domain), bucket)
            {
                Ok(()) => Ok(()),
                Err(bucket) => Err(Shelved::Plain { domain, bucket }),
            },
            Shelved::Loose { domain, bucket } => match self
                .get(domain)
                .put_loose(rt, seat.port(domain), bucket)
            {
                Ok(()) => Ok(()),
                Err(bucket) => Err(Shelved::Loose { domain, bucket }),
            },
            Shelved::Sealed { domain, bucket } => match self
                .get(domain)
                .put_sealed(rt, seat.port(domain), bucket)
            {
                Ok(()) => Ok(()),
                Err(bucket) => Err(Shelved::Sealed { domain, bucket }),
            },
        }
    }
}

// Takes the oldest bucket from the seat's shelf. It tries once to be sealed, where it is loose.
fn take_tried<T: Body, H: Host>(
    clock: &Clock<H>,
    pass: &mut Pass<H>,
    seat: &mut SeatCache<T, H>,
) -> Option<Shelved<T, H>>
    requires { IsBy (seat_clock seat.old) clock.now pass.old }
    ensures { TakesOldest H.copied clock.now pass.old seat.old result pass.new seat.new }
{
    match seat.take_shelf()? {
        Shelved::Loose { domain, bucket } => Some(try_to_seal(clock, pass, domain, bucket)),
        whole => Some(whole),
    }
}

// Puts a bucket back on the seat's shelf, where there is one.
fn put_back<T: Body, H: Host>(seat: &mut SeatCache<T, H>, shelved: Option<Shelved<T, H>>)
    requires { CanPutBack seat.old shelved }
    ensures { PutsBackOn seat.old shelved seat.new }
{
    match shelved {
        Some(shelved) => seat.put_shelf(shelved),
        None => {}
    }
}

// Makes spare buckets until there are two.
fn add_spares<T: Body, H: Host>(alloc: Global, seat: &mut SeatCache<T, H>) -> Result<(), Memory>
    requires { shelf_of seat.old ≡ [] }
    ensures { AddsSpares seat.old result seat.new }
{
    for _ in seat.spare()..2 {
        seat.add_spare(alloc)?;
    }
    Ok(())
}
