ghost use Rattle.std.specs.Prelude.{◌≤◌};
ghost use Rattle.uma_life.specs.Cached.{cached_ticket};
ghost use Rattle.uma_bucket.specs.Bucket.{items_of, tickets_of};
ghost use Rattle.uma_bucket.specs.Home.{IsHome, AreHome};

use crate::zone::Zone;
use deed_book::Memory;
use smr_clock::{Clock, Host, Pass};
use std::alloc::Global;
use std::sync::Wait;
use uma_bucket::Bucket;
use uma_life::{Body, Cached, Hooks};
use uma_seat::SeatCache;

impl<T: Body + Drop, K: Hooks<T>, H: Host> Zone<T, K, H> {
    ghost use Rattle.uma_zone.specs.Calling.{IsBy, CanCall};
    ghost use Rattle.uma_zone.specs.Flushing.{FlushesSeat, MakesRoom};
    ghost use Rattle.uma_zone.specs.Settling.{SettlesEach};
    ghost use Rattle.uma_zone.specs.Zone.{zone_clock, IsSeatOf};

    /// Moves the buckets of the seat's shelf to the inboxes of their domains, oldest first, or to the lists if an inbox
    /// returns one. Before that each loose bucket of the shelf tries once to be sealed, and then each loose bucket that
    /// the seat's own domain lists does, oldest first. In an SMR zone the call blocks on the lock of the seat's own
    /// domain. In a plain zone it blocks on a domain's lock only for a bucket that an inbox returns. A push may wait
    /// for another push.
    ///
    /// # Errors
    ///
    /// `Memory`: out of memory. Each bucket of the shelf is in an inbox or a list, or still on the shelf.
    pub fn flush<R: Wait>(
        &self,
        rt: &R,
        clock: &Clock<H>,
        pass: &mut Pass<H>,
        seat: &mut SeatCache<T, H>,
    ) -> Result<(), Memory>
        requires { CanCall self.now clock.now pass.old seat.old }
        ensures { FlushesSeat (IsSeatOf self.now) self.now.domains H.copied clock.now pass.old seat.old result pass.new seat.new }
    {
        self.domains.flush(rt, clock, pass, seat)
    }

    /// Moves the buckets in each domain's inbox into its lists, one domain after another. In an SMR zone each loose
    /// bucket that these have then tries once to be sealed. It blocks on the locks of the domains.
    ///
    /// # Errors
    ///
    /// `Memory`: out of memory. The buckets that were listed stay listed, and the others are in the inboxes.
    pub fn settle<R: Wait>(
        &self,
        rt: &R,
        clock: &Clock<H>,
        pass: &mut Pass<H>,
    ) -> Result<(), Memory>
        requires { IsBy (zone_clock self.now) clock.now pass.old }
        ensures { SettlesEach self.now.domains H.copied clock.now pass.old result pass.new }
    {
        self.domains.settle_each(rt, clock, pass)
    }

    /// Flushes the seat, and then makes spare buckets until there are two, so that the next frees have one. It blocks
    /// as [`Zone::flush`] does.
    ///
    /// # Errors
    ///
    /// `Memory`: out of memory. The seat may have fewer than two spare buckets; `SeatCache::spare` returns how many.
    #[cold]
    #[inline(never)]
    pub fn make_room<R: Wait>(
        &self,
        rt: &R,
        alloc: Global,
        clock: &Clock<H>,
        pass: &mut Pass<H>,
        seat: &mut SeatCache<T, H>,
    ) -> Result<(), Memory>
        requires { CanCall self.now clock.now pass.old seat.old }
        ensures { MakesRoom (IsSeatOf self.now) self.now.domains H.copied clock.now pass.old seat.old result pass.new seat.new }
    {
        self.domains.make_room(rt, alloc, clock, pass, seat)
    }
}

impl<T: Body, K: Hooks<T>, H: Host> Zone<T, K, H> {
    ghost use Rattle.uma_zone.specs.KegStates.{GivesCounted, GivesItem, FreesSlabsOf};
    ghost use Rattle.uma_zone.specs.Zone.{zone_home, zone_cap};

    /// Gives each item of a bucket back to the keg, and returns how many they were. In a secondary zone each item
    /// passes this zone's `zone_fini` first. It blocks on the keg's lock.
    pub fn give<R: Wait>(&self, rt: &R, bucket: Bucket<T>) -> u32
        requires { AreHome (zone_home self.now) (tickets_of bucket) }
        ensures { GivesCounted self.now (items_of bucket) result }
    {
        let mut guard = self.lock(rt);
        guard.value.give_all(&self.hooks, bucket)
    }

    /// Gives one item back to the keg, as [`Zone::give`] does.
    pub fn give_one<R: Wait>(&self, rt: &R, item: Cached<T>)
        requires { IsHome (zone_home self.now) (cached_ticket item) }
        ensures given { GivesItem self.now item }
    {
        let mut guard = self.lock(rt);
        guard.value.give(&self.hooks, item);
    }

    /// Gives up wholly free slabs of the keg, the greatest index first, as long as the reserve stays, and returns how
    /// many. It blocks on the keg's lock.
    pub fn free_slabs<R: Wait>(&self, rt: &R) -> u32
        ensures few { result ≤ zone_cap self.now }
        ensures freed { FreesSlabsOf self.now result }
    {
        let mut guard = self.lock(rt);
        guard.value.free_slabs(rt)
    }
}
