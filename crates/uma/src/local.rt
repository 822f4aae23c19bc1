ghost use Rattle.std.specs.Prelude.{◌≡◌, IfOk, IfErr, true, false};
ghost use Rattle.smr_core.specs.declared.holder.Phase.{Phase};
ghost use Rattle.smr_clock.specs.Belongs.{IsPassOf, holder};
ghost use Rattle.uma_zone.specs.Zone.{IsSeatOf};

use crate::pool::Pool;
use crate::refused::Refused;
use crate::stats::PoolLedger;
use smr_clock::{Bare, Pass};
use std::alloc::Global;
use std::error::Error;
use std::fmt;
use std::snapshot::Snapshot;
use std::sync::Wait;
use uma_item::ItemHooks;
use uma_life::{Body, Hooks, Live, Memory};
use uma_reclaim::drain_seat;
use uma_seat::SeatCache;
use uma_zone::{AllocAsk, AllocRefused};

/// An item that wasn't freed: whoever held it holds it still.
#[derive(Drop)]
pub struct NotFreed<T: Body> {
    pub item: Live<T>,
    pub why: Refused,
}

impl<T: Body> fmt::Display for NotFreed<T> {
    fn fmt<W: fmt::Write>(&self, f: &mut fmt::Formatter<W>) -> fmt::Result {
        write!(f, "not freed: {}", self.why)
    }
}

impl<T: Body> fmt::Debug for NotFreed<T> {
    fn fmt<W: fmt::Write>(&self, f: &mut fmt::Formatter<W>) -> fmt::Result {
        write!(f, "not freed: {:?}", self.why)
    }
}

impl<T: Body + Drop> Error for NotFreed<T> {}

/// Hooks that refuse nothing: each item's data begins as this value, and stays as its last holder left it.
#[derive(Clone, Copy, Debug)]
pub struct Filled<B> {
    pub value: B,
}

impl<B: Copy> ItemHooks<B> for Filled<B> {
    ghost use Rattle.std.specs.Prelude.{◌≡◌};

    ghost makes = { λ hooks number made. made ≡ hooks.value };

    fn make<R: Wait>(&self, _rt: &R, _alloc: Global, _no: u32) -> Result<B, Memory> {
        Ok(self.value)
    }

    fn init(&self, _zone: u8, _item: &mut B) -> Result<(), u8> {
        Ok(())
    }

    fn ctor(&self, _zone: u8, _item: &mut B, _arg: u64) -> Result<(), u8> {
        Ok(())
    }

    fn dtor(&self, _zone: u8, _item: &mut B) {}

    fn fini(&self, _zone: u8, _item: &mut B) {}

    fn bury<R: Wait>(&self, _rt: &R, _item: B) {}
}

/// What one worker has of a pool: a cache of items, with what it counted. It may be sent to another thread, and is used by one at a
/// time. A dropped one keeps what it had cached: [`Local::drain`] it first.
#[derive(Drop)]
pub struct Local<'a, T: Body, K: Hooks<T>> {
    pub(crate) pool: &'a Pool<T, K>,
    pub(crate) pass: Pass<Bare>,
    pub(crate) seat: SeatCache<T, Bare>,
    pub ghost here: { IsPassOf pool.now.clock pass },
    pub ghost outside: { (holder pass).phase ≡ Phase.Outside },
    pub ghost seated: { IsSeatOf pool.now.zone seat },
}

impl<'a, T: Body + Drop, K: Hooks<T>> Local<'a, T, K> {
    ghost use Rattle.uma.specs.Answers.{AnswersAlloc, AnswersFree, AnswersReady, CanPut, PutsItem};
    ghost use Rattle.uma.specs.Local.{pool_of, ledger_in, KeepsLocal, KeepsUsable};
    ghost use Rattle.uma.specs.Pool.{IsItemOf};
    ghost use Rattle.uma.specs.Table.{IsLedgerOf};

    /// Allocates an item and runs `ctor` on it. It takes the item that was freed last on this local, if there is one.
    /// Otherwise the local gets a bucket from its memory domain, or fetches items from the slabs. It blocks on the
    /// pool's locks only if the local has no item cached.
    ///
    /// # Arguments
    ///
    /// - `arg`: the argument of `ctor`, any number.
    ///
    /// # Errors
    ///
    /// - `Counts`: the local has counted 2^63 requests or frees.
    /// - `Turned`: the limit is reached, all slabs are in use, the free items are reserved, or `init` or `ctor` refused
    ///   the item. The local counts it.
    /// - `Memory`: out of memory. It isn't counted.
    #[inline(always)]
    pub fn alloc<R: Wait>(&mut self, rt: &R, alloc: Global, arg: u64) -> Result<Live<T>, Refused>
        ensures { AnswersAlloc arg false self.old result self.new }
    {
        self.ask(rt, alloc, arg, false)
    }

    /// Allocates an item as [`Local::alloc`] does, and may use the reserve.
    ///
    /// # Arguments
    ///
    /// - `arg`: the argument of `ctor`, any number.
    ///
    /// # Errors
    ///
    /// As [`Local::alloc`], but the reserve refuses nothing.
    #[inline]
    pub fn alloc_reserved<R: Wait>(
        &mut self,
        rt: &R,
        alloc: Global,
        arg: u64,
    ) -> Result<Live<T>, Refused>
        ensures { AnswersAlloc arg true self.old result self.new }
    {
        self.ask(rt, alloc, arg, true)
    }

    // What an alloc and a free do nearly always stands in their callers, and what they do once for a bucket is a call: an item that a call
    // hands on goes through memory.
    #[inline(always)]
    fn ask<R: Wait>(
        &mut self,
        rt: &R,
        alloc: Global,
        arg: u64,
        reserve: bool,
    ) -> Result<Live<T>, Refused>
        ensures { AnswersAlloc arg reserve self.old result self.new }
    {
        if !self.seat.room() {
            return Err(Refused::Counts);
        }
        let ask = AllocAsk { arg, reserve };
        let pool = self.pool;
        match pool.zone.alloc(rt, alloc, &pool.clock, &mut self.pass, &mut self.seat, ask) {
            Ok(held) => Ok(held),
            Err(AllocRefused::Refused { refusal }) => Err(Refused::Turned { refusal }),
            Err(AllocRefused::Memory) => Err(Refused::Memory),
        }
    }

    /// Frees an item of the pool: `dtor` runs, and the local caches the item for a later request. In a pool with
    /// readers the item stays built, and no request gets it, until no section may see it. The call allocates and blocks
    /// only if the local has no spare bucket.
    ///
    /// # Errors
    ///
    /// The caller gets the item back in `item`, and the reason in `why`.
    ///
    /// - `Counts`: the local has counted 2^63 requests or frees.
    /// - `Memory`: out of memory for a spare bucket.
    #[inline(always)]
    pub fn free<R: Wait>(&mut self, rt: &R, alloc: Global, held: Live<T>) -> Result<(), NotFreed<T>>
        requires { IsItemOf (pool_of self.old) held }
        ensures { AnswersFree self.old held result self.new }
    {
        if let Err(why) = self.make_ready(rt, alloc) {
            return Err(NotFreed { item: held, why });
        }
        self.put(held);
        Ok(())
    }

    /// Frees an item as [`Local::free`] does, but never fails. A call of [`Local::make_ready`] must come first, so that
    /// the local has a bucket for the item.
    #[inline(always)]
    pub fn put(&mut self, held: Live<T>)
        requires { CanPut self.old held }
        ensures { PutsItem self.old held self.new }
    {
        let pool = self.pool;
        if pool.plan.smr {
            pool.zone
                .free_smr(&pool.clock, &mut self.pass, &mut self.seat, held);
            return;
        }
        pool.zone.free(&mut self.seat, held);
    }

    /// Makes the local ready for one [`Local::put`]: the free can be counted, and there is a bucket for the item. The
    /// call allocates and blocks only if the local has no spare bucket.
    ///
    /// # Errors
    ///
    /// - `Counts`: the local has counted 2^63 requests or frees.
    /// - `Memory`: out of memory for a spare bucket.
    #[inline(always)]
    pub fn make_ready<R: Wait>(&mut self, rt: &R, alloc: Global) -> Result<(), Refused>
        ensures { AnswersReady self.old result self.new }
    {
        if !self.seat.room() {
            return Err(Refused::Counts);
        }
        if self.seat.spare() > 0 {
            return Ok(());
        }
        let pool = self.pool;
        let made = pool
            .zone
            .make_room(rt, alloc, &pool.clock, &mut self.pass, &mut self.seat);
        // One spare is enough, where there was no memory for two.
        if made.is_err() && self.seat.spare() == 0 {
            return Err(Refused::Memory);
        }
        Ok(())
    }

    /// Runs `look` within a section and returns its result. In a pool with readers no item that is freed meanwhile
    /// becomes usable before the section ends. The section always ends with the call. An open section delays the reuse
    /// of freed items, so it should be short.
    ///
    /// # Errors
    ///
    /// `Late`: the pool's clock advanced by its whole window of 1,024 while the section was entered. `look` wasn't
    /// called. Read again.
    pub fn read<X, F: FnOnce() -> X>(&mut self, look: F) -> Result<X, Refused>
    where
        F: Drop,
        requires { F.pre look }
        ensures looked { IfOk result (F.post look) }
        ensures kept { KeepsLocal self.old self.new }
        ensures usable { KeepsUsable self.old self.new }
        ensures refused { IfErr result (λ why. why ≡ Refused.Late) }
    {
        let clock = &self.pool.clock;
        if clock.enter(&mut self.pass).is_err() {
            return Err(Refused::Late);
        }
        let found = look();
        clock.exit(&mut self.pass);
        Ok(found)
    }

    /// Returns the pool of the local.
    pub fn pool(&self) -> &'a Pool<T, K>
        ensures { result.now ≡ pool_of self.now }
    {
        self.pool
    }

    /// Returns the counts of the local: requests, allocs, fails, frees and cross frees.
    pub fn ledger(&self) -> PoolLedger<T, K>
        ensures counts { result.counts ≡ ledger_in self.now }
        ensures pool { IsLedgerOf (pool_of self.now) result }
    {
        PoolLedger {
            counts: self.seat.ledger(),
            pool: Snapshot::of(self.pool),
        }
    }
}

impl<T: Body + Drop, K: Hooks<T>> Local<'_, T, K> {
    ghost use Rattle.uma.specs.Drained.{EndsDrain, GivesBack};

    /// Returns every item that is cached on the local, and every item listed in the pool's memory domains, to the
    /// slabs, and then gives up the slabs that are wholly free, as long as the reserve stays. The result is the count
    /// of items that went back. In a pool with readers the items that a section may still see stay. It blocks on the
    /// pool's locks.
    ///
    /// # Errors
    ///
    /// `Memory`: out of memory. The local still has all its items.
    pub fn drain<R: Wait>(&mut self, rt: &R, alloc: Global) -> Result<u64, Refused>
        ensures items { IfOk result (λ items. GivesBack items self.old) }
        ensures ends { EndsDrain self.old result self.new }
    {
        let pool = self.pool;
        let drained = drain_seat(
            rt,
            alloc,
            &pool.zone,
            &pool.clock,
            &mut self.pass,
            &mut self.seat,
        );
        match drained {
            Ok(done) => Ok(done.items),
            Err(_) => Err(Refused::Memory),
        }
    }
}
