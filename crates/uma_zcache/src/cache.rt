ghost use Rattle.std.specs.Prelude.{◌≡◌, ◌≤◌, [], Err, IfOk, IfErr, OnOk};
ghost use Rattle.uma_zcache.specs.Refused.{HasNoNumbers, RefusesNumbers, HasNoBucket, RefusesBucket};

use crate::import::Import;
use crate::locked::{LockedCache, Stack};
use crate::refused::{ZAllocRefused, ZRefused, ZSeatRefused};
use deed_book::{Book, Deed, FailBook, FailShare};
use keyed_lock::{KeyedLock, LockRule};
use std::alloc::Global;
use std::snapshot::Snapshot;
use std::sync::Wait;

/// Which cache zone it is: the key of its lock. The snapshots stand for its book of numbers and its fail book.
#[derive(Drop)]
pub struct ZKey {
    pub book: Snapshot<Book>,
    pub fails: Snapshot<FailBook>,
}

/// It is the cache zone that the key names, its numbers that are out have the bases that its importer has outside, and its
/// fail book lists its refusals.
pub struct ZRule;

impl<I: Import> LockRule<LockedCache<I>, ZKey> for ZRule {
    ghost use Rattle.uma_zcache.specs.Rule.{Keeps};

    ghost keeps = { λ key locked. Keeps key locked };
}

/// A thread's own way to a cache zone: a stack of items that were freed or imported and not yet handed out, and a share of
/// the zone's fail book, which has the causes of the refusals that the seat met. It may cross threads.
///
/// What a seat that is dropped has on its stack is outside for good: drain it first.
#[derive(Drop)]
pub struct ZSeat {
    pub(crate) stack: Stack,
    pub(crate) share: FailShare,
}

/// An item that is outside its cache zone: its base, and the one deed of its number. Nobody can copy it or make one up, and
/// it may cross threads. One that is dropped is outside for good.
#[derive(Drop)]
pub struct Held {
    pub(crate) base: u64,
    pub(crate) deed: Deed,
}

impl Held {
    ghost use Rattle.uma_zcache.specs.Held.{held_base, IsNoOf};

    /// Returns the base that the importer gave.
    pub fn base(&self) -> u64
        ensures { result ≡ held_base self.now }
    {
        self.base
    }

    /// Returns the item's number in its cache zone, below the count of numbers. No two items that are outside have the
    /// same number.
    pub fn no(&self) -> u32
        ensures { IsNoOf self.now result }
    {
        self.deed.no()
    }
}

/// A zone without a keg, over any import, which threads share by reference. Each of them allocates and frees by a seat of
/// its own, which [`ZCache::seat`] makes.
///
/// **The law of a cache zone**, whenever its lock is free:
///
/// 1. The numbers that are out in its book are those with a base.
/// 2. The bases are distinct, and are exactly those that its importer has outside.
/// 3. Its fail book lists the refusals of the import rounds that gave no item, but for want of memory.
///
/// So no base is handed out again before the deed under which it went out was accepted.
#[derive(Drop)]
pub struct ZCache<I: Import> {
    pub(crate) lock: KeyedLock<LockedCache<I>, ZKey, ZRule>,
}

impl<I: Import> ZCache<I> {
    ghost use Rattle.uma_zcache.specs.Cache.{cache_numbers, IsEmptySeatOf, MayFree, IsSeatOf, IsNewSeat, GivesRound, AreOut, Allocs, RefusesAlloc, Frees, Drains};

    /// Makes a cache zone over an importer that has nothing outside.
    ///
    /// # Arguments
    ///
    /// - `numbers`: the most items that may be outside at once, 1 to 262,144. Each has a number below it.
    ///
    /// # Errors
    ///
    /// - `Numbers`: the count is out of its range.
    /// - `Memory`: out of memory.
    pub fn new(alloc: Global, import: I, numbers: u32) -> Result<ZCache<I>, ZRefused>
        requires { I.outside import ≡ [] }
        ensures numbers { IfOk result (λ cache. cache_numbers cache ≡ numbers) }
        ensures out_of_range { HasNoNumbers numbers → result ≡ Err (ZRefused.Numbers numbers) }
        ensures err { IfErr result (RefusesNumbers numbers) }
    {
        let locked = LockedCache::new(alloc, import, numbers)?;
        let key = locked.key();
        match KeyedLock::new(alloc, locked, &key) {
            Ok(lock) => Ok(ZCache { lock }),
            Err(_locked) => Err(ZRefused::Memory),
        }
    }

    /// Makes a seat with an empty stack. It blocks on the lock of the cache zone.
    ///
    /// # Arguments
    ///
    /// - `bucket`: the most items on the stack, 4 to 64.
    ///
    /// # Errors
    ///
    /// - `Bucket`: the size is out of its range.
    /// - `Memory`: out of memory.
    pub fn seat<R: Wait>(&self, rt: &R, alloc: Global, bucket: u32) -> Result<ZSeat, ZSeatRefused>
        ensures new { IfOk result (IsNewSeat self.now bucket) }
        ensures out_of_range { HasNoBucket bucket → result ≡ Err (ZSeatRefused.Bucket bucket) }
        ensures err { IfErr result (RefusesBucket bucket) }
    {
        let stack = Stack::new(alloc, bucket)?;
        let mut guard = self.lock.lock(rt);
        let share = guard.value.new_share();
        Ok(ZSeat { stack, share })
    }

    /// Hands out the item on top of the seat's stack. If the stack is empty, one import round of up to a stack of items
    /// fills it first; only then does the call block, on the lock of the cache zone.
    ///
    /// # Errors
    ///
    /// The call fails if the import round gave nothing:
    ///
    /// - `Out`: all numbers are out.
    /// - `NoFit`: the importer has nothing of this size.
    /// - `Memory`: out of memory for the importer.
    pub fn alloc<R: Wait>(
        &self,
        rt: &R,
        alloc: Global,
        seat: &mut ZSeat,
    ) -> Result<Held, ZAllocRefused>
        requires { IsSeatOf self.now seat.old }
        ensures allocs { IfOk result (λ held. Allocs self.now seat.old held seat.new) }
        ensures refused { IfErr result (λ why. RefusesAlloc self.now seat.old why seat.new) }
        ensures mine { IsSeatOf self.now seat.new }
    {
        if let Some(held) = seat.stack.pop() {
            return Ok(held);
        }
        self.fill(rt, alloc, seat)?;
        let Some(held) = seat.stack.pop() else {
            unreachable!()
        };
        Ok(held)
    }

    /// Puts an item on the seat's stack. If the stack is full, all of it is released to the importer first; only then
    /// does the call block, on the lock of the cache zone.
    pub fn free<R: Wait>(&self, rt: &R, seat: &mut ZSeat, held: Held)
        requires { MayFree self.now seat.old held }
        ensures frees { Frees self.now seat.old held seat.new }
        ensures mine { IsSeatOf self.now seat.new }
    {
        if seat.stack.is_full() {
            self.drain(rt, seat);
        }
        seat.stack.push(held);
    }

    /// Releases all items of the seat's stack to the importer, and returns how many. It blocks on the lock of the cache
    /// zone.
    pub fn drain<R: Wait>(&self, rt: &R, seat: &mut ZSeat) -> u32
        requires { IsSeatOf self.now seat.old }
        ensures drains { Drains self.now seat.old result seat.new }
        ensures mine { IsSeatOf self.now seat.new }
    {
        let mut guard = self.lock.lock(rt);
        guard.value.release_all(&mut seat.stack)
    }

    /// Returns how many numbers are out, those of items on stacks included. It blocks on the lock of the cache zone.
    pub fn out<R: Wait>(&self, rt: &R) -> u32
        ensures out { AreOut self.now result }
        ensures within { result ≤ cache_numbers self.now }
    {
        let guard = self.lock.lock(rt);
        guard.value.out()
    }

    /// One import round into the stack of a seat, which is empty.
    fn fill<R: Wait>(&self, rt: &R, alloc: Global, seat: &mut ZSeat) -> Result<(), ZAllocRefused>
        requires { IsEmptySeatOf self.now seat.old }
        ensures given { OnOk result (GivesRound self.now seat.old seat.new) }
        ensures refused { IfErr result (λ why. RefusesAlloc self.now seat.old why seat.new) }
        ensures mine { IsSeatOf self.now seat.new }
    {
        let mut guard = self.lock.lock(rt);
        guard.value.round(alloc, seat)
    }
}
