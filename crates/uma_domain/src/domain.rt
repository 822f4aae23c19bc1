ghost use Rattle.std.specs.Prelude.{◌≡◌, ◌≤◌, ◌<◌, ◌^◌, false, IfOk, OnErr};
ghost use Rattle.deed_book.specs.Book.{book_table};
ghost use Rattle.inbox.specs.Inbox.{inbox_id};
ghost use Rattle.keyed_lock.specs.KeyedLock.{lock_key};
ghost use Rattle.smr_clock.specs.Belongs.{clock_id, view};
ghost use Rattle.uma_bucket.specs.Inboxes.{port_origin, taker_origin};
ghost use Rattle.uma_bucket.specs.Shelved.{CanBeListed};
ghost use Rattle.uma_domain.specs.Identity.{key_identity};

use crate::lists::Lists;
use crate::locked::Locked;
use crate::trims::Taken;
use deed_book::{Book, FailBook, FailShare, Memory};
use inbox::InboxName;
use keyed_lock::{KeyedLock, LockRule};
use smr_clock::{Clock, Host, Pass};
use std::alloc::Global;
use std::snapshot::Snapshot;
use std::sync::Wait;
use uma_bucket::{Bucket, Inbox, InboxKey, Loose, Port, Ripe, Sealed, Shelved, Sums, Taker};
use uma_life::Body;

/// Which domain it is: the key of its lock. The snapshots stand for the clock of its zone, for the book of its keg's item
/// numbers, and for its own book of misses.
#[derive(Drop)]
pub struct DomainKey<H: Host> {
    pub clock: Snapshot<Clock<H>>,
    pub book: Snapshot<Book>,
    pub misses: Snapshot<FailBook>,
    /// The zone's number in its keg.
    pub zone: u8,
    /// How many domains the zone has.
    pub domains: u8,
    /// Whether readers of the zone hold no lock, so that a freed item waits until no section may see it.
    pub smr: bool,
    /// Its inbox.
    pub inbox: InboxName,
}

/// The lists are those of the domain that the key names.
pub struct ListsOfKey;

impl<T: Body, H: Host> LockRule<Box<Locked<T, H>>, DomainKey<H>> for ListsOfKey {
    ghost use Rattle.std.specs.Prelude.{◌≡◌};
    ghost use Rattle.uma_domain.specs.Identity.{key_identity};
    ghost use Rattle.uma_domain.specs.Lists.{lists_identity};

    ghost keeps = { λ key locked. lists_identity locked.value.lists ≡ key_identity key };
}

/// The lists of one memory domain of a zone, behind a lock, and its inbox, into which a seat pushes by a port without it.
///
/// Each call but a put waits for the lock, makes the call of the same name on the lists, and lets the lock go. What it did to the
/// lists is said by lists of this domain as they stood under the lock, and as the call left them. What comes out was listed
/// by this domain, so it isn't empty, its items are at home in the domain's book, zone and count of domains, and its note is
/// of the domain's clock.
#[derive(Drop)]
pub struct Domain<T: Body, H: Host> {
    /// In a box, since each lock moves the value out and each unlock moves it in.
    lists: KeyedLock<Box<Locked<T, H>>, DomainKey<H>, ListsOfKey>,
    inbox: Inbox<T, H>,
    ghost one_inbox: { inbox_id inbox ≡ (key_identity (lock_key lists)).inbox },
}

impl<T: Body + Drop, H: Host> Domain<T, H> {
    ghost use Rattle.uma_domain.specs.Identity.{origin_of, home_of};
    ghost use Rattle.uma_domain.specs.Domain.{IsMadeFor};
    ghost use Rattle.uma_domain.specs.Lists.{IsUnusedBook};

    /// Makes a domain with empty lists and an empty inbox. `clock` is the clock of the zone, and `book` has the item
    /// numbers of its keg.
    ///
    /// # Arguments
    ///
    /// - `zone`: the number of the zone in its keg, 0 to 7.
    /// - `domains`: the zone's count of memory domains, 1 to 4.
    /// - `smr`: whether readers of the zone hold no lock.
    ///
    /// # Errors
    ///
    /// `Memory`: out of memory, or too many handles of the clock.
    pub fn new(
        alloc: Global,
        clock: &Clock<H>,
        book: Snapshot<Book>,
        zone: u8,
        domains: u8,
        smr: bool,
    ) -> Result<Domain<T, H>, Memory>
        ensures { IfOk result (IsMadeFor (clock_id clock.now) (home_of (book_table book.value) zone domains) smr) }
    {
        let misses = FailBook::new(alloc)?;
        let buckets = InboxKey {
            clock: Snapshot::of(clock),
            book,
            zone,
            domains,
        };
        let (inbox, taker) = Inbox::<T, H>::new(alloc, &buckets)?;
        let InboxKey { clock, book, .. } = buckets;
        let key = DomainKey {
            clock,
            book,
            misses: Snapshot::of(&misses),
            zone,
            domains,
            smr,
            inbox: InboxName::of(&inbox),
        };
        let lists = Domain::<T, H>::locked(alloc, &key, misses, taker)?;
        Ok(Domain { lists, inbox })
    }

    // Empty lists behind their lock.
    fn locked(
        alloc: Global,
        key: &DomainKey<H>,
        misses: FailBook,
        taker: Taker<T, H>,
    ) -> Result<KeyedLock<Box<Locked<T, H>>, DomainKey<H>, ListsOfKey>, Memory>
        requires book { IsUnusedBook (key_identity key.now) misses }
        requires taker { taker_origin taker ≡ origin_of (key_identity key.now) }
        ensures { IfOk result (λ lists. lock_key lists ≡ key.now) }
    {
        let locked = Locked {
            lists: Lists::new(alloc, key, misses),
            taker,
        };
        let Ok(locked) = Box::new(alloc, locked) else {
            return Err(Memory);
        };
        match KeyedLock::new(alloc, locked, key) {
            Ok(lists) => Ok(lists),
            Err(_locked) => Err(Memory),
        }
    }
}

/// What goes by the inbox.
impl<T: Body + Drop, H: Host> Domain<T, H> {
    ghost use Rattle.uma_domain.specs.Listed.{IsSealedOf};
    ghost use Rattle.uma_domain.specs.Listed.{IsLooseOf};
    ghost use Rattle.uma_domain.specs.Listed.{IsPlainOf};
    ghost use Rattle.uma_domain.specs.Identity.{origin_of};
    ghost use Rattle.uma_domain.specs.Domain.{domain_identity};
    ghost use Rattle.uma_domain.specs.Sums.{TellsSums};
    ghost use Rattle.uma_domain.specs.UnderLock.{PutsByPort, SettlesInbox, SettlesPart, SumsListed};

    /// Puts a full plain bucket into the inbox by a port. If the inbox returns the bucket, the call blocks on the
    /// domain's lock and lists it as the newest plain one.
    ///
    /// # Errors
    ///
    /// The caller gets the bucket back: out of memory, or 2^32 items or more would be listed.
    pub fn put_plain<R: Wait>(
        &self,
        rt: &R,
        port: &mut Port<T, H>,
        bucket: Bucket<T>,
    ) -> Result<(), Bucket<T>>
        requires port { port_origin port.old ≡ origin_of (domain_identity self.now) }
        requires bucket { IsPlainOf (domain_identity self.now).home bucket }
        ensures { PutsByPort self.now port.old bucket (Shelved.Plain 0 bucket) result port.new }
    {
        let shelved = Shelved::Plain { domain: 0, bucket };
        match self.inbox.push(rt, port, shelved) {
            Ok(()) => Ok(()),
            Err(Shelved::Plain { bucket, .. }) => self.list_plain(rt, bucket),
            Err(_) => unreachable!(),
        }
    }

    /// Puts a full loose bucket into the inbox by a port. If the inbox returns the bucket, the call blocks on the
    /// domain's lock and lists it as the newest loose one.
    ///
    /// # Errors
    ///
    /// The caller gets the bucket back: out of memory, or 2^32 items or more would be listed.
    pub fn put_loose<R: Wait>(
        &self,
        rt: &R,
        port: &mut Port<T, H>,
        bucket: Loose<T>,
    ) -> Result<(), Loose<T>>
        requires port { port_origin port.old ≡ origin_of (domain_identity self.now) }
        requires bucket { IsLooseOf (domain_identity self.now).home bucket }
        ensures { PutsByPort self.now port.old bucket (Shelved.Loose 0 bucket) result port.new }
    {
        let shelved = Shelved::Loose { domain: 0, bucket };
        match self.inbox.push(rt, port, shelved) {
            Ok(()) => Ok(()),
            Err(Shelved::Loose { bucket, .. }) => self.list_loose(rt, bucket),
            Err(_) => unreachable!(),
        }
    }

    /// Puts a full sealed bucket into the inbox by a port. If the inbox returns the bucket, the call blocks on the
    /// domain's lock and lists it as the newest sealed one.
    ///
    /// # Errors
    ///
    /// The caller gets the bucket back: out of memory, or 2^32 items or more would be listed.
    pub fn put_sealed<R: Wait>(
        &self,
        rt: &R,
        port: &mut Port<T, H>,
        bucket: Sealed<T, H>,
    ) -> Result<(), Sealed<T, H>>
        requires port { port_origin port.old ≡ origin_of (domain_identity self.now) }
        requires bucket { IsSealedOf (domain_identity self.now) bucket }
        ensures { PutsByPort self.now port.old bucket (Shelved.Sealed 0 bucket) result port.new }
    {
        let shelved = Shelved::Sealed { domain: 0, bucket };
        match self.inbox.push(rt, port, shelved) {
            Ok(()) => Ok(()),
            Err(Shelved::Sealed { bucket, .. }) => self.list_sealed(rt, bucket),
            Err(_) => unreachable!(),
        }
    }

    /// Moves the buckets in the inbox into the lists, each as the newest of its kind, in the order in which they come.
    /// It ends when the inbox is empty, or after 65,536 buckets, and returns how many it listed. It blocks on the
    /// domain's lock.
    ///
    /// # Errors
    ///
    /// `Memory`: out of memory, or 2^32 items or more could be listed. The buckets that were listed stay listed, and
    /// the others are in the inbox.
    pub fn settle<R: Wait>(&self, rt: &R) -> Result<u32, Memory>
        ensures settled { IfOk result (SettlesInbox self.now) }
        ensures stays { OnErr result (SettlesPart self.now) }
    {
        let mut guard = self.lists.lock(rt);
        guard.value.settle(rt, &self.inbox)
    }

    /// Settles the inbox, and returns how often the listed items have passed each hook, and how many of them are
    /// deferred. In the domain's own zone the ctors exceed the dtors by the deferred items, and in every other zone
    /// they are equal, modulo 2^64. Each sum is below 2^96. It blocks on the domain's lock.
    ///
    /// # Errors
    ///
    /// `Memory`: out of memory for the settle.
    pub fn sums<R: Wait>(&self, rt: &R) -> Result<Sums, Memory>
        ensures { TellsSums (domain_identity self.now).home.zone (SumsListed self.now) (SettlesPart self.now) result }
    {
        let mut guard = self.lists.lock(rt);
        guard.value.sums(rt, &self.inbox)
    }
}

impl<T: Body, H: Host> Domain<T, H> {
    ghost use Rattle.uma_domain.specs.Listed.{IsRipeOf, IsSealedOf, IsLooseOf, IsPlainOf};
    ghost use Rattle.uma_domain.specs.Domain.{domain_identity};
    ghost use Rattle.uma_domain.specs.Frames.{KeepsPass};
    ghost use Rattle.uma_domain.specs.Looks.{CanLook, CanPoll, IsNewShare, LooksUnderLock};
    ghost use Rattle.uma_domain.specs.Puts.{IsNewPort, PutsOrReturns};
    ghost use Rattle.uma_domain.specs.Tries.{CanSeal};
    ghost use Rattle.uma_domain.specs.UnderLock.{PutsPlain, PutsLoose, PutsSealed, TakesPlain, FindsNoPlain, TakesOldestRipe, FindsNoneRipe, SealsLoose, TakesUnused, TakesEach, GivesUnderLock, CountsListed, TellsWorking};

    /// Returns the next port of the domain's inbox. Nothing was pushed by it. It blocks on the domain's lock.
    pub fn port<R: Wait>(&self, rt: &R) -> Port<T, H>
        ensures { IsNewPort (domain_identity self.now) result }
    {
        let mut guard = self.lists.lock(rt);
        guard.value.port(&self.inbox)
    }

    // Lists a bucket as the newest plain one.
    fn list_plain<R: Wait>(&self, rt: &R, bucket: Bucket<T>) -> Result<(), Bucket<T>>
        requires { IsPlainOf (domain_identity self.now).home bucket }
        ensures { PutsOrReturns (PutsPlain self.now) bucket result }
    {
        let mut guard = self.lists.lock(rt);
        guard.value.lists.put_plain(bucket)
    }

    // Lists a bucket as the newest loose one.
    fn list_loose<R: Wait>(&self, rt: &R, bucket: Loose<T>) -> Result<(), Loose<T>>
        requires { IsLooseOf (domain_identity self.now).home bucket }
        ensures { PutsOrReturns (PutsLoose self.now) bucket result }
    {
        let mut guard = self.lists.lock(rt);
        guard.value.lists.put_loose(bucket)
    }

    // Lists a bucket as the newest sealed one.
    fn list_sealed<R: Wait>(&self, rt: &R, bucket: Sealed<T, H>) -> Result<(), Sealed<T, H>>
        requires { IsSealedOf (domain_identity self.now) bucket }
        ensures { PutsOrReturns (PutsSealed self.now) bucket result }
    {
        let mut guard = self.lists.lock(rt);
        guard.value.lists.put_sealed(bucket)
    }

    /// Returns a share of the domain's book of misses that has no cause. It blocks on the domain's lock.
    pub fn open_misses<R: Wait>(&self, rt: &R) -> FailShare
        ensures { IsNewShare (domain_identity self.now) result }
    {
        let mut guard = self.lists.lock(rt);
        guard.value.lists.open_misses()
    }

    /// Takes the newest plain bucket. Returns None if there is none, which is one more miss in the share. It blocks on
    /// the domain's lock.
    pub fn take_plain<R: Wait>(&self, rt: &R, share: &mut FailShare) -> Option<Bucket<T>>
        requires { CanLook false (domain_identity self.now) share.old }
        ensures { LooksUnderLock (IsPlainOf (domain_identity self.now).home) (TakesPlain self.now) (FindsNoPlain self.now) share.old result share.new }
    {
        let mut guard = self.lists.lock(rt);
        guard.value.lists.take_plain(share)
    }

    /// Takes the oldest sealed bucket whose poll in this call returns true. Returns None if the poll of each listed
    /// bucket returns false, which is one more miss in the share. It blocks on the domain's lock.
    pub fn take_ripe<R: Wait>(
        &self,
        rt: &R,
        clock: &Clock<H>,
        share: &mut FailShare,
    ) -> Option<Ripe<T, H>>
        requires { CanPoll (domain_identity self.now) clock.now share.old }
        ensures { LooksUnderLock (IsRipeOf (domain_identity self.now)) (TakesOldestRipe self.now) (FindsNoneRipe self.now) share.old result share.new }
    {
        let mut guard = self.lists.lock(rt);
        guard.value.lists.take_ripe(clock, share)
    }

    /// Tries once to seal each loose bucket, oldest first, and returns how many were sealed. It blocks on the domain's
    /// lock.
    pub fn seal_loose<R: Wait>(&self, rt: &R, clock: &Clock<H>, pass: &mut Pass<H>) -> u32
        requires { CanSeal (domain_identity self.now) clock.now pass.old }
        ensures pass { KeepsPass clock.now pass.old pass.new }
        ensures tried { SealsLoose self.now H.copied (view pass.old) result (view pass.new) }
    {
        let mut guard = self.lists.lock(rt);
        guard.value.lists.seal_loose(clock, pass)
    }

    /// Takes the buckets that the domain didn't use since the last trim, and begins a new interval. It blocks on the
    /// domain's lock.
    ///
    /// # Errors
    ///
    /// `Memory`: out of memory. Nothing changes.
    pub fn take_trim<R: Wait>(
        &self,
        rt: &R,
        alloc: Global,
        clock: &Clock<H>,
    ) -> Result<Taken<T, H>, Memory>
        requires { clock_id clock.now ≡ (domain_identity self.now).clock }
        ensures { GivesUnderLock self.now (TakesUnused self.now) result }
    {
        let mut guard = self.lists.lock(rt);
        guard.value.lists.take_trim(alloc, clock)
    }

    /// Takes every plain bucket, and each sealed bucket whose poll in this call returns true. It blocks on the domain's
    /// lock.
    ///
    /// # Errors
    ///
    /// `Memory`: out of memory. Nothing changes.
    pub fn take_all<R: Wait>(
        &self,
        rt: &R,
        alloc: Global,
        clock: &Clock<H>,
    ) -> Result<Taken<T, H>, Memory>
        requires { clock_id clock.now ≡ (domain_identity self.now).clock }
        ensures { GivesUnderLock self.now (TakesEach self.now) result }
    {
        let mut guard = self.lists.lock(rt);
        guard.value.lists.take_all(alloc, clock)
    }

    /// Returns the count of listed items, below 2^32. It blocks on the domain's lock.
    pub fn count<R: Wait>(&self, rt: &R) -> u64
        ensures few { result < 2 ^ 32 }
        ensures counted { CountsListed self.now result }
    {
        let guard = self.lists.lock(rt);
        guard.value.lists.count()
    }

    /// Returns the least and the greatest count of listed items since the last trim. It blocks on the domain's lock.
    pub fn working<R: Wait>(&self, rt: &R) -> (u64, u64)
        ensures bounded { (result.0 ≤ result.1) × (result.1 < 2 ^ 32) }
        ensures told { TellsWorking self.now result.0 result.1 }
    {
        let guard = self.lists.lock(rt);
        guard.value.lists.working()
    }
}
