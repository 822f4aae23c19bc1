ghost use Rattle.std.specs.Prelude.{◌≡◌, [], ℕ, IfOk, ◌↔◌, All, IsTrue, IfErr, OnOk};
ghost use Rattle.keyed_lock.specs.KeyedLock.{lock_key};
ghost use Rattle.uma_keg.specs.Keg.{fetches_in, book_in, table_in, HasZone, rights_in};
ghost use Rattle.locked_keg.specs.Rule.{IsNewLocked, MayLockUp, IsLockedBy};
ghost use Rattle.uma_life.specs.Live.{live_table};
ghost use Rattle.locked_keg.specs.LockedKeg.{keg_in};
ghost use Rattle.locked_keg.specs.Standing.{AreCountsOf, FreesSlabsIn, TakesCensus};
ghost use Rattle.deed_book.specs.Book.{book_table};
ghost use Rattle.deed_book.specs.Deed.{deed_table};
ghost use Rattle.locked_keg.specs.Zones.{AddsZone, IsLimitFor, SetsLimitOf, OpensShare};
ghost use Rattle.uma_keg.specs.BringSlabs.{BringsSlabs};
ghost use Rattle.locked_keg.specs.Frames.{KeepsOutside, KeepsRule, KeepsLocked};
ghost use Rattle.locked_keg.specs.Slabs.{StopsBringing, BringsIn};
ghost use Rattle.locked_keg.specs.Seating.{MayFetch, FetchesFor};
ghost use Rattle.uma_life.specs.Cached.{cached_table};
ghost use Rattle.uma_bucket.specs.Bucket.{items_of};
ghost use Rattle.uma_keg.specs.GiveItem.{TakesBack};
ghost use Rattle.locked_keg.specs.Gives.{GivesEach};
ghost use Rattle.locked_keg.specs.Ends.{end_of};

use deed_book::{Book, Deed, FailBook, FailShare, Memory};
use keyed_lock::{KeyedLock, LockRule};
use smr_clock::Host;
use std::alloc::Global;
use std::snapshot::Snapshot;
use std::sync::Wait;
use uma_bucket::Bucket;
use uma_keg::{Census, FetchAsk, FetchRefused, Keg, KegCounts};
use uma_life::{Body, Cached, Hooks, Lives};
use uma_seat::{FetchEnd, SeatCache};

/// The fail books of the eight zones that a keg can have. Each lists every fetch of its zone, by its end.
#[derive(Drop)]
pub struct FailBooks {
    // By the zone's number.
    books: [FailBook; 8],
}

impl FailBooks {
    ghost use Rattle.std.specs.Prelude.{◌<◌};
    ghost use Rattle.locked_keg.specs.FailBooks.{causes_at, GivesShare, MayList, Lists};

    /// Books that have listed nothing.
    pub fn new(alloc: Global) -> Result<FailBooks, Memory>
        ensures { IfOk result (λ books. (zone : ℕ) → causes_at books zone ≡ []) }
    {
        let books = [
            FailBook::new(alloc)?,
            FailBook::new(alloc)?,
            FailBook::new(alloc)?,
            FailBook::new(alloc)?,
            FailBook::new(alloc)?,
            FailBook::new(alloc)?,
            FailBook::new(alloc)?,
            FailBook::new(alloc)?,
        ];
        Ok(FailBooks { books })
    }

    /// A share of the zone's book that lists nothing.
    pub fn new_share(&mut self, zone: u8) -> FailShare
        requires { zone < 8 }
        ensures { GivesShare self.old zone result self.new }
    {
        let book = &mut self.books[usize::from(zone)];
        book.new_share()
    }

    /// Lists a fetch with its answer in the zone's book and in the seat's share of it. One that was refused is counted in the
    /// seat's ledger.
    pub fn list<T: Body, H: Host>(
        &mut self,
        zone: u8,
        seat: &mut SeatCache<T, H>,
        answer: Result<u32, FetchRefused>,
    )
        requires { MayList self.old zone seat.old (end_of answer) }
        ensures { Lists self.old zone seat.old (end_of answer) self.new seat.new }
    {
        self.list_end(zone, seat, fetch_end(answer));
    }

    /// The same, with the answer as the seat counts it.
    fn list_end<T: Body, H: Host>(&mut self, zone: u8, seat: &mut SeatCache<T, H>, end: FetchEnd)
        requires { MayList self.old zone seat.old end }
        ensures { Lists self.old zone seat.old end self.new seat.new }
    {
        let book = &mut self.books[usize::from(zone)];
        seat.count_end(book, end);
    }
}

/// Which keg it is: the key of its lock. The snapshots stand for the book of its item numbers, that of its rights to a zone,
/// and the fail books of its zones.
#[derive(Drop)]
pub struct KegKey {
    pub numbers: Snapshot<Book>,
    pub rights: Snapshot<Book>,
    pub fails: Snapshot<FailBooks>,
    /// The size of an item, in bytes.
    pub size: u32,
    /// The most slabs.
    pub cap: u32,
    /// How many free items are kept for requests that may use them.
    pub reserve: u64,
    /// How many memory domains its slabs may be of.
    pub domains: u8,
}

/// The keg is the one that the key names, and its books list its fetches.
pub struct KegRule;

impl<T: Body, K: Hooks<T>> LockRule<LockedKeg<T, K>, KegKey> for KegRule {
    ghost use Rattle.locked_keg.specs.Rule.{Keeps};

    ghost keeps = { λ key locked. Keeps key locked };
}

/// What lies behind a keg's lock: the keg, and the fail books of its zones.
///
/// Its fields are its own, so the keg fetches by [`LockedKeg::fetch`] alone, which lists each fetch.
#[derive(Drop)]
pub struct LockedKeg<T: Body, K: Hooks<T>> {
    pub(crate) keg: Keg<T, K>,
    pub(crate) fails: FailBooks,
}

/// A keg behind its lock.
pub type KegLock<T, K> = KeyedLock<LockedKeg<T, K>, KegKey, KegRule>;

impl<T: Body + Drop, K: Hooks<T>> LockedKeg<T, K> {
    /// A keg that fetched nothing yet, with a fail book for each zone that it can have.
    pub fn new(alloc: Global, keg: Keg<T, K>) -> Result<LockedKeg<T, K>, Memory>
        requires { (zone : ℕ) → fetches_in keg zone ≡ [] }
        ensures { IfOk result (IsNewLocked keg) }
    {
        let fails = FailBooks::new(alloc)?;
        Ok(LockedKeg { keg, fails })
    }

    /// Puts it behind a lock. Its slabs are of `domains` memory domains.
    pub fn lock_up(self, alloc: Global, domains: u8) -> Result<KegLock<T, K>, Memory>
        requires { MayLockUp self domains }
        ensures { IfOk result (λ lock. IsLockedBy self domains (lock_key lock)) }
    {
        let KegCounts { cap, reserve, .. } = self.keg.counts();
        let key = KegKey {
            numbers: self.keg.book(),
            rights: self.keg.rights(),
            fails: Snapshot::of(&self.fails),
            size: self.keg.size(),
            cap,
            reserve,
            domains,
        };
        match KeyedLock::new(alloc, self, &key) {
            Ok(lock) => Ok(lock),
            Err(_locked) => Err(Memory),
        }
    }
}

impl<T: Body, K: Hooks<T>> LockedKeg<T, K> {
    /// The book of the keg's item numbers.
    pub fn numbers(&self) -> &Book
        ensures { result.now ≡ book_in (keg_in self.now) }
    {
        self.keg.numbers()
    }

    /// Whether the zone of this number exists.
    pub fn has_zone(&self, zone: u8) -> bool
        ensures { IsTrue result ↔ HasZone (keg_in self.now) zone }
    {
        self.keg.has_zone(zone)
    }

    /// How the keg stands.
    pub fn counts(&self) -> KegCounts
        ensures { AreCountsOf (keg_in self.now) result }
    {
        self.keg.counts()
    }

    /// Gives up wholly free slabs, the greatest index first, while as many free items stay as the reserve has, and answers
    /// how many. It waits for `bury` alone.
    pub fn free_slabs<R: Wait>(&mut self, rt: &R) -> u32
        ensures { FreesSlabsIn self.old result self.new }
    {
        self.keg.free_slabs(rt)
    }

    /// Counts the keg, its items outside and the hooks, and gives the live items back that it was lent, in the same order.
    /// The Err is want of memory alone, which is taken first.
    pub fn census(&mut self, alloc: Global, lives: Lives<T>) -> Result<(Census, Lives<T>), Lives<T>>
        requires { All (λ item. live_table item ≡ table_in (keg_in self.old)) lives }
        ensures { TakesCensus self.old lives result self.new }
    {
        self.keg.census(alloc, lives)
    }

    /// Adds a zone with this limit, where 0 is none, by a right that came with this keg. Answers its index, which is the
    /// right's number, and a share of its fail book that lists nothing.
    ///
    /// The share shows that the zone was added: one is opened only for a zone that exists.
    pub fn add_zone(&mut self, right: Deed, limit: u64) -> (u8, FailShare)
        requires { deed_table right ≡ book_table (rights_in (keg_in self.old)) }
        ensures { AddsZone self.old right limit result.0 result.1 self.new }
    {
        let zone = self.keg.add_zone(right, limit);
        let share = self.new_share(zone);
        (zone, share)
    }

    /// Sets the limit of a zone, at most 1,000,000, where 0 is none, and answers the former one. Nothing else changes.
    pub fn set_limit(&mut self, zone: u8, limit: u64) -> u64
        requires { IsLimitFor zone limit }
        ensures { SetsLimitOf self.old zone limit result self.new }
    {
        self.keg.set_limit(zone, limit)
    }

    /// A share of the fail book of a zone that exists. It lists nothing.
    pub fn new_share(&mut self, zone: u8) -> FailShare
        requires { HasZone (keg_in self.old) zone }
        ensures { OpensShare self.old zone result self.new }
    {
        self.fails.new_share(zone)
    }

    /// Brings in `count` slabs of a memory domain, one after another, and answers how many. Where one is refused, as
    /// `Keg::bring` says, those before it stay. It waits for `raw` and `bury` alone.
    pub fn bring_slabs<R: Wait>(
        &mut self,
        rt: &R,
        alloc: Global,
        count: u32,
        domain: u8,
    ) -> Result<u32, FetchRefused>
        ensures { BringsIn self.old domain count result self.new }
    {
        bring_all(&mut self.keg, rt, alloc, count, domain)?;
        Ok(count)
    }

    /// Takes items out of the keg for a zone, at most as many as are asked for, and puts them into the seat's allocation
    /// bucket, which is empty. Answers how many, which is at least one.
    ///
    /// It is one fetch of the keg, which has the same refusals, and its end is listed: in the zone's fail book, in the seat's
    /// share of that book, and, where it was refused, in the seat's ledger. It waits for `raw` and `bury` alone.
    pub fn fetch<R: Wait, H: Host>(
        &mut self,
        rt: &R,
        alloc: Global,
        hooks: &K,
        ask: FetchAsk,
        seat: &mut SeatCache<T, H>,
    ) -> Result<u32, FetchRefused>
        requires { MayFetch self.old ask seat.old }
        ensures { FetchesFor self.old hooks.now ask seat.old result self.new seat.new }
    {
        let answer = self.keg.fetch(rt, alloc, hooks, ask, seat.lend_empty());
        self.fails.list(ask.zone, seat, answer);
        answer
    }

    /// Takes an item of this keg back. It passes `zone_fini` of the hooks that are handed, those of its zone, but for zone 0,
    /// and its place is free.
    pub fn give(&mut self, hooks: &K, item: Cached<T>)
        requires { cached_table item ≡ table_in (keg_in self.old) }
        ensures gives { TakesBack (keg_in self.old) hooks.now item (keg_in self.new) }
        ensures kept { KeepsLocked self.old self.new }
    {
        self.keg.give(hooks, item);
    }

    /// Takes the items of a bucket back, which are of this keg, the last of them first. Answers how many there were.
    pub fn give_all(&mut self, hooks: &K, mut bucket: Bucket<T>) -> u32
        requires { All (λ item. cached_table item ≡ table_in (keg_in self.old)) (items_of bucket) }
        ensures given { GivesEach (keg_in self.old) hooks.now (items_of bucket) result (keg_in self.new) }
        ensures kept { KeepsRule self.old self.new }
    {
        let count = give_each(&mut self.keg, hooks, &mut bucket);
        bucket.end();
        count
    }
}

/// Brings in so many slabs, one after another, or as many as come before one that is refused.
fn bring_all<T: Body, K: Hooks<T>, R: Wait>(
    keg: &mut Keg<T, K>,
    rt: &R,
    alloc: Global,
    count: u32,
    domain: u8,
) -> Result<(), FetchRefused>
    ensures brings { OnOk result (BringsSlabs keg.old domain count keg.new) }
    ensures refused { IfErr result (λ why. StopsBringing keg.old domain count why keg.new) }
    ensures kept { KeepsOutside keg.old keg.new }
{
    for _ in 0..count {
        keg.bring(rt, alloc, domain)?;
    }
    Ok(())
}

/// Gives the items of a bucket back, the last first, and answers how many there were.
fn give_each<T: Body, K: Hooks<T>>(keg: &mut Keg<T, K>, hooks: &K, bucket: &mut Bucket<T>) -> u32
    requires { All (λ item. cached_table item ≡ table_in keg.old) (items_of bucket.old) }
    ensures given { GivesEach keg.old hooks.now (items_of bucket.old) result keg.new }
    ensures none_left { items_of bucket.new ≡ [] }
{
    let count = bucket.len();
    for _ in 0..count {
        let Some(item) = bucket.pop() else {
            unreachable!()
        };
        keg.give(hooks, item);
    }
    count
}

/// The answer of a fetch, as a seat counts it.
pub(crate) fn fetch_end(answer: Result<u32, FetchRefused>) -> FetchEnd
    ensures { result ≡ end_of answer }
{
    match answer {
        Ok(count) => FetchEnd::Gave { count },
        Err(FetchRefused::Refused { refusal }) => FetchEnd::Refused { refusal },
        Err(FetchRefused::Memory) => FetchEnd::Memory,
    }
}
