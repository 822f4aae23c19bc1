ghost use Rattle.std.specs.Prelude.{◌≡◌, ◌≤◌, ◌+◌, length, All, true};
ghost use Rattle.uma_domain.specs.Working.{IsBounded};
ghost use Rattle.std.specs.VecDeque.{deque_len, deque_capacity};
ghost use Rattle.deed_book.specs.FailBook.{fail_book_table, causes_of};
ghost use Rattle.uma_domain.specs.Identity.{key_identity};
ghost use Rattle.uma_domain.specs.Listed.{IsPlainOf, IsLooseOf, IsSealedOf, listed};
ghost use Rattle.smr_clock.specs.Belongs.{clock_id, view};

use crate::domain::DomainKey;
use crate::scans::{seal_each, take_first_ripe};
use deed_book::{FailBook, FailShare};
use listed::Log;
use smr_clock::{Clock, Host, Pass};
use std::alloc::Global;
use std::collections::VecDeque;
use std::snapshot::Snapshot;
use uma_bucket::{Bucket, Loose, Ripe, Sealed, Sums};
use uma_life::Body;

/// How many items a domain lists, and the least and the greatest such count since the last trim. Each is below 2^32.
#[derive(Clone, Copy, Debug, PartialEq, Eq)]
pub struct Working {
    pub count: u64,
    pub least: u64,
    pub greatest: u64,
}

impl Working {
    ghost use Rattle.uma_domain.specs.Working.{working_set, begun, after};

    /// The counts where an interval begins.
    pub(crate) fn at(count: u64) -> Working
        ensures { result ≡ begun count }
    {
        Working {
            count,
            least: count,
            greatest: count,
        }
    }

    /// The counts after a put or a take that left so many items.
    pub(crate) fn moved_to(&self, count: u64) -> Working
        ensures { result ≡ after self.now count }
    {
        Working {
            count,
            least: self.least.min(count),
            greatest: self.greatest.max(count),
        }
    }

    /// How many items were in use since the last trim.
    pub(crate) fn set(&self) -> u64
        requires { self.now.least ≤ self.now.greatest }
        ensures { result ≡ working_set self.now }
    {
        self.greatest - self.least
    }
}

/// What a domain's lock keeps: plain, loose and sealed buckets, each kind with the oldest in front.
///
/// What always holds: no listed bucket is empty. The items are at home in one book, zone and count of domains, and the
/// notes are of one clock. The count is that of all items listed, and lies between the least and the greatest, which are
/// below 2^32. The number of the book of misses is how many looks found nothing, which contracts alone see. The sealed list
/// has room for each loose bucket too.
#[derive(Drop)]
pub struct Lists<T: Body, H: Host> {
    pub(crate) key: Snapshot<DomainKey<H>>,
    pub(crate) plain: VecDeque<Bucket<T>>,
    pub(crate) loose: VecDeque<Loose<T>>,
    pub(crate) sealed: VecDeque<Sealed<T, H>>,
    pub(crate) working: Working,
    pub(crate) misses: FailBook,
    pub(crate) missed: Log<()>,
    pub ghost plain_here: { All (IsPlainOf (key_identity key.value).home) plain.items },
    pub ghost loose_here: { All (IsLooseOf (key_identity key.value).home) loose.items },
    pub ghost sealed_here: { All (IsSealedOf (key_identity key.value)) sealed.items },
    pub ghost counted: { working.count ≡ listed plain.items loose.items sealed.items },
    pub ghost bounded: { IsBounded working },
    pub ghost one_book: { fail_book_table misses ≡ (key_identity key.value).misses },
    pub ghost all_missed: { length (causes_of misses) ≡ length missed },
    pub ghost room: { deque_len loose + deque_len sealed ≤ deque_capacity sealed },
}

impl<T: Body, H: Host> Lists<T, H> {
    ghost use Rattle.uma_domain.specs.Looks.{CountsMiss, CanLook, IsNewShare, TakesNewestPlain};
    ghost use Rattle.uma_domain.specs.Lists.{sealed_in, loose_in, lists_identity, plain_in, working_in, AreNew, HasItems, IsUnusedBook};
    ghost use Rattle.uma_domain.specs.Working.{begun};
    ghost use Rattle.std.specs.Prelude.{◌<◌, ◌^◌, [], false};
    ghost use Rattle.uma_domain.specs.Frames.{KeepsAll, KeepsButPlain, KeepsButLoose, KeepsButSealed};
    ghost use Rattle.uma_domain.specs.Listed.{plain_len, loose_len, sealed_len};
    ghost use Rattle.uma_domain.specs.Puts.{IsPlainFull, IsLooseFull, IsSealedFull, ListsNewest};

    /// Empty lists of the domain that the key names, with its book of misses, which has counted nothing.
    pub(crate) fn new(alloc: Global, key: &DomainKey<H>, misses: FailBook) -> Lists<T, H>
        requires { IsUnusedBook (key_identity key.now) misses }
        ensures { AreNew (key_identity key.now) result }
    {
        Lists {
            key: Snapshot::of(key),
            plain: VecDeque::new(alloc),
            loose: VecDeque::new(alloc),
            sealed: VecDeque::new(alloc),
            working: Working::at(0),
            misses,
            missed: Log::new(),
        }
    }

    /// Lists a bucket as the newest plain one. It comes back, and nothing changes, where memory is wanting, or where 2^32
    /// items or more would be listed.
    pub fn put_plain(&mut self, bucket: Bucket<T>) -> Result<(), Bucket<T>>
        requires { IsPlainOf (lists_identity self.old).home bucket }
        ensures lists { ListsNewest bucket (plain_len bucket) (IsPlainFull self.old) (plain_in self.old) (working_in self.old) result (plain_in self.new) (working_in self.new) }
        ensures kept { KeepsButPlain self.old self.new }
    {
        let count = self.working.count + u64::from(bucket.len());
        if count > u64::from(u32::MAX) {
            return Err(bucket);
        }
        if let Err(failed) = self.plain.push_back(bucket) {
            return Err(failed.value);
        }
        self.working = self.working.moved_to(count);
        Ok(())
    }

    /// Lists a bucket as the newest loose one, and takes room for it among the sealed ones too. It comes back, and nothing
    /// changes, where memory is wanting, or where 2^32 items or more would be listed.
    pub fn put_loose(&mut self, bucket: Loose<T>) -> Result<(), Loose<T>>
        requires { IsLooseOf (lists_identity self.old).home bucket }
        ensures lists { ListsNewest bucket (loose_len bucket) (IsLooseFull self.old) (loose_in self.old) (working_in self.old) result (loose_in self.new) (working_in self.new) }
        ensures kept { KeepsButLoose self.old self.new }
    {
        let count = self.working.count + u64::from(bucket.len());
        if count > u64::from(u32::MAX) {
            return Err(bucket);
        }
        let buckets = self.loose.len() + 1;
        if self.sealed.reserve(buckets).is_err() {
            return Err(bucket);
        }
        if let Err(failed) = self.loose.push_back(bucket) {
            return Err(failed.value);
        }
        self.working = self.working.moved_to(count);
        Ok(())
    }

    /// Lists a bucket as the newest sealed one. It comes back, and nothing changes, where memory is wanting, or where 2^32
    /// items or more would be listed.
    pub fn put_sealed(&mut self, bucket: Sealed<T, H>) -> Result<(), Sealed<T, H>>
        requires { IsSealedOf (lists_identity self.old) bucket }
        ensures lists { ListsNewest bucket (sealed_len bucket) (IsSealedFull self.old) (sealed_in self.old) (working_in self.old) result (sealed_in self.new) (working_in self.new) }
        ensures kept { KeepsButSealed self.old self.new }
    {
        let count = self.working.count + u64::from(bucket.len());
        if count > u64::from(u32::MAX) {
            return Err(bucket);
        }
        let buckets = self.loose.len() + 1;
        if self.sealed.reserve(buckets).is_err() {
            return Err(bucket);
        }
        self.sealed.push_back_reserved(bucket);
        self.working = self.working.moved_to(count);
        Ok(())
    }

    /// A share of the book of misses that has no cause.
    pub fn open_misses(&mut self) -> FailShare
        ensures opened { IsNewShare (lists_identity self.old) result }
        ensures kept { KeepsAll self.old self.new }
    {
        self.misses.new_share()
    }

    /// Takes the newest plain bucket. None exactly where there is none, which is one more miss in the book and in the share.
    pub fn take_plain(&mut self, share: &mut FailShare) -> Option<Bucket<T>>
        requires { CanLook false (lists_identity self.old) share.old }
        ensures { TakesNewestPlain self.old share.old result self.new share.new }
    {
        let Some(bucket) = self.plain.pop_back() else {
            self.miss_plain(share);
            return None;
        };
        let count = self.working.count - u64::from(bucket.len());
        self.working = self.working.moved_to(count);
        Some(bucket)
    }

    /// Counts a look for a plain bucket where none is listed.
    pub(crate) fn miss_plain(&mut self, share: &mut FailShare)
        requires look { CanLook false (lists_identity self.old) share.old }
        requires none { plain_in self.old ≡ [] }
        ensures { CountsMiss self.old share.old self.new share.new }
    {
        self.missed.push(());
        self.misses.add(share, 0, 0, 0);
    }

    /// How many items are listed, below 2^32.
    pub fn count(&self) -> u64
        ensures { HasItems self.now result }
    {
        self.working.count
    }

    /// The least and the greatest count of items listed since the last trim.
    pub fn working(&self) -> (u64, u64)
        ensures pair { (result.0 ≡ (working_in self.now).least) × (result.1 ≡ (working_in self.now).greatest) }
        ensures bounded { (result.0 ≤ result.1) × (result.1 < 2 ^ 32) }
    {
        (self.working.least, self.working.greatest)
    }
}

/// Sealed buckets, and loose ones that are to be sealed.
impl<T: Body, H: Host> Lists<T, H> {
    ghost use Rattle.uma_domain.specs.Tries.{SealsEach};
    ghost use Rattle.uma_domain.specs.Tries.{CanSeal};
    ghost use Rattle.uma_domain.specs.Scans.{AllStay};
    ghost use Rattle.uma_domain.specs.Looks.{TakesFirstRipe};
    ghost use Rattle.uma_domain.specs.Looks.{CountsMiss};
    ghost use Rattle.uma_domain.specs.Looks.{CanPoll};
    ghost use Rattle.uma_domain.specs.Looks.{CanLook};
    ghost use Rattle.uma_domain.specs.Lists.{sealed_in};
    ghost use Rattle.uma_domain.specs.Lists.{loose_in};
    ghost use Rattle.uma_domain.specs.Lists.{lists_identity};
    ghost use Rattle.uma_domain.specs.Frames.{KeepsButTried};
    /// Takes the oldest sealed bucket whose poll in this call says yes. Those before it were polled once each and said no;
    /// those behind it aren't polled. None exactly where each listed one's poll says no, which is one more miss in the book
    /// and in the share.
    pub fn take_ripe(&mut self, clock: &Clock<H>, share: &mut FailShare) -> Option<Ripe<T, H>>
        requires { CanPoll (lists_identity self.old) clock.now share.old }
        ensures { TakesFirstRipe self.old share.old result self.new share.new }
    {
        let before = Snapshot::of(&self.sealed);
        let Some(ripe) = take_first_ripe(&mut self.sealed, clock) else {
            self.miss_ripe(before, share);
            return None;
        };
        let count = self.working.count - u64::from(ripe.len());
        self.working = self.working.moved_to(count);
        Some(ripe)
    }

    /// Counts a look for a ripe bucket. What was listed before it is handed in: each of these buckets was polled once since
    /// then, and its poll said no.
    pub(crate) fn miss_ripe(
        &mut self,
        before: Snapshot<VecDeque<Sealed<T, H>>>,
        share: &mut FailShare,
    )
        requires look { CanLook true (lists_identity self.old) share.old }
        requires said_no { AllStay before.value.items (sealed_in self.old) }
        ensures { CountsMiss self.old share.old self.new share.new }
    {
        self.missed.push(());
        self.misses.add(share, 0, 0, 0);
    }

    /// Each loose bucket tries once to be sealed, oldest first. Those that were sealed are the newest sealed ones, in that
    /// order, and the others stay loose in theirs. Answers how many buckets were sealed.
    pub fn seal_loose(&mut self, clock: &Clock<H>, pass: &mut Pass<H>) -> u32
        requires { CanSeal (lists_identity self.old) clock.now pass.old }
        ensures tried { SealsEach H.copied (clock_id clock.now) (view pass.old) (loose_in self.old) (sealed_in self.old) result (loose_in self.new) (sealed_in self.new) (view pass.new) }
        ensures kept { KeepsButTried clock.now pass.old pass.new self.old self.new }
    {
        seal_each(&mut self.loose, &mut self.sealed, clock, pass)
    }
}

/// Sums of what is listed.
impl<T: Body, H: Host> Lists<T, H> {
    ghost use Rattle.uma_domain.specs.Sums.{AreSumsOf};
    /// How often the items listed passed each hook, and how many of them are freed. In the domain's own zone the ctors
    /// exceed the dtors by those that are freed, and in every other zone they are equal, modulo 2^64. Each is below 2^96.
    pub fn sums(&self) -> Sums
        ensures { AreSumsOf self.now result }
    {
        let mut sums = Sums::none();
        for plain_at in 0..self.plain.len() {
            self.plain[plain_at].add_to(&mut sums);
        }
        for loose_at in 0..self.loose.len() {
            self.loose[loose_at].add_to(&mut sums);
        }
        for sealed_at in 0..self.sealed.len() {
            self.sealed[sealed_at].add_to(&mut sums);
        }
        sums
    }
}
