ghost use Rattle.std.specs.Prelude.{◌≡◌, ◌≤◌, cond, length, [], IsTrue, ◌↔◌};
ghost use Rattle.std.specs.List.{All};
ghost use Rattle.uma_seat.specs.Rack.{shelf_in};
ghost use Rattle.uma_seat.specs.Row.{row_len, freed_len, IsRowAt, IsFreedRowAt};
ghost use Rattle.uma_seat.specs.Seating.{home_of, clock_of};
ghost use Rattle.uma_bucket.specs.Shelved.{IsShelvedAt, IsShelvedOf};
ghost use Rattle.deed_book.specs.FailShare.{causes_in};
ghost use Rattle.zone_stats.specs.LedgerSteps.{HasRoom, CountsAlloc, CountsCtor};

use crate::counts::{Counts, FetchEnd};
use crate::rack::Rack;
use crate::rows::{FreedRow, PlainRow};
use crate::seating::Seating;
use deed_book::{FailBook, FailShare, Memory};
use smr_clock::Host;
use std::alloc::Global;
use std::mem::replace;
use uma_bucket::{Bucket, BucketRefused, Port, Shelved, Sums};
use uma_life::{Body, Cached};
use zone_stats::SeatLedger;

/// One seat's cache in one zone.
///
/// Its lists are the allocation bucket, a bucket for each domain into which frees go, empty spare buckets and the shelf of
/// full ones; spares and shelf together are at most two. No item is in two lists, since each is owned once.
#[derive(Drop)]
pub struct SeatCache<T: Body, H: Host> {
    pub(crate) seating: Seating<H>,
    pub(crate) size: u32,
    pub(crate) top: Bucket<T>,
    pub(crate) plain: PlainRow<T>,
    pub(crate) freed: FreedRow<T>,
    pub(crate) rack: Rack<T, H>,
    pub(crate) counts: Counts,
    pub(crate) misses: FailShare,
    pub(crate) ports: Vec<Port<T, H>>,
    pub ghost least: { 4 ≤ size },
    pub ghost most: { size ≤ 64 },
    pub ghost plain_buckets: { row_len plain ≡ cond seating.smr 0 seating.domains },
    pub ghost freed_buckets: { freed_len freed ≡ cond seating.smr seating.domains 0 },
    pub ghost one_port_each: { length ports.items ≡ seating.domains },
    pub ghost plain_home: { IsRowAt (home_of seating) plain },
    pub ghost freed_home: { IsFreedRowAt (home_of seating) freed },
    pub ghost shelf_home: { All (IsShelvedAt (home_of seating)) (shelf_in rack) },
    pub ghost shelf_clock: { All (IsShelvedOf (clock_of seating)) (shelf_in rack) },
}

/// The least and the greatest count of items that a bucket can have room for.
const LEAST_SIZE: u32 = 4;

const MOST_SIZE: u32 = 64;

impl<T: Body + Drop, H: Host> SeatCache<T, H> {
    ghost use Rattle.uma_seat.specs.Making.{CanMake, MakesSeat};

    /// Makes a seat whose buckets are all empty. Two of them are spares. The seat allocates all the room here that it
    /// ever needs.
    ///
    /// `share` belongs to the zone's fail book and lists nothing yet, and `misses` belongs to the domain's book of
    /// misses. There is one port for each domain, in order.
    ///
    /// # Arguments
    ///
    /// - `size`: the most items in a bucket, 4 to 64.
    ///
    /// # Errors
    ///
    /// - `Size`: the size is out of its range.
    /// - `Memory`: out of memory.
    pub fn new(
        alloc: Global,
        size: u32,
        seating: Seating<H>,
        share: FailShare,
        misses: FailShare,
        ports: Vec<Port<T, H>>,
    ) -> Result<SeatCache<T, H>, BucketRefused>
        requires listed { causes_in share ≡ [] }
        requires ports { length ports.items ≡ seating.domains }
        ensures { MakesSeat size seating share misses ports.items result }
    {
        if size < LEAST_SIZE || size > MOST_SIZE {
            return Err(BucketRefused::Size { size });
        }
        SeatCache::of_size(alloc, size, seating, share, misses, ports)
    }

    fn of_size(
        alloc: Global,
        size: u32,
        seating: Seating<H>,
        share: FailShare,
        misses: FailShare,
        ports: Vec<Port<T, H>>,
    ) -> Result<SeatCache<T, H>, BucketRefused>
        requires { CanMake size seating share ports.items }
        ensures { MakesSeat size seating share misses ports.items result }
    {
        let top = Bucket::make(alloc, size)?;
        let plain = PlainRow::make(alloc, size, seating.plain_domains())?;
        let freed = FreedRow::make(alloc, size, seating.freed_domains())?;
        let rack = Rack::with_spares(alloc, size)?;
        Ok(SeatCache {
            seating,
            size,
            top,
            plain,
            freed,
            rack,
            counts: Counts::new(share),
            misses,
            ports,
        })
    }
}

impl<T: Body, H: Host> SeatCache<T, H> {
    ghost use Rattle.std.specs.Prelude.{◌<◌, false, slice_set, Some, slice_get};
    ghost use Rattle.uma_seat.specs.Allocating.{PutsBack, ReadiesTop, TakesOther, TakesUsable};
    ghost use Rattle.uma_seat.specs.Seat.{top_of, plain_of, counts_of, ledger_of, top_bucket, misses_of, seating_of, ports_of, seat_domain, spares_of, shelf_of, HasPlace};
    ghost use Rattle.uma_life.specs.Cached.{cached_domain};
    ghost use Rattle.uma_seat.specs.Frames.{KeepsAllButPlain, KeepsAllButPlainAndRack, KeepsAllButLedger};
    ghost use Rattle.uma_seat.specs.FreeCalls.{CanFree, CanPut, CanShelve, Frees};
    ghost use Rattle.uma_seat.specs.Freeing.{ShelvesPlain};
    ghost use Rattle.uma_seat.specs.Stack.{stack_at, with_item};
    ghost use Rattle.uma_seat.specs.Counting.{CanListEnd, CountsFetch};
    ghost use Rattle.std.specs.Borrow.{sem};
    ghost use Rattle.uma_seat.specs.Lending.{LendsTop, LendsMisses, LendsPort};
    ghost use Rattle.uma_seat.specs.Rack.{CountsSpares};
    ghost use Rattle.uma_seat.specs.Shelving.{AddsSpare, CanPutShelf, PutsShelf, Refills, TakesShelf};
    ghost use Rattle.uma_seat.specs.Sums.{SumsUp};

    /// Takes the item that was put last, from the allocation bucket. In a plain zone an empty allocation bucket is
    /// exchanged with the free bucket first. Returns None exactly if no item is usable.
    #[inline]
    pub fn try_alloc(&mut self) -> Option<Cached<T>>
        ensures { TakesUsable self.old result self.new }
    {
        self.exchange_if_empty();
        self.top.pop()
    }

    // In a plain zone an empty allocation bucket is exchanged with the free bucket.
    fn exchange_if_empty(&mut self)
        ensures { ReadiesTop self.old self.new }
    {
        if !self.seating.smr && self.top.len() == 0 {
            self.plain.exchange(self.seating.domain, &mut self.top);
        }
    }

    /// Puts an item that was taken back on top of the allocation bucket.
    #[inline]
    pub fn put_back(&mut self, item: Cached<T>)
        requires { length (top_of self.old).items < (top_of self.old).room }
        ensures { PutsBack self.old item self.new }
    {
        self.top.push(item);
    }

    /// Takes an item of another domain that was freed here, from a bucket that isn't full. Returns None exactly if
    /// there is none.
    pub fn take_cross(&mut self) -> Option<Cached<T>>
        ensures { TakesOther self.old result self.new }
    {
        let domain = self.plain.first_but(self.seating.domain)?;
        self.plain.pop(domain)
    }

    /// Takes in an item that has passed `dtor`. It is put into the bucket of its domain. If that bucket is full then,
    /// it becomes the newest on the shelf, and a spare takes its place.
    #[inline]
    pub fn free(&mut self, item: Cached<T>)
        requires { CanFree self.old item }
        ensures { Frees self.old item self.new }
    {
        let domain = item.domain();
        self.counts.count_free(domain != self.seating.domain);
        if self.plain.is_filled_by_one(domain) {
            self.shelve(domain, item);
        } else {
            self.put(domain, item);
        }
    }

    fn put(&mut self, domain: u8, item: Cached<T>)
        requires { CanPut false self.old domain item }
        ensures put { plain_of self.new ≡ slice_set (plain_of self.old) domain (with_item (stack_at (plain_of self.old) domain) item) }
        ensures frame { KeepsAllButPlain self.old self.new }
    {
        self.plain.push(domain, item);
    }

    // One free of a whole bucket comes here, so it is kept out of `free`, which stands in its callers: an item that is moved
    // through memory once more costs more than all the rest.
    #[inline(never)]
    fn shelve(&mut self, domain: u8, item: Cached<T>)
        requires { CanShelve self.old domain item }
        ensures full { ShelvesPlain self.old (cached_domain item) (with_item (stack_at (plain_of self.old) (cached_domain item)) item) self.new }
        ensures frame { KeepsAllButPlainAndRack self.old self.new }
    {
        let spare = self.rack.take_spare();
        let bucket = self.plain.push_last(domain, item, spare);
        self.rack.put_newest(Shelved::Plain { domain, bucket });
    }

    /// Returns the counts of the seat, and its last refusal.
    pub fn ledger(&self) -> SeatLedger
        ensures { result ≡ ledger_of self.now }
    {
        self.counts.ledger()
    }

    /// Returns whether one more request and one more free can be counted: the ledger has counted fewer than 2^63 of
    /// each. Each count requires it.
    #[inline]
    pub fn room(&self) -> bool
        ensures { IsTrue result ↔ HasRoom (ledger_of self.now) }
    {
        self.counts.room()
    }

    /// Counts a request that got an item.
    #[inline]
    pub fn count_alloc(&mut self)
        requires { HasRoom (ledger_of self.old) }
        ensures ledger { CountsAlloc (ledger_of self.old) (ledger_of self.new) }
        ensures frame { KeepsAllButLedger self.old self.new }
    {
        self.counts.count_alloc();
    }

    /// Counts a request whose item `ctor` refused, and keeps the refusal.
    ///
    /// # Arguments
    ///
    /// - `code`: the code of the refusal, 1 to 255.
    pub fn count_ctor(&mut self, code: u8)
        requires { HasRoom (ledger_of self.old) }
        ensures ledger { CountsCtor (ledger_of self.old) (ledger_of self.new) code }
        ensures frame { KeepsAllButLedger self.old self.new }
    {
        self.counts.count_ctor(code);
    }

    /// Lists a fetch with its end in the zone's fail book and in the seat's share. A refused fetch is counted, and its
    /// refusal kept. Every other end leaves the ledger unchanged.
    pub fn count_end(&mut self, book: &mut FailBook, end: FetchEnd)
        requires { CanListEnd (counts_of self.old) book.old end }
        ensures { CountsFetch self.old book.old end self.new book.new }
    {
        self.counts.count_end(book, end);
    }

    /// Lends the allocation bucket, which is empty, to a fetch, so that a fetch allocates no bucket. The seat allocates
    /// next what the fetch leaves in it.
    pub fn lend_empty(&mut self) -> &mut Bucket<T>
        requires { (top_of self.old).items ≡ [] }
        ensures* writes_back { sem 𝓛 (LendsTop T.row H.row H.Part.row T.Body H.Host self.entry result) }
        ensures bucket { result.now ≡ top_bucket self.old }
    {
        &mut self.top
    }

    /// Lends the seat's share of its domain's book of misses.
    pub fn misses(&mut self) -> &mut FailShare
        ensures* writes_back { sem 𝓛 (LendsMisses T.row H.row H.Part.row T.Body H.Host self.entry result) }
        ensures share { result.now ≡ misses_of self.old }
    {
        &mut self.misses
    }

    /// Lends the seat's port of a domain's inbox.
    ///
    /// # Arguments
    ///
    /// - `domain`: the number of the memory domain, below the zone's count of domains.
    pub fn port(&mut self, domain: u8) -> &mut Port<T, H>
        requires { domain < (seating_of self.old).domains }
        ensures* writes_back { sem 𝓛 (LendsPort T.row H.row H.Part.row T.Body H.Host self.entry domain result) }
        ensures port { slice_get (ports_of self.old) domain ≡ Some result.now }
    {
        &mut self.ports[domain as usize]
    }

    /// Returns the number of the seat's own memory domain.
    pub fn domain(&self) -> u8
        ensures { result ≡ seat_domain self.now }
    {
        self.seating.domain
    }

    /// Returns the count of empty spare buckets, at most 2. A free needs one.
    #[inline]
    pub fn spare(&self) -> u32
        ensures { CountsSpares (spares_of self.now) (shelf_of self.now) result }
    {
        self.rack.spare()
    }

    /// Takes the oldest bucket from the shelf, with its domain. It isn't empty. Returns None exactly if the shelf is
    /// empty.
    pub fn take_shelf(&mut self) -> Option<Shelved<T, H>>
        ensures { TakesShelf self.old result self.new }
    {
        self.rack.take_oldest()
    }

    /// Puts a bucket that was taken from the shelf back there, as the oldest.
    pub fn put_shelf(&mut self, shelved: Shelved<T, H>)
        requires { CanPutShelf self.old shelved }
        ensures { PutsShelf self.old shelved self.new }
    {
        self.rack.put_oldest(shelved);
    }

    /// Makes a bucket the allocation bucket, in the place of an empty one. The empty one becomes a spare if there is a
    /// place for it.
    pub fn refill(&mut self, bucket: Bucket<T>)
        requires { (top_of self.old).items ≡ [] }
        ensures { Refills self.old bucket self.new }
    {
        let empty = replace(&mut self.top, bucket);
        if self.rack.has_place() {
            self.rack.put_spare(empty);
        } else {
            empty.end();
        }
    }

    /// Makes one more spare bucket.
    ///
    /// # Errors
    ///
    /// `Memory`: out of memory.
    pub fn add_spare(&mut self, alloc: Global) -> Result<(), Memory>
        requires { HasPlace self.old }
        ensures { AddsSpare self.old result self.new }
    {
        match Bucket::make(alloc, self.size) {
            Ok(spare) => {
                self.rack.put_spare(spare);
                Ok(())
            }
            // The size is in its range, so it was memory.
            Err(_) => Err(Memory),
        }
    }

    /// Returns how often the items of the seat have passed each hook, and how many of them are deferred.
    pub fn sums(&self) -> Sums
        ensures { SumsUp self.now result }
    {
        let mut sums = Sums::none();
        self.top.add_to(&mut sums);
        self.plain.add_to(&mut sums);
        self.freed.add_to(&mut sums);
        self.rack.add_to(&mut sums);
        sums
    }
}
