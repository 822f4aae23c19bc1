ghost use Rattle.std.specs.Prelude.{◌≡◌, ◌*◌, ◌<◌, length, false, IfOk, IfErr, IfSome, IfNone};
ghost use Rattle.std.specs.List.{All};
ghost use Rattle.uma_bucket.specs.Bucket.{items_of, size_of, BucketIsRefused};
ghost use Rattle.uma_bucket.specs.Loose.{loose_items, loose_size};

use std::alloc::Global;
use std::mem::{replace, swap};
use uma_bucket::{Bucket, BucketRefused, Freed, Loose, Sums};
use uma_life::{Body, Cached};

/// A bucket for each domain of a plain zone, into which frees go. None of them is full.
#[derive(Drop)]
pub struct PlainRow<T: Body> {
    pub buckets: Vec<Bucket<T>>,
    pub ghost open: { All (λ bucket. length (items_of bucket) < size_of bucket) buckets.items },
}

impl<T: Body + Drop> PlainRow<T> {
    ghost use Rattle.uma_seat.specs.Stack.{IsSize};
    ghost use Rattle.uma_seat.specs.Row.{IsNewRow};

    /// So many empty buckets.
    pub fn make(alloc: Global, size: u32, count: usize) -> Result<PlainRow<T>, BucketRefused>
        requires { IsSize size }
        ensures made { IfOk result (IsNewRow size count) }
        ensures err { IfErr result (BucketIsRefused size) }
    {
        let mut buckets = Vec::with_capacity(alloc, count)?;
        for _ in 0..count {
            buckets.push_reserved(Bucket::make(alloc, size)?);
        }
        Ok(PlainRow { buckets })
    }
}

impl<T: Body> PlainRow<T> {
    ghost use Rattle.uma_seat.specs.Stack.{HasItemAt, CanExchangeAt, CanFillAt, CanPutAt, is_filled_by_one, stack_at};
    ghost use Rattle.uma_seat.specs.Row.{stacks_of, row_len, IsRowAt, PutsAt, FillsAt, ExchangesAt, HasOther, HasNoOther, PopsAt};
    ghost use Rattle.uma_seat.specs.Adding.{AddsAll, CanAddRow};
    ghost use Rattle.uma_seat.specs.Sums.{times_in_row};

    /// Whether one item more fills the bucket of the domain.
    pub fn is_filled_by_one(&self, domain: u8) -> bool
        requires { domain < row_len self.now }
        ensures { result ≡ is_filled_by_one (stack_at (stacks_of self.now) domain) }
    {
        let bucket = &self.buckets[domain as usize];
        bucket.size() <= bucket.len() + 1
    }

    /// Puts an item on top of the bucket of its domain, which has more room still.
    pub fn push(&mut self, domain: u8, item: Cached<T>)
        requires { CanPutAt false (row_len self.old) (stacks_of self.old) domain }
        ensures { PutsAt self.old domain item self.new }
    {
        let bucket = &mut self.buckets[domain as usize];
        bucket.push(item);
    }

    /// Puts an item on top of the bucket of its domain, which fills it, and an empty bucket in its place.
    pub fn push_last(&mut self, domain: u8, item: Cached<T>, spare: Bucket<T>) -> Bucket<T>
        requires { CanFillAt (row_len self.old) (stacks_of self.old) domain (items_of spare) }
        ensures { FillsAt self.old domain item spare result self.new }
    {
        let bucket = &mut self.buckets[domain as usize];
        let mut full = replace(bucket, spare);
        full.push(item);
        full
    }

    /// Exchanges an empty bucket with that of the domain.
    // It runs once for a bucket of requests, so it is kept out of `try_alloc`, which stands in its callers.
    #[inline(never)]
    pub fn exchange(&mut self, domain: u8, empty: &mut Bucket<T>)
        requires { CanExchangeAt (row_len self.old) domain (items_of empty.old) }
        ensures { ExchangesAt self.old domain empty.old empty.new self.new }
    {
        let bucket = &mut self.buckets[domain as usize];
        swap(bucket, empty);
    }

    /// The first domain, but for the seat's own, whose bucket has an item.
    pub fn first_but(&self, own: u8) -> Option<usize>
        ensures found { IfSome result (HasOther own self.now) }
        ensures none { IfNone result (HasNoOther own self.now) }
    {
        for (domain, bucket) in self.buckets.iter().enumerate() {
            if domain != own as usize && bucket.len() != 0 {
                return Some(domain);
            }
        }
        None
    }

    /// Takes the item on top of the bucket of a domain.
    pub fn pop(&mut self, domain: usize) -> Option<Cached<T>>
        requires { HasItemAt (row_len self.old) (stacks_of self.old) domain }
        ensures { PopsAt self.old domain result self.new }
    {
        let bucket = &mut self.buckets[domain];
        bucket.pop()
    }

    /// Adds the tallies of the items.
    pub fn add_to(&self, sums: &mut Sums)
        requires { CanAddRow (row_len self.now) sums.old }
        ensures { AddsAll (λ hook. times_in_row hook self.now) 0 (64 * row_len self.now) (λ home. IsRowAt home self.now) sums.old sums.new }
    {
        for bucket in &self.buckets {
            bucket.add_to(sums);
        }
    }
}

/// A bucket for each domain of a zone whose readers hold no lock, into which its frees go. None of them is full.
#[derive(Drop)]
pub struct FreedRow<T: Body> {
    pub buckets: Vec<Loose<T>>,
    pub ghost open: { All (λ loose. length (loose_items loose) < loose_size loose) buckets.items },
}

impl<T: Body + Drop> FreedRow<T> {
    ghost use Rattle.uma_seat.specs.Stack.{IsSize};
    ghost use Rattle.uma_seat.specs.Row.{IsNewFreedRow};

    /// So many empty buckets.
    pub fn make(alloc: Global, size: u32, count: usize) -> Result<FreedRow<T>, BucketRefused>
        requires { IsSize size }
        ensures made { IfOk result (IsNewFreedRow size count) }
        ensures err { IfErr result (BucketIsRefused size) }
    {
        let mut buckets = Vec::with_capacity(alloc, count)?;
        for _ in 0..count {
            buckets.push_reserved(Loose::make(alloc, size)?);
        }
        Ok(FreedRow { buckets })
    }
}

impl<T: Body> FreedRow<T> {
    ghost use Rattle.uma_seat.specs.Stack.{CanFillAt, CanPutAt, is_filled_by_one, stack_at};
    ghost use Rattle.uma_seat.specs.Row.{freed_stacks, freed_len, IsFreedRowAt, PutsFreedAt, FillsFreedAt};
    ghost use Rattle.uma_seat.specs.Adding.{AddsAll, CanAddRow};
    ghost use Rattle.uma_seat.specs.Sums.{times_in_freed, deferred_in_freed};

    /// Whether one item more fills the bucket of the domain.
    pub fn is_filled_by_one(&self, domain: u8) -> bool
        requires { domain < freed_len self.now }
        ensures { result ≡ is_filled_by_one (stack_at (freed_stacks self.now) domain) }
    {
        let bucket = &self.buckets[domain as usize];
        bucket.size() <= bucket.len() + 1
    }

    /// Puts an item on top of the bucket of its domain, which has more room still.
    pub fn push(&mut self, domain: u8, item: Freed<T>)
        requires { CanPutAt false (freed_len self.old) (freed_stacks self.old) domain }
        ensures { PutsFreedAt self.old domain item self.new }
    {
        let bucket = &mut self.buckets[domain as usize];
        bucket.push(item);
    }

    /// Puts an item on top of the bucket of its domain, which fills it, and an empty bucket in its place.
    pub fn push_last(&mut self, domain: u8, item: Freed<T>, spare: Loose<T>) -> Loose<T>
        requires { CanFillAt (freed_len self.old) (freed_stacks self.old) domain (loose_items spare) }
        ensures { FillsFreedAt self.old domain item spare result self.new }
    {
        let bucket = &mut self.buckets[domain as usize];
        let mut full = replace(bucket, spare);
        full.push(item);
        full
    }

    /// Adds the tallies of the items, and counts them as deferred.
    pub fn add_to(&self, sums: &mut Sums)
        requires { CanAddRow (freed_len self.now) sums.old }
        ensures { AddsAll (λ hook. times_in_freed hook self.now) (deferred_in_freed self.now) (64 * freed_len self.now) (λ home. IsFreedRowAt home self.now) sums.old sums.new }
    {
        for loose in &self.buckets {
            loose.add_to(sums);
        }
    }
}
