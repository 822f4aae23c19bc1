ghost use Rattle.std.specs.Prelude.{◌≡◌, ◌*◌, ◌^◌, ◌<◌, ◌≤◌, ◌+◌, ◌∷◌, [], length, vec_len, IsTrue, ◌↔◌, IfOk, IfErr};
ghost use Rattle.std.specs.List.{All};
ghost use Rattle.std.specs.Vec.{vec_capacity};
ghost use Rattle.std.specs.VecDeque.{deque_len, deque_capacity};
ghost use Rattle.uma_bucket.specs.Bucket.{items_of, BucketIsRefused};
ghost use Rattle.uma_bucket.specs.Sums.{AreOfAtMost};
ghost use Rattle.uma_bucket.specs.Shelved.{count_of, IsShelvedAt};
ghost use Rattle.uma_seat.specs.ShelfSums.{times_shelved, deferred_shelved};
ghost use Rattle.uma_seat.specs.Adding.{AddsAll};

use smr_clock::Host;
use std::alloc::{AllocError, Global};
use std::collections::VecDeque;
use uma_bucket::{Bucket, BucketRefused, Shelved, Sums};
use uma_life::Body;

/// Spare buckets and shelved ones are at most so many together.
const MOST: u32 = 2;

/// The empty spare buckets of a seat, and its shelf: the full buckets that haven't gone to the list of their domain yet.
/// Together they are at most two.
#[derive(Drop)]
pub struct Rack<T: Body, H: Host> {
    spares: Vec<Bucket<T>>,
    shelf: VecDeque<Shelved<T, H>>,
    pub ghost few: { vec_len spares + deque_len shelf ≤ 2 },
    pub ghost spare_room: { 2 ≤ vec_capacity spares },
    pub ghost shelf_room: { 2 ≤ deque_capacity shelf },
    pub ghost empty: { All (λ spare. length (items_of spare) ≡ 0) spares.items },
    pub ghost filled: { All (λ shelved. 0 < count_of shelved) shelf.items },
}

impl<T: Body + Drop, H: Host> Rack<T, H> {
    ghost use Rattle.uma_seat.specs.Rack.{IsRackOf};
    ghost use Rattle.uma_seat.specs.Stack.{IsSize};

    /// No spare, and an empty shelf, with the places of both.
    pub fn make(alloc: Global) -> Result<Rack<T, H>, AllocError>
        ensures { IfOk result (IsRackOf []) }
    {
        let spares = Vec::with_capacity(alloc, MOST as usize)?;
        let shelf = VecDeque::with_capacity(alloc, MOST as usize)?;
        Ok(Rack { spares, shelf })
    }

    /// Two spares with room for `size` items each, and an empty shelf.
    pub fn with_spares(alloc: Global, size: u32) -> Result<Rack<T, H>, BucketRefused>
        requires { IsSize size }
        ensures made { IfOk result (IsRackOf (size ∷ size ∷ [])) }
        ensures err { IfErr result (BucketIsRefused size) }
    {
        let mut rack = Rack::make(alloc)?;
        rack.put_spare(Bucket::make(alloc, size)?);
        rack.put_spare(Bucket::make(alloc, size)?);
        Ok(rack)
    }
}

impl<T: Body, H: Host> Rack<T, H> {
    ghost use Rattle.uma_seat.specs.Rack.{spares_in, shelf_in, CountsSpares, CanTakeSpare, CanTakeShelved, TakesSpare, PutsSpare, PutsNewest, PutsOldest, TakesOldest};
    ghost use Rattle.uma_seat.specs.Sums.{times_in_rack, deferred_in_rack};

    /// How many spares there are, at most 2.
    pub fn spare(&self) -> u32
        ensures { CountsSpares (spares_in self.now) (shelf_in self.now) result }
    {
        self.spares.len() as u32
    }

    /// Whether spares and shelf together are below two.
    pub fn has_place(&self) -> bool
        ensures { IsTrue result ↔ (length (spares_in self.now) + length (shelf_in self.now) < 2) }
    {
        self.spares.len() + self.shelf.len() < MOST as usize
    }

    /// Takes a spare. It is empty.
    pub fn take_spare(&mut self) -> Bucket<T>
        requires { 0 < length (spares_in self.old) }
        ensures { TakesSpare self.old result self.new }
    {
        match self.spares.pop() {
            Some(spare) => spare,
            None => unreachable!(),
        }
    }

    /// Puts an empty bucket to the spares.
    pub fn put_spare(&mut self, spare: Bucket<T>)
        requires { CanTakeSpare self.old spare }
        ensures { PutsSpare self.old spare self.new }
    {
        self.spares.push_reserved(spare);
    }

    /// Puts a bucket on the shelf, as the newest.
    pub fn put_newest(&mut self, shelved: Shelved<T, H>)
        requires { CanTakeShelved self.old shelved }
        ensures { PutsNewest self.old shelved self.new }
    {
        self.shelf.push_back_reserved(shelved);
    }

    /// Puts a bucket on the shelf, as the oldest.
    pub fn put_oldest(&mut self, shelved: Shelved<T, H>)
        requires { CanTakeShelved self.old shelved }
        ensures { PutsOldest self.old shelved self.new }
    {
        self.shelf.push_front_reserved(shelved);
    }

    /// Takes the oldest bucket from the shelf, which isn't empty. None exactly where the shelf is empty.
    pub fn take_oldest(&mut self) -> Option<Shelved<T, H>>
        ensures { TakesOldest self.old result self.new }
    {
        self.shelf.pop_front()
    }

    /// Adds the tallies of the items on the shelf, and counts the freed ones as deferred.
    pub fn add_to(&self, sums: &mut Sums)
        requires { AreOfAtMost (2 ^ 61) sums.old }
        ensures { AddsAll (λ hook. times_in_rack hook self.now) (deferred_in_rack self.now) (64 * length (shelf_in self.now)) (λ home. All (IsShelvedAt home) (shelf_in self.now)) sums.old sums.new }
    {
        for at in 0..self.shelf.len() {
            add_shelved(&self.shelf[at], sums);
        }
    }
}

// Adds the tallies of a bucket on the shelf.
fn add_shelved<T: Body, H: Host>(shelved: &Shelved<T, H>, sums: &mut Sums)
    requires { AreOfAtMost (2 ^ 62) sums.old }
    ensures { AddsAll (λ hook. times_shelved hook shelved.now) (deferred_shelved shelved.now) (count_of shelved.now) (λ home. IsShelvedAt home shelved.now) sums.old sums.new }
{
    match shelved {
        Shelved::Plain { bucket, .. } => bucket.add_to(sums),
        Shelved::Loose { bucket, .. } => bucket.add_to(sums),
        Shelved::Sealed { bucket, .. } => bucket.add_to(sums),
    }
}
