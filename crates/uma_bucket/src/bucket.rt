ghost use Rattle.std.specs.Prelude.{◌≡◌, ◌<◌, ◌^◌, [], length};
ghost use Rattle.uma_bucket.specs.Room.{is_cached};
ghost use Rattle.uma_bucket.specs.Kept.{IsKept};

use crate::shelved::Sums;
use std::alloc::{AllocError, Global};
use std::error::Error;
use std::fmt;
use uma_life::{Body, Cached, Outside};

/// Why a bucket wasn't made.
#[derive(Clone, Copy, Debug, PartialEq, Eq)]
pub enum BucketRefused {
    /// The size isn't 4 to 64 items. It is tested before memory.
    Size { size: u32 },
    Memory,
}

impl fmt::Display for BucketRefused {
    fn fmt<W: fmt::Write>(&self, f: &mut fmt::Formatter<W>) -> fmt::Result {
        match self {
            BucketRefused::Size { size } => write!(f, "a bucket of {size} items: it has 4 to 64"),
            BucketRefused::Memory => write!(f, "out of memory"),
        }
    }
}

impl Error for BucketRefused {}

impl From<AllocError> for BucketRefused {
    ghost use Rattle.std.specs.Prelude.{◌≡◌};
    ghost use Rattle.uma_bucket.specs.declared.bucket.BucketRefused.TheVariants.{Memory};

    ghost from_gives = { λ _ refused. refused ≡ Memory };

    fn from(_refused: AllocError) -> BucketRefused {
        BucketRefused::Memory
    }
}

/// The least and the greatest count of items that a bucket can have room for.
const LEAST_SIZE: u32 = 4;

const MOST_SIZE: u32 = 64;

/// A stack of cached items. Contracts see its size and the list of its items, the last put at the end.
#[derive(Drop)]
pub struct Bucket<T: Body> {
    pub(crate) room: Vec<Outside<T>>,
    pub(crate) size: u32,
    pub ghost kept: { IsKept is_cached room size },
}

impl<T: Body> Bucket<T> {
    ghost use Rattle.uma_bucket.specs.Bucket.{IsCountOf, IsSizeOf, MakesBucket, Pops, Pushes, items_of, tickets_of, size_of};
    ghost use Rattle.uma_bucket.specs.Sums.{AddsItems, times_cached, AreOfAtMost};

    /// An empty bucket with room for `size` items, which is 4 to 64.
    pub fn make(alloc: Global, size: u32) -> Result<Bucket<T>, BucketRefused>
        ensures { MakesBucket size result }
    {
        if size < LEAST_SIZE || size > MOST_SIZE {
            return Err(BucketRefused::Size { size });
        }
        let room = Vec::with_capacity(alloc, size as usize)?;
        Ok(Bucket { room, size })
    }

    /// Puts an item on top. Its room was taken when the bucket was made.
    pub fn push(&mut self, item: Cached<T>)
        requires { length (items_of self.old) < size_of self.old }
        ensures { Pushes self.old item self.new }
    {
        self.room.push_reserved(Outside::of_cached(item));
    }

    /// Takes the item on top, which is the last that was put. None exactly where there is none.
    pub fn pop(&mut self) -> Option<Cached<T>>
        ensures { Pops self.old result self.new }
    {
        let item = self.room.pop()?;
        Some(item.into_cached())
    }

    /// Ends a bucket of which no item is left.
    pub fn end(self)
        requires { items_of self ≡ [] }
    {
        let Bucket { room, .. } = self;
        room.destroy_empty();
    }

    /// How many items there are, at most `size`.
    pub fn len(&self) -> u32
        ensures { IsCountOf (length (items_of self.now)) (size_of self.now) result }
    {
        self.room.len() as u32
    }

    /// How many items there is room for, 4 to 64.
    pub fn size(&self) -> u32
        ensures { IsSizeOf (size_of self.now) result }
    {
        self.size
    }

    /// Adds the tallies of the items.
    pub fn add_to(&self, sums: &mut Sums)
        requires { AreOfAtMost (2 ^ 62) sums.old }
        ensures { AddsItems (λ hook. times_cached hook (items_of self.now)) 0 (length (items_of self.now)) (tickets_of self.now) sums.old sums.new }
    {
        sums.add_tallies(&self.room);
    }
}
