ghost use Rattle.std.specs.Prelude.{◌≡◌, ◌/◌, IsSome, IfOk};
ghost use Rattle.uma_slabs.specs.declared.places.KegRefused.TheVariants.{Memory};
ghost use Rattle.uma_slabs.specs.Calls.{ArePlacesOf, AreCountsOf, BringsOrNot, DropsOrNot, GivesOne, IsEmptyKeg, MakesPlaces, TakesOrNot};
ghost use Rattle.uma_slabs.specs.Places.{place_at, domain_at, IsOut};
ghost use Rattle.uma_slabs.specs.Refused.{IsItemSize};

use crate::rooms::Rooms;
use deed_book::Memory;
use std::alloc::{AllocError, Global};
use std::error::Error;
use std::fmt;
use std::marker::Model;
use zone_stats::Refusal;

/// How a keg stands.
#[derive(Clone, Copy, Debug, PartialEq, Eq)]
pub struct KegCounts {
    /// Slabs that are in.
    pub slabs: u32,
    /// The greatest number of slabs, 1 to 1,024.
    pub cap: u32,
    /// Slabs ever brought in.
    pub made: u64,
    /// Free items.
    pub free: u64,
    /// Items of a slab, 1 to 256.
    pub per_slab: u32,
    /// Free items that are kept for requests that say that they may use them.
    pub reserve: u64,
}

/// Why no keg was made.
#[derive(Clone, Copy, Debug, PartialEq, Eq)]
pub enum KegRefused {
    /// The size of an item is outside 8 to 4,096 bytes.
    Size { size: u32 },
    /// The greatest number of slabs is outside 1 to 1,024.
    Slabs { slabs: u32 },
    /// Memory is wanting.
    Memory,
}

impl fmt::Display for KegRefused {
    fn fmt<W: fmt::Write>(&self, f: &mut fmt::Formatter<W>) -> fmt::Result {
        match self {
            KegRefused::Size { size } => write!(f, "an item of {size} bytes: it has 8 to 4096"),
            KegRefused::Slabs { slabs } => write!(f, "a keg of {slabs} slabs: it has 1 to 1024"),
            KegRefused::Memory => write!(f, "out of memory"),
        }
    }
}

impl Error for KegRefused {}

impl From<AllocError> for KegRefused {
    ghost from_gives = { λ _ refused. refused ≡ Memory };

    fn from(_: AllocError) -> Self {
        KegRefused::Memory
    }
}

impl From<Memory> for KegRefused {
    ghost use Rattle.std.specs.Prelude.{◌≡◌};
    ghost use Rattle.uma_slabs.specs.declared.places.KegRefused.TheVariants.{Memory};

    ghost from_gives = { λ _ refused. refused ≡ Memory };

    fn from(_: Memory) -> Self {
        KegRefused::Memory
    }
}

/// The bytes of a slab (own).
const SLAB_BYTES: u32 = 4096;

/// The greatest number of places of a slab (own).
const MOST_PLACES: u32 = 256;

/// The least size of an item, in bytes (own).
const LEAST_SIZE: u32 = 8;

/// The greatest number of slabs of a keg (own).
const MOST_SLABS: u32 = 1024;

/// Slabs are given up while at most this less `cap` were ever brought in, so that bringing one in never finds their
/// count at its end (own).
const MOST_MADE: u64 = 1 << 40;

/// The slabs and free places of one keg, without the items themselves.
///
/// It takes all its memory when it is made. A slab of items of `size` bytes has `min(256, 4096 / size)` places, and a
/// number stands for the place `number % per_slab` of the slab of index `number / per_slab`.
///
/// The law that each call keeps:
///
/// 1. At most `cap` slabs are in. Each has the same number of places, and each place of it is free, or else its number
///    is out. So the free places and the numbers out are together `slabs * per_slab`.
/// 2. `made + cap - slabs` is at most 2^40, so the count of slabs ever made never comes to its end.
#[derive(Debug, Drop)]
pub struct Places {
    rooms: Rooms,
    per_slab: u32,
    cap: u32,
    slabs: u32,
    free: u64,
    made: u64,
}

impl Model for Places {
    ghost use Rattle.uma_slabs.specs.Places.{KegPlaces};

    ghost Value = { KegPlaces };

    ghost use Rattle.uma_slabs.specs.Kept.{places_of, IsKept};

    ghost view = { places_of };

    ghost invariant = { IsKept };
}

impl Places {
    ghost use Rattle.uma_slabs.specs.Kept.{IsSize};

    /// A keg of items of `size` bytes, 8 to 4,096, with room for `slabs` slabs, 1 to 1,024, and none in.
    ///
    /// The size is tested first. `Memory` where memory is wanting.
    pub fn new(alloc: Global, size: u32, slabs: u32) -> Result<Places, KegRefused>
        ensures { MakesPlaces size slabs result }
    {
        if !(LEAST_SIZE..=SLAB_BYTES).contains(&size) {
            return Err(KegRefused::Size { size });
        }
        if !(1..=MOST_SLABS).contains(&slabs) {
            return Err(KegRefused::Slabs { slabs });
        }
        Ok(Places::empty(alloc, places_of_slab(size), slabs)?)
    }

    /// A keg of so many places a slab, with room for `cap` slabs, and none in.
    fn empty(alloc: Global, per_slab: u32, cap: u32) -> Result<Places, AllocError>
        requires { IsSize per_slab cap }
        ensures { IfOk result (IsEmptyKeg per_slab cap) }
    {
        Ok(Places {
            rooms: Rooms::new(alloc, cap, per_slab)?,
            per_slab,
            cap,
            slabs: 0,
            free: 0,
            made: 0,
        })
    }

    /// Brings in a new slab with this domain, all of whose places are free, at the least index that isn't in, and
    /// answers that index. `Full` exactly where as many slabs are in as may be.
    pub fn bring(&mut self, domain: u8) -> Result<u32, Refusal>
        ensures { BringsOrNot self.old domain result self.new }
    {
        let Some(index) = self.rooms.first_absent() else {
            return Err(Refusal::Full {
                slabs: self.slabs,
                made: self.made,
            });
        };
        self.rooms.bring(index, domain);
        self.slabs += 1;
        self.free += self.per_slab as u64;
        self.made += 1;
        Ok(index)
    }

    /// Takes the least free place of a slab, and answers its number. A partly used slab is taken from before a wholly
    /// free one; which of several partly used slabs it is isn't promised. None exactly where no place is free.
    pub fn take(&mut self) -> Option<u32>
        ensures { TakesOrNot self.old result self.new }
    {
        let index = self.rooms.to_take()?;
        let place = self.rooms.take(index);
        self.free -= 1;
        Some(index * self.per_slab + place)
    }

    /// Gives back a number that is out.
    pub fn give(&mut self, no: u32)
        requires { IsOut self.old no }
        ensures { GivesOne self.old no self.new }
    {
        self.rooms.give(no / self.per_slab, no % self.per_slab);
        self.free += 1;
    }

    /// Gives up the wholly free slab of greatest index, and answers that index. None exactly where no slab is wholly
    /// free, or more than `2^40 - cap` were ever brought in; nothing changes then.
    pub fn drop_slab(&mut self) -> Option<u32>
        ensures { DropsOrNot self.old result self.new }
    {
        if self.made > MOST_MADE - self.cap as u64 {
            return None;
        }
        let index = self.rooms.last_wholly_free()?;
        self.rooms.give_up(index);
        self.slabs -= 1;
        self.free -= self.per_slab as u64;
        Some(index)
    }

    /// How the keg stands. The reserve is 0, and the rest are kept values.
    pub fn counts(&self) -> KegCounts
        ensures { AreCountsOf self.now result }
    {
        KegCounts {
            slabs: self.slabs,
            cap: self.cap,
            made: self.made,
            free: self.free,
            per_slab: self.per_slab,
            reserve: 0,
        }
    }

    /// The memory domain of the slab that this number is a place of.
    pub fn domain(&self, no: u32) -> u8
        requires { IsSome (place_at self.now no) }
        ensures { domain_at self.now (no / self.now.per_slab) ≡ Some result }
    {
        self.rooms.domain(no / self.per_slab).unwrap()
    }
}

/// How many items of `size` bytes a slab has.
fn places_of_slab(size: u32) -> u32
    requires { IsItemSize size }
    ensures { ArePlacesOf size result }
{
    MOST_PLACES.min(SLAB_BYTES / size)
}
