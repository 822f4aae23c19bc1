//! Why a request got no item. Want of memory is none of these causes, and isn't counted.
ghost use Rattle.std.specs.Prelude.{◌≡◌};

use std::alloc::{AllocError, AllocFailed};
use std::error::Error;
use std::fmt;

/// Why a zone gave no item to a request, kept in the seat's ledger. Want of memory is none of these: it isn't counted.
#[derive(Clone, Copy, Debug, PartialEq, Eq)]
pub enum Refusal {
    /// The zone has a limit, and `out`, the items that it has out, is at it.
    AtLimit { out: u64, limit: u64 },
    /// The keg has `free` items free, and none beyond its `reserve`.
    Reserved { free: u64, reserve: u64 },
    /// The keg has all the `slabs` that it may have, and a request found no item in them free. `made` slabs were ever
    /// brought in.
    Full { slabs: u32, made: u64 },
    /// The `keg_init` of a new slab's item refused it, or the `zone_init` of an item that came from the keg, with this
    /// code.
    Init { code: u8 },
    /// The `ctor` of the zone refused the item, with this code.
    Ctor { code: u8 },
}

impl Refusal {
    ghost use Rattle.zone_stats.specs.Cause.{cause_of};

    /// The kind of the refusal, 1 to 5 in the order of the variants, and its numbers in order, 0 where there is none.
    pub fn cause(self) -> (u64, u64, u64)
        ensures { result ≡ cause_of self }
    {
        match self {
            Refusal::AtLimit { out, limit } => (1, out, limit),
            Refusal::Reserved { free, reserve } => (2, free, reserve),
            Refusal::Full { slabs, made } => (3, u64::from(slabs), made),
            Refusal::Init { code } => (4, u64::from(code), 0),
            Refusal::Ctor { code } => (5, u64::from(code), 0),
        }
    }
}

impl fmt::Display for Refusal {
    fn fmt<W: fmt::Write>(&self, f: &mut fmt::Formatter<W>) -> fmt::Result {
        match self {
            Refusal::AtLimit { out, limit } => write!(f, "{out} items out at a limit of {limit}"),
            Refusal::Reserved { free, reserve } => {
                write!(f, "{free} items free in a reserve of {reserve}")
            }
            Refusal::Full { slabs, .. } => write!(f, "all {slabs} slabs are in use"),
            Refusal::Init { code } => write!(f, "refused by init with code {code}"),
            Refusal::Ctor { code } => write!(f, "refused by ctor with code {code}"),
        }
    }
}

impl Error for Refusal {}

/// An allocation was refused.
#[derive(Clone, Copy, Debug, PartialEq, Eq)]
pub struct Memory;

impl fmt::Display for Memory {
    fn fmt<W: fmt::Write>(&self, f: &mut fmt::Formatter<W>) -> fmt::Result {
        f.write_str("out of memory")
    }
}

impl Error for Memory {}

impl From<AllocError> for Memory {
    fn from(_: AllocError) -> Memory {
        Memory
    }
}

impl<T: Drop> From<AllocFailed<T>> for Memory {
    fn from(_: AllocFailed<T>) -> Memory {
        Memory
    }
}
