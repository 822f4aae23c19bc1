ghost use Rattle.std.specs.Prelude.{◌≡◌, ℕ, List, IfOk, IfErr, OnErr, ◌<◌, ◌≤◌, ◌^◌};
ghost use Rattle.uma_zcache.specs.Bases.{Has, Gains, Loses};
ghost use Rattle.uma_zcache.specs.Refused.{ImportRefuses};

use crate::refused::{ImportRefused, SizeRefused};
use std::alloc::Global;
use vmem_arena::{Arena, TakeRefused};

/// What a cache zone's items come from and go back to: FreeBSD's `uma_import` and `uma_release`, for one item at a time.
///
/// An item is a base, a number that the importer gives out. What an implementation means is the list of the bases that are
/// outside, in which order does not count. No base is outside twice.
pub trait Import: Drop {
    /// The bases that are outside.
    ghost outside: { Self → List ℕ };

    /// Where it gives no base for another cause than memory: the size that is wanted, and the greatest that is free.
    ghost lacks: { Self → ℕ → ℕ → Type 0 };

    /// Takes a base that isn't outside.
    ///
    /// # Errors
    ///
    /// A refused call leaves the bases outside unchanged.
    ///
    /// - `NoFit`: the importer has no base to give; the implementation defines when.
    /// - `Memory`: out of memory.
    fn take_one(&mut self, alloc: Global) -> Result<u64, ImportRefused>
        ensures gains { IfOk result (λ base. Gains (outside self.old) base (outside self.new)) }
        ensures unchanged { OnErr result (outside self.new ≡ outside self.old) }
        ensures refused { IfErr result (ImportRefuses (lacks self.old)) };

    /// Takes a base back.
    ///
    /// # Arguments
    ///
    /// - `base`: a base that is outside.
    fn give_one(&mut self, base: u64)
        requires { Has (outside self.old) base }
        ensures { Loses (outside self.old) base (outside self.new) };
}

/// The greatest size that an arena is asked for.
const MOST_SIZE: u64 = 1 << 62;

/// Ranges of one size, of an arena. Its bases outside are those of the arena's taken ranges.
#[derive(Drop)]
pub struct ArenaImport {
    arena: Arena,
    size: u64,
    pub ghost some: { 0 < size },
    pub ghost most: { size ≤ 2 ^ 62 },
}

impl ArenaImport {
    ghost use Rattle.std.specs.Prelude.{◌⊎◌, [], Err};
    ghost use Rattle.vmem_arena.specs.TakenBases.{taken_bases};
    ghost use Rattle.uma_zcache.specs.ArenaImport.{IsNewImport, HasNoSize};

    /// Makes an importer of ranges of one size, over an arena of which nothing is taken.
    ///
    /// # Arguments
    ///
    /// - `size`: the size of each range, 1 to 2^62.
    ///
    /// # Errors
    ///
    /// `SizeRefused`: the size is out of its range.
    pub fn new(arena: Arena, size: u64) -> Result<ArenaImport, SizeRefused>
        requires { taken_bases arena.ranges ≡ [] }
        ensures new { IfOk result (IsNewImport arena size) }
        ensures refused { IfErr result (λ why. (why.size ≡ size) × HasNoSize size) }
    {
        if size == 0 || size > MOST_SIZE {
            return Err(SizeRefused { size });
        }
        Ok(ArenaImport { arena, size })
    }
}

impl Import for ArenaImport {
    ghost use Rattle.uma_zcache.specs.ArenaImport.{import_outside, LacksRange};

    ghost outside = { import_outside };

    ghost lacks = { LacksRange };

    fn take_one(&mut self, alloc: Global) -> Result<u64, ImportRefused> {
        match self.arena.take(alloc, self.size) {
            Ok(base) => Ok(base),
            Err(TakeRefused::NoFit { size, greatest }) => {
                Err(ImportRefused::NoFit { size, greatest })
            }
            Err(TakeRefused::Memory) => Err(ImportRefused::Memory),
            Err(TakeRefused::Size { .. }) => unreachable!(),
        }
    }

    fn give_one(&mut self, base: u64) {
        let Ok(_size) = self.arena.give(base) else {
            unreachable!()
        };
    }
}
