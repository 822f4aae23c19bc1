ghost use Rattle.std.specs.Prelude.{◌≡◌, ◌<◌, ◌↔◌, [], IsTrue, IfSome, IfNone, IfOk, IfErr, OnOk, OnErr, Contains};
ghost use Rattle.std.specs.Int.{next_multiple_of};
ghost use Rattle.vmem_arena.specs.Tags.{free_total};
ghost use Rattle.vmem_arena.specs.TagsLaw.{TagsLaw};
ghost use Rattle.vmem_arena.specs.Add.{Adds, IsSpanShape, IsFirstMet, MeetsNone};
ghost use Rattle.vmem_arena.specs.Take.{TakesRange, front_of};
ghost use Rattle.vmem_arena.specs.Steps.{StandsIn, IsPartOf, TakesFront, NoneReaches};
ghost use Rattle.vmem_arena.specs.Give.{Gives};
ghost use Rattle.vmem_arena.specs.TakenBases.{taken_bases, HasOneMore};
ghost use Rattle.vmem_arena.specs.Refused.{IsArenaRefusedFor, IsAddable, IsAddRefusedFor, IsTakeSize, IsTakeRefusedFor};

use crate::free::{ByBase, Fit, Free, Range, Span, with_last, with_next};
use std::alloc::{AllocError, Global};
use std::error::Error;
use std::fmt;
use std::marker::Model;

/// Why no arena was made.
#[derive(Clone, Copy, Debug, PartialEq, Eq)]
pub enum ArenaRefused {
    /// The quantum is no power of two from 1 to 2^20.
    Quantum { quantum: u64 },
    /// Memory is wanting.
    Memory,
}

impl fmt::Display for ArenaRefused {
    fn fmt<W: fmt::Write>(&self, f: &mut fmt::Formatter<W>) -> fmt::Result {
        match self {
            ArenaRefused::Quantum { quantum } => {
                write!(f, "a quantum of {quantum}: it is a power of two up to 2^20")
            }
            ArenaRefused::Memory => write!(f, "out of memory"),
        }
    }
}

impl Error for ArenaRefused {}

/// Why no span was added.
#[derive(Clone, Copy, Debug, PartialEq, Eq)]
pub enum AddRefused {
    /// The size is 0, one of the two is no multiple of the quantum, or the end is above 2^63.
    Shape { base: u64, size: u64 },
    /// The span meets this one, which is the first that it meets.
    Overlap { base: u64, size: u64 },
    /// Memory is wanting.
    Memory,
}

impl fmt::Display for AddRefused {
    fn fmt<W: fmt::Write>(&self, f: &mut fmt::Formatter<W>) -> fmt::Result {
        match self {
            AddRefused::Shape { base, size } => write!(f, "no span of {size} at {base}"),
            AddRefused::Overlap { base, size } => {
                write!(f, "it meets the span of {size} at {base}")
            }
            AddRefused::Memory => write!(f, "out of memory"),
        }
    }
}

impl Error for AddRefused {}

impl From<AllocError> for AddRefused {
    ghost use Rattle.std.specs.Prelude.{◌≡◌};
    ghost use Rattle.vmem_arena.specs.declared.arena.AddRefused.TheVariants.{Memory};

    ghost from_gives = { λ _ refused. refused ≡ Memory };

    fn from(_: AllocError) -> Self {
        AddRefused::Memory
    }
}

/// Why no range was taken.
#[derive(Clone, Copy, Debug, PartialEq, Eq)]
pub enum TakeRefused {
    /// The size is 0 or above 2^62.
    Size { size: u64 },
    /// No free range is as large as this size, which is rounded up to the quantum; the largest has `greatest`, 0 where
    /// none is free.
    NoFit { size: u64, greatest: u64 },
    /// Memory is wanting.
    Memory,
}

impl fmt::Display for TakeRefused {
    fn fmt<W: fmt::Write>(&self, f: &mut fmt::Formatter<W>) -> fmt::Result {
        match self {
            TakeRefused::Size { size } => write!(f, "no range of {size}: it has 1 to 2^62"),
            TakeRefused::NoFit { size, greatest } => {
                write!(f, "no free range of {size}: the largest has {greatest}")
            }
            TakeRefused::Memory => write!(f, "out of memory"),
        }
    }
}

impl Error for TakeRefused {}

impl From<AllocError> for TakeRefused {
    ghost use Rattle.std.specs.Prelude.{◌≡◌};
    ghost use Rattle.vmem_arena.specs.declared.arena.TakeRefused.TheVariants.{Memory};

    ghost from_gives = { λ _ refused. refused ≡ Memory };

    fn from(_: AllocError) -> Self {
        TakeRefused::Memory
    }
}

/// No taken range begins at this base.
#[derive(Clone, Copy, Debug, PartialEq, Eq)]
pub struct NotTaken {
    pub base: u64,
}

impl fmt::Display for NotTaken {
    fn fmt<W: fmt::Write>(&self, f: &mut fmt::Formatter<W>) -> fmt::Result {
        let base = self.base;
        write!(f, "no taken range begins at {base}")
    }
}

impl Error for NotTaken {}

/// The greatest quantum (own).
const MOST_QUANTUM: u64 = 1 << 20;

/// The greatest end of a span (own).
const MOST_END: u64 = 1 << 63;

/// The greatest size that can be asked for (own).
const MOST_SIZE: u64 = 1 << 62;

/// Ranges of numbers that are taken and given back, in the manner of vmem(9).
///
/// An arena has spans, which are added, and hands out ranges of them. A take and a give take a time that grows with the
/// logarithm of the number of ranges.
#[derive(Drop)]
pub struct Arena {
    quantum: u64,
    by_base: ByBase,
    free: Free,
    free_total: u128,
}

impl Model for Arena {
    ghost use Rattle.vmem_arena.specs.Tags.{Tags};

    ghost Value = { Tags };

    ghost use Rattle.vmem_arena.specs.Kept.{tags_of, IsKept};

    ghost view = { tags_of };

    ghost invariant = { IsKept };
}

impl Arena {
    /// Makes an arena with no span.
    ///
    /// # Arguments
    ///
    /// - `quantum`: the unit to which sizes are rounded up, a power of two from 1 to 2^20.
    ///
    /// # Errors
    ///
    /// - `Quantum`: the quantum isn't such a number.
    /// - `Memory`: out of memory.
    pub fn new(alloc: Global, quantum: u64) -> Result<Arena, ArenaRefused>
        ensures new { IfOk result (λ arena. arena ≡ record { quantum = quantum; ranges = [] }) }
        ensures law { IfOk result TagsLaw }
        ensures refused { IfErr result (IsArenaRefusedFor quantum) }
    {
        if !quantum.is_power_of_two() || quantum > MOST_QUANTUM {
            return Err(ArenaRefused::Quantum { quantum });
        }
        Ok(Arena {
            quantum,
            by_base: ByBase::new(alloc),
            free: Free::new(alloc),
            free_total: 0,
        })
    }

    /// States the law of the arena, which every call keeps. The ranges, free or taken, tile the spans that were added,
    /// and no two free ranges of a span touch. The call does nothing.
    pub fn law(&self)
        ensures { TagsLaw self.now }
    {
        let _quantum = &self.quantum;
    }

    /// Adds a span as one free range. Spans that touch stay apart.
    ///
    /// # Arguments
    ///
    /// - `base`: the first number of the span, a multiple of the quantum.
    /// - `size`: the count of numbers, a positive multiple of the quantum. The end, `base` + `size`, is at most 2^63.
    ///
    /// # Errors
    ///
    /// A refused call changes nothing.
    ///
    /// - `Shape`: base or size isn't such a number.
    /// - `Overlap`: the span meets this one, the first that it meets.
    /// - `Memory`: out of memory.
    pub fn add(&mut self, alloc: Global, base: u64, size: u64) -> Result<(), AddRefused>
        ensures ok { OnOk result (Adds self.old (record { base = base; size = size }) self.new) }
        ensures accepted { OnOk result (IsAddable self.old (record { base = base; size = size })) }
        ensures bases { taken_bases self.new.ranges ≡ taken_bases self.old.ranges }
        ensures err { OnErr result (self.new ≡ self.old) }
        ensures refused { IfErr result (IsAddRefusedFor self.old (record { base = base; size = size })) }
    {
        let span = Span { base, size };
        if !has_shape(self.quantum, span) {
            return Err(AddRefused::Shape { base, size });
        }
        if let Some(met) = self.first_met(span) {
            return Err(AddRefused::Overlap {
                base: met.base,
                size: met.size,
            });
        }
        self.put_span(alloc, span)?;
        Ok(())
    }

    /// The first span that this one meets.
    fn first_met(&self, span: Span) -> Option<Span>
        requires { IsSpanShape self.now.quantum span }
        ensures some { IfSome result (IsFirstMet self.now.ranges span) }
        ensures none { IfNone result (MeetsNone span self.now.ranges) }
    {
        match self.met_below(span) {
            Some(met) => Some(met),
            None => self.met_from(span),
        }
    }

    /// The span of the last range that begins below this one, if it ends above the base.
    fn met_below(&self, span: Span) -> Option<Span>
        requires { IsSpanShape self.now.quantum span }
        ensures some { IfSome result (IsFirstMet self.now.ranges span) }
        ensures none { IfNone result (NoneReaches span self.now.ranges) }
    {
        match self.by_base.last_below(span.base) {
            Some(last) => {
                if span.base < last.span.base + last.span.size {
                    Some(last.span)
                } else {
                    None
                }
            }
            None => None,
        }
    }

    /// The span of the first range that begins at the base or above, if it begins within this one.
    fn met_from(&self, span: Span) -> Option<Span>
        requires shape { IsSpanShape self.now.quantum span }
        requires below { NoneReaches span self.now.ranges }
        ensures some { IfSome result (IsFirstMet self.now.ranges span) }
        ensures none { IfNone result (MeetsNone span self.now.ranges) }
    {
        match self.by_base.first_from(span.base) {
            Some(first) => {
                if first.base < span.base + span.size {
                    Some(first.span)
                } else {
                    None
                }
            }
            None => None,
        }
    }

    /// Puts a span in that meets none.
    fn put_span(&mut self, alloc: Global, span: Span) -> Result<(), AllocError>
        requires shape { IsSpanShape self.old.quantum span }
        requires apart { MeetsNone span self.old.ranges }
        ensures ok { OnOk result (Adds self.old span self.new) }
        ensures bases { taken_bases self.new.ranges ≡ taken_bases self.old.ranges }
        ensures err { OnErr result (self.new ≡ self.old) }
    {
        let range = Range {
            base: span.base,
            size: span.size,
            taken: false,
            span,
        };
        self.free.reserve(alloc)?;
        self.by_base.put(range)?;
        self.free.put(Fit::of(range));
        self.free_total += u128::from(span.size);
        Ok(())
    }

    /// Takes the front of the smallest free range that holds `size`, rounded up to the quantum, and returns its base.
    /// The lowest of equal ranges is taken.
    ///
    /// # Arguments
    ///
    /// - `size`: the count of numbers, 1 to 2^62.
    ///
    /// # Errors
    ///
    /// A refused call changes nothing.
    ///
    /// - `Size`: the size is out of its range.
    /// - `NoFit`: no free range is that large. The refusal has the greatest free size.
    /// - `Memory`: out of memory.
    pub fn take(&mut self, alloc: Global, size: u64) -> Result<u64, TakeRefused>
        ensures ok { IfOk result (λ base. TakesRange self.old (next_multiple_of size self.old.quantum) base self.new) }
        ensures accepted { OnOk result (IsTakeSize size) }
        ensures bases { IfOk result (λ base. HasOneMore (taken_bases self.old.ranges) base (taken_bases self.new.ranges)) }
        ensures err { OnErr result (self.new ≡ self.old) }
        ensures refused { IfErr result (IsTakeRefusedFor self.old size) }
    {
        if size == 0 || size > MOST_SIZE {
            return Err(TakeRefused::Size { size });
        }
        let size = size.next_multiple_of(self.quantum);
        let Some(fit) = self.free.by_size.first_from(size) else {
            return Err(TakeRefused::NoFit {
                size,
                greatest: self.free.by_size.greatest(),
            });
        };
        let Some(range) = self.by_base.at(fit.base) else {
            unreachable!()
        };
        if size < range.size {
            self.take_part(alloc, range, size)?;
        } else {
            self.take_whole(alloc, range)?;
        }
        Ok(range.base)
    }

    /// Takes all of a free range.
    fn take_whole(&mut self, alloc: Global, range: Range) -> Result<(), AllocError>
        requires stands { StandsIn self.old.ranges range }
        requires part { IsPartOf self.old.quantum range.size range }
        ensures ok { OnOk result (TakesFront self.old range range.size self.new) }
        ensures bases { OnOk result (HasOneMore (taken_bases self.old.ranges) range.base (taken_bases self.new.ranges)) }
        ensures err { OnErr result (self.new ≡ self.old) }
    {
        self.free.reserve(alloc)?;
        self.free.remove(Fit::of(range));
        self.by_base.write(front_of(range, range.size));
        self.free_total -= u128::from(range.size);
        Ok(())
    }

    /// Takes the front of a free range, which isn't all of it.
    fn take_part(&mut self, alloc: Global, range: Range, size: u64) -> Result<(), AllocError>
        requires stands { StandsIn self.old.ranges range }
        requires part { IsPartOf self.old.quantum size range }
        requires less { size < range.size }
        ensures ok { OnOk result (TakesFront self.old range size self.new) }
        ensures bases { OnOk result (HasOneMore (taken_bases self.old.ranges) range.base (taken_bases self.new.ranges)) }
        ensures err { OnErr result (self.new ≡ self.old) }
    {
        self.free.reserve(alloc)?;
        let rest = Range {
            base: range.base + size,
            size: range.size - size,
            taken: false,
            span: range.span,
        };
        self.by_base.put(rest)?;
        self.free.replace(Fit::of(range), Fit::of(rest));
        self.by_base.write(front_of(range, size));
        self.free_total -= u128::from(size);
        Ok(())
    }

    /// Gives back a taken range, and returns its size. It becomes free, and merges with its free neighbours in the same
    /// span.
    ///
    /// # Arguments
    ///
    /// - `base`: the first number of the range.
    ///
    /// # Errors
    ///
    /// `NotTaken`: no taken range begins there. Nothing changes.
    pub fn give(&mut self, base: u64) -> Result<u64, NotTaken>
        ensures ok { IfOk result (λ size. Gives self.old base size self.new) }
        ensures bases { OnOk result (HasOneMore (taken_bases self.new.ranges) base (taken_bases self.old.ranges)) }
        ensures err { OnErr result (self.new ≡ self.old) }
        ensures refused { IfErr result (λ e. (e.base ≡ base) × (Contains (taken_bases self.old.ranges) base → ⊥)) }
    {
        let Some(range) = self.by_base.at(base) else {
            return Err(NotTaken { base });
        };
        if !range.taken {
            return Err(NotTaken { base });
        }
        let freed = with_next(&mut self.by_base, &mut self.free, range);
        let freed = with_last(&mut self.by_base, &mut self.free, freed);
        self.by_base.write(freed);
        self.free.put(Fit::of(freed));
        self.free_total += u128::from(range.size);
        Ok(range.size)
    }

    /// Returns the sum of the sizes of the free ranges.
    pub fn free_total(&self) -> u128
        ensures { result ≡ free_total self.now.ranges }
    {
        self.free_total
    }

    /// Returns whether a taken range begins at this base.
    ///
    /// # Arguments
    ///
    /// - `base`: the first number of the range.
    pub fn is_taken(&self, base: u64) -> bool
        ensures { IsTrue result ↔ Contains (taken_bases self.now.ranges) base }
    {
        match self.by_base.at(base) {
            Some(range) => range.taken,
            None => false,
        }
    }
}

/// Whether a span may have this base and size.
fn has_shape(quantum: u64, span: Span) -> bool
    requires { 0 < quantum }
    ensures { IsTrue result ↔ IsSpanShape quantum span }
{
    span.size != 0
        && span.base % quantum == 0
        && span.size % quantum == 0
        && span.base <= MOST_END
        && span.size <= MOST_END - span.base
}

/// The front of a range, taken.
fn front_of(range: Range, size: u64) -> Range
    ensures { result ≡ front_of range size }
{
    Range {
        base: range.base,
        size,
        taken: true,
        span: range.span,
    }
}
