//! The free ranges in order of size with their spare nodes, and the merging of a range that is given back.
ghost use Rattle.std.specs.Prelude.{◌≡◌, ◌+◌, [], MatchOption, OnOk, OnErr, IfSome, IfNone, ◌^◌, ◌<◌, ◌≤◌, true, false, List, ◌∷◌, ◌++◌, vec_len};
ghost use Rattle.vmem_arena.specs.ByBase.{IsAt, NoneAt, IsLastBelow, NoneBelow, IsFirstFrom, NoneFrom, put_in, written, without};
ghost use Rattle.vmem_arena.specs.Fits.{is_before, HasOneMore, HasOneLess, Exchanges};
ghost use Rattle.vmem_arena.specs.declared.free.Range.{Range};
ghost use Rattle.vmem_arena.specs.Tags.{range_end};
ghost use Rattle.vmem_arena.specs.Give.{are_one};
ghost use Rattle.vmem_arena.specs.Steps.{AreFits, EndLow, LastJoined, NextJoined, Spaced};

use crate::by_size::{BySize, Node};
use std::alloc::{AllocError, Global};
use std::collections::BTreeMap;
use std::marker::Model;

/// A span that was added to an arena: its numbers from `base` on.
#[derive(Clone, Copy, Debug, PartialEq, Eq)]
pub struct Span {
    pub base: u64,
    pub size: u64,
}

/// One of an arena's ranges: its numbers from `base` on, whether they are taken, and the span that it is cut from.
#[derive(Clone, Copy, Debug, PartialEq, Eq)]
pub struct Range {
    pub base: u64,
    pub size: u64,
    pub taken: bool,
    pub span: Span,
}

/// What is known of the range that begins at a base.
#[derive(Clone, Copy, Debug)]
pub(crate) struct Tag {
    size: u64,
    taken: bool,
    span: Span,
}

/// The ranges, by their bases.
#[derive(Drop)]
pub(crate) struct ByBase {
    tags: BTreeMap<u64, Tag>,
}

impl Model for ByBase {
    ghost use Rattle.std.specs.Prelude.{List};
    ghost use Rattle.vmem_arena.specs.declared.free.Range.{Range};

    ghost Value = { List Range };

    ghost use Rattle.vmem_arena.specs.Tag.{ranges_of};

    ghost view = { λ a. ranges_of a.tags.entries };

    ghost use Rattle.std.specs.BTreeMap.{IsOrdered};
    ghost use Rattle.std.specs.Ordering.{nat_cmp};

    ghost invariant = { λ a. IsOrdered nat_cmp a.tags };
}

impl Tag {
    fn of(range: Range) -> Tag
        ensures { result ≡ record { size = range.size; taken = range.taken; span = range.span } }
    {
        Tag {
            size: range.size,
            taken: range.taken,
            span: range.span,
        }
    }

    fn at(self, base: u64) -> Range
        ensures { result ≡ record { base = base; size = self.size; taken = self.taken; span = self.span } }
    {
        Range {
            base,
            size: self.size,
            taken: self.taken,
            span: self.span,
        }
    }
}

impl ByBase {
    pub(crate) fn new(alloc: Global) -> ByBase
        ensures { result ≡ [] }
    {
        ByBase {
            tags: BTreeMap::new(alloc),
        }
    }

    /// The range that begins at this base.
    pub(crate) fn at(&self, base: u64) -> Option<Range>
        ensures some { IfSome result (IsAt self.now base) }
        ensures none { IfNone result (NoneAt self.now base) }
    {
        match self.tags.get(&base) {
            Some(tag) => Some(tag.at(base)),
            None => None,
        }
    }

    /// The last range that begins below this base.
    pub(crate) fn last_below(&self, base: u64) -> Option<Range>
        ensures some { IfSome result (IsLastBelow self.now base) }
        ensures none { IfNone result (NoneBelow self.now base) }
    {
        match self.tags.range(..base).next_back() {
            Some((at, tag)) => Some(tag.at(*at)),
            None => None,
        }
    }

    /// The first range that begins at this base or above.
    pub(crate) fn first_from(&self, base: u64) -> Option<Range>
        ensures some { IfSome result (IsFirstFrom self.now base) }
        ensures none { IfNone result (NoneFrom self.now base) }
    {
        match self.tags.range(base..).next() {
            Some((at, tag)) => Some(tag.at(*at)),
            None => None,
        }
    }

    /// Puts a range in its place, where none begins at its base.
    pub(crate) fn put(&mut self, range: Range) -> Result<(), AllocError>
        requires { NoneAt self.old range.base }
        ensures ok { OnOk result (self.new ≡ put_in range self.old) }
        ensures err { OnErr result (self.new ≡ self.old) }
    {
        self.tags.insert(range.base, Tag::of(range))?;
        Ok(())
    }

    /// Writes a range over the one that begins at its base.
    pub(crate) fn write(&mut self, range: Range)
        ensures { self.new ≡ written range self.old }
    {
        if let Some(tag) = self.tags.get_mut(&range.base) {
            *tag = Tag::of(range);
        }
    }

    /// Takes out the range that begins at this base.
    pub(crate) fn remove(&mut self, base: u64)
        ensures { self.new ≡ without base self.old }
    {
        self.tags.remove(&base);
    }
}

/// A free range as it stands in order of size: by its size first, and by its base among those of one size.
#[derive(Clone, Copy, Debug, PartialEq, Eq)]
pub(crate) struct Fit {
    pub(crate) size: u64,
    pub(crate) base: u64,
}

impl Fit {
    /// The fit of a range.
    pub(crate) fn of(range: Range) -> Fit
        ensures { result ≡ record { size = range.size; base = range.base } }
    {
        Fit {
            size: range.size,
            base: range.base,
        }
    }

    /// Whether this one is smaller than the other, or as large and lower.
    pub(crate) fn is_before(self, other: Fit) -> bool
        ensures { result ≡ is_before self other }
    {
        self.size < other.size || (self.size == other.size && self.base < other.base)
    }
}

/// Whether both are free and of one span, and the second begins where the first ends.
fn are_one(first: Range, second: Range) -> bool
    requires { range_end first < 2 ^ 64 }
    ensures { result ≡ are_one first second }
{
    !first.taken
        && !second.taken
        && first.span.base == second.span.base
        && first.base + first.size == second.base
}

/// The range as free, one with the free neighbour behind it, which is gone then. The range itself stands as it did.
pub(crate) fn with_next(by_base: &mut ByBase, free: &mut Free, range: Range) -> Range
    requires ends { range_end range ≤ 2 ^ 63 }
    requires low { EndLow by_base.old }
    ensures joined { (before after : List Range)
        → by_base.old ≡ before ++ range ∷ after → range.taken ≡ true → Spaced by_base.old → AreFits free.old.by_size by_base.old
        → NextJoined before range after by_base.new free.new.by_size result }
    ensures ends { range_end result ≤ 2 ^ 63 }
    ensures spares { vec_len free.new.spares ≡ vec_len free.old.spares }
{
    let freed = Range {
        base: range.base,
        size: range.size,
        taken: false,
        span: range.span,
    };
    match by_base.at(range.base + range.size) {
        Some(next) => {
            if are_one(freed, next) {
                by_base.remove(next.base);
                free.remove(Fit::of(next));
                Range {
                    base: freed.base,
                    size: freed.size + next.size,
                    taken: false,
                    span: freed.span,
                }
            } else {
                freed
            }
        }
        None => freed,
    }
}

/// A freed range one with the free neighbour before it, at whose base it is then.
pub(crate) fn with_last(by_base: &mut ByBase, free: &mut Free, freed: Range) -> Range
    requires ends { range_end freed ≤ 2 ^ 63 }
    requires low { EndLow by_base.old }
    ensures joined { (before : List Range) (range : Range) (rest : List Range)
        → by_base.old ≡ before ++ range ∷ rest → range.base ≡ freed.base → range.taken ≡ true → freed.taken ≡ false → Spaced by_base.old → AreFits free.old.by_size by_base.old
        → LastJoined before freed rest by_base.new free.new.by_size result }
    ensures spares { vec_len free.new.spares ≡ vec_len free.old.spares }
{
    match by_base.last_below(freed.base) {
        Some(last) => {
            if are_one(last, freed) {
                by_base.remove(freed.base);
                free.remove(Fit::of(last));
                Range {
                    base: last.base,
                    size: last.size + freed.size,
                    taken: last.taken,
                    span: last.span,
                }
            } else {
                freed
            }
        }
        None => freed,
    }
}

#[derive(Drop)]
pub(crate) struct Free {
    pub(crate) by_size: BySize,
    pub(crate) spares: Vec<Box<Node>>,
}

impl Free {
    pub(crate) fn new(alloc: Global) -> Free
        ensures none { result.by_size ≡ [] }
        ensures spares { vec_len result.spares ≡ 0 }
    {
        Free {
            by_size: BySize::new(),
            spares: Vec::new(alloc),
        }
    }

    /// Makes room for one more.
    pub(crate) fn reserve(&mut self, alloc: Global) -> Result<(), AllocError>
        ensures same { self.new.by_size ≡ self.old.by_size }
        ensures ok { OnOk result (vec_len self.new.spares ≡ vec_len self.old.spares + 1) }
        ensures err { OnErr result (vec_len self.new.spares ≡ vec_len self.old.spares) }
    {
        self.spares.push(Box::new(alloc, Node::new())?)?;
        Ok(())
    }

    /// Puts one in, for which there is room.
    pub(crate) fn put(&mut self, fit: Fit)
        requires { 0 < vec_len self.old.spares }
        ensures more { HasOneMore self.old.by_size fit self.new.by_size }
        ensures spares { vec_len self.new.spares + 1 ≡ vec_len self.old.spares }
    {
        if let Some(node) = self.spares.pop() {
            self.by_size.insert(node, fit);
        }
    }

    /// Takes one out, if it is in.
    pub(crate) fn remove(&mut self, fit: Fit)
        ensures fewer { HasOneLess self.old.by_size fit self.new.by_size }
        ensures spares { vec_len self.new.spares ≡ vec_len self.old.spares }
    {
        let _ = self.by_size.remove(fit);
    }

    /// Puts one in the place of another, if that is in.
    pub(crate) fn replace(&mut self, fit: Fit, by: Fit)
        ensures exchange { Exchanges self.old.by_size fit by self.new.by_size }
        ensures spares { vec_len self.new.spares ≡ vec_len self.old.spares }
    {
        if let Some(node) = self.by_size.remove(fit) {
            self.by_size.insert(node, by);
        }
    }
}
