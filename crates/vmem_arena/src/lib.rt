//! Ranges of numbers that are taken and given back, as in FreeBSD's vmem(9): ports, identifiers, ranges of a file.
//!
//! An *arena* manages *spans*. A span is added as one free range, and a take cuts a range from the front of a free one. The *quantum* is
//! the unit: every size is rounded up to it. A take uses the smallest free range that is large enough, and the lowest of equal ones (best
//! fit). A range that is given back is merged with its free neighbours of the same span. Ranges of different spans stay apart.
//!
//! ```
//! let mut arena = Arena::new(alloc, 16)?;
//! arena.add(alloc, 4096, 1024)?;          // the numbers 4,096 to 5,119 are free
//! let base = arena.take(alloc, 100)?;     // 4,096; 112 numbers are taken
//! let size = arena.give(base)?;           // 112
//! ```
//!
//! # What is promised
//!
//! - The ranges tile the spans, and no two free ranges of a span touch (`Arena::law`: `TagsLaw`).
//! - A take gets the best fit (`Arena::take`: `ok`). It adds exactly one base to the taken ones, and `Arena::give` removes exactly that one
//!   (`bases`).
//! - A call is refused only for the reason that its error names (`refused`), and changes nothing then (`err`). No contract says when a call
//!   runs out of memory.
//!
//! Not proved: that a take and a give need a time that grows with the logarithm of the number of ranges. `bench/arena` measures it.
#![tactic(auto)]

mod arena;
mod by_size;
mod free;

pub use arena::{AddRefused, Arena, ArenaRefused, NotTaken, TakeRefused};
pub use free::{Range, Span};
