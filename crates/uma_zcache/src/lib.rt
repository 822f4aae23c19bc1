//! Zones without a keg, over any import, as FreeBSD's `uma_zcache_create` makes them: caches of ports, identifiers, ranges of an arena.
//!
//! An [`Import`] gives *bases*, numbers of its own, and takes them back; [`ArenaImport`] does so from an arena. A [`ZCache`] has the
//! importer under its lock, with a book of numbers. Each base that is out has a number, and the holder of the item ([`Held`]) has the
//! number's one deed. Each thread uses its own [`ZSeat`], which caches what was freed.
//!
//! ```
//! let cache = ZCache::new(alloc, import, 1024)?;          // at most 1,024 items are out
//! let mut seat = cache.seat(rt, alloc, 16)?;              // a stack of 16
//! let held = cache.alloc(rt, alloc, &mut seat)?;          // held.base() is what the importer gave
//! cache.free(rt, &mut seat, held);
//! ```
//!
//! # What is promised
//!
//! - A base goes back to the importer only when its deed is accepted, so none is handed out twice (the law at [`ZCache`]; `ZRule`).
//! - `alloc` is refused only if an import round gave nothing, and says why (`ZCache::alloc`: `refused`). The cache's fail book then counts
//!   the refusal, and the seat's share has its cause. Want of memory isn't counted.
//! - `free` and `drain` don't allocate. They release items to the importer only when the stack is full, or on request.
//!
//! A call blocks on the lock only if the stack is empty in `alloc` or full in `free`, and in `seat`, `drain` and `out`.
#![tactic(auto)]

mod cache;
mod import;
mod locked;
mod refused;

pub use cache::{Held, ZCache, ZSeat};
pub use import::{ArenaImport, Import};
pub use refused::{ImportRefused, SizeRefused, ZAllocRefused, ZRefused, ZSeatRefused};
