//! A cache of names: threads bind and unbind names under the lock of a row, and look them up without a lock, as FreeBSD's name cache does.
//!
//! A [`NameCache`] has a zone with readers, whose items are *entries*, and a lock for each *row*. A name's row is its key modulo the count
//! of rows. A row has at most one entry, so a new name evicts the old one. A [`Receipt`] names the version of the row that a bind or an
//! unbind made. A pass knows records of rows, and its lookups never return one that is older than what it knew. A note of the clock carries
//! what one pass knows to another.
//!
//! ```
//! let (cache, clock, passes) = NameCache::new(alloc, opened, set)?;                               // opened: name_rows::make
//! let receipt = cache.bind(rt, alloc, &clock, &mut pass, &mut seat, key, value)?;                 // seat: cache.seat(rt, alloc, 0)?
//! let found = cache.look(&clock, &mut pass, key)?;                                                // Some(value)
//! let taken = cache.unbind(rt, alloc, &clock, &mut pass, &mut seat, key)?;                        // Some((value, receipt))
//! ```
//!
//! # What is promised
//!
//! - A lookup returns what some thread bound to that very name, never older than what the pass knew of the row (`NameCache::look`:
//!   `looked`).
//! - `bind` links an entry with this key and value, and its pass knows the record from then on (`NameCache::bind`: `bound`).
//!   [`BindRefused`] names the cause if it can't (`refused`). The row is then as it was.
//! - `unbind` returns the value that was bound (`NameCache::unbind`: `unbound`), or `None` if the row didn't bind the key (`none`).
//! - An evicted entry is reused only when no section can see it, because the zone defers its free.
//!
//! `look` neither allocates nor blocks. It fails as `Overtaken` if the enter lost a race with the clock. The others block on the row's
//! lock.
#![tactic(auto)]

mod binding;
mod cache;
mod entry_hooks;
mod home;
mod key;
mod locked_row;
mod looking;
mod making;
mod parts;

pub use binding::{BindRefused, Receipt};
pub use cache::{EntryZone, NameCache};
pub use entry_hooks::{EntryHooks, RaisedEntry};
pub use home::{Home, HomeKey, RootLock, RootOfClock};
pub use key::RowKey;
pub use uma_life::Memory;
