//! A keg behind its lock, with the fail books of its zones.
//!
//! A primary zone and its secondary zones share one keg under one lock. Contracts know nothing about the keg outside of the lock but what
//! its key names ([`KegKey`]). The lock's rule ([`KegRule`]) says, whenever the lock is taken, that the book of each zone lists exactly the
//! fetches that the keg itself remembers. A seat has a share of its zone's book. So a seat that reports a refusal knows that a fetch was
//! refused so.
//!
//! ```
//! let lock = LockedKeg::new(alloc, keg)?.lock_up(alloc, 1)?;                      // slabs of one memory domain
//! let mut guard = lock.lock(rt);
//! let count = guard.value.fetch(rt, alloc, &hooks, ask, &mut seat)?;              // into the seat's empty allocation bucket
//! let back = guard.value.give_all(&hooks, bucket);                                // how many items went back
//! ```
//!
//! # What is promised
//!
//! - `fetch` is one fetch of the keg, and its end is listed in the zone's book and in the seat's share (`LockedKeg::fetch`: `FetchesFor`).
//! - `give` and `give_all` take the items back (`LockedKeg::give`: `gives`; `LockedKeg::give_all`: `given`).
//! - Every method keeps the rule, so a call that locks has nothing to prove about it (`kept`).
//!
//! Every change is a method of [`LockedKeg`] with its whole contract. A caller locks, calls it and unlocks.
#![tactic(auto)]

mod locked_keg;

pub use locked_keg::{KegKey, KegLock, KegRule, LockedKeg};
