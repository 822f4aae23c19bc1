//! Reclaim: what a burst of requests brought in goes back to the keg, and slabs with it, as in FreeBSD's uma(9).
//!
//! [`trim`] returns to the keg what the memory domains of a zone didn't use for a while. [`drain`] returns everything that may be returned
//! of what they list, and then gives up wholly free slabs. [`drain_seat`] also returns the items that the calling seat has cached. Each
//! first flushes the calling seat and settles the domains. A freed item that a reader may still see stays where it is: in a sealed bucket
//! whose poll says no, in a loose one, or deferred on a seat. Other seats keep what they have.
//!
//! ```
//! let back = trim(rt, alloc, &zone, &clock, &mut pass, &mut seat)?;
//! let back = drain(rt, alloc, &zone, &clock, &mut pass, &mut seat)?;      // back: Reclaimed; back.items
//! ```
//!
//! # What is promised
//!
//! - A trim leaves each domain its working set (`trim`: `trims`), and a drain takes every bucket that may be taken (`drain`: `drains`).
//! - No item is lost: those that were listed are returned or still listed (`trim`, `drain`: `kept`).
//! - `Memory` stops a call at a domain. The contract says what was done until then (`stopped`).
//!
//! The calls block on the locks of the domains and of the keg. Tests, not contracts, show that slabs are given up last.
#![tactic(auto)]

pub use draining::{drain, drain_seat};
pub use reclaim::Reclaimed;
pub use trimming::trim;

mod draining;
mod reclaim;
mod trimming;
