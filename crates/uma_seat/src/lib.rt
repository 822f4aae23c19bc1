//! The cache of one worker in one zone, the per-CPU cache of FreeBSD's uma(9): most allocations and frees end here, without a lock.
//!
//! A [`SeatCache`] has an *allocation bucket*, a *free bucket* for frees of its own memory domain, a *cross bucket* for each other domain,
//! empty *spares*, and a *shelf* of full buckets on their way to their domains. Spares and shelf have two buckets at most, together. A
//! [`Seating`] says to contracts where the seat belongs: clock, book, zone, domain and kind. The seat's ledger counts what its worker did.
//!
//! ```
//! let item = seat.try_alloc();            // the usable item that was put last; None: look at the domain's lists
//! seat.free(item);                        // needs a spare: `seat.spare() > 0`
//! seat.free_smr(&clock, &mut pass, live); // in a zone with readers: deferred; a full bucket is sealed
//! let full = seat.take_shelf();           // the oldest full bucket, for its domain
//! ```
//!
//! # What is promised
//!
//! - `try_alloc` takes the item that was put last, and a free puts it into the bucket of its domain (`SeatCache::try_alloc`: `TakesUsable`;
//!   `SeatCache::free`: `Frees`).
//! - A freed item of a zone with readers is put into a loose bucket, and becomes usable here in no way (`SeatCache::free_smr`: `FreesSmr`).
//! - Each fetch is listed in the seat's share of the zone's fail book with its end (`SeatCache::count_end`).
//!
//! A free neither allocates nor blocks. A dropped seat gives no items back, so drain it first.
#![tactic(auto)]

mod counts;
mod deferring;
mod rack;
mod rows;
mod seat;
mod seating;

pub use counts::FetchEnd;
pub use deferring::try_to_seal;
pub use seat::SeatCache;
pub use seating::Seating;
