//! Kegs: the stores of items of one size that zones fetch from and give back to, as in FreeBSD's uma(9).
//!
//! A [`Keg`] has slabs of 4,096 bytes, and up to eight zones share it: zone 0 is the primary one, and the others are secondary. The keg has
//! the items that are *at home* (free in their slabs), and books of those that are *outside* (allocated or cached), by zone. A *fetch*
//! moves items from the keg into a bucket. A zone may have a *limit* on its items outside, and a keg a *reserve* of free items that only
//! some requests may use. A *right* is the deed by which a zone is added.
//!
//! ```
//! let (mut keg, mut rights) = Keg::new(alloc, 256, 4, 0, hooks)?;     // 256 bytes, at most four slabs, no reserve
//! let zone = keg.add_zone(right, 100);                                // right: one of `rights`; a limit of 100 items
//! let count = keg.fetch(rt, alloc, &hooks, ask, &mut bucket)?;        // at least one item, or the refusal's cause
//! keg.give(&hooks, item);                                             // one cached item back
//! ```
//!
//! # What is promised
//!
//! - The keg's four laws at [`Keg`]: for one, a place is free exactly if the item of its number is at home.
//! - `fetch` returns a count and a refusal that are a function of the keg's counts, as `specs/Fetch` says (`Keg::fetch`: `EndsFetch`). No
//!   fetch exceeds the limit or takes of the reserve without a right to it (`fetches_keep_their_bounds`).
//! - `free_slabs` gives up wholly free slabs as long as the reserve stays free (`Keg::free_slabs`: `frees`).
//! - A [`Census`] counts the keg, its items outside and the hooks that ran (`Keg::census`: `census`).
//!
//! A fetch may allocate slabs, and calls the user's hooks. `give` doesn't allocate.
#![tactic(auto)]

mod census;
mod fetch;
mod home_items;
mod keg;
mod rights;
mod slabs;

pub use census::Census;
pub use fetch::{FetchAsk, FetchRefused, fetches_keep_their_bounds};
pub use keg::Keg;
pub use uma_slabs::{KegCounts, KegRefused, Places};
