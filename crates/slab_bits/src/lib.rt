//! Sets of small numbers in a few words: the free places of a slab, and the slabs of a keg.
//!
//! [`Bits`] is a set of places below 256 in four words. [`Wide`] is a set of numbers below 1,024 in sixteen words, with a summary word that
//! says which of them aren't 0, so that the least and the greatest member are found at once. [`count_lanes`] counts the bits that are set
//! in many words. Contracts see a set as a list of truth values, one for each number, and never see the words.
//!
//! ```
//! let mut free = Bits::first_n(16);       // the places 0 to 15
//! free.clear(0);
//! let place = free.first();               // Some(1)
//! ```
//!
//! # What is promised
//!
//! - `first`, `next` and `last` return the least, the next and the greatest member, and `None` exactly if there is none (`least`,
//!   `greatest`, `none`).
//! - `set` and `clear` change one number and no other. Their caller has to prove that it is in range. `has` returns false beyond the range.
//! - `count_lanes` is exact modulo 2^64 for any length (`wraps`), and exact below 2^58 words (`plain`).
//!
//! No call allocates.
#![tactic(auto)]

mod bits;
mod wide;

pub use bits::{Bits, count_lanes};
pub use wide::Wide;
