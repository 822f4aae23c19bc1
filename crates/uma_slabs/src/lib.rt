//! The slabs of a keg without their items: which are in, and which of their places are free.
//!
//! [`Places`] chooses the slab that an item comes from, the index of a slab that is brought in, and the slab that is given up. An item's
//! number is its slab's index times the items of a slab, plus its place in the slab. A slab has 4,096 bytes, so `min(256, 4096 / size)`
//! places.
//!
//! ```
//! let mut places = Places::new(alloc, 256, 4)?;       // items of 256 bytes, 16 a slab; at most four slabs
//! let index = places.bring(0)?;                       // slab 0, for memory domain 0
//! let no = places.take();                             // Some(0)
//! places.give(0);
//! ```
//!
//! # What is promised
//!
//! - `take` takes the least free place of a slab. It prefers a slab that is partly used to one that is wholly free, and returns `None`
//!   exactly if no place is free. The contract doesn't promise which of several partly used slabs it chooses; today it is the one of least
//!   index.
//! - `bring` uses the least index that isn't in, and fails exactly if as many slabs are in as may be.
//! - `drop_slab` gives up the wholly free slab of greatest index.
//!
//! Room for every index is allocated at the start, so only `new` allocates.
#![tactic(auto)]

mod places;
mod rooms;

pub use places::{KegCounts, KegRefused, Places};
