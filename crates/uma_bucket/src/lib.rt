//! Buckets: the stacks of items that a zone's caches exchange, as in FreeBSD's uma(9), and freed items until no reader can see them.
//!
//! A [`Bucket`] holds *cached* items. An item that is freed in a zone whose readers hold no lock is a [`Freed`] item: it is still built,
//! because a section may see it. Freed items go through three kinds of bucket. A [`Loose`] one is filled. Sealing gives it a goal of the
//! clock and makes it [`Sealed`] (crossbeam's `SealedBag`). Once a poll says that the goal has expired it is [`Ripe`], and its items may be
//! reused.
//!
//! ```
//! let mut loose = Loose::make(alloc, 16)?;
//! loose.push(Freed::of(live));
//! let sealed = loose.seal(&clock, &mut pass)?;            // Err((loose, refused)): the clock can't advance now
//! let ripe = sealed.try_open(&clock)?;                    // Err(sealed): a section that may see an item may be open
//! let (bucket, note) = ripe.into_cached(&hooks);          // each item passes `dtor`
//! ```
//!
//! # What is promised
//!
//! - Freed items become cached only by `Ripe::into_cached`. From the moment at which the clock's state agrees with the note's view, no
//!   section before the goal is open, then or later (`Ripe::into_cached`: `BecomesCached`, its field `over`).
//! - A bucket is a stack: `pop` takes the item that was pushed last (`Bucket::push`, `Bucket::pop`: `Pushes`, `Pops`).
//! - If an advance is refused, the loose bucket is returned as it was (`Loose::seal`: `SealsOrNot`).
//!
//! A bucket has room for 4 to 64 items from the start, so `push` doesn't allocate. No call blocks.
#![tactic(auto)]

mod bucket;
mod freed;
mod shelved;

pub use bucket::{Bucket, BucketRefused};
pub use freed::{Freed, Loose, Ripe, Sealed};
pub use shelved::{Inbox, InboxKey, Port, Shelved, ShelvedOfKey, Sums, Taker};
