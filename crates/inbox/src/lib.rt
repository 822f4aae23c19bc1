//! A queue into which many threads push without a lock, and from which one thread pops.
//!
//! An [`Inbox`] has one [`Taker`], and makes a [`Port`] for each thread that pushes. Every item keeps a fact about the inbox's *key*
//! ([`Fits`]), such as 'this bucket belongs to that zone'. The thread that pushes proves the fact, and the thread that pops may rely on it.
//! An [`InboxName`] says which inbox it is, for use in a lock's key.
//!
//! ```
//! let (inbox, mut taker) = Inbox::<Bucket, Key, BucketsOfKey>::new(alloc, &key)?;
//! let mut port = inbox.port(&mut taker);
//! inbox.push(rt, &mut port, bucket)?;             // Err(bucket): out of memory, or after 2^62 pushes
//! let next = inbox.pop(rt, &mut taker);           // Some(bucket); None if it was empty
//! ```
//!
//! # What is promised
//!
//! - Each item is popped at most once, in the order in which its port pushed, and the taker learns port and position (`Inbox::pop`:
//!   `PopsOrNot`).
//! - A popped item keeps the fact of the key.
//! - An item that can't be pushed is returned, and nothing changes (`Inbox::push`: `PushesOrNot`).
//!
//! A push or pop may wait for another thread that is in the middle of one; no contract says for how long.
#![tactic(auto)]

mod inbox;

pub use inbox::{Entry, Fits, InOrder, Inbox, InboxName, Line, Port, Taker, View};
