//! The full buckets of a memory domain of a zone, which seats take when they run empty (uma(9): a NUMA domain's bucket cache).
//!
//! A zone has up to four domains. The [`Lists`] of a domain are its *plain* buckets, and in a zone with readers its *loose* ones, which
//! wait to be sealed, and its *sealed* ones, which wait for their goal. A [`Domain`] has such lists behind a lock, and in front of it an
//! *inbox*. Seats push full buckets into it by their ports, without the lock. To *settle* is to move what is in the inbox into the lists.
//! The *working set* is the greatest count of items listed since the last trim less the least.
//!
//! ```
//! domain.put_plain(rt, &mut port, bucket)?;               // into the inbox; Err(bucket): out of memory
//! domain.settle(rt)?;                                     // how many buckets were listed
//! let newest = domain.take_plain(rt, &mut share);         // None is counted as a miss
//! let ripe = domain.take_ripe(rt, &clock, &mut share);    // in a zone with readers
//! let unused = domain.take_trim(rt, alloc, &clock)?;
//! ```
//!
//! # What is promised
//!
//! - `take_plain` takes the newest plain bucket, and `take_ripe` the oldest sealed one whose poll says yes in this call
//!   (`Domain::take_plain`, `Domain::take_ripe`: `LooksUnderLock`).
//! - A put puts the bucket into the inbox, or as the newest into the lists, or returns it (`PutsByPort`). No bucket is lost.
//! - A trim leaves the working set, and takes the oldest buckets first (`Domain::take_trim`: `TakesUnused`).
//!
//! Every call but a put blocks on the domain's lock. A put does so only if the inbox returns the bucket.
#![tactic(auto)]

mod domain;
mod lists;
mod locked;
mod scans;
mod trims;

pub use domain::{Domain, DomainKey, ListsOfKey};
pub use lists::{Lists, Working};
pub use locked::Locked;
pub use trims::{Taken, TakenBucket};
