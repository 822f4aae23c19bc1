//! The public API: pools of items with readers that hold no lock, each worker's cache, a directory of names, and a table. A crate that
//! names this one in crates.txt needs no other of this repository.
//!
//! A [`Plan`] has a pool's numbers, most of them with defaults. A [`Pool`] is a zone with its clock; all workers share it by reference. A
//! [`Local`] is one worker's cache: it allocates, frees, reads and drains. A [`Reader`] only reads. A [`Section`] is a read-side critical
//! section, and ends when it is dropped. A [`Directory`] is a cache of names, and a [`DirectoryLocal`] one worker's way into it. A
//! [`Table`] prints what pools counted.
//!
//! ```
//! let pool = Pool::new(alloc, Plan::new(1, 64).with_limit(2), Filled { value: 7u64 })?;  // one worker; items of 64 bytes
//! let mut local = pool.local(&rt, alloc)?;
//! let held = local.alloc(&rt, alloc, 0)?;                                                // 0: the argument of `ctor`
//! local.free(&rt, alloc, held)?;
//! ```
//!
//! A pool `with_readers` defers its frees: `local.free` leaves the item as it is until no section that was open at the free can see it.
//!
//! # What is promised
//!
//! - An item that is allocated came from where its zone says, with the right to the reserve or without it, and was counted once
//!   (`Local::alloc`: `AnswersAlloc`).
//! - A free counts one free (`Local::free`: `AnswersFree`). As many items are allocated as are freed and held.
//! - A refusal names its cause ([`Refused`]). The contract doesn't say why memory ran out.
//! - A lookup returns what was bound to that name (`DirectoryLocal::look`: `looked`).
//!
//! The promises of safe reuse are those of uma_zone and smr_clock: `freed_items_wait`, `no_section_is_before_a_known_goal`.
#![tactic(auto)]

mod directory;
mod local;
mod plan;
mod pool;
mod reader;
mod refused;
mod stats;

pub use directory::{Directory, DirectoryLocal};
pub use local::{Filled, Local, NotFreed};
pub use plan::{NameLedger, NamePlan, Plan};
pub use pool::{DataPool, Pool};
pub use reader::{Reader, Section};
pub use refused::Refused;
pub use stats::{PoolLedger, Table};
pub use uma_item::{Item, ItemHooks, TrailHooks};
pub use uma_life::{Body, Hooks, Live, Memory};
pub use zone_stats::{Refusal, SeatLedger, ZoneLine};

/// What one worker has of a pool of items with data `B`, whose hooks are `K`.
pub type DataLocal<'a, B, K> = Local<'a, Item<B>, TrailHooks<K>>;

/// An item with data `B` that was allocated and isn't freed yet. It has one owner, so nobody frees it twice, or uses it after its free.
pub type Held<B> = Live<Item<B>>;
