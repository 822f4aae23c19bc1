//! Zones: what callers allocate items of one size from and free them to, as in FreeBSD's uma(9).
//!
//! A [`Zone`] puts a keg, the memory domains and the seats together. A primary zone and its secondary zones, up to eight in all, share one
//! keg behind one lock. Each worker has a seat of the zone (`uma_seat`). A request that the seat can't serve *flushes* the seat, settles
//! its domain's inbox, looks once at that domain's lists, and then makes at most one *fetch* from the keg. In a zone with readers a freed
//! item is *deferred*: it stays built until no section can see it.
//!
//! ```
//! let zone = Zone::primary(alloc, &clock, 256, set, hooks, keg_hooks)?;           // set: ZoneSet, the zone's numbers
//! let mut seat = zone.seat(rt, alloc, 0)?;                                        // in memory domain 0
//! let ask = AllocAsk { arg: 0, reserve: false };
//! let live = zone.alloc(rt, alloc, &clock, &mut pass, &mut seat, ask)?;           // built by `ctor`
//! zone.free_smr(&clock, &mut pass, &mut seat, live);                              // in a plain zone: `zone.free(&mut seat, live)`
//! ```
//!
//! # What is promised
//!
//! - **Safe reuse.** A freed item is usable again, or handed out, only after a poll said yes for a goal that was made in its free or later.
//!   So no section that was entered before the free is open (`laws::freed_items_wait`, `laws::goals_are_later_than_frees`).
//! - A request is served from the seat, from a listed bucket, or by its one fetch (`Zone::alloc`: `served`). It is refused only for what
//!   that fetch found under the keg's lock, by `ctor`, or for want of memory (`refused`).
//! - A free counts one free and keeps the item on the seat (`Zone::free`: `freed`, `counted`; `Zone::free_smr`: `defers`, `counted`).
//! - A trim leaves the working set, and neither a trim nor a drain loses an item (`laws::trims_keep_the_working_set`).
//!
//! `free` and `free_smr` neither allocate nor block. `alloc` blocks on locks only if the seat has no usable item.
#![tactic(auto)]

mod domains;
pub mod laws;
mod right;
mod zone;

pub use right::{KeptRight, RightKey, RightOfKey};
pub use zone::Zone;
pub use zone::alloc::{AllocAsk, AllocRefused};
pub use zone::make::{SecondSet, ZoneRefused, ZoneSet};
