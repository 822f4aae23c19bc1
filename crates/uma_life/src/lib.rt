//! The life of an item: the hooks of FreeBSD's uma(9), and a type for each state between two hooks.
//!
//! Six hooks mark a life. `keg_init` runs when the item's slab is brought in, and `keg_fini` when it is given up. `zone_init` and
//! `zone_fini` run when the item enters and leaves a secondary zone. `ctor` runs on each allocation, and `dtor` once for each allocation
//! that was freed. An item is [`Stored`] (in its keg), [`Cached`] (outside, not built) or [`Live`] (built). A [`Body`] is its data, with
//! its phase and its counts of hooks. A [`Ticket`] is its ownership token: the deed of its number, with the domain of its slab.
//!
//! ```
//! let stored = Stored::bring(rt, alloc, &hooks, 5)?;      // raw, keg_init
//! let cached = stored.lend(&hooks, deed, 0)?;             // zone_init, if the deed's zone isn't 0
//! let live = cached.build(&hooks, arg)?;                  // ctor
//! let cached = live.finish(&hooks);                       // dtor
//! let (stored, deed) = cached.give_back(&hooks);          // zone_fini, if the zone isn't 0
//! let tally = stored.end(rt, &hooks);                     // keg_fini, bury
//! ```
//!
//! # What is promised
//!
//! - Hooks run in pairs and in order: the types let no caller run one twice, leave one out or run two in the wrong order
//!   (`hooks_run_in_order`).
//! - A hook changes a body's phase and its one count, as [`Hooks`] says for each hook.
//! - `bring`, `lend` and `build` are refused only by a hook or, for `bring`, for want of memory. A refused `lend` or `build` returns the
//!   item as it was, and a refused `bring` ends its body.
//!
//! Only `raw` and `bury` may block.
#![tactic(auto)]

mod hooks;
mod states;
mod tally;

pub use deed_book::Memory;
pub use hooks::{Body, BringRefused, Hooks, Lives, hooks_run_in_order};
pub use states::{Cached, Live, Outside, Stored, Ticket};
pub use tally::{BodyPhase, Tally, TallySum, ZoneTally, ZoneTallySum};
