//! Items for users that write only their data and what each hook does to it.
//!
//! uma_life's hooks ask an implementation to keep an item's number, phase and counts. Here [`Item<B>`](Item) keeps them beside the user's
//! data `B`, so a user writes [`ItemHooks<B>`](ItemHooks) without a count or a phase. [`TrailHooks`] turns such hooks into the hooks of a
//! zone.
//!
//! ```
//! let hooks = TrailHooks::new(mine);                      // mine: ItemHooks<B>; `with_stays` for secondary zones
//! let data = live.body().data();                          // live: Live<Item<B>>
//! let (live, old) = Item::change(live, |b| b.replace(7)); // lends the data of a live item to a closure
//! ```
//!
//! # What is promised
//!
//! - The data is what the user's hooks left of it (`ItemHooks::init`, `ctor`: `left`), and a refusal leaves it as it was (`unchanged`).
//! - `Item::change` changes the data alone (`changed`, `life`, `ticket`).
//! - The trail agrees with the hooks that ran: `TrailHooks` keeps the contract of `uma_life::Hooks`.
//!
//! An item without the box of `with_stays` refuses to enter a secondary zone, with the code [`NO_STAYS`].
#![tactic(auto)]

mod item;
mod trail;

pub use item::{Item, StayCounts};
pub use trail::{ItemHooks, NO_STAYS, TrailHooks};
