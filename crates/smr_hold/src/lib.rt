//! Values of 64 bits that are published in cells, read in a section, and held past it.
//!
//! The owner of a [`Cell`](smr_objects::Cell) publishes one value after another. A reader in a section looks up the cell's *record*: its
//! value, version and slot. Readers that need it longer take a [`Hold`](smr_objects::Hold), a counted reference, and leave the section. A
//! cell has 2 to 16 slots, and a publish needs one that no reader can see or hold.
//!
//! ```
//! let version = publish(&clock, &mut cell, value)?;               // by the cell's owner
//! let found = look(&clock, &mut pass, 0);                         // in a section: Some(Look { value, version, slot })
//! let held = hold(&clock, &mut pass, 0, slot);                    // `read` and `release` work outside the section too
//! ```
//!
//! # What is promised
//!
//! - `look` returns the record that the cell's word had at the call's load; `None` only if nothing was published then (`look`: `some`,
//!   `none`).
//! - `read` returns the value of the record that is held, whatever was published since (`read`: `held`).
//! - No value is written to a slot that a reader may see or holds (`smr_objects::laws`: `stamped_slots_stand`, `held_slots_stand`).
//! - `publish` is refused only if the versions are used up (`Worn`) or no slot could be used (`Crowded`). It then has a cause for each slot
//!   (`publish`: `refused`): the slot is current, its stamp hasn't expired (`Unripe`), or it is held (`Held`).
//!
//! No call allocates or blocks. Not proved: that a slot ever becomes free.
#![tactic(auto)]

pub use found::Look;
pub use holds::{hold, look, read, release};
pub use publishing::{PublishRefused, SlotCause, SlotCauses, publish};

mod found;
mod holds;
mod publishing;
