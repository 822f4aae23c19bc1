//! Lists that contracts see as the lists of their items.
//!
//! Two vectors with the same items may differ in capacity, so a definition over a `Vec` depends on more than its items. A [`Listed`] is a
//! `Vec` whose capacity contracts don't see. A [`Log`] is a list that only grows and that only contracts read: to a contract it has every
//! item that was pushed, and at run time it keeps the last one.
//!
//! ```
//! let list = Listed::from_vec(items);     // to contracts, the list of the items
//! let slice = list.as_slice();
//! log.push(refusal);                      // log: Log<Refusal>, for contracts only
//! ```
//!
//! Promised: `from_vec`, `into_vec` and `as_slice` keep the items and their order, and `Log::push` puts one item at the end; each call's
//! contract is this one clause. No call has an `alloc` parameter, so none allocates.
#![tactic(auto)]

mod list;

pub use list::{Listed, Log};
