//! Retire lists: values wait until no reader can see them any more, and come back whole, in order, each once.
//!
//! A thread that has taken a value out of what readers look at in sections *retires* it to a [`RetireList`], and *reaps* it once its goal
//! has expired (crossbeam's `defer`, liburcu's `call_rcu`). Moving the clock is expensive, so the list advances it once in `limit`
//! retirements, in the manner of FreeBSD's SMR_DEFERRED. A list is used with one pass, and so with one clock.
//!
//! ```
//! let mut list = RetireList::new(alloc, 64)?;
//! list.retire(alloc, &clock, &mut pass, value)?;          // after unlinking; a refusal returns the value
//! list.push(&clock, &mut pass)?;                          // advances now, without waiting for 64
//! let oldest = list.reap(&clock, &mut pass)?;             // Some(value) once its goal has expired; Ahead or Held before
//! ```
//!
//! # What is promised
//!
//! - `reap` returns the oldest value, and only when no section before its goal is open, now or ever (`RetireList::reap`: `reaps`).
//! - `retire` puts the value at the end (`retired`). A refusal returns it and leaves the list as it was (`refused`).
//! - At most one advance succeeds for each `limit` values listed, and one for each push (`advances_are_few` in `src/counts.rt`).
//!
//! Not proved: that a value ever comes back. A section that stays open holds back everything that was retired meanwhile.
#![tactic(auto)]

mod asked;
mod counts;
mod pace;
mod retire_list;

pub use retire_list::{LimitRefused, ReapNo, RetireList, RetireRefused};
