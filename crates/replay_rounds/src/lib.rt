//! The rounds of a replay: what a trace begins with, each worker on a thread of its own, and what everything comes to at the end.
//!
//! [`make_clock`], [`set_up`] and [`set_up_with`] make the clock, the zones and the workers of a trace's header. [`play`] does its rounds:
//! in a round each worker does its own lines on a thread of its own, and between two rounds the `give` and `setmax` lines are done in
//! order. [`take_totals`] takes a census of each keg, to which the slots of all workers lend their live items, and [`read_hands`] reads the
//! clock. [`PlainNames`] does the calls of names for a trace without such lines.
//!
//! # What is promised
//!
//! - Only want of memory refuses the clock and the zones of a valid trace. The ranges of the header show that no other refusal can come.
//! - Each worker's own lines are done in their order (`DoesAll`), and the lines between two rounds in theirs (`DoRounds`): which item went
//!   where, and that each `setmax` line set its zone's limit once (`play`: `played`).
//! - A census counts what the keg, the slots and the seats have (`take_totals`: `closes`), and the slots get their items back (`workers`).
//!
//! Not in a contract, but tested: that workers run at the same time, and that the gate is asked.
#![tactic(auto)]

mod census;
mod playing;
mod setting;
mod totals;

pub use playing::{NoSeat, PlainNames, play};
pub use setting::{Setting, clock_head, make_clock, make_workers, make_zones, set_up, set_up_with};
pub use totals::{Totals, read_hands, take_totals};
pub use zone_stats::Memory;
