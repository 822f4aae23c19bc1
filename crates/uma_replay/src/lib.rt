//! The replay of a trace, and what its report has to do with the trace.
//!
//! replay_worker knows one worker. replay_rounds knows how everything begins, each round's threads and what it comes to. This crate puts
//! them together and proves the report. A [`Hall`] is everything that is left after a replay: the zones and their clock, the workers with
//! their seats, passes and live items, and a census of each keg. [`Played`] has it with the report.
//!
//! ```
//! let played = replay(rt, alloc, &trace, &FreeGate, &names, &reclaim)?;       // Err: only want of memory
//! ```
//!
//! # What is promised
//!
//! - The report's totals are the sums of the workers' ledgers, and its counts of items those of the kegs' censuses (`replay`: `stands`).
//! - A refusal by the limit that the report keeps names a limit which the trace gave that zone.
//! - The report depends on the workers' own lines and ledgers, whatever the schedule.
#![tactic(auto)]

mod hall;
mod limits;
mod names;
mod report;

pub use hall::{CensusList, GaveUps, Hall, NameWorks, Played, Workers, ZoneList, replay};
pub use replay_worker::{
    Call, Calls, CountHooks, Counted, FreeGate, Gate, Go, NameCalls, ReclaimCalls,
};
pub use report::collect;
pub use zone_stats::Memory;
