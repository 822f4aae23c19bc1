//! One worker of a replay over zones: what each line of a trace does to it, and its turn in a round.
//!
//! A [`Worker`] owns a pass of the clock, a seat of each zone, and what its slots hold ([`Held`]). It shares the zones and the clock with
//! the other workers by reference ([`Shared`]). Its pass may leave and come back ([`Attendance`]). [`WorkerRun::turn`] does a worker's own
//! lines of one round, on a thread of its own. [`move_slot`] moves what a slot holds to another worker, between two rounds. A [`Gate`] is
//! asked before each operation, so that a test can hold a worker back. The lines of reclaim and of names are done through [`ReclaimCalls`]
//! and [`NameCalls`], which the replay supplies.
//!
//! The items are [`Counted`]: they count every hook that they pass.
//!
//! # What is promised
//!
//! - After a turn the worker is as its lines say: what its slots hold, what its seats counted, and whether it is in a section or away
//!   (`WorkerRun::turn`: `worked`). This depends on its own lines only, so it holds under every schedule.
//! - The gate is asked before each operation (`asks`). Under a free gate no operation gives up waiting (`free`).
#![tactic(auto)]

mod count_hooks;
mod gate;
mod giving;
mod name_calls;
mod name_work;
mod slots;
mod worker;
mod worker_run;

pub use count_hooks::{CountHooks, Counted};
pub use gate::{Absentee, Attendance, Call, Calls, FreeGate, Gate, Go};
pub use giving::move_slot;
pub use name_calls::NameCalls;
pub use name_work::{NameCounts, NameWork};
pub use slots::Slots;
pub use worker::{CountedSeat, CountedZone, Held, Shared, Worker};
pub use worker_run::{ReclaimCalls, WorkerRun};
pub use zone_stats::Memory;
