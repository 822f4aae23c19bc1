//! Schedules of a reclamation clock, as text and as values, and what one prints.
//!
//! A [`Schedule`] is the numbers of a clock, and lines that take its steps in a chosen order. [`parse_schedule`] reads one.
//! [`schedule_text`] plays it on the clock of smr_core, and prints what each step saw.
//!
//! ```
//! let schedule = parse_schedule(alloc, bytes)?;       // Err: the first bad line and its kind
//! let text = schedule_text(alloc, &schedule)?;        // Err: the first line whose step is refused
//! ```
//!
//! # What is promised
//!
//! - Bytes are the text of one schedule at most (`one_schedule_reading`), and only a right text is read (`parse_schedule`: `read`,
//!   `refused`).
//! - A schedule prints one thing at most, and nothing if one of its lines is refused (`schedules_print_one_thing`).
//! - The text has the line of each step, in order, and then the sequences (`schedule_text`: `ok`).
#![tactic(auto)]

mod laws;
mod output;
mod reading;
mod schedule;

pub use laws::schedules_print_one_thing;
pub use output::schedule_text;
pub use reading::parsed_line::{start_in, window_in};
pub use reading::word::named_in;
pub use reading::{one_schedule_reading, parse_schedule};
pub use schedule::{Schedule, ScheduleRefused, TurnLine, TurnLines, Version};
pub use smr_core::Turn;
pub use trace_lines::{ParseRefused, TraceKind, TraceRefused};
