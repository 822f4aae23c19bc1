//! Traces of a zone allocator, as text and as values.
//!
//! A [`Trace`] is a header ([`Head`]: workers, domains, zones, clock, names) and rounds. A [`Round`] has a list of operations for each
//! worker ([`Op`]), and the lines that are done before the next round ([`Between`]). [`parse`] reads the text; `docs/FORMATS.md` describes
//! it. A trace is *valid* if its lines fit the earlier ones, for instance if each freed slot is filled. Schedules are re-exported.
//!
//! ```
//! let trace = parse(alloc, bytes)?;               // Err: the first bad line, its number and its kind
//! let zones = trace.head.zones.as_slice();
//! let rounds = trace.rounds.as_slice();
//! ```
//!
//! # What is promised
//!
//! - Bytes are a text of one trace at most, and that trace is valid (`texts_are_of_one_trace`, `texts_are_of_valid_traces`). Each valid
//!   trace has a text (`valid_traces_have_texts` of trace_print).
//! - `parse` returns the trace of the text (`read`, `valid`), or the first bad line and the first thing that is wrong with it (`refused`).
//! - A trace has no more lines below its header than its text has bytes (`traces_are_no_longer`).
#![tactic(auto)]

mod trace;
mod trace_laws;
mod trace_reading;

pub use trace::{
    Between, Betweens, ClockHead, Head, NamesHead, Op, OpList, OpLists, Round, Rounds, SLOTS,
    Trace, Version, ZoneHead, ZoneHeads, ZoneKind,
};
pub use trace_laws::{texts_are_of_one_trace, texts_are_of_valid_traces, traces_are_no_longer};
pub use trace_lines::{ParseRefused, TraceKind, TraceRefused, parse_number};
pub use trace_reading::parse;
pub use trace_schedule::{
    Schedule, ScheduleRefused, Turn, TurnLine, TurnLines, one_schedule_reading, parse_schedule,
    schedule_text, schedules_print_one_thing,
};
