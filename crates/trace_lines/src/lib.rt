//! Lines and fields of a text, what is wrong with the first bad line, and the rule for numbers.
//!
//! Traces and schedules are texts of lines, and a line is a word with fields. A [`Grammar`] tests each line by the earlier ones, and says
//! what is wrong with it, or nothing. [`read_lines`] goes over a text by any grammar: it deals with bytes, skipped lines, line numbers and
//! the missing `end`, once for all texts. Fields are slices of the input.
//!
//! ```
//! read_lines(&mut grammar, text)?;                // Err: the first bad line, its number and its kind
//! let (field, rest) = next_field(line)?;          // Option: None if no field is left
//! let number = parse_number(b"42");               // Some(42): decimal, no sign, no leading zero
//! ```
//!
//! # What is promised
//!
//! - A text is right or is refused, not both, and a refused one at one line for one reason (`one_verdict`).
//! - `read_lines` accepts only a text whose every line the grammar accepts (`read`). Otherwise it names the first bad line, and the first
//!   thing that is wrong with it (`refused`).
//! - `parse_number` accepts a text exactly if it spells a number below 2^64 by the rule (`some`, `none`).
//!
//! Reading allocates only what the grammar keeps.
#![tactic(auto)]

mod laws;
mod printing;
mod reading;
mod refused;

pub use laws::one_verdict;
pub use printing::{push_field, push_line, push_numbers};
pub use reading::{
    Grammar, five_fields, four_fields, is_head, next_field, no_field, number_in, number_within,
    one_field, parse_number, ranged, read_lines, three_fields, two_fields,
};
pub use refused::{LineRefused, ParseRefused, TraceKind, TraceRefused};
