//! The canonical text of a trace, from which a valid trace is read back.
//!
//! ```
//! let text = print(alloc, &trace)?;       // the one error is want of memory
//! ```
//!
//! # What is promised
//!
//! - The text is exactly `canonical_text` of the trace (`print`: `text`).
//! - It is a text of that trace if the trace is valid (`print`: `reads_back`), so each valid trace has a text (`valid_traces_have_texts`).
#![tactic(auto)]

ghost use Rattle.std.specs.Prelude.{◌≡◌, IfOk};
ghost use Rattle.trace_print.specs.CanonicalText.{canonical_text};
ghost use Rattle.trace_text.specs.Grammar.{IsTraceText};
ghost use Rattle.trace_text.specs.Valid.{IsValid};

use head::{push_head, push_version};
use ops::push_rounds;
use std::alloc::Global;
use trace_lines::push_line;
use trace_text::Trace;
use zone_stats::Memory;

mod head;
mod laws;
mod ops;

pub use laws::valid_traces_have_texts;

/// The canonical text of a trace: the line of its version, its header lines, the lines of its rounds in order of worker,
/// and `end`, with one space between two fields. Left out are `arg` at 0, `reserve`, `clock`, `detail` and `names` where
/// the trace has none, what a secondary zone shares with its primary one, and what stands behind the last round. A valid
/// trace is read back from it. `Memory` is the one error.
pub fn print(alloc: Global, trace: &Trace) -> Result<Vec<u8>, Memory>
    ensures text { IfOk result (λ text. text.items ≡ canonical_text trace.now) }
    ensures reads_back { IsValid trace.now → IfOk result (λ text. IsTraceText text.items trace.now) }
{
    valid_traces_have_texts();
    let mut text = Vec::new(alloc);
    let zones = trace.head.zones.as_slice();
    push_version(&mut text, trace.version)?;
    push_head(alloc, &mut text, &trace.head)?;
    push_rounds(alloc, &mut text, zones, trace.rounds.as_slice())?;
    push_line(alloc, &mut text, b"end", &[])?;
    Ok(text)
}
