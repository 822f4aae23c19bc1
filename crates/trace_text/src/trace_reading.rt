//! The reading of traces.
ghost use Rattle.std.specs.Prelude.{IfOk, IsErrOf};
ghost use Rattle.trace_lines.specs.TextLines.{IsRefusedAt};
ghost use Rattle.trace_lines.specs.declared.refused.TraceRefused.{TraceRefused as Refused};
ghost use Rattle.trace_text.specs.Grammar.{IsTraceText, trace_test};
ghost use Rattle.trace_text.specs.Valid.{IsValid};

use crate::trace_laws::texts_are_of_valid_traces;
use crate::{ParseRefused, Trace};
use reader::TraceReader;
use std::alloc::Global;
use trace_lines::read_lines;

mod fields;
mod head;
mod parsed_line;
mod reader;
mod rounds;
mod tables;

/// Reads a trace. The first bad line is named, and the first thing that is wrong with it.
///
/// It goes a fixed number of times over each line and keeps only what the lines say, with a table of the slots of 16
/// workers, one byte each.
pub fn parse(alloc: Global, bytes: &[u8]) -> Result<Trace, ParseRefused>
    ensures read { IfOk result (IsTraceText bytes.now) }
    ensures valid { IfOk result IsValid }
    ensures refused { (refused : Refused) → IsErrOf result (ParseRefused.Trace refused)
        → IsRefusedAt trace_test bytes.now refused.line refused.kind }
{
    texts_are_of_valid_traces();
    let mut reader = TraceReader::new(alloc)?;
    read_lines(&mut reader, bytes)?;
    Ok(reader.trace(alloc)?)
}
