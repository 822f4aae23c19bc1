//! The reading of schedules.
ghost use Rattle.std.specs.Prelude.{◌≡◌, ℕ, List, IfOk, IsErrOf};
ghost use Rattle.trace_lines.specs.TextLines.{IsRefusedAt};
ghost use Rattle.trace_lines.specs.declared.refused.TraceRefused.{TraceRefused as Refused};
ghost use Rattle.trace_schedule.specs.declared.schedule.Schedule.{Schedule as ScheduleValue};
ghost use Rattle.trace_schedule.specs.ScheduleGrammar.{schedule_test, IsScheduleText};

use crate::{ParseRefused, Schedule};
use reader::ScheduleReader;
use std::alloc::Global;
use trace_lines::read_lines;

pub(crate) mod parsed_line;
mod reader;
pub(crate) mod word;

/// Reads a schedule. The first bad line is named, and the first thing that is wrong with it.
pub fn parse_schedule(alloc: Global, bytes: &[u8]) -> Result<Schedule, ParseRefused>
    ensures read { IfOk result (IsScheduleText bytes.now) }
    ensures refused { (refused : Refused) → IsErrOf result (ParseRefused.Trace refused)
        → IsRefusedAt schedule_test bytes.now refused.line refused.kind }
{
    let mut reader = ScheduleReader::new(alloc);
    read_lines(&mut reader, bytes)?;
    Ok(reader.schedule())
}

/// Bytes are the text of one schedule at most.
pub fn one_schedule_reading()
    ensures { (bytes : List ℕ) (schedule other : ScheduleValue)
        → IsScheduleText bytes schedule → IsScheduleText bytes other → schedule ≡ other }
{}
