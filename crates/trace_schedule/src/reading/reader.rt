ghost use Rattle.std.specs.Prelude.{◌≡◌, [], IsSome, OnOk, IfErr};
ghost use Rattle.trace_schedule.specs.ScheduleGrammar.{schedule_test};
ghost use Rattle.trace_schedule.specs.ScheduleShown.{Shows, Applies, IsScheduleOf};

use crate::reading::parsed_line::ParsedLine;
use crate::{Schedule, TraceKind, TurnLine, Version};
use listed::Listed;
use smr_core::ClockConfig;
use std::alloc::Global;
use trace_lines::{Grammar, LineRefused};

/// The running state of a reading: what the lines so far have said.
#[derive(Drop)]
pub struct ScheduleReader {
    /// The first line was there.
    pub begun: bool,
    /// What the first line said, and version 1 before it.
    pub version: Version,
    pub clock: Option<ClockConfig>,
    pub turns: Vec<TurnLine>,
    pub ended: bool,
}

impl ScheduleReader {
    /// Before the first line.
    pub fn new(alloc: Global) -> Self
        ensures { Shows result [] }
    {
        ScheduleReader {
            begun: false,
            version: Version::One,
            clock: None,
            turns: Vec::new(alloc),
            ended: false,
        }
    }

    /// The schedule, once the last line was `end`.
    pub fn schedule(self) -> Schedule
        requires { IsSome self.clock }
        ensures { IsScheduleOf result self }
    {
        let Some(clock) = self.clock else {
            unreachable!();
        };
        Schedule {
            version: self.version,
            seats: clock.seats,
            start: clock.start,
            window: clock.window,
            lines: Listed::from_vec(self.turns),
        }
    }

    /// Takes in what a line behind the first one says.
    fn apply(&mut self, number: u64, parsed: ParsedLine) -> Result<(), LineRefused>
        ensures applied { OnOk result (Applies number parsed self.old self.new) }
        ensures memory { IfErr result (λ refused. refused ≡ LineRefused.Memory) }
    {
        match parsed {
            ParsedLine::Clock { config } => self.clock = Some(config),
            ParsedLine::Does { turn } => self.turns.push(TurnLine { line: number, turn })?,
            ParsedLine::End => self.ended = true,
        }
        Ok(())
    }
}

impl Grammar for ScheduleReader {
    ghost test = { schedule_test };

    ghost shows = { Shows };

    ghost kept = { λ reader. Unit };

    fn take(&mut self, number: u64, line: &[u8]) -> Result<(), LineRefused> {
        if !self.begun {
            let Some(version) = Version::by_head(line) else {
                return Err(TraceKind::Head.into());
            };
            self.begun = true;
            self.version = version;
            return Ok(());
        }
        if self.ended {
            return Err(TraceKind::After.into());
        }
        let parsed = ParsedLine::by_line(self.version, self.clock.is_some(), line)?;
        self.apply(number, parsed)
    }

    fn is_ended(&self) -> bool {
        self.ended
    }
}
