ghost use Rattle.std.specs.Prelude.{◌≡◌};

use crate::replaying::Status;
use smr_core::StepRefused;
use std::alloc::AllocError;
use std::fmt;
use trace_text::{ParseRefused, ScheduleRefused, TraceRefused};
use uma_io::ReadRefused;

/// Why a run ended without doing what it was asked.
#[derive(Clone, Copy, Debug, PartialEq, Eq)]
pub enum Fault {
    /// The words are no command.
    Usage,
    /// More than `most` bytes came.
    TooLong { most: u64 },
    /// The input is refused at this line, for this reason.
    Trace { refused: TraceRefused },
    /// The step of this line of a schedule is refused.
    Step { line: u64, refused: StepRefused },
    /// Reading the input failed.
    Read,
    /// Writing the output failed.
    Write,
    /// Memory was wanting.
    Memory,
}

impl Fault {
    ghost use Rattle.umarun.specs.Ending.{status_of};

    /// The status that goes with this fault.
    pub fn status(self) -> Status
        ensures { result ≡ status_of self }
    {
        match self {
            Fault::Usage => Status::Usage,
            Fault::TooLong { .. } | Fault::Trace { .. } | Fault::Step { .. } => Status::Refused,
            Fault::Read => Status::ReadFault,
            Fault::Write => Status::WriteFault,
            Fault::Memory => Status::Memory,
        }
    }
}

impl fmt::Display for Fault {
    fn fmt<W: fmt::Write>(&self, f: &mut fmt::Formatter<W>) -> fmt::Result {
        match self {
            Fault::Usage => f.write_str(
                "usage: umarun replay | steps | gen SEED WORKERS OPS | bulk SEED WORKERS OPS",
            ),
            Fault::TooLong { most } => write!(f, "input longer than {most} bytes"),
            Fault::Trace { refused } => write!(f, "{refused}"),
            Fault::Step { line, refused } => write!(f, "line {line}: {refused}"),
            Fault::Read => f.write_str("reading failed"),
            Fault::Write => f.write_str("writing failed"),
            Fault::Memory => f.write_str("out of memory"),
        }
    }
}

impl From<ReadRefused> for Fault {
    ghost use Rattle.std.specs.Prelude.{◌≡◌};
    ghost use Rattle.umarun.specs.Causes.{read_fault};

    ghost from_gives = { λ refused fault. fault ≡ read_fault refused };

    fn from(refused: ReadRefused) -> Fault {
        match refused {
            ReadRefused::Fault => Fault::Read,
            ReadRefused::TooLong { most } => Fault::TooLong { most },
            ReadRefused::Memory => Fault::Memory,
        }
    }
}

impl From<ParseRefused> for Fault {
    ghost use Rattle.std.specs.Prelude.{◌≡◌};
    ghost use Rattle.umarun.specs.Causes.{parse_fault};

    ghost from_gives = { λ refused fault. fault ≡ parse_fault refused };

    fn from(refused: ParseRefused) -> Fault {
        match refused {
            ParseRefused::Trace { refused } => Fault::Trace { refused },
            ParseRefused::Memory => Fault::Memory,
        }
    }
}

impl From<ScheduleRefused> for Fault {
    ghost use Rattle.std.specs.Prelude.{◌≡◌};
    ghost use Rattle.umarun.specs.Causes.{schedule_fault};

    ghost from_gives = { λ refused fault. fault ≡ schedule_fault refused };

    fn from(refused: ScheduleRefused) -> Fault {
        match refused {
            ScheduleRefused::Step { line, refused } => Fault::Step { line, refused },
            ScheduleRefused::Memory => Fault::Memory,
        }
    }
}

impl From<zone_stats::Memory> for Fault {
    ghost use Rattle.std.specs.Prelude.{◌≡◌};
    ghost use Rattle.umarun.specs.declared.fault.Fault.TheVariants.{Memory};

    ghost from_gives = { λ _ fault. fault ≡ Memory };

    fn from(_: zone_stats::Memory) -> Fault {
        Fault::Memory
    }
}

impl From<AllocError> for Fault {
    ghost use Rattle.std.specs.Prelude.{◌≡◌};
    ghost use Rattle.umarun.specs.declared.fault.Fault.TheVariants.{Memory};

    ghost from_gives = { λ _ fault. fault ≡ Memory };

    fn from(_: AllocError) -> Fault {
        Fault::Memory
    }
}
