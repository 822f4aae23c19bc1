use deed_book::{BookRefused, Memory};
use std::alloc::AllocError;
use std::error::Error;
use std::fmt;

/// Why an importer gave no base.
#[derive(Clone, Copy, Debug, PartialEq, Eq)]
pub enum ImportRefused {
    /// Nothing that is free is as large as `size`. The greatest free size is `greatest`, or 0.
    NoFit { size: u64, greatest: u64 },
    Memory,
}

/// An importer takes no ranges of this size, which isn't 1 to 2^62.
#[derive(Clone, Copy, Debug, PartialEq, Eq)]
pub struct SizeRefused {
    pub size: u64,
}

/// Why a cache zone wasn't made.
#[derive(Clone, Copy, Debug, PartialEq, Eq)]
pub enum ZRefused {
    /// This count of numbers isn't 1 to 262,144. It is tested before memory.
    Numbers { numbers: u32 },
    Memory,
}

/// Why a seat wasn't made.
#[derive(Clone, Copy, Debug, PartialEq, Eq)]
pub enum ZSeatRefused {
    /// The size of its stack isn't 4 to 64 items. It is tested before memory.
    Bucket { bucket: u32 },
    Memory,
}

/// Why a cache zone gave no item.
#[derive(Clone, Copy, Debug, PartialEq, Eq)]
pub enum ZAllocRefused {
    /// All numbers are out: `out` of `numbers`.
    Out { out: u32, numbers: u32 },
    /// The importer's refusal.
    NoFit { size: u64, greatest: u64 },
    /// Memory was wanting, for the importer's own growth.
    Memory,
}

impl fmt::Display for ImportRefused {
    fn fmt<W: fmt::Write>(&self, f: &mut fmt::Formatter<W>) -> fmt::Result {
        match self {
            ImportRefused::NoFit { size, greatest } => {
                write!(f, "no fit for {size}: the greatest is {greatest}")
            }
            ImportRefused::Memory => write!(f, "out of memory"),
        }
    }
}

impl Error for ImportRefused {}

impl fmt::Display for SizeRefused {
    fn fmt<W: fmt::Write>(&self, f: &mut fmt::Formatter<W>) -> fmt::Result {
        write!(f, "ranges of {}: they have 1 to 2^62", self.size)
    }
}

impl Error for SizeRefused {}

impl fmt::Display for ZRefused {
    fn fmt<W: fmt::Write>(&self, f: &mut fmt::Formatter<W>) -> fmt::Result {
        match self {
            ZRefused::Numbers { numbers } => {
                write!(f, "a cache of {numbers} numbers: it has 1 to 262144")
            }
            ZRefused::Memory => write!(f, "out of memory"),
        }
    }
}

impl Error for ZRefused {}

impl fmt::Display for ZSeatRefused {
    fn fmt<W: fmt::Write>(&self, f: &mut fmt::Formatter<W>) -> fmt::Result {
        match self {
            ZSeatRefused::Bucket { bucket } => {
                write!(f, "a stack of {bucket} items: it has 4 to 64")
            }
            ZSeatRefused::Memory => write!(f, "out of memory"),
        }
    }
}

impl Error for ZSeatRefused {}

impl fmt::Display for ZAllocRefused {
    fn fmt<W: fmt::Write>(&self, f: &mut fmt::Formatter<W>) -> fmt::Result {
        match self {
            ZAllocRefused::Out { out, numbers } => write!(f, "{out} of {numbers} numbers are out"),
            ZAllocRefused::NoFit { size, greatest } => {
                write!(f, "no fit for {size}: the greatest is {greatest}")
            }
            ZAllocRefused::Memory => write!(f, "out of memory"),
        }
    }
}

impl Error for ZAllocRefused {}

impl From<ImportRefused> for ZAllocRefused {
    ghost use Rattle.std.specs.Prelude.{◌≡◌};
    ghost use Rattle.uma_zcache.specs.Refused.{as_alloc};

    ghost from_gives = { λ why refused. refused ≡ as_alloc why };

    fn from(why: ImportRefused) -> ZAllocRefused {
        match why {
            ImportRefused::NoFit { size, greatest } => ZAllocRefused::NoFit { size, greatest },
            ImportRefused::Memory => ZAllocRefused::Memory,
        }
    }
}

impl From<BookRefused> for ZRefused {
    ghost use Rattle.std.specs.Prelude.{◌≡◌};
    ghost use Rattle.uma_zcache.specs.Refused.{as_made};

    ghost from_gives = { λ why refused. refused ≡ as_made why };

    fn from(why: BookRefused) -> ZRefused {
        match why {
            BookRefused::Numbers { numbers } => ZRefused::Numbers { numbers },
            BookRefused::Memory => ZRefused::Memory,
        }
    }
}

impl From<AllocError> for ZRefused {
    ghost use Rattle.std.specs.Prelude.{◌≡◌};
    ghost use Rattle.uma_zcache.specs.declared.refused.ZRefused.TheVariants.{Memory};

    ghost from_gives = { λ _ refused. refused ≡ Memory };

    fn from(_refused: AllocError) -> ZRefused {
        ZRefused::Memory
    }
}

impl From<Memory> for ZRefused {
    ghost use Rattle.std.specs.Prelude.{◌≡◌};
    ghost use Rattle.uma_zcache.specs.declared.refused.ZRefused.TheVariants.{Memory};

    ghost from_gives = { λ _ refused. refused ≡ Memory };

    fn from(_refused: Memory) -> ZRefused {
        ZRefused::Memory
    }
}

impl From<AllocError> for ZSeatRefused {
    ghost use Rattle.std.specs.Prelude.{◌≡◌};
    ghost use Rattle.uma_zcache.specs.declared.refused.ZSeatRefused.TheVariants.{Memory};

    ghost from_gives = { λ _ refused. refused ≡ Memory };

    fn from(_refused: AllocError) -> ZSeatRefused {
        ZSeatRefused::Memory
    }
}
