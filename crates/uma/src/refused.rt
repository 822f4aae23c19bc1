use std::error::Error;
use std::fmt;
use zone_stats::Refusal;

/// Why a pool or a directory wasn't made, gave no local, no item or no name, or took none back.
#[derive(Clone, Copy, Debug, PartialEq, Eq)]
pub enum Refused {
    /// The count of workers of a plan is outside 1 to 64.
    Workers { workers: u32 },
    /// The size of an item in a plan is outside 8 to 4,096 bytes.
    Size { size: u32 },
    /// The most slabs of a plan are outside 1 to 1,024.
    Slabs { slabs: u32 },
    /// The room of a bucket in a plan is outside 4 to 64 items.
    Bucket { bucket: u32 },
    /// The count of memory domains of a plan is outside 1 to 4.
    Domains { domains: u8 },
    /// The count of rows of a directory is outside 1 to 4,096.
    Rows { rows: u32 },
    /// So many workers have a local or a reader already, as many as the plan says.
    Taken { workers: u32 },
    /// The request was turned away, and is counted: the limit is reached, say, or the pool's own `ctor` refused.
    Turned { refusal: Refusal },
    /// A section may still see the entry by which a name was to be bound: the read sequence is below its stamp. Bind again.
    Unripe { read: u64, stamp: u64 },
    /// The row of a name was written some 2^44 times. A new directory goes on.
    Worn { row: u32, version: u64 },
    /// A name in a table has 1 to 16 letters and digits of ASCII, `_` and `-`.
    Name,
    /// The clock went on by its whole window while a section was entered: read or look again.
    Late,
    /// The local counted 2^63 requests or frees. A new local goes on.
    Counts,
    /// Memory is wanting. Nothing was counted, and it may be asked again.
    Memory,
}

impl fmt::Display for Refused {
    fn fmt<W: fmt::Write>(&self, f: &mut fmt::Formatter<W>) -> fmt::Result {
        match self {
            Refused::Workers { workers } => write!(
                f,
                "a pool of {workers} workers: it has 1 to 64"
            ),
            Refused::Size { size } => write!(f, "an item of {size} bytes: it has 8 to 4096"),
            Refused::Slabs { slabs } => write!(f, "a pool of {slabs} slabs: it has 1 to 1024"),
            Refused::Bucket { bucket } => {
                write!(f, "a bucket of {bucket} items: it has room for 4 to 64")
            }
            Refused::Domains { domains } => write!(f, "{domains} domains: there are 1 to 4"),
            Refused::Rows { rows } => write!(f, "a directory of {rows} rows: it has 1 to 4096"),
            Refused::Taken { workers } => write!(f, "each of {workers} workers has its local"),
            Refused::Turned { refusal } => write!(f, "{refusal}"),
            Refused::Unripe { read, stamp } => write!(
                f,
                "an entry's stamp {stamp} is above the read hand {read}: bind again"
            ),
            Refused::Worn { row, version } => {
                write!(f, "row {row} is worn at version {version}")
            }
            Refused::Name => f.write_str("a name has 1 to 16 of A-Z a-z 0-9 _ -"),
            Refused::Late => f.write_str("too late for a section: read again"),
            Refused::Counts => f.write_str("the counts of the local are full"),
            Refused::Memory => f.write_str("out of memory"),
        }
    }
}

impl Error for Refused {}
