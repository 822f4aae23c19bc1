ghost use Rattle.std.specs.Prelude.{◌≡◌, [], ◌<◌};
ghost use Rattle.deed_book.specs.Views.{deed_view};

use crate::book::View;
use atomic_table::Seat;
use boxcar::tag::{Names, Tag};
use std::alloc::AllocError;
use std::error::Error;
use std::fmt;

/// What the items of a book are of, as numbers that contracts alone see. It has no bytes.
#[derive(Drop)]
pub struct Origin {
    tag: Tag,
}

struct Again;

impl Names<Origin> for Again {
    ghost use Rattle.deed_book.specs.Origin.{origin_numbers};

    ghost numbers = { origin_numbers };
}

impl Origin {
    ghost use Rattle.deed_book.specs.Origin.{origin_numbers};

    /// The origin that these numbers of a value are.
    pub fn of<X, M: Names<X>>(x: &X) -> Origin
        ensures { origin_numbers result ≡ M.numbers x.now }
    {
        Origin {
            tag: Tag::of::<X, M>(x),
        }
    }

    /// The origin of what isn't told apart.
    pub fn none() -> Origin
        ensures { origin_numbers result ≡ [] }
    {
        Origin { tag: Tag::empty() }
    }

    /// The same origin.
    pub fn again(&self) -> Origin
        ensures { origin_numbers result ≡ origin_numbers self.now }
    {
        Origin::of::<Origin, Again>(self)
    }
}

/// How a fetch ended, or that a look found nothing. A refusal of a fetch has the kind 1, 2, 3 or 4, for a zone at its
/// limit, a keg at its reserve, a full keg or a hook that refused, and then its numbers in order, 0 where there is none.
/// A fetch that gave has the kind 6 and the count of its items, one for which memory was wanting the kind 7, and a look
/// that found nothing is three zeros.
#[derive(Clone, Copy, Debug, PartialEq, Eq)]
pub struct Cause {
    pub kind: u64,
    pub first: u64,
    pub second: u64,
}

/// The one token of a number that is outside. It is a seat of its book's table, which no code can copy or make up; it
/// may cross threads. The number of a deed that is dropped stays outside for good. Its holder may label it with a byte,
/// which no book reads.
#[derive(Drop)]
pub struct Deed {
    pub(crate) no: u32,
    pub(crate) zone: u8,
    pub(crate) label: u8,
    pub(crate) seat: Seat<(), View>,
    pub(crate) origin: Origin,
    pub ghost zone_in_range: { zone < 8 },
    pub ghost in_book: { no < seat.table_id.slots },
    ghost knows: { seat.me ≡ (deed_view (no, zone), []) },
}

impl Deed {
    ghost use Rattle.deed_book.specs.Deed.{deed_table, label_of, labelled, no_of, zone_of};
    ghost use Rattle.deed_book.specs.BookId.{numbers_of};

    /// The number, which is below its book's count of numbers.
    pub fn no(&self) -> u32
        ensures number { result ≡ no_of self.now }
        ensures below { result < numbers_of (deed_table self.now) }
    {
        self.no
    }

    /// The zone, below 8, that the number was issued to.
    pub fn zone(&self) -> u8
        ensures { result ≡ zone_of self.now }
    {
        self.zone
    }

    /// Its holder's label, 0 to 255; 0 where none was set since it was issued.
    pub fn label(&self) -> u8
        ensures { result ≡ label_of self.now }
    {
        self.label
    }

    /// The same deed with this label.
    pub fn labelled(mut self, label: u8) -> Deed
        ensures { result ≡ labelled self label }
    {
        self.label = label;
        self
    }
}

/// Why a book wasn't made.
#[derive(Clone, Copy, Debug, PartialEq, Eq)]
pub enum BookRefused {
    /// This count of numbers isn't 1 to 262,144. It is tested before memory.
    Numbers { numbers: u32 },
    Memory,
}

/// There was no memory.
#[derive(Clone, Copy, Debug, PartialEq, Eq)]
pub struct Memory;

impl fmt::Display for BookRefused {
    fn fmt<W: fmt::Write>(&self, f: &mut fmt::Formatter<W>) -> fmt::Result {
        match self {
            BookRefused::Numbers { numbers } => {
                write!(f, "a book of {numbers} numbers: it has 1 to 262144")
            }
            BookRefused::Memory => write!(f, "out of memory"),
        }
    }
}

impl Error for BookRefused {}

impl fmt::Display for Memory {
    fn fmt<W: fmt::Write>(&self, f: &mut fmt::Formatter<W>) -> fmt::Result {
        write!(f, "out of memory")
    }
}

impl Error for Memory {}

impl From<AllocError> for BookRefused {
    ghost use Rattle.std.specs.Prelude.{◌≡◌};
    ghost use Rattle.deed_book.specs.declared.deed.BookRefused.TheVariants.{Memory};

    ghost from_gives = { λ _ refused. refused ≡ Memory };

    fn from(_refused: AllocError) -> BookRefused {
        BookRefused::Memory
    }
}

impl From<AllocError> for Memory {
    fn from(_refused: AllocError) -> Memory {
        Memory
    }
}
