ghost use Rattle.std.specs.Prelude.{◌≡◌, [], IsTrue, ◌↔◌};
ghost use Rattle.deed_book.specs.FailShare.{causes_in};
ghost use Rattle.zone_stats.specs.LedgerSteps.{HasRoom, CountsAlloc, CountsCtor, CountsFree};
ghost use Rattle.uma_seat.specs.Fetches.{turned_in};

use deed_book::{FailBook, FailShare};
use zone_stats::{Refusal, SeatLedger};

/// How a fetch of items from a keg ended.
#[derive(Clone, Copy, Debug, PartialEq, Eq)]
pub enum FetchEnd {
    /// It gave so many items, one at least.
    Gave { count: u32 },
    /// There was no memory.
    Memory,
    /// It was refused.
    Refused { refusal: Refusal },
}

/// The kind of a fetch that gave items, and of one that met no memory, as a fail book lists them. Refusals have 1 to 5.
const GAVE: u64 = 6;

const NO_MEMORY: u64 = 7;

/// What a seat counts: its ledger, and its share of the zone's fail book, which lists every fetch of the seat.
#[derive(Drop)]
pub struct Counts {
    ledger: SeatLedger,
    share: FailShare,
    pub ghost counted: { turned_in (causes_in share) ≡ ledger.turned },
}

impl Counts {
    ghost use Rattle.uma_seat.specs.Counts.{ledger_in};
    ghost use Rattle.uma_seat.specs.Counting.{CanListEnd, CanListRefusal, IsNewCounts, KeepsShare, ListsEnd};

    /// A ledger of nothing yet, beside a share that lists nothing.
    pub fn new(share: FailShare) -> Counts
        requires { causes_in share ≡ [] }
        ensures { IsNewCounts share result }
    {
        Counts {
            ledger: SeatLedger::new(),
            share,
        }
    }

    /// The ledger, copied.
    pub fn ledger(&self) -> SeatLedger
        ensures { result ≡ ledger_in self.now }
    {
        self.ledger
    }

    /// Whether a request and a free more can be counted.
    pub fn room(&self) -> bool
        ensures { IsTrue result ↔ HasRoom (ledger_in self.now) }
    {
        self.ledger.room()
    }

    /// Counts a request that got an item.
    pub fn count_alloc(&mut self)
        requires { HasRoom (ledger_in self.old) }
        ensures ledger { CountsAlloc (ledger_in self.old) (ledger_in self.new) }
        ensures frame { KeepsShare self.old self.new }
    {
        self.ledger.count_alloc();
    }

    /// Counts a request whose item `ctor` refused with this code. No fetch of it is listed.
    pub fn count_ctor(&mut self, code: u8)
        requires { HasRoom (ledger_in self.old) }
        ensures ledger { CountsCtor (ledger_in self.old) (ledger_in self.new) code }
        ensures frame { KeepsShare self.old self.new }
    {
        self.ledger.count_ctor(code);
    }

    /// Counts the free of an item, which is of another domain than the seat's where `cross`.
    pub fn count_free(&mut self, cross: bool)
        requires { HasRoom (ledger_in self.old) }
        ensures ledger { CountsFree (ledger_in self.old) (ledger_in self.new) cross }
        ensures frame { KeepsShare self.old self.new }
    {
        self.ledger.count_free(cross);
    }

    /// Counts a request whose fetch was refused, and lists the fetch with its cause in the book and in the share.
    pub fn count_turned(&mut self, book: &mut FailBook, refusal: Refusal)
        requires { CanListRefusal self.old book.old refusal }
        ensures { ListsEnd self.old book.old (FetchEnd.Refused refusal) self.new book.new }
    {
        let (kind, first, second) = refusal.cause();
        book.add(&mut self.share, kind, first, second);
        self.ledger.count_refused(refusal);
    }

    /// Lists a fetch with its end in the book and in the share. It is counted only where it was refused.
    pub fn count_end(&mut self, book: &mut FailBook, end: FetchEnd)
        requires { CanListEnd self.old book.old end }
        ensures { ListsEnd self.old book.old end self.new book.new }
    {
        match end {
            FetchEnd::Gave { count } => book.add(&mut self.share, GAVE, u64::from(count), 0),
            FetchEnd::Memory => book.add(&mut self.share, NO_MEMORY, 0, 0),
            FetchEnd::Refused { refusal } => self.count_turned(book, refusal),
        }
    }
}
