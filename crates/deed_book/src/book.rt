ghost use Rattle.std.specs.Prelude.{◌≡◌, ◌/◌, ◌%◌, ◌<◌, [], IfOk, length, ℕ, ◌↔◌, IsTrue, None, replicate};
ghost use Rattle.deed_book.specs.Views.{book_view};
ghost use Rattle.atomic_table.specs.Table.{State};
ghost use Rattle.deed_book.specs.declared.book.View.{View};
ghost use Rattle.deed_book.specs.BookLaw.{BookLaw};

use crate::deed::{BookRefused, Deed, Origin};
use atomic_table::{Join, Play, Refused, Seat, Split, Table, TableRule};
use std::alloc::{AllocError, Global};
use std::collections::LinkedList;

// The table of a book with the book's own seat, by whose steps deeds go out and come back. Contracts alone see which
// numbers are outside.
//
// The table has a slot for each number. No step uses them, and they take no byte: their count is in the table's name, so
// that each deed knows its book's count of numbers.
#[derive(Drop)]
pub struct Register {
    table: Table<(), View, u32, BookRule, Global>,
    seat: Seat<(), View>,
    origin: Origin,
    ghost one_word: { table.shared.table_id.words ≡ 1 },
    ghost one_table: { seat.table_id ≡ table.shared.table_id },
    ghost first_seat: { seat.id ≡ 0 },
    ghost between_calls: { seat.me ≡ (book_view seat.me.0.zones, []) },
    pub ghost counted: { length seat.me.0.zones ≡ seat.table_id.slots },
}

// The slots of so many numbers.
fn slots_of(alloc: Global, numbers: u32) -> Result<Vec<()>, AllocError>
    ensures { IfOk result (λ slots. length slots.items ≡ numbers) }
{
    vec![in alloc; (); numbers as usize]
}

// The word that names a number and a zone.
fn spelled(no: u32, zone: u8) -> u64
    requires { zone < 8 }
    ensures { (result / 8 ≡ no) × (result % 8 ≡ zone) }
{
    8 * u64::from(no) + u64::from(zone)
}

impl Register {
    ghost use Rattle.deed_book.specs.BookLaw.{IsHome};
    ghost use Rattle.deed_book.specs.Calls.{AcceptsDeed, IssuesDeed};
    ghost use Rattle.deed_book.specs.Origin.{origin_numbers};
    ghost use Rattle.deed_book.specs.Register.{register_table, register_zones};
    ghost use Rattle.deed_book.specs.Deed.{deed_table};

    // All numbers below `numbers` are at home.
    pub fn new(alloc: Global, numbers: u32, origin: Origin) -> Result<Register, AllocError>
        ensures zones { IfOk result (λ register. register_zones register ≡ replicate numbers None) }
        ensures origin { IfOk result (λ register. (register_table register).origin ≡ origin_numbers origin) }
    {
        let slots = slots_of(alloc, numbers)?;
        match Table::new(alloc, &[0], slots, &numbers) {
            Ok((table, seat)) => Ok(Register {
                table,
                seat,
                origin,
            }),
            Err(Refused { .. }) => Err(AllocError),
        }
    }

    // Names a number that is at home, with a zone, and splits its deed off.
    pub fn issue(&mut self, no: u32, zone: u8) -> Deed
        requires home { IsHome (register_zones self.old) no }
        requires zone { zone < 8 }
        ensures { IssuesDeed no zone (register_table self.old) (register_zones self.old) result (register_table self.new) (register_zones self.new) }
    {
        let table = &self.table;
        let shared = &table.shared;
        shared.store::<Naming>(&mut self.seat, 0, spelled(no, zone));
        let seat = shared.split_seat::<Splitting>(&mut self.seat);
        let origin = self.origin.again();
        Deed {
            no,
            zone,
            label: 0,
            seat,
            origin,
        }
    }

    // Joins a deed in. A load then shows that its number was outside, and puts it home.
    pub fn accept(&mut self, deed: Deed) -> (u32, u8)
        requires { deed_table deed ≡ register_table self.old }
        ensures { AcceptsDeed deed (register_table self.old) (register_zones self.old) result (register_table self.new) (register_zones self.new) }
    {
        let Deed {
            no,
            zone,
            label: _,
            seat,
            origin: _,
        } = deed;
        let table = &self.table;
        table.shared.join_seat::<Accepting>(&mut self.seat, seat);
        table.shared.load::<PuttingHome>(&mut self.seat, 0);
        (no, zone)
    }
}

// The table of a book: what its seats know, its rule, and the steps.
//
// 1. Naming. A store writes a number and a zone into the one word, and the book's seat notes that they are out.
// 2. Splitting. The deed is split off the book's seat, with what was named.
// 3. Accepting. A deed is joined into the book's seat. A load then shows what the law says of it, and the number is
//    at home again.

/// What a seat knows. No value of it is made.
pub struct View {
    /// Of the book's own seat: for each number the zone of its deed, or None where it is at home.
    pub zones: LinkedList<Option<u8>>,
    /// Of the book's own seat: the number and zone that it named, until their deed is split off.
    pub named: Option<(u32, u8)>,
    /// The number and zone of the deed that this seat is, or that the book took in and hasn't put home.
    pub deed: Option<(u32, u8)>,
}

/// The law of a book of numbers, which holds between any two steps:
///
/// 1. The first seat is the book's. Its map has the zone of each number that is outside.
/// 2. Each deed's number is in the map, with the deed's zone.
/// 3. No two deeds have one number.
/// 4. What was named and not yet split off is in the map, and no deed has its number.
pub struct BookRule;

impl TableRule<(), View, u32> for BookRule {
    ghost use Rattle.std.specs.Prelude.{replicate, None};
    ghost use Rattle.deed_book.specs.Views.{book_view};
    ghost use Rattle.deed_book.specs.BookLaw.{BookLaw};

    ghost holds = { λ _ state. BookLaw state.views };

    ghost first = { λ numbers. book_view (replicate numbers None) };
}

/// The store that names the number and the zone that its word spells.
pub struct Naming;

impl Play<(), View> for Naming {
    ghost use Rattle.std.specs.Prelude.{◌≡◌};
    ghost use Rattle.deed_book.specs.Views.{naming, spelled_by};

    ghost then = { λ _ before stored after. after ≡ (naming before.0 (spelled_by stored), before.1) };
}

/// The split of the deed that was named.
pub struct Splitting;

impl Split<View> for Splitting {
    ghost use Rattle.deed_book.specs.Views.{unnamed, named_deed};

    ghost left = { unnamed };

    ghost right = { named_deed };
}

/// The join of a deed into the book.
pub struct Accepting;

impl Join<View> for Accepting {
    ghost use Rattle.deed_book.specs.Views.{accepting, spent};

    ghost both = { accepting };

    ghost spent = { spent };
}

/// The load that puts a number home whose deed was taken in.
pub struct PuttingHome;

impl Play<(), View> for PuttingHome {
    ghost use Rattle.deed_book.specs.BookLaw.{PutsHome};

    ghost then = { λ _ before _ after. PutsHome before.0 after };
}

/// The law of every book of numbers, in any state that its table can be in: each deed's number is outside, with the
/// deed's zone, and no two deeds have one number. The deeds that were dropped are among these.
pub fn no_number_is_out_twice()
    ensures { (numbers : ℕ) (state : State (Unit {0}) View) →
        ⟦<BookRule as TableRule<(), View, u32>>⟧.holds numbers state → BookLaw state.views }
{}

/// The most numbers that a book can have.
const MOST_NUMBERS: u32 = 262_144;

/// Which of the numbers below a fixed count are outside, each with the zone that it was issued to.
#[derive(Drop)]
pub struct Book {
    // For each number the zone of its deed, or None where it is at home.
    zones: Vec<Option<u8>>,
    register: Register,
    ghost registered: { zones.items ≡ register.seat.me.0.zones },
    pub ghost counted: { length zones.items ≡ register.seat.table_id.slots },
}

fn all_home(alloc: Global, numbers: u32) -> Result<Vec<Option<u8>>, AllocError>
    ensures { IfOk result (λ zones. zones.items ≡ replicate numbers None) }
{
    vec![in alloc; None; numbers as usize]
}

impl Book {
    ghost use Rattle.deed_book.specs.BookLaw.{IsHome};
    ghost use Rattle.deed_book.specs.Origin.{origin_numbers};
    ghost use Rattle.deed_book.specs.Book.{book_table, zones_of};
    ghost use Rattle.deed_book.specs.Calls.{AcceptsDeed, IssuesDeed, MakesBook};
    ghost use Rattle.deed_book.specs.Deed.{deed_table};

    /// A book of no origin, of the numbers below `numbers`, which is 1 to 262,144. All of them are at home.
    pub fn new(alloc: Global, numbers: u32) -> Result<Book, BookRefused>
        ensures { MakesBook numbers [] result }
    {
        Book::made_for(alloc, numbers, Origin::none())
    }

    /// A book whose deeds all are of one origin, as `new` makes it.
    pub fn made_for(alloc: Global, numbers: u32, origin: Origin) -> Result<Book, BookRefused>
        ensures { MakesBook numbers (origin_numbers origin) result }
    {
        if numbers == 0 || numbers > MOST_NUMBERS {
            return Err(BookRefused::Numbers { numbers });
        }
        let zones = all_home(alloc, numbers)?;
        let register = Register::new(alloc, numbers, origin)?;
        Ok(Book { zones, register })
    }

    /// Issues the deed of a number that is at home to a zone.
    #[tactic(auto, using(std::proofs::lemmas::Option::slice_get_within))]
    pub fn issue(&mut self, no: u32, zone: u8) -> Deed
        requires home { IsHome (zones_of self.old) no }
        requires zone { zone < 8 }
        ensures { IssuesDeed no zone (book_table self.old) (zones_of self.old) result (book_table self.new) (zones_of self.new) }
    {
        let deed = self.register.issue(no, zone);
        self.zones[no as usize] = Some(zone);
        deed
    }

    /// Takes a deed back, and answers its number and zone. The number was outside with this zone, and is at home again.
    #[tactic(auto, using(std::proofs::lemmas::Option::slice_get_within))]
    pub fn accept(&mut self, deed: Deed) -> (u32, u8)
        requires { deed_table deed ≡ book_table self.old }
        ensures { AcceptsDeed deed (book_table self.old) (zones_of self.old) result (book_table self.new) (zones_of self.new) }
    {
        let (no, zone) = self.register.accept(deed);
        self.zones[no as usize] = None;
        (no, zone)
    }

    /// Whether a number is at home. One that isn't below the count of numbers is not.
    pub fn is_home(&self, no: u32) -> bool
        ensures { IsTrue result ↔ IsHome (zones_of self.now) no }
    {
        matches!(self.zones.get(no as usize), Some(None))
    }
}
