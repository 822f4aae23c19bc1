ghost use Rattle.std.specs.Prelude.{◌≡◌, ◌≤◌, ◌<◌, true, IfOk, None, length, replicate, vec_capacity, ◌↔◌, ◌++◌, ◌∷◌, [], IsTrue, IfErr, IfSome, IfNone, Err, ℕ, OnOk};
ghost use Rattle.uma_zcache.specs.Bases.{ListsEach, times};
ghost use Rattle.uma_zcache.specs.Entries.{numbers_with};

use crate::cache::{Held, ZKey, ZSeat};
use crate::import::Import;
use crate::refused::{ZAllocRefused, ZRefused, ZSeatRefused};
use deed_book::{Book, FailBook, FailShare};
use listed::Log;
use std::alloc::{AllocError, Global};
use std::marker::Model;
use std::snapshot::Snapshot;

/// Which number has which base. Contracts see the base of each number, or None where the number is at home.
#[derive(Drop)]
pub(crate) struct Entries {
    // By number.
    bases: Vec<Option<u64>>,
    // The numbers at home; the last is the next that goes out. It has room for all.
    home: Vec<u32>,
}

impl Model for Entries {
    ghost use Rattle.std.specs.Prelude.{ℕ, List, Option};

    ghost Value = { List (Option ℕ) };

    ghost use Rattle.uma_zcache.specs.HomeList.{IsListed};

    ghost view = { λ e. e.bases.items };

    ghost invariant = { IsListed };
}

impl Entries {
    ghost use Rattle.uma_zcache.specs.Entries.{PutsHome, PutsOut, CountsOut, is_out, out_of};

    /// All numbers below `numbers`, at home.
    pub(crate) fn new(alloc: Global, numbers: u32) -> Result<Entries, AllocError>
        requires { numbers ≤ 262144 }
        ensures { IfOk result (λ entries. entries ≡ replicate numbers None) }
    {
        let bases = no_bases(alloc, numbers)?;
        let home = all_numbers(alloc, numbers)?;
        Ok(Entries { bases, home })
    }

    /// How many numbers there are.
    pub(crate) fn count(&self) -> u32
        ensures { result ≡ length self.now }
    {
        self.bases.len() as u32
    }

    /// How many numbers are out.
    pub(crate) fn out(&self) -> u32
        ensures { CountsOut self.now result }
    {
        (self.bases.len() - self.home.len()) as u32
    }

    /// Puts a number out with this base.
    pub(crate) fn put_out(&mut self, base: u64) -> u32
        requires { out_of self.old < length self.old }
        ensures { PutsOut self.old result base self.new }
    {
        let Some(no) = self.home.pop() else {
            unreachable!()
        };
        self.bases[no as usize] = Some(base);
        no
    }

    /// Puts a number home that is out, and answers its base.
    pub(crate) fn put_home(&mut self, no: u32) -> u64
        requires { is_out self.old no ≡ true }
        ensures { PutsHome self.old no result self.new }
    {
        let Some(base) = self.bases[no as usize] else {
            unreachable!()
        };
        self.bases[no as usize] = None;
        self.home.push_reserved(no);
        base
    }
}

/// An entry without a base for each number.
fn no_bases(alloc: Global, numbers: u32) -> Result<Vec<Option<u64>>, AllocError>
    ensures { IfOk result (λ bases. bases.items ≡ replicate numbers None) }
{
    vec![in alloc; None; numbers as usize]
}

/// The numbers below `numbers`, the least at the end.
fn all_numbers(alloc: Global, numbers: u32) -> Result<Vec<u32>, AllocError>
    ensures { IfOk result (λ home. ListsEach numbers home.items (vec_capacity home)) }
{
    let mut home = Vec::with_capacity(alloc, numbers as usize)?;
    for passed in 0..numbers {
        home.push_reserved(numbers - 1 - passed);
    }
    Ok(home)
}

/// The least and the greatest count of items that a stack can have room for.
const LEAST_SIZE: u32 = 4;

const MOST_SIZE: u32 = 64;

/// A stack of items that are outside. It took the room for all when it was made.
#[derive(Drop)]
pub(crate) struct Stack {
    pub(crate) items: Vec<Held>,
    pub(crate) size: u32,
    pub ghost least: { 4 ≤ size },
    pub ghost most: { size ≤ 64 },
    pub ghost within: { length items.items ≤ size },
    pub ghost room: { size ≤ vec_capacity items },
}

impl Stack {
    ghost use Rattle.uma_zcache.specs.Refused.{RefusesBucket, HasNoBucket};
    ghost use Rattle.uma_zcache.specs.Stack.{stack_items, stack_size, IsNewStack, IsSizeOf, Pushes, WasEmpty};

    /// An empty stack with room for `size` items, which is 4 to 64.
    pub(crate) fn new(alloc: Global, size: u32) -> Result<Stack, ZSeatRefused>
        ensures new { IfOk result (IsNewStack size) }
        ensures out_of_range { HasNoBucket size → result ≡ Err (ZSeatRefused.Bucket size) }
        ensures err { IfErr result (RefusesBucket size) }
    {
        if size < LEAST_SIZE || size > MOST_SIZE {
            return Err(ZSeatRefused::Bucket { bucket: size });
        }
        let items = Vec::with_capacity(alloc, size as usize)?;
        Ok(Stack { items, size })
    }

    /// Puts an item on top.
    pub(crate) fn push(&mut self, held: Held)
        requires { length (stack_items self.old) < stack_size self.old }
        ensures { Pushes self.old held self.new }
    {
        self.items.push_reserved(held);
    }

    /// Takes the item on top, which is the last that was put. None exactly where there is none.
    pub(crate) fn pop(&mut self) -> Option<Held>
        ensures last { IfSome result (λ held. stack_items self.old ≡ stack_items self.new ++ held ∷ []) }
        ensures none { IfNone result (WasEmpty self.old self.new) }
        ensures size { stack_size self.new ≡ stack_size self.old }
    {
        self.items.pop()
    }

    /// Whether it has as many items as it has room for.
    pub(crate) fn is_full(&self) -> bool
        ensures full { IsTrue result ↔ (length (stack_items self.now) ≡ stack_size self.now) }
        ensures within { length (stack_items self.now) ≤ stack_size self.now }
    {
        self.len() == self.size
    }

    /// How many items there are.
    pub(crate) fn len(&self) -> u32
        ensures { result ≡ length (stack_items self.now) }
    {
        self.items.len() as u32
    }

    /// How many items there is room for, 4 to 64.
    pub(crate) fn size(&self) -> u32
        ensures { IsSizeOf self.now result }
    {
        self.size
    }
}

/// What lies behind a cache zone's lock: the importer, which number has which base, the book of the numbers, and the fail
/// book.
///
/// What always holds: the bases that the numbers have are those that the importer has outside.
#[derive(Drop)]
pub(crate) struct LockedCache<I: Import> {
    pub(crate) import: I,
    pub(crate) entries: Entries,
    pub(crate) book: Book,
    pub(crate) fails: FailBook,
    // The refusals that were counted. For contracts alone.
    pub(crate) turned: Log<ZAllocRefused>,
    pub ghost exact: { (base : ℕ) → numbers_with base entries ≡ times base (I.outside import) },
}

impl<I: Import> LockedCache<I> {
    ghost use Rattle.uma_zcache.specs.Entries.{CountsOut};
    ghost use Rattle.uma_zcache.specs.Releases.{Releases, MayReleaseAll, MayRelease, EmptiesStack};
    ghost use Rattle.uma_zcache.specs.Stack.{stack_size, stack_items};
    ghost use Rattle.uma_zcache.specs.Rounds.{TurnsSeatAway, StopsShort, MayImport, MayFill, MayCount, KeepsStack, KeepsSeat, ImportsFull, FillsSeat, CountsRefusal};
    ghost use Rattle.uma_zcache.specs.Locked.{IsSound, entries_in, IsNewCache};
    ghost use Rattle.uma_zcache.specs.Imports.{RefusesImport, Imports};
    ghost use Rattle.uma_zcache.specs.Refused.{HasNoNumbers, RefusesNumbers};
    ghost use Rattle.uma_zcache.specs.Rule.{GivesShare, Keeps};

    /// With all numbers at home.
    pub(crate) fn new(alloc: Global, import: I, numbers: u32) -> Result<LockedCache<I>, ZRefused>
        requires { I.outside import ≡ [] }
        ensures new { IfOk result (IsNewCache numbers) }
        ensures out_of_range { HasNoNumbers numbers → result ≡ Err (ZRefused.Numbers numbers) }
        ensures err { IfErr result (RefusesNumbers numbers) }
    {
        let book = Book::new(alloc, numbers)?;
        let entries = Entries::new(alloc, numbers)?;
        let fails = FailBook::new(alloc)?;
        Ok(LockedCache {
            import,
            entries,
            book,
            fails,
            turned: Log::new(),
        })
    }

    /// The key of its lock.
    pub(crate) fn key(&self) -> ZKey
        requires { IsSound self.now }
        ensures { Keeps result self.now }
    {
        ZKey {
            book: Snapshot::of(&self.book),
            fails: Snapshot::of(&self.fails),
        }
    }

    /// A share of its fail book, which has no cause.
    pub(crate) fn new_share(&mut self) -> FailShare
        ensures { GivesShare self.old result self.new }
    {
        self.fails.new_share()
    }

    /// How many numbers are out.
    pub(crate) fn out(&self) -> u32
        ensures { CountsOut (entries_in self.now) result }
    {
        self.entries.out()
    }

    /// One import round into the stack of a seat, which is empty: up to a bucket's worth, until one is refused. Where none
    /// came, the refusal is the answer. It is counted in the fail book and in the seat's share, but for want of memory.
    pub(crate) fn round(&mut self, alloc: Global, seat: &mut ZSeat) -> Result<(), ZAllocRefused>
        requires { MayFill self.old seat.old }
        ensures fills { OnOk result (FillsSeat self.old seat.old self.new seat.new) }
        ensures turned { IfErr result (λ why. TurnsSeatAway self.old seat.old why self.new seat.new) }
        ensures kept { KeepsSeat self.old seat.old self.new seat.new }
    {
        let end = self.import_all(alloc, &mut seat.stack);
        if seat.stack.len() > 0 {
            return Ok(());
        }
        let Err(why) = end else { unreachable!() };
        self.turn_away(why, seat);
        Err(why)
    }

    /// Imports until the stack is full, or one is refused.
    fn import_all(&mut self, alloc: Global, stack: &mut Stack) -> Result<(), ZAllocRefused>
        requires { MayImport self.old stack.old }
        ensures all { OnOk result (ImportsFull (stack_size stack.old) self.old (stack_items stack.new) self.new) }
        ensures stops { IfErr result (λ why. StopsShort (stack_size stack.old) self.old (stack_items stack.new) why self.new) }
        ensures kept { KeepsStack self.old stack.old self.new stack.new }
    {
        for _ in 0..stack.size() {
            let held = self.import_one(alloc)?;
            stack.push(held);
        }
        Ok(())
    }

    /// Takes one base of the importer, and puts a number out with it.
    fn import_one(&mut self, alloc: Global) -> Result<Held, ZAllocRefused>
        requires { IsSound self.old }
        ensures imports { IfOk result (λ held. Imports self.old held self.new) }
        ensures refused { IfErr result (λ why. RefusesImport self.old why self.new) }
        ensures sound { IsSound self.new }
    {
        let numbers = self.entries.count();
        if self.entries.out() == numbers {
            return Err(ZAllocRefused::Out {
                out: numbers,
                numbers,
            });
        }
        let base = self.import.take_one(alloc)?;
        let no = self.entries.put_out(base);
        let deed = self.book.issue(no, 0);
        Ok(Held { base, deed })
    }

    /// Counts the refusal of a round that gave no item, but for want of memory.
    fn turn_away(&mut self, why: ZAllocRefused, seat: &mut ZSeat)
        requires { MayCount self.old seat.old }
        ensures { CountsRefusal self.old seat.old why self.new seat.new }
    {
        let (kind, first, second) = match why {
            ZAllocRefused::Out { out, numbers } => (1, u64::from(out), u64::from(numbers)),
            ZAllocRefused::NoFit { size, greatest } => (2, size, greatest),
            ZAllocRefused::Memory => return,
        };
        self.fails.add(&mut seat.share, kind, first, second);
        self.turned.push(why);
    }

    /// Releases the items of a stack, the last of them first, and answers how many there were.
    pub(crate) fn release_all(&mut self, stack: &mut Stack) -> u32
        requires { MayReleaseAll self.old (stack_items stack.old) }
        ensures { EmptiesStack self.old stack.old result self.new stack.new }
    {
        let count = stack.len();
        for _ in 0..count {
            let Some(held) = stack.pop() else {
                unreachable!()
            };
            self.release(held);
        }
        count
    }

    /// Accepts the deed of an item, puts its number home, and gives the base that the number had back to the importer.
    fn release(&mut self, held: Held)
        requires { MayRelease self.old held }
        ensures releases { Releases self.old held self.new }
        ensures sound { IsSound self.new }
    {
        let Held { deed, .. } = held;
        let (no, _zone) = self.book.accept(deed);
        let base = self.entries.put_home(no);
        self.import.give_one(base);
    }
}
