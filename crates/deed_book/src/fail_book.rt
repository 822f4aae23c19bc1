ghost use Rattle.std.specs.Prelude.{◌≡◌, [], IfOk, None};
ghost use mathlib.Core.Option.{some};
ghost use lib.ListN.{get_elem?};
ghost use Rattle.atomic_table.specs.Table.{State};
ghost use Rattle.deed_book.specs.declared.fail_book.FailView.{FailView};
ghost use Rattle.deed_book.specs.FailBookLaw.{AddsUp};

use crate::deed::{Cause, Memory};
use atomic_table::{Join, Play, Seat, Split, Table, TableRule};
use std::alloc::Global;
use std::collections::LinkedList;

// The table of a fail book: what its seats know, its rule, and the steps.
//
// 1. Raising. The first two of three stores write the numbers of a cause into words 0 and 1. The third writes its kind
//    into word 2, and raises the book by the cause that the three words then spell.
// 2. Splitting. What was raised is split off as a unit; where nothing was, that is a new share.
// 3. Joining. A unit is joined into a share.

pub type FailTable = Table<(), FailView, (), FailRule, Global>;

/// What a seat knows. No value of it is made.
pub struct FailView {
    /// Of the book's own seat: the causes by which it was raised, in order.
    pub raised: LinkedList<Cause>,
    /// Of the book's own seat: the cause that is the next to be split off.
    pub pending: Option<Cause>,
    /// Of the book's own seat: what it stored in words 0 and 1.
    pub first: u64,
    pub second: u64,
    /// Of a share: its causes, in order. Of a unit: its one cause.
    pub held: LinkedList<Cause>,
}

/// The law of a fail book, which holds between any two steps:
///
/// 1. The first seat is the book's.
/// 2. However causes are weighed, the list of the book weighs what the lists of all shares and units, and what was raised
///    and not yet split off, weigh together.
pub struct FailRule;

impl TableRule<(), FailView, ()> for FailRule {
    ghost use Rattle.deed_book.specs.FailViews.{unraised};
    ghost use Rattle.deed_book.specs.FailBookLaw.{FailBookLaw};

    ghost holds = { λ _ state. FailBookLaw state.views };

    ghost first = { λ _. unraised };
}

/// The store of a cause's first number.
pub struct StoringFirst;

impl Play<(), FailView> for StoringFirst {
    ghost use Rattle.std.specs.Prelude.{◌≡◌};
    ghost use Rattle.deed_book.specs.FailViews.{storing_first};

    ghost then = { λ _ before stored after. after ≡ (storing_first before.0 stored, before.1) };
}

/// The store of a cause's second number.
pub struct StoringSecond;

impl Play<(), FailView> for StoringSecond {
    ghost use Rattle.std.specs.Prelude.{◌≡◌};
    ghost use Rattle.deed_book.specs.FailViews.{storing_second};

    ghost then = { λ _ before stored after. after ≡ (storing_second before.0 stored, before.1) };
}

/// The store of a cause's kind, which raises the book.
pub struct Raising;

impl Play<(), FailView> for Raising {
    ghost use Rattle.std.specs.Prelude.{◌≡◌};
    ghost use Rattle.deed_book.specs.FailViews.{raising};

    ghost then = { λ _ before stored after. after ≡ (raising before.0 stored, before.1) };
}

/// The split of what was raised.
pub struct SplittingOff;

impl Split<FailView> for SplittingOff {
    ghost use Rattle.deed_book.specs.FailViews.{settled, split_off};

    ghost left = { settled };

    ghost right = { split_off };
}

/// The join of a unit into a share.
pub struct JoiningIn;

impl Join<FailView> for JoiningIn {
    ghost use Rattle.std.specs.Prelude.{[]};
    ghost use Rattle.deed_book.specs.FailViews.{joining_in, share_view};

    ghost both = { joining_in };

    ghost spent = { share_view [] };
}

/// The law of every fail book, in any state that its table can be in: the book's number is the sum of the numbers of all
/// shares, of the units that were split off and not joined, and of what was raised and not yet split off; and each cause
/// stands in the book's list as often as in theirs together. Between two calls nothing is pending.
pub fn shares_add_up_to_their_book()
    ensures { (state : State (Unit {0}) FailView) (book : FailView) →
        ⟦<FailRule as TableRule<(), FailView, ()>>⟧.holds tt state →
        get_elem? state.views 0 ≡ some book → AddsUp state.views book }
{}

/// A share of a fail book: the causes of the ends that its holder met. Contracts alone see them. It may cross
/// threads. What a share that is dropped had stays counted in its book.
#[derive(Drop)]
pub struct FailShare {
    pub(crate) seat: Seat<(), FailView>,
    ghost no_slots: { seat.me.1 ≡ [] },
    ghost not_raised: { seat.me.0.raised ≡ [] },
}

impl FailShare {
    ghost use Rattle.std.specs.Prelude.{◌++◌};
    ghost use Rattle.deed_book.specs.Calls.{CanJoinIn};
    ghost use Rattle.deed_book.specs.FailShare.{share_table, causes_in};

    // Joins what another share has into this one.
    pub(crate) fn join_in(&mut self, table: &FailTable, other: FailShare)
        requires { CanJoinIn table.now.shared.table_id self.old other }
        ensures causes { causes_in self.new ≡ causes_in self.old ++ causes_in other }
        ensures table { share_table self.new ≡ share_table self.old }
    {
        let FailShare { seat } = other;
        table.shared.join_seat::<JoiningIn>(&mut self.seat, seat);
    }
}

// The words of a fail book's table.
const FIRST: usize = 0;

const SECOND: usize = 1;

const KIND: usize = 2;

/// A list of ends, as refusals of fetches and fetches that gave, each with its cause; its shares add up to it. Contracts
/// alone see number and causes, and these have no bound.
#[derive(Drop)]
pub struct FailBook {
    table: FailTable,
    seat: Seat<(), FailView>,
    ghost three_words: { table.shared.table_id.words ≡ 3 },
    ghost one_table: { seat.table_id ≡ table.shared.table_id },
    ghost first_seat: { seat.id ≡ 0 },
    ghost settled: { seat.me.0.pending ≡ None },
}

impl FailBook {
    ghost use Rattle.deed_book.specs.Calls.{AddsCause, OpensShare, RaisesUnit};
    ghost use Rattle.deed_book.specs.FailViews.{cause};
    ghost use Rattle.deed_book.specs.FailBook.{fail_book_table, causes_of};
    ghost use Rattle.deed_book.specs.FailShare.{share_table};

    /// A book that has counted nothing, and has no share.
    pub fn new(alloc: Global) -> Result<FailBook, Memory>
        ensures { IfOk result (λ book. causes_of book ≡ []) }
    {
        let (table, seat) = FailTable::of_words(alloc, &[0, 0, 0], &())?;
        Ok(FailBook { table, seat })
    }

    /// A share that has no cause.
    pub fn new_share(&mut self) -> FailShare
        ensures { OpensShare self.old result self.new }
    {
        let table = &self.table;
        let seat = table.shared.split_seat::<SplittingOff>(&mut self.seat);
        FailShare { seat }
    }

    /// Lists an end in the book and in a share of it. Both have its cause at the end of their lists.
    pub fn add(&mut self, share: &mut FailShare, kind: u64, first: u64, second: u64)
        requires { share_table share.old ≡ fail_book_table self.old }
        ensures { AddsCause (cause kind first second) self.old share.old self.new share.new }
    {
        let unit = self.raise(kind, first, second);
        share.join_in(&self.table, unit);
    }

    // Raises the book by a cause, and splits the unit off that has it.
    fn raise(&mut self, kind: u64, first: u64, second: u64) -> FailShare
        ensures { RaisesUnit (cause kind first second) self.old result self.new }
    {
        let table = &self.table;
        let shared = &table.shared;
        shared.store::<StoringFirst>(&mut self.seat, FIRST, first);
        shared.store::<StoringSecond>(&mut self.seat, SECOND, second);
        shared.store::<Raising>(&mut self.seat, KIND, kind);
        let seat = shared.split_seat::<SplittingOff>(&mut self.seat);
        FailShare { seat }
    }
}
