ghost use Rattle.std.specs.Prelude.{◌≡◌, [], true, ◌<◌, ◌≤◌};
ghost use Rattle.smr_core.specs.declared.holder.Phase.{Phase};
ghost use Rattle.smr_core.specs.ClockState.{place_after_seats};
ghost use Rattle.smr_clock.specs.declared.host.HostAct.{HostAct};

use crate::clock::{Clock, Setup};
use crate::pass::{Note, Pass};
use crate::view::{View, WriteLooks};
use atomic_table::{Join, Play, Seat, Split, TableRule};
use smr_core::hands::WRITE_PLACE;
use std::marker::PhantomData;

/// Who has words and views of its own beside the clock's: a rule over all words and all views, which
/// includes the clock's law and is kept by every step of the clock.
///
/// A view's host part is what it has beside the clock. A step of the clock changes no host part but
/// where a seat is split or joined. For a host's own steps the lemmas of `proofs/HostClocked` have
/// the clock's half, so a host proves its own rule alone; `specs/CountingHost` is one, whole.
pub trait Host {
    type Part;

    ghost use Rattle.std.specs.Prelude.{ℕ, Bool, List, IsTrue};
    ghost use Rattle.smr_clock.specs.declared.clock.Setup.{Setup};
    ghost use Rattle.smr_clock.specs.declared.view.View.{View};
    ghost use Rattle.smr_clock.specs.HostLaws.{Includes, FrameLaw, SplitLaw, JoinLaw};

    // The host's rule, over the words and the views.
    ghost holds: { Setup → List ℕ → List (View Self.Part) → Type 0 };

    // The host part of the first seat.
    ghost first: { Setup → Self.Part };

    // The host part of a seat that was joined into another.
    ghost blank: { Self.Part };

    // Which host parts a note may have.
    ghost may_note: { Self.Part → Bool };

    // What a split of the clock's copies into the new seat.
    ghost copied: { Self.Part → Self.Part };

    // What becomes of a seat's host part and of that of a note that it takes in.
    ghost merged: { Self.Part → Self.Part → Self.Part };

    ghost may_copy: { (part : Self.Part) → IsTrue (may_note (copied part)) };

    ghost includes: { Includes holds };

    ghost frame: { FrameLaw holds };

    ghost split: { SplitLaw holds copied };

    ghost join: { JoinLaw holds may_note merged blank };
}

/// The rule of a clock's table: that of its host.
pub struct Ruled<H> {
    host: PhantomData<H>,
}

impl<H: Host> TableRule<(), View<H::Part>, Setup> for Ruled<H> {
    ghost use Rattle.smr_clock.specs.Views.{first_view};

    ghost holds = { λ setup state. H.holds setup state.words state.views };

    ghost first = { λ setup. first_view setup (H.first setup) };
}

/// The host with no words and no parts of its own: its rule is the clock's law.
#[derive(Clone, Copy, Debug)]
pub struct Bare;

impl Host for Bare {
    type Part = ();

    ghost use Rattle.std.specs.Prelude.{true, refl};
    ghost use Rattle.smr_clock.specs.Clocked.{Clocked};

    ghost holds = { λ setup words views. Clocked setup words views };

    ghost first = { λ _. tt };

    ghost blank = { tt };

    ghost may_note = { λ _. true };

    ghost copied = { λ part. part };

    ghost merged = { λ part _. part };

    ghost may_copy = { λ _. refl };

    ghost includes = { λ _ _ _ law. law };

    ghost frame = { λ _ _ _ _ _ _ moved _ _. moved.after };

    ghost split = { λ _ _ _ _ _ _ _ _ _ moved _ _ _. moved.after };

    ghost join = { λ _ _ _ _ _ _ _ _ _ _ moved _ _ _ _ _ _. moved.after };
}

/// What a host's step does to one of its words.
#[derive(Clone, Copy, Debug, PartialEq, Eq)]
pub enum HostAct {
    Load,
    Store { value: u64 },
    /// Writes `to` where it finds `from`.
    Exchange { from: u64, to: u64 },
    /// Adds, modulo 2^64.
    Add { by: u64 },
    /// Subtracts, modulo 2^64.
    Subtract { by: u64 },
}

// Steps of a host's own, and what each tells its caller.

/// How one step of a host's own changes the host part of the seat that takes it: a relation of the
/// view before, the word, the act, the value found and the host part after.
pub trait HostPlay<H: Host> {
    ghost use Rattle.smr_clock.specs.HostSteps.{Change};

    ghost changes: { Change H.Part };
}

/// A load of a host's word.
pub(crate) struct HostLoads<H, M> {
    marker: PhantomData<(H, M)>,
}

impl<H: Host, M: HostPlay<H>> Play<(), View<H::Part>> for HostLoads<H, M> {
    ghost use Rattle.std.specs.Prelude.{◌≡◌};
    ghost use Rattle.smr_clock.specs.declared.host.HostAct.{HostAct};
    ghost use Rattle.smr_clock.specs.HostSteps.{HostStepped};

    ghost then = { λ step before found after. HostStepped before.0 step.word HostAct.Load M.changes found after.0 × (after.1 ≡ before.1) };
}

/// A store to a host's word, which tells what it found.
pub(crate) struct HostStores<H, M> {
    marker: PhantomData<(H, M)>,
}

impl<H: Host, M: HostPlay<H>> Play<(), View<H::Part>> for HostStores<H, M> {
    ghost use Rattle.std.specs.Prelude.{◌≡◌};
    ghost use Rattle.smr_clock.specs.declared.host.HostAct.{HostAct};
    ghost use Rattle.smr_clock.specs.HostSteps.{HostStepped};

    ghost then = { λ step before found after. HostStepped before.0 step.word (HostAct.Store step.first) M.changes found after.0 × (after.1 ≡ before.1) };
}

/// A compare-exchange of a host's word.
pub(crate) struct HostExchanges<H, M> {
    marker: PhantomData<(H, M)>,
}

impl<H: Host, M: HostPlay<H>> Play<(), View<H::Part>> for HostExchanges<H, M> {
    ghost use Rattle.std.specs.Prelude.{◌≡◌};
    ghost use Rattle.smr_clock.specs.declared.host.HostAct.{HostAct};
    ghost use Rattle.smr_clock.specs.HostSteps.{HostStepped};

    ghost then = { λ step before found after. HostStepped before.0 step.word (HostAct.Exchange step.first step.second) M.changes found after.0 × (after.1 ≡ before.1) };
}

/// An addition to a host's word.
pub(crate) struct HostAdds<H, M> {
    marker: PhantomData<(H, M)>,
}

impl<H: Host, M: HostPlay<H>> Play<(), View<H::Part>> for HostAdds<H, M> {
    ghost use Rattle.std.specs.Prelude.{◌≡◌};
    ghost use Rattle.smr_clock.specs.declared.host.HostAct.{HostAct};
    ghost use Rattle.smr_clock.specs.HostSteps.{HostStepped};

    ghost then = { λ step before found after. HostStepped before.0 step.word (HostAct.Add step.first) M.changes found after.0 × (after.1 ≡ before.1) };
}

/// A subtraction from a host's word.
pub(crate) struct HostSubtracts<H, M> {
    marker: PhantomData<(H, M)>,
}

impl<H: Host, M: HostPlay<H>> Play<(), View<H::Part>> for HostSubtracts<H, M> {
    ghost use Rattle.std.specs.Prelude.{◌≡◌};
    ghost use Rattle.smr_clock.specs.declared.host.HostAct.{HostAct};
    ghost use Rattle.smr_clock.specs.HostSteps.{HostStepped};

    ghost then = { λ step before found after. HostStepped before.0 step.word (HostAct.Subtract step.first) M.changes found after.0 × (after.1 ≡ before.1) };
}

/// How a host's seat is cut in two: what becomes of its host part, and what the new seat has.
pub trait HostSplit<H: Host> {
    ghost left: { H.Part → H.Part };

    ghost right: { H.Part → H.Part };
}

/// What a host's seat makes of its own host part and of that of a seat that it takes in.
pub trait HostJoin<H: Host> {
    ghost both: { H.Part → H.Part → H.Part };
}

/// The split of a host's seat.
pub(crate) struct SeatSplits<H, M> {
    marker: PhantomData<(H, M)>,
}

impl<H: Host, M: HostSplit<H>> Split<View<H::Part>> for SeatSplits<H, M> {
    ghost use Rattle.smr_clock.specs.HostSteps.{with_host};
    ghost use Rattle.smr_clock.specs.Steps.{note_view};

    ghost left = { λ v. with_host v (M.left v.host) };

    ghost right = { note_view M.right };
}

/// The join of a host's seat into another.
pub(crate) struct SeatJoins<H, M> {
    marker: PhantomData<(H, M)>,
}

impl<H: Host, M: HostJoin<H>> Join<View<H::Part>> for SeatJoins<H, M> {
    ghost use Rattle.smr_clock.specs.Views.{spent_view};
    ghost use Rattle.smr_clock.specs.Steps.{joined_view};

    ghost both = { joined_view M.both };

    ghost spent = { spent_view H.blank };
}

/// A load of a hand by a host's seat.
pub(crate) struct SeatLooks<H, M> {
    marker: PhantomData<(H, M)>,
}

impl<H: Host, M: HostPlay<H>> Play<(), View<H::Part>> for SeatLooks<H, M> {
    ghost use Rattle.std.specs.Prelude.{◌≡◌};
    ghost use Rattle.smr_clock.specs.declared.host.HostAct.{HostAct};
    ghost use Rattle.smr_clock.specs.HostSteps.{SeatStepped};

    ghost then = { λ step before found after. SeatStepped before.0 step.word HostAct.Load M.changes found after.0 × (after.1 ≡ before.1) };
}

/// A seat for the host's own parts. To the clock it is a note.
#[derive(Drop)]
pub struct HostSeat<H: Host> {
    pub(crate) seat: Seat<(), View<H::Part>>,
    ghost no_slots: { seat.me.1 ≡ [] },
    ghost is_note: { seat.me.0.holder.phase ≡ Phase.Note },
}

impl<H: Host> Note<H> {
    ghost use Rattle.smr_clock.specs.Notes.{seat_knows};
    ghost use Rattle.smr_clock.specs.Calls.{IsHostSeatOf, IsNoteOfSeat};

    /// Makes the note a seat of the host's. It is the same seat of the table.
    pub fn into_host(self) -> HostSeat<H>
        ensures { IsHostSeatOf self result }
    {
        let Note { seat } = self;
        HostSeat { seat }
    }

    /// Makes a seat of the host's a note. Its host part must be one that a note may have.
    pub fn of_host(seat: HostSeat<H>) -> Self
        requires may { H.may_note (seat_knows seat).host ≡ true }
        ensures { IsNoteOfSeat seat result }
    {
        let HostSeat { seat } = seat;
        Note { seat }
    }
}

/// Seats of the host's own, split and joined.
impl<H: Host> Clock<H> {
    ghost use Rattle.smr_clock.specs.Steps.{joined_view};
    ghost use Rattle.smr_clock.specs.Notes.{seat_knows};
    ghost use Rattle.smr_clock.specs.Notes.{IsSeatOf};
    ghost use Rattle.smr_clock.specs.HostSteps.{JoinKeeps};
    ghost use Rattle.smr_clock.specs.HostSteps.{SplitKeeps};
    ghost use Rattle.smr_clock.specs.Calls.{BecomesSeat};
    ghost use Rattle.smr_clock.specs.Calls.{SplitsSeat};
    ghost use Rattle.smr_clock.specs.Calls.{LooksFromSeat};
    ghost use Rattle.smr_clock.specs.Belongs.{setup_of};
    /// Loads the write sequence, and splits off a seat that has seen it too.
    pub fn seat_split<M: HostSplit<H>>(&self, seat: &mut HostSeat<H>) -> HostSeat<H>
        requires here { IsSeatOf self.now seat.old }
        requires keeps { SplitKeeps H.holds (setup_of self.now) seat.old.seat.id (seat_knows seat.old) M.left M.right }
        ensures { SplitsSeat self.now M.left M.right seat.old seat.new result }
    {
        self.load_from_seat(seat);
        let other = self
            .table
            .shared
            .split_seat::<SeatSplits<H, M>>(&mut seat.seat);
        HostSeat { seat: other }
    }

    /// Adds to the first seat what the other has seen. The other is spent.
    pub fn seat_join<M: HostJoin<H>>(&self, seat: &mut HostSeat<H>, other: HostSeat<H>)
        requires here { IsSeatOf self.now seat.old }
        requires other_here { IsSeatOf self.now other }
        requires keeps { JoinKeeps H.holds (setup_of self.now) seat.old.seat.id (seat_knows seat.old) other.seat.id (seat_knows other) M.both H.blank }
        ensures { BecomesSeat self.now (joined_view M.both (seat_knows seat.old) (seat_knows other)) seat.new }
    {
        let HostSeat { seat: other } = other;
        self.table
            .shared
            .join_seat::<SeatJoins<H, M>>(&mut seat.seat, other);
    }

    fn load_from_seat(&self, seat: &mut HostSeat<H>) -> u64
        requires here { IsSeatOf self.now seat.old }
        ensures { LooksFromSeat self.now seat.old result seat.new }
    {
        self.table
            .shared
            .load::<WriteLooks>(&mut seat.seat, WRITE_PLACE)
    }
}

/// Steps of the host's own, on its own words.
impl<H: Host> Clock<H> {
    ghost use Rattle.smr_clock.specs.Notes.{seat_knows};
    ghost use Rattle.smr_clock.specs.Notes.{IsSeatOf};
    ghost use Rattle.smr_clock.specs.HostSteps.{SeatKeeps};
    ghost use Rattle.smr_clock.specs.HostSteps.{MaySeatStep};
    ghost use Rattle.smr_clock.specs.HostSteps.{IsHand};
    ghost use Rattle.smr_clock.specs.HostSteps.{HostKeeps};
    ghost use Rattle.smr_clock.specs.Calls.{StepsOnWord};
    ghost use Rattle.smr_clock.specs.Calls.{TakesSeatStep};
    ghost use Rattle.smr_clock.specs.Calls.{TakesHostStep};
    ghost use Rattle.smr_clock.specs.Belongs.{table_of};
    ghost use Rattle.smr_clock.specs.Belongs.{view};
    ghost use Rattle.smr_clock.specs.Belongs.{IsPassOf};
    ghost use Rattle.smr_clock.specs.Belongs.{setup_of};
    /// Takes one step of a pass on a word of the host's. Returns the value found.
    ///
    /// # Arguments
    ///
    /// - `word`: the place of the word, from [`Clock::host_place`] on and below the count of words.
    pub fn host_step<M: HostPlay<H>>(&self, pass: &mut Pass<H>, word: u32, act: HostAct) -> u64
        requires here { IsPassOf self.now pass.old }
        requires word { (place_after_seats (setup_of self.now).config ≤ word) × (word < (table_of self.now).words) }
        requires keeps { HostKeeps H.holds (setup_of self.now) pass.old.seat.id (view pass.old) word act M.changes }
        ensures { TakesHostStep self.now (view pass.old) word act M.changes result pass.new }
    {
        self.step::<M>(&mut pass.seat, word, act)
    }

    /// Takes one step of a host's seat on a word of the host's, or loads a hand. Returns the value found.
    ///
    /// # Arguments
    ///
    /// - `word`: the place of the word, from [`Clock::host_place`] on and below the count of words, or the place of a
    ///   hand.
    pub fn seat_step<M: HostPlay<H>>(&self, seat: &mut HostSeat<H>, word: u32, act: HostAct) -> u64
        requires here { IsSeatOf self.now seat.old }
        requires word { MaySeatStep (setup_of self.now) (table_of self.now).words word act }
        requires keeps { SeatKeeps H.holds (setup_of self.now) seat.old.seat.id (seat_knows seat.old) word act M.changes }
        ensures { TakesSeatStep self.now (seat_knows seat.old) word act M.changes result seat.new }
    {
        if word < self.host_place() {
            self.load_hand::<M>(seat, word)
        } else {
            self.step::<M>(&mut seat.seat, word, act)
        }
    }

    fn load_hand<M: HostPlay<H>>(&self, seat: &mut HostSeat<H>, word: u32) -> u64
        requires here { IsSeatOf self.now seat.old }
        requires word { IsHand word }
        requires keeps { SeatKeeps H.holds (setup_of self.now) seat.old.seat.id (seat_knows seat.old) word HostAct.Load M.changes }
        ensures { TakesSeatStep self.now (seat_knows seat.old) word HostAct.Load M.changes result seat.new }
    {
        self.table
            .shared
            .load::<SeatLooks<H, M>>(&mut seat.seat, word as usize)
    }

    fn step<M: HostPlay<H>>(
        &self,
        seat: &mut Seat<(), View<H::Part>>,
        word: u32,
        act: HostAct,
    ) -> u64
        requires here { seat.old.table_id ≡ table_of self.now }
        requires word { word < (table_of self.now).words }
        requires keeps { HostKeeps H.holds (setup_of self.now) seat.old.id seat.old.me.0 word act M.changes }
        ensures { StepsOnWord (table_of self.now) seat.old word act M.changes result seat.new }
    {
        let shared = &self.table.shared;
        let place = word as usize;
        match act {
            HostAct::Load => shared.load::<HostLoads<H, M>>(seat, place),
            HostAct::Store { value } => shared.swap::<HostStores<H, M>>(seat, place, value),
            HostAct::Exchange { from, to } => {
                shared.compare_exchange::<HostExchanges<H, M>>(seat, place, from, to)
            }
            HostAct::Add { by } => shared.fetch_add::<HostAdds<H, M>>(seat, place, by),
            HostAct::Subtract { by } => shared.fetch_sub::<HostSubtracts<H, M>>(seat, place, by),
        }
    }
}
