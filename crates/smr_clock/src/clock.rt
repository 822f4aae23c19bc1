ghost use Rattle.std.specs.Prelude.{◌≡◌, ◌≤◌, IfOk};
ghost use Rattle.std.specs.Arc.{arc_value};
ghost use Rattle.smr_core.specs.ClockState.{IsInRange, place_after_seats};

use crate::host::{Host, Ruled};
use crate::pass::Pass;
use crate::view::{ReadLooks, View, WriteLooks};
use atomic_table::Table;
use smr_core::ClockConfig;
use smr_core::hands::{READ_PLACE, WRITE_PLACE, place_after_seats};
use std::alloc::{AllocError, Global};
use std::error::Error;
use std::fmt;
use std::sync::Arc;

/// What a clock is made with: its numbers, and two numbers of its host's own.
#[derive(Clone, Copy, Debug, PartialEq, Eq)]
pub struct Setup {
    pub config: ClockConfig,
    pub plan: (u32, u32),
}

/// A handle of a clock.
#[derive(Drop)]
pub struct Clock<H: Host> {
    pub(crate) table: Arc<Table<(), View<H::Part>, Setup, Ruled<H>, Global>>,
    pub(crate) setup: Setup,
    ghost in_range: { IsInRange setup.config },
    ghost keyed: { (arc_value table).shared.key ≡ setup },
    ghost worded: { place_after_seats setup.config ≤ (arc_value table).shared.table_id.words },
}

/// No memory, or too many handles.
#[derive(Clone, Copy, Debug, PartialEq, Eq)]
pub struct Memory;

impl fmt::Display for Memory {
    fn fmt<W: fmt::Write>(&self, f: &mut fmt::Formatter<W>) -> fmt::Result {
        f.write_str("out of memory, or too many handles")
    }
}

impl Error for Memory {}

impl From<AllocError> for Memory {
    ghost from_gives = { λ _ _. Unit {0} };

    fn from(_: AllocError) -> Self {
        Memory
    }
}

/// Handles, and what a clock was made with.
impl<H: Host> Clock<H> {
    ghost use Rattle.smr_clock.specs.Belongs.{clock_id};
    ghost use Rattle.smr_clock.specs.Belongs.{setup_of};
    /// Returns a second handle of the same clock. Every pass, note and seat of the one belongs to the other too.
    ///
    /// # Errors
    ///
    /// `Memory`: out of memory, or too many handles.
    pub fn share(&self, _alloc: Global) -> Result<Self, Memory>
        ensures { IfOk result (λ clock. clock_id clock ≡ clock_id self.now) }
    {
        Ok(Clock {
            table: Arc::try_clone(&self.table)?,
            setup: self.setup,
        })
    }

    /// Returns the count of seats, 1 to 64.
    pub fn seats(&self) -> u32
        ensures { result ≡ (setup_of self.now).config.seats }
    {
        self.setup.config.seats
    }

    /// Returns the place of the host's first word, after the clock's own words.
    pub fn host_place(&self) -> u32
        ensures { result ≡ place_after_seats (setup_of self.now).config }
    {
        place_after_seats(self.setup.config) as u32
    }

    /// Returns the host's two numbers.
    pub fn plan(&self) -> (u32, u32)
        ensures { result ≡ (setup_of self.now).plan }
    {
        self.setup.plan
    }
}

/// Looks at the sequences.
impl<H: Host> Clock<H> {
    ghost use Rattle.smr_clock.specs.Steps.{read_looking};
    ghost use Rattle.smr_clock.specs.Calls.{FindsHands};
    ghost use Rattle.smr_clock.specs.Calls.{LooksAtWrite};
    ghost use Rattle.smr_clock.specs.Calls.{FindsRead};
    ghost use Rattle.smr_clock.specs.Belongs.{holder};
    ghost use Rattle.smr_clock.specs.Belongs.{view};
    ghost use Rattle.smr_clock.specs.Belongs.{IsPassOf};
    ghost use Rattle.smr_clock.specs.Belongs.{clock_id};
    /// Returns the read sequence and then the write sequence, each by one load. The read sequence is never above the write sequence.
    pub fn hands(&self, pass: &mut Pass<H>) -> (u64, u64)
        requires here { IsPassOf self.now pass.old }
        ensures { FindsHands self.now pass.old result pass.new }
    {
        let read = self.look_at_read_hand(pass);
        let write = self.look_at_write_hand(pass);
        (read, write)
    }

    fn look_at_read_hand(&self, pass: &mut Pass<H>) -> u64
        requires here { IsPassOf self.now pass.old }
        ensures { FindsRead (clock_id self.now) (holder pass.old) result (read_looking (view pass.old) result) pass.new.seat }
    {
        self.table
            .shared
            .load::<ReadLooks>(&mut pass.seat, READ_PLACE)
    }

    pub(crate) fn look_at_write_hand(&self, pass: &mut Pass<H>) -> u64
        requires here { IsPassOf self.now pass.old }
        ensures { LooksAtWrite (clock_id self.now) (view pass.old) result pass.new.seat }
    {
        self.table
            .shared
            .load::<WriteLooks>(&mut pass.seat, WRITE_PLACE)
    }
}
