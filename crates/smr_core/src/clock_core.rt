ghost use Rattle.std.specs.Prelude.{IfOk, IfErr, ◌≡◌, nat_lt, if◌then◌else◌};
ghost use Rattle.smr_core.specs.Making.{IsMadeWith, RefusesNumbers};
ghost use Rattle.smr_core.specs.ClockState.{read_hand, write_hand, seat_word};
ghost use Rattle.smr_core.specs.CoreState.{CoreLaw, Opens};
ghost use Rattle.smr_core.specs.CoreStep.{TakesStep};

use crate::hands::{READ_PLACE, WRITE_PLACE, seat_place};
use crate::steps::Works;
use crate::turns::{Seen, Step, StepRefused};
use std::alloc::{AllocError, Global};
use std::error::Error;
use std::fmt;
use std::marker::Model;

/// The numbers that a clock is made with.
///
/// `start`, where both sequences begin, is odd and below 2^63. `window`, how far the write sequence may go
/// above the read sequence, is even and from 4 to 2^30. `seats` is from 1 to 64.
#[derive(Clone, Copy, Debug, PartialEq, Eq)]
pub struct ClockConfig {
    pub start: u64,
    pub window: u64,
    pub seats: u32,
}

/// The most seats of a clock.
const MOST_SEATS: u32 = 64;

/// The least window of a clock.
const LEAST_WINDOW: u64 = 4;

/// The greatest window of a clock. Twice it is 2^31, the reach of a reading: a section has loaded
/// less than twice the window below the write sequence, so its word is read exactly.
const GREATEST_WINDOW: u64 = 1 << 30;

impl ClockConfig {
    /// The numbers, where each is in its range: seats, start and window are tested in this order.
    pub fn checked(seats: u32, start: u64, window: u64) -> Result<Self, CoreRefused>
        ensures made { IfOk result (IsMadeWith (record { start = start; window = window; seats = seats })) }
        ensures refused { IfErr result (RefusesNumbers (record { start = start; window = window; seats = seats })) }
    {
        if seats < 1 || seats > MOST_SEATS {
            return Err(CoreRefused::Seats { seats });
        }
        if start % 2 == 0 {
            return Err(CoreRefused::Even { start });
        }
        if start >= 1 << 63 {
            return Err(CoreRefused::High { start });
        }
        if window % 2 == 1 || window < LEAST_WINDOW || window > GREATEST_WINDOW {
            return Err(CoreRefused::Window { window });
        }
        Ok(ClockConfig {
            start,
            window,
            seats,
        })
    }
}

/// Why no core was made.
#[derive(Clone, Copy, Debug, PartialEq, Eq)]
pub enum CoreRefused {
    /// Not from 1 to 64 seats.
    Seats { seats: u32 },
    /// The start is even.
    Even { start: u64 },
    /// The start is above 2^63 - 1.
    High { start: u64 },
    /// The window is odd, below 4 or above 2^30.
    Window { window: u64 },
    Memory,
}

impl fmt::Display for CoreRefused {
    fn fmt<W: fmt::Write>(&self, f: &mut fmt::Formatter<W>) -> fmt::Result {
        match self {
            CoreRefused::Seats { seats } => write!(f, "{seats} seats: a clock has from 1 to 64"),
            CoreRefused::Even { start } => write!(f, "start {start} is even: hands are odd"),
            CoreRefused::High { start } => write!(f, "start {start} is 2^63 or more"),
            CoreRefused::Window { window } => {
                write!(f, "window {window} is no even number from 4 to 2^30")
            }
            CoreRefused::Memory => f.write_str("out of memory"),
        }
    }
}

impl Error for CoreRefused {}

impl From<AllocError> for CoreRefused {
    ghost use Rattle.smr_core.specs.declared.clock_core.CoreRefused.{CoreRefused};

    ghost from_gives = { λ e refused. refused ≡ CoreRefused.Memory };

    fn from(_: AllocError) -> Self {
        CoreRefused::Memory
    }
}

/// The reclamation clock as plain data: one thread takes its steps one at a time, in any order.
#[derive(Drop)]
pub struct Core {
    works: Works,
}

impl Model for Core {
    ghost use Rattle.smr_core.specs.CoreState.{State, CoreLaw};

    ghost Value = { State };

    ghost use Rattle.smr_core.specs.Works.{state_of};

    ghost view = { λ c. state_of c.works };

    ghost invariant = { λ c. CoreLaw (state_of c.works) };
}

impl Core {
    /// Both sequences at `start`, every seat's word 0, and a worker for each seat.
    pub fn new(alloc: Global, seats: u32, start: u64, window: u64) -> Result<Self, CoreRefused>
        ensures opened { IfOk result (Opens (record { start = start; window = window; seats = seats })) }
        ensures refused { IfErr result (RefusesNumbers (record { start = start; window = window; seats = seats })) }
    {
        let config = ClockConfig::checked(seats, start, window)?;
        let works = Works::open(alloc, config)?;
        Ok(Core { works })
    }

    /// Takes one step, or refuses it. Only a note takes memory.
    pub fn apply(&mut self, _alloc: Global, step: Step) -> Result<Seen, StepRefused>
        ensures step { TakesStep self.old step result self.new }
        ensures law { CoreLaw self.new }
    {
        self.works.apply(step)
    }

    /// How many seats there are, 1 to 64: their workers, or vacancies, are the holders below that number.
    pub fn seats(&self) -> u32
        ensures value { result ≡ self.now.config.seats }
        ensures law { CoreLaw self.now }
    {
        self.works.config.seats
    }

    /// The read sequence: odd, below 2^63.
    pub fn read_hand(&self) -> u64
        ensures value { result ≡ read_hand self.now.words }
        ensures law { CoreLaw self.now }
    {
        self.works.words[READ_PLACE]
    }

    /// The write sequence: odd, below 2^63.
    pub fn write_hand(&self) -> u64
        ensures value { result ≡ write_hand self.now.words }
        ensures law { CoreLaw self.now }
    {
        self.works.words[WRITE_PLACE]
    }

    /// The word of a seat, and None for a number that is no seat.
    pub fn word(&self, seat: u32) -> Option<u32>
        ensures value { result ≡ (if nat_lt seat self.now.config.seats then Some (seat_word self.now.words seat) else None) }
        ensures law { CoreLaw self.now }
    {
        if seat < self.works.config.seats {
            Some(self.works.words[seat_place(seat)] as u32)
        } else {
            None
        }
    }
}
