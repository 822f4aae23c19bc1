ghost use Rattle.std.specs.Prelude.{◌≡◌, ◌+◌, ◌*◌, ◌≤◌, ◌<◌, [], ◌∷◌, ◌++◌, IfOk, IfErr, OnOk, replicate};
ghost use Rattle.smr_clock.specs.Belongs.{setup_of};
ghost use Rattle.smr_clock.specs.Making.{setup};
ghost use Rattle.smr_objects.specs.Opening.{AreInRange, AreAllCells, HasCellsFrom, IsOpenCell, Opened, RefusesObjects};

use crate::cell::{Cell, SlotState};
use crate::hold::HoldRefused;
use crate::objects::{Objects, WORDS};
use listed::Listed;
use smr_clock::{Clock, HostSeat, HostSplit, Memory, Pass};
use smr_core::ClockConfig;
use std::alloc::{AllocError, Global};

/// A list of passes.
pub type PassList = Listed<Pass<Objects>>;

/// A list of cells.
pub type CellList = Listed<Cell>;

/// A clock of objects as it begins.
#[derive(Drop)]
pub struct HoldOpened {
    pub clock: Clock<Objects>,
    /// One a seat, in order of number.
    pub passes: PassList,
    /// In order of number.
    pub cells: CellList,
}

/// The most cells, and the most slots.
const MOST_CELLS: u32 = 4096;

const MOST_SLOTS: u32 = 16;

/// The first cell gets a seat of its own.
struct GivesCell;

impl HostSplit<Objects> for GivesCell {
    ghost use Rattle.smr_objects.specs.Moving.{rest_of_cells, first_cell};

    ghost left = { rest_of_cells };

    ghost right = { first_cell };
}

// Tests the numbers, in order.
fn check(config: (u32, u64, u64), cells: u32, slots: u32) -> Result<(), HoldRefused>
    ensures in_range { OnOk result (AreInRange (setup config.0 config.1 config.2 (cells, slots)).config cells slots) }
    ensures refused { IfErr result (RefusesObjects (setup config.0 config.1 config.2 (cells, slots)).config cells slots) }
{
    if cells < 1 || cells > MOST_CELLS {
        return Err(HoldRefused::Cells { cells });
    }
    if slots < 2 || slots > MOST_SLOTS {
        return Err(HoldRefused::Slots { slots });
    }
    if let Err(refused) = ClockConfig::checked(config.0, config.1, config.2) {
        return Err(HoldRefused::Clock { refused });
    }
    Ok(())
}

// The objects' words: zeros, since each cell begins without a record and with closed slots.
fn opening_words(alloc: Global, cells: u32) -> Result<Vec<u64>, AllocError>
    requires few { cells ≤ 4096 }
    ensures { IfOk result (λ words. words.items ≡ replicate (48 * cells) 0) }
{
    vec![in alloc; 0; (WORDS * cells) as usize]
}

/// Splits the next cell off.
fn split_cell(clock: &Clock<Objects>, first: &mut HostSeat<Objects>, number: u32) -> Cell
    requires number { number < (setup_of clock.now).plan.0 }
    requires has { HasCellsFrom clock.now number first.old }
    ensures rest { HasCellsFrom clock.now (number + 1) first.new }
    ensures cell { IsOpenCell clock.now number result }
{
    let seat = clock.seat_split::<GivesCell>(first);
    Cell {
        seat,
        number,
        version: 0,
        current: None,
        states: [SlotState::Closed; 16],
    }
}

fn push_cell(cells: &mut Vec<Cell>, cell: Cell) -> Result<(), Memory>
    ensures { IfOk result (λ _. cells.new.items ≡ cells.old.items ++ cell ∷ []) }
{
    match cells.push(cell) {
        Ok(()) => Ok(()),
        Err(_) => Err(Memory),
    }
}

// Splits all cells off the first seat.
fn split_cells(
    alloc: Global,
    clock: &Clock<Objects>,
    first: &mut HostSeat<Objects>,
) -> Result<Vec<Cell>, Memory>
    requires { HasCellsFrom clock.now 0 first.old }
    ensures { IfOk result (λ cells. AreAllCells clock.now cells.items) }
{
    let mut cells = Vec::new(alloc);
    for number in 0..clock.plan().0 {
        let cell = split_cell(clock, first, number);
        push_cell(&mut cells, cell)?;
    }
    Ok(cells)
}

/// Makes a clock of objects with its passes and its cells. Nothing is published, and every slot is closed. Both sequences
/// are at `start`. No other call of objects allocates.
///
/// # Arguments
///
/// - `seats`: the count of seats, 1 to 64.
/// - `start`: where both sequences begin, an odd number, at most 2^63 - 1.
/// - `window`: how far the write sequence may be ahead of the read sequence, an even number from 4 to 2^30.
/// - `cells`: the count of cells, 1 to 4,096.
/// - `slots`: the count of slots of each cell, 2 to 16.
///
/// # Errors
///
/// - `Cells`, `Slots`: that number is out of its range.
/// - `Clock`: a number of the clock is out of its range, as for `Clock::new`.
/// - `Memory`: out of memory.
pub fn make(
    alloc: Global,
    seats: u32,
    start: u64,
    window: u64,
    cells: u32,
    slots: u32,
) -> Result<HoldOpened, HoldRefused>
    ensures opened { IfOk result (λ opened. Opened (setup seats start window (cells, slots)) opened.clock opened.passes opened.cells) }
    ensures refused { IfErr result (RefusesObjects (setup seats start window (cells, slots)).config cells slots) }
{
    check((seats, start, window), cells, slots)?;
    let Ok(more) = opening_words(alloc, cells) else {
        return Err(HoldRefused::Memory);
    };
    let plan = (cells, slots);
    let Ok((clock, passes, mut first)) = Clock::<Objects>::hosted(
        alloc, seats, start, window, more, plan,
    ) else {
        return Err(HoldRefused::Memory);
    };
    let Ok(cells) = split_cells(alloc, &clock, &mut first) else {
        return Err(HoldRefused::Memory);
    };
    Ok(HoldOpened {
        clock,
        passes: Listed::from_vec(passes),
        cells: Listed::from_vec(cells),
    })
}
