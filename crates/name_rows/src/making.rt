ghost use Rattle.std.specs.Prelude.{◌≡◌, IfOk, ◌^◌, ◌*◌, ◌++◌, [], ◌∷◌, IfErr, OnOk, replicate};
ghost use Rattle.name_rows.specs.Records.{row_place};
ghost use Rattle.name_rows.specs.Opening.{CanSplitRow, SplitsRow, CanOpenRow, IsOpenRow, RefusesNames, FitsPlan, AcceptsNames, AreFreshEntries, IsOpenedWith, CanSplitRows, SplitsRows};
ghost use Rattle.smr_clock.specs.Making.{setup};

use crate::entry::{EntryState, Owned};
use crate::names::{Names, row_place};
use crate::root::Root;
use crate::row::Row;
use listed::Listed;
use smr_clock::{Clock, ClockRefused, HostAct, HostPlay, HostSeat, HostSplit, Memory, Pass};
use smr_core::ClockConfig;
use std::alloc::{AllocError, Global};

/// Why no names were made. The tests are made in this order.
#[derive(Clone, Copy, Debug, PartialEq, Eq)]
pub enum NamesRefused {
    /// A number of the clock is out of range.
    Clock { refused: ClockRefused },
    /// Not from 1 to 4,096 rows.
    Rows { rows: u32 },
    /// More than 65,536 entries.
    Entries { entries: u32 },
    /// The version is above 2^44 - 1.
    Version { version: u64 },
    Memory,
}

/// A list of passes.
pub type PassList = Listed<Pass<Names>>;

/// A list of rows.
pub type RowList = Listed<Row>;

/// A clock of names as it begins.
#[derive(Drop)]
pub struct Opened {
    pub clock: Clock<Names>,
    /// One a seat, in order of number.
    pub passes: PassList,
    /// In order of number.
    pub rows: RowList,
    pub root: Root,
}

// The steps of a making.

/// The first row gets a seat of its own.
pub(crate) struct GivesRow;

impl HostSplit<Names> for GivesRow {
    ghost use Rattle.name_rows.specs.Moving.{rest_of_rows, first_row};

    ghost left = { rest_of_rows };

    ghost right = { first_row };
}

/// The first load of a row's word.
struct Opens;

impl HostPlay<Names> for Opens {
    ghost use Rattle.name_rows.specs.Linking.{opens};

    ghost changes = { opens };
}

/// Splits the next row off.
pub(crate) fn split_row(
    clock: &Clock<Names>,
    root: &mut HostSeat<Names>,
    number: u32,
) -> HostSeat<Names>
    requires { CanSplitRow clock.now root.old number }
    ensures { SplitsRow clock.now root.old number result root.new }
{
    clock.seat_split::<GivesRow>(root)
}

/// The row of a seat that was just split off. Its word spells the opening version: that it spells another, which never
/// happens, is answered as want of memory.
pub(crate) fn open_row(
    clock: &Clock<Names>,
    seat: HostSeat<Names>,
    number: u32,
    version: u64,
) -> Result<Row, Memory>
    requires { CanOpenRow clock.now seat number version }
    ensures { IfOk result (IsOpenRow clock.now number version) }
{
    let mut seat = seat;
    let place = row_place(clock, number);
    let word = clock.seat_step::<Opens>(&mut seat, place, HostAct::Load);
    if word / (1 << 20) != version {
        return Err(Memory);
    }
    Ok(Row {
        seat,
        number,
        version,
        guest: None,
    })
}

/// The most rows, and the most entries.
const MOST_ROWS: u32 = 4096;

const MOST_ENTRIES: u32 = 65536;

// Tests the numbers, in order.
fn check(config: (u32, u64, u64), rows: u32, entries: u32, version: u64) -> Result<(), NamesRefused>
    ensures accepted { OnOk result (AcceptsNames (setup config.0 config.1 config.2 (rows, entries)).config rows entries version) }
    ensures refused { IfErr result (RefusesNames (setup config.0 config.1 config.2 (rows, entries)).config rows entries version) }
{
    if let Err(refused) = ClockConfig::checked(config.0, config.1, config.2) {
        return Err(NamesRefused::Clock { refused });
    }
    if rows < 1 || rows > MOST_ROWS {
        return Err(NamesRefused::Rows { rows });
    }
    if entries > MOST_ENTRIES {
        return Err(NamesRefused::Entries { entries });
    }
    if version >= 1 << 44 {
        return Err(NamesRefused::Version { version });
    }
    Ok(())
}

// The names' words: each row's at the version, and zeros for the entries.
fn opening_words(
    alloc: Global,
    rows: u32,
    entries: u32,
    version: u64,
) -> Result<Vec<u64>, AllocError>
    requires { FitsPlan rows entries version }
    ensures { IfOk result (λ words. words.items ≡ replicate rows (version * 2 ^ 20) ++ replicate (2 * entries) 0) }
{
    let mut words = vec![in alloc; version * (1 << 20); rows as usize]?;
    words.resize(rows as usize + 2 * entries as usize, 0)?;
    Ok(words)
}

// The root's table of clean entries.
fn fresh_entries(alloc: Global, entries: u32) -> Result<Vec<Option<Owned>>, AllocError>
    ensures { IfOk result (λ kept. AreFreshEntries entries kept.items) }
{
    let mut kept = Vec::new(alloc);
    for entry in 0..entries {
        kept.push(Some(Owned {
            entry,
            key: 0,
            value: 0,
            state: EntryState::Clean,
        }))?;
    }
    Ok(kept)
}

fn push_row(rows: &mut Vec<Row>, row: Row) -> Result<(), Memory>
    ensures { IfOk result (λ _. rows.new.items ≡ rows.old.items ++ row ∷ []) }
{
    match rows.push(row) {
        Ok(()) => Ok(()),
        Err(_) => Err(Memory),
    }
}

// Splits all rows off the root's seat.
fn split_rows(
    alloc: Global,
    clock: &Clock<Names>,
    root: &mut HostSeat<Names>,
    version: u64,
) -> Result<Vec<Row>, Memory>
    requires { CanSplitRows clock.now root.old version }
    ensures { IfOk result (λ rows. SplitsRows clock.now root.old version rows.items root.new) }
{
    let mut rows = Vec::new(alloc);
    for number in 0..clock.plan().0 {
        let seat = split_row(clock, root, number);
        let row = open_row(clock, seat, number, version)?;
        push_row(&mut rows, row)?;
    }
    Ok(rows)
}

/// Makes a clock of names with its passes, the rows, and the root. Every row is empty at `version`, and the root has
/// every entry, clean. Both sequences are at `start`. No other call of names allocates.
///
/// # Arguments
///
/// - `seats`: the count of seats, 1 to 64.
/// - `start`: where both sequences begin, an odd number, at most 2^63 - 1.
/// - `window`: how far the write sequence may be ahead of the read sequence, an even number from 4 to 2^30.
/// - `rows`: the count of rows, 1 to 4,096.
/// - `entries`: the count of entries, at most 65,536.
/// - `version`: the version at which each row begins, at most 2^44 - 1.
///
/// # Errors
///
/// - `Clock`: a number of the clock is out of its range, as for `Clock::new`.
/// - `Rows`, `Entries`, `Version`: that number is out of its range.
/// - `Memory`: out of memory.
pub fn make(
    alloc: Global,
    seats: u32,
    start: u64,
    window: u64,
    rows: u32,
    entries: u32,
    version: u64,
) -> Result<Opened, NamesRefused>
    ensures made { IfOk result (IsOpenedWith (setup seats start window (rows, entries)) version) }
    ensures refused { IfErr result (RefusesNames (setup seats start window (rows, entries)).config rows entries version) }
{
    check((seats, start, window), rows, entries, version)?;
    let Ok(more) = opening_words(alloc, rows, entries, version) else {
        return Err(NamesRefused::Memory);
    };
    let Ok(kept) = fresh_entries(alloc, entries) else {
        return Err(NamesRefused::Memory);
    };
    let plan = (rows, entries);
    let Ok((clock, passes, mut seat)) = Clock::<Names>::hosted(
        alloc, seats, start, window, more, plan,
    ) else {
        return Err(NamesRefused::Memory);
    };
    let Ok(rows) = split_rows(alloc, &clock, &mut seat, version) else {
        return Err(NamesRefused::Memory);
    };
    let root = Root { seat, kept };
    Ok(Opened {
        clock,
        passes: Listed::from_vec(passes),
        rows: Listed::from_vec(rows),
        root,
    })
}
