//! What one line of a schedule says.
ghost use Rattle.std.specs.Prelude.{◌≡◌};
ghost use Rattle.trace_lines.specs.TextLines.{fields_of};
ghost use Rattle.trace_schedule.specs.ScheduleGrammar.{parsed_by, says, number_of_32_bits, start_in, window_in, clock_in, seat_in, two_numbers_in};

use crate::reading::word::Word;
use crate::{TraceKind, Turn, Version};
use smr_core::{ClockConfig, Step};
use trace_lines::{
    next_field, no_field, number_in, number_within, one_field, ranged, three_fields, two_fields,
};

/// The most seats of a clock.
const MOST_SEATS: u64 = 64;

/// The least window of a clock.
const LEAST_WINDOW: u64 = 4;

/// The greatest window of a clock.
const GREATEST_WINDOW: u64 = 1 << 30;

/// What a line says behind the head.
#[derive(Clone, Copy)]
pub enum ParsedLine {
    /// The numbers of the clock.
    Clock { config: ClockConfig },
    /// It takes steps.
    Does { turn: Turn },
    End,
}

impl ParsedLine {
    /// What a line says, or the first thing that is wrong with it.
    pub fn by_line(version: Version, clocked: bool, line: &[u8]) -> Result<ParsedLine, TraceKind>
        ensures { result ≡ says version clocked (fields_of line.now) }
    {
        let Some((first, rest)) = next_field(line) else {
            return Err(TraceKind::Word);
        };
        let word = Word::named(first).ok_or(TraceKind::Word)?;
        if !word.is_known(version) {
            return Err(TraceKind::Word);
        }
        if !word.fits_place(clocked) {
            return Err(TraceKind::Place);
        }
        ParsedLine::by_word(version, word, rest)
    }

    /// What a line says by its word and what stands behind it.
    fn by_word(version: Version, word: Word, rest: &[u8]) -> Result<ParsedLine, TraceKind>
        ensures { result ≡ parsed_by version word (fields_of rest.now) }
    {
        match word {
            Word::Smr => Err(TraceKind::Place),
            Word::End => {
                no_field(rest)?;
                Ok(ParsedLine::End)
            }
            Word::Clock => {
                let config = clock_in(rest)?;
                Ok(ParsedLine::Clock { config })
            }
            Word::Seat(word) => {
                let seat = seat_in(rest)?;
                Ok(ParsedLine::Does {
                    turn: word.turn(version, seat),
                })
            }
            Word::Pair(word) => {
                let (seat, second) = two_numbers_in(rest)?;
                Ok(ParsedLine::Does {
                    turn: word.turn(seat, second),
                })
            }
        }
    }
}

/// The numbers of a clock.
fn clock_in(rest: &[u8]) -> Result<ClockConfig, TraceKind>
    ensures { result ≡ clock_in (fields_of rest.now) }
{
    let (seats, start, window) = three_fields(rest)?;
    Ok(ClockConfig {
        seats: number_within(seats, 1, MOST_SEATS)? as u32,
        start: start_in(start)?,
        window: window_in(window)?,
    })
}

/// Where both sequences begin.
pub fn start_in(field: &[u8]) -> Result<u64, TraceKind>
    ensures { result ≡ start_in field.now }
{
    let number = number_in(field)?;
    ranged(number % 2 == 1 && number < 1 << 63, number)
}

/// How far the write sequence may go above the read sequence.
pub fn window_in(field: &[u8]) -> Result<u64, TraceKind>
    ensures { result ≡ window_in field.now }
{
    let number = number_in(field)?;
    ranged(
        number % 2 == 0 && LEAST_WINDOW <= number && number <= GREATEST_WINDOW,
        number,
    )
}

/// The one number that there is.
fn seat_in(rest: &[u8]) -> Result<u32, TraceKind>
    ensures { result ≡ seat_in (fields_of rest.now) }
{
    number_of_32_bits(one_field(rest)?)
}

/// The two numbers that there are.
fn two_numbers_in(rest: &[u8]) -> Result<(u32, u32), TraceKind>
    ensures { result ≡ two_numbers_in (fields_of rest.now) }
{
    let (first, second) = two_fields(rest)?;
    let first = number_of_32_bits(first)?;
    let second = number_of_32_bits(second)?;
    Ok((first, second))
}

/// A holder's number, or a tag.
fn number_of_32_bits(field: &[u8]) -> Result<u32, TraceKind>
    ensures { result ≡ number_of_32_bits field.now }
{
    let number = number_within(field, 0, u64::from(u32::MAX))?;
    Ok(number as u32)
}
