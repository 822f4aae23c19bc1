//! Arithmetic of the clock's hands, the places of its words in a list of words, and sets of seats as the bits of a word.
//!
//! The rules are FreeBSD's smr(9) where a comment doesn't say *own*. Each word has a cache line to itself, so that no thread's stores slow
//! down loads of another word. A host may have words of its own behind them. Bit k of a set is seat k.
ghost use Rattle.std.specs.Prelude.{◌≡◌, ◌^◌, ◌<◌, ◌≤◌, IfOk, ◌-◌};
ghost use Rattle.smr_core.specs.ClockStep as clock;
ghost use Rattle.smr_core.specs.ClockState.{seat_place, presence_place, place_after_seats, opening_words, all_seats, is_present, next_present};

use crate::clock_core::ClockConfig;
use smr_seq::Seq;
use std::alloc::{AllocError, Global};

/// Whether two more than this write sequence would be past the end of its range, 2^63 - 1: own.
pub fn is_spent(write: u64) -> bool
    requires { write < 2 ^ 63 }
    ensures { result ≡ clock.is_spent write }
{
    write + 2 >= 1 << 63
}

/// Whether two more than this write sequence would be above this read sequence by more than the window: own.
pub fn is_too_far(config: ClockConfig, read: u64, write: u64) -> bool
    requires { write < 2 ^ 63 }
    ensures { result ≡ clock.is_too_far config read write }
{
    config.window < (write + 2).saturating_sub(read)
}

/// Whether an enter that loaded the one write sequence, and then finds the other, is too late: own.
pub fn is_overtaken(config: ClockConfig, loaded: u64, found: u64) -> bool
    ensures { result ≡ clock.is_overtaken config loaded found }
{
    config.window <= found.saturating_sub(loaded)
}

/// A word after a compare-exchange that found this.
pub fn exchanged(old: u64, new: u64, found: u64) -> u64
    ensures { result ≡ clock.exchanged old new found }
{
    if found == old { new } else { found }
}

/// The least mark of a poll that loaded these hands, after it found this word of a seat. An enter that
/// is older than the read sequence counts as one at the read sequence; a word of 0 or without a reading counts
/// for nothing.
pub fn least_after(read: u64, write: u64, least: u64, word: u32) -> u64
    ensures { result ≡ clock.least_after read write least word }
{
    if word == 0 {
        return least;
    }
    // An open section's mark is at or above both its word's hand and `read`, so the read sequence may go to the greater of the two.
    // If the word has no reading, the section's mark is above `write`, and the least mark never is.
    match (Seq { raw: word }).read(write) {
        Some(entered) => least.min(entered.max(read)),
        None => least,
    }
}

/// How many places a cache line has: 64 bytes are eight words.
const LINE: usize = 8;

/// Where the write sequence stands.
pub const WRITE_PLACE: usize = 0;

/// Where the read sequence stands.
pub const READ_PLACE: usize = LINE;

/// Where the word of a seat stands.
pub fn seat_place(seat: u32) -> usize
    ensures { result ≡ seat_place seat }
{
    LINE * (2 + seat as usize)
}

/// Where the presence word stands.
pub fn presence_place(config: ClockConfig) -> usize
    ensures { result ≡ presence_place config }
{
    LINE * (2 + config.seats as usize)
}

/// How many places the clock's own words take: the first place behind them, which begins a line too.
pub fn place_after_seats(config: ClockConfig) -> usize
    ensures { result ≡ place_after_seats config }
{
    LINE * (3 + config.seats as usize)
}

/// The words before any step: both sequences at the start, the word of every seat 0, and all seats
/// present.
pub fn opening_words(alloc: Global, config: ClockConfig) -> Result<Vec<u64>, AllocError>
    requires { config.seats ≤ 64 }
    ensures { IfOk result (λ words. words.items ≡ opening_words config) }
{
    let mut words = vec![in alloc; 0; place_after_seats(config)]?;
    words[WRITE_PLACE] = config.start;
    words[READ_PLACE] = config.start;
    words[presence_place(config)] = all_seats(config);
    Ok(words)
}

/// The word with the bit of this seat alone, which is below 64.
pub fn seat_bit(seat: u32) -> u64
    requires { seat < 64 }
    ensures { result ≡ 2 ^ seat }
{
    1 << seat
}

/// The word with all bits but that of this seat, which is below 64.
pub fn all_but(seat: u32) -> u64
    requires { seat < 64 }
    ensures { result ≡ 2 ^ 64 - 1 - 2 ^ seat }
{
    !seat_bit(seat)
}

/// The set of all seats.
pub fn all_seats(config: ClockConfig) -> u64
    requires { config.seats ≤ 64 }
    ensures { result ≡ all_seats config }
{
    match config.seats {
        0 => 0,
        seats => u64::MAX >> (64 - seats),
    }
}

/// The set without this seat, which is below 64.
pub fn without(seat: u32, seats: u64) -> u64
    requires { seat < 64 }
    ensures { result ≡ clock.without seat seats }
{
    seats & all_but(seat)
}

/// The set with this seat, which is below 64.
pub fn with_seat(seat: u32, seats: u64) -> u64
    requires { seat < 64 }
    ensures { result ≡ clock.with_seat seat seats }
{
    seats | seat_bit(seat)
}

/// Whether the seat, which is below 64, is in the set.
pub fn is_present(seats: u64, seat: u32) -> bool
    requires { seat < 64 }
    ensures { result ≡ is_present seats seat }
{
    seats >> seat & 1 == 1
}

/// The least seat from this one on that is in the set, and the count of seats where none is.
pub fn next_present(config: ClockConfig, seats: u64, from: u32) -> u32
    requires { config.seats ≤ 64 }
    ensures { result ≡ next_present config seats from }
{
    if from >= config.seats {
        return from;
    }
    let rest = seats & (u64::MAX << from);
    config.seats.min(rest.trailing_zeros())
}
