//! The word that a field is, by a table of words.
ghost use Rattle.std.specs.Prelude.{◌≡◌, map};
ghost use Rattle.trace_schedule.specs.Words.{named_in};
ghost use Rattle.trace_schedule.specs.ScheduleGrammar.{word_named, is_new, is_known, fits_place, seat_turn, pair_turn};

use crate::{Turn, Version};
use smr_core::Step;

/// What the first row of this field's text says, or None where no row has it.
pub fn named_in<W: Copy>(mut table: &[(&[u8], W)], field: &[u8]) -> Option<W>
    ensures { result ≡ named_in (map (λ row. (row.0.now, row.1)) table.entry.now) field.now }
{
    while let [row, rest @ ..] = table {
        if field == row.0 {
            return Some(row.1);
        }
        table = rest;
    }
    None
}

/// The word with which a line of a schedule begins.
#[derive(Clone, Copy)]
pub enum Word {
    Smr,
    Clock,
    /// A word behind which a holder's number stands.
    Seat(SeatWord),
    /// A word behind which a holder's number stands, and a tag or another holder's number.
    Pair(PairWord),
    End,
}

#[derive(Clone, Copy)]
pub enum SeatWord {
    Load,
    Store,
    Check,
    Exit,
    Leave,
    Come,
    Aread,
    Aload,
    Aswap,
    Pload,
    Ppres,
    Pscan,
    Pswap,
    Note,
    Enter,
    Advance,
}

#[derive(Clone, Copy)]
pub enum PairWord {
    Pread,
    Absorb,
    Poll,
}

/// The words of lines.
const WORDS: [(&[u8], Word); 22] = [
    (b"end", Word::End),
    (b"smr", Word::Smr),
    (b"clock", Word::Clock),
    (b"load", Word::Seat(SeatWord::Load)),
    (b"store", Word::Seat(SeatWord::Store)),
    (b"check", Word::Seat(SeatWord::Check)),
    (b"exit", Word::Seat(SeatWord::Exit)),
    (b"leave", Word::Seat(SeatWord::Leave)),
    (b"come", Word::Seat(SeatWord::Come)),
    (b"aread", Word::Seat(SeatWord::Aread)),
    (b"aload", Word::Seat(SeatWord::Aload)),
    (b"aswap", Word::Seat(SeatWord::Aswap)),
    (b"pread", Word::Pair(PairWord::Pread)),
    (b"pload", Word::Seat(SeatWord::Pload)),
    (b"ppres", Word::Seat(SeatWord::Ppres)),
    (b"pscan", Word::Seat(SeatWord::Pscan)),
    (b"pswap", Word::Seat(SeatWord::Pswap)),
    (b"note", Word::Seat(SeatWord::Note)),
    (b"absorb", Word::Pair(PairWord::Absorb)),
    (b"enter", Word::Seat(SeatWord::Enter)),
    (b"advance", Word::Seat(SeatWord::Advance)),
    (b"poll", Word::Pair(PairWord::Poll)),
];

impl Word {
    /// The word that a field is.
    pub fn named(field: &[u8]) -> Option<Word>
        ensures { result ≡ word_named field.now }
    {
        named_in(&WORDS, field)
    }

    /// Whether it is a word for seats that leave and come.
    fn is_new(self) -> bool
        ensures { result ≡ is_new self }
    {
        match self {
            Word::Seat(SeatWord::Leave) => true,
            Word::Seat(SeatWord::Come) => true,
            Word::Seat(SeatWord::Ppres) => true,
            _ => false,
        }
    }

    /// Whether the version has this word: version 1 has none for seats that leave and come.
    pub fn is_known(self, version: Version) -> bool
        ensures { result ≡ is_known version self }
    {
        match version {
            Version::One => !self.is_new(),
            Version::Two => true,
        }
    }

    /// Whether it may stand behind the head: one `clock` line first, and all others behind it.
    pub fn fits_place(self, clocked: bool) -> bool
        ensures { result ≡ fits_place clocked self }
    {
        match self {
            Word::Smr => false,
            Word::Clock => !clocked,
            _ => clocked,
        }
    }
}

impl SeatWord {
    /// What the holder of this number does.
    pub fn turn(self, version: Version, seat: u32) -> Turn
        ensures { result ≡ seat_turn version self seat }
    {
        let step = match self {
            SeatWord::Load => Step::EnterLoad { seat },
            SeatWord::Store => Step::EnterStore { seat },
            SeatWord::Check => Step::EnterCheck { seat },
            SeatWord::Exit => Step::Clear { seat },
            SeatWord::Leave => Step::Leave { seat },
            SeatWord::Come => Step::Come { seat },
            SeatWord::Aread => Step::AdvanceRead { seat },
            SeatWord::Aload => Step::AdvanceLoad { seat },
            SeatWord::Aswap => Step::AdvanceSwap { seat },
            SeatWord::Pload => match version {
                Version::One => return Turn::PollLoads { seat },
                Version::Two => Step::PollLoad { seat },
            },
            SeatWord::Ppres => Step::PollPresent { seat },
            SeatWord::Pscan => Step::PollScan { seat },
            SeatWord::Pswap => Step::PollSwap { seat },
            SeatWord::Note => Step::Note { seat },
            SeatWord::Enter => return Turn::Enter { seat },
            SeatWord::Advance => return Turn::Advance { seat },
        };
        Turn::One { step }
    }
}

impl PairWord {
    /// What the holder of this number does with the tag, or the other holder, of the second number.
    pub fn turn(self, seat: u32, second: u32) -> Turn
        ensures { result ≡ pair_turn self seat second }
    {
        let step = match self {
            PairWord::Pread => Step::PollRead { seat, tag: second },
            PairWord::Absorb => Step::Absorb { seat, note: second },
            PairWord::Poll => return Turn::Poll { seat, tag: second },
        };
        Turn::One { step }
    }
}
