ghost use Rattle.std.specs.Prelude.{◌≡◌, IfOk, IfErr};
ghost use Rattle.smr_core.specs.Turns.{is_hand, is_late, set_in, IsRoomFor, IsSure, TakesTurn};
ghost use Rattle.smr_core.specs.CoreState.{CoreLaw};
ghost use Rattle.smr_core.specs.CoreStep.{IsStep};
ghost use Rattle.smr_core.specs.declared.turns.StepRefused.{StepRefused};
ghost use Rattle.smr_core.specs.declared.turns.Turn.{Turn};

use crate::clock_core::Core;
use crate::hands::is_present;
use crate::holder::{Phase, Task};
use std::alloc::Global;
use std::error::Error;
use std::fmt;
use std::marker::Model;

/// One step of a schedule. `seat` is the number of the holder that takes it.
#[derive(Clone, Copy, Debug, PartialEq, Eq)]
pub enum Step {
    /// An enter loads the write sequence.
    EnterLoad { seat: u32 },
    /// The enter stores the low half of what it loaded in the seat's word.
    EnterStore { seat: u32 },
    /// The enter loads the write sequence again: this is the entry, or the enter is overtaken.
    EnterCheck { seat: u32 },
    /// The section, or the late enter, ends: the seat's word is 0 again.
    Clear { seat: u32 },
    /// The worker of a seat leaves: its bit in the presence word is clear, and the seat is vacant.
    Leave { seat: u32 },
    /// A worker comes to a vacant seat: its bit is set again.
    Come { seat: u32 },
    /// An advance loads the read sequence.
    AdvanceRead { seat: u32 },
    /// The advance loads the write sequence, and ends where there is no room for two more.
    AdvanceLoad { seat: u32 },
    /// The advance compare-exchanges the write sequence.
    AdvanceSwap { seat: u32 },
    /// A poll of a tag loads the read sequence.
    PollRead { seat: u32, tag: u32 },
    /// The poll loads the write sequence, and ends where its tag is known to be expired.
    PollLoad { seat: u32 },
    /// The poll loads the presence word, which is its set of seats.
    PollPresent { seat: u32 },
    /// The poll loads the word of the next seat of its set.
    PollScan { seat: u32 },
    /// The poll compare-exchanges the read sequence.
    PollSwap { seat: u32 },
    /// A worker makes a note, which is the next holder.
    Note { seat: u32 },
    /// A worker takes in a note.
    Absorb { seat: u32, note: u32 },
}

/// Why a step was not taken.
#[derive(Clone, Copy, Debug, PartialEq, Eq)]
pub enum StepRefused {
    /// No holder has the number `seat`: there are `seats` of them.
    NoSeat { seat: u32, seats: u32 },
    /// The holder `seat` is in a phase and a task in which it may not take, or take part in, this step.
    OutOfTurn { seat: u32, phase: Phase, task: Task },
    /// There is no room for a further holder.
    Crowded { holders: u32 },
    Memory,
}

impl fmt::Display for StepRefused {
    fn fmt<W: fmt::Write>(&self, f: &mut fmt::Formatter<W>) -> fmt::Result {
        f.write_str(match self {
            StepRefused::NoSeat { .. } => "no such seat",
            StepRefused::OutOfTurn { .. } => "out of turn",
            StepRefused::Crowded { .. } => "too many holders",
            StepRefused::Memory => "out of memory",
        })
    }
}

impl Error for StepRefused {}

/// A word that a poll has loaded, and the seat whose word it is. No value of it is made: contracts
/// name it.
#[derive(Clone, Copy, Debug, PartialEq, Eq)]
pub struct FoundWord {
    pub seat: u32,
    pub word: u64,
}

/// What a step saw.
#[derive(Clone, Copy, Debug, PartialEq, Eq)]
pub enum Seen {
    /// The hand that was loaded.
    Hand { value: u64 },
    Done,
    /// The section is open. `found` is its entry mark.
    Inside { loaded: u64, found: u64 },
    /// The enter was overtaken: the write sequence moved on by the window or more since it was loaded.
    Late { loaded: u64, found: u64 },
    /// The write sequence is at the end of its range.
    Spent { write: u64 },
    /// The write sequence is as far above the read sequence as the window lets it.
    TooFar { read: u64, write: u64 },
    /// The advance's goal, and whether it was this advance that moved the write sequence there.
    Goal { goal: u64, moved: bool },
    /// The tag is expired. `read` is the read sequence last found.
    Yes { read: u64 },
    /// The poll can't tell.
    No { read: u64 },
    /// The seat whose word was loaded, the word, and the least mark so far.
    Word { seat: u32, word: u32, least: u64 },
    /// The set of the seats that have a worker: bit k is that of the seat k.
    Present { seats: u64 },
    /// The number of the new holder.
    Holder { number: u32 },
}

impl Seen {
    /// Whether the check of an enter found it late.
    pub fn is_late(&self) -> bool
        ensures { result ≡ is_late self.now }
    {
        matches!(self, Seen::Late { .. })
    }

    /// Whether a load found a hand, so that its operation goes on.
    pub fn is_hand(&self) -> bool
        ensures { result ≡ is_hand self.now }
    {
        matches!(self, Seen::Hand { .. })
    }

    /// The set of seats that a load of the presence word found, and the empty set where this is no
    /// such load.
    pub fn set(&self) -> u64
        ensures { result ≡ set_in self.now }
    {
        match self {
            Seen::Present { seats } => *seats,
            _ => 0,
        }
    }
}

/// What the steps of a list saw, in their order.
#[derive(Debug, Drop)]
pub struct Seens {
    items: Vec<Seen>,
}

impl Model for Seens {
    ghost use Rattle.std.specs.Prelude.{List};
    ghost use Rattle.smr_core.specs.declared.turns.Seen.{Seen};

    ghost Value = { List Seen };

    ghost view = { λ s. s.items.items };
}

impl Seens {
    /// Takes no memory.
    pub fn from_vec(items: Vec<Seen>) -> Self
        ensures { result ≡ items.items }
    {
        Seens { items }
    }

    /// Takes no memory.
    pub fn into_vec(self) -> Vec<Seen>
        ensures { result.items ≡ self }
    {
        self.items
    }

    /// What each step saw, in order.
    pub fn as_slice(&self) -> &[Seen]
        ensures { result.now ≡ self.now }
    {
        self.items.as_slice()
    }
}

/// What a schedule does at once: a step, or a whole operation, which goes on until it ends.
/// `seat` is the number of the holder that takes the steps.
#[derive(Clone, Copy, Debug, PartialEq, Eq)]
pub enum Turn {
    One { step: Step },
    /// Load, store and check, and the clear too where the check is late.
    Enter { seat: u32 },
    /// The loads of both sequences, and the exchange where there is room for two more.
    Advance { seat: u32 },
    /// A poll's load of the write sequence, and where the poll goes on, of the presence word.
    PollLoads { seat: u32 },
    /// The loads of both sequences, and where the tag isn't known to be expired then, of the presence word
    /// and of the word of each seat in it, and the exchange.
    Poll { seat: u32, tag: u32 },
}

/// The turns of a core. The room for what the steps see is taken before the first step, and a turn
/// whose first step is taken is done whole.
impl Core {
    /// Takes the steps of a turn, or refuses its first one. What each step saw stands in order.
    pub fn turn(&mut self, alloc: Global, turn: Turn) -> Result<Seens, StepRefused>
        ensures { TakesTurn self.old turn result self.new }
    {
        match turn {
            Turn::One { step } => self.one(alloc, step),
            Turn::Enter { seat } => self.enter(alloc, seat),
            Turn::Advance { seat } => self.advance(alloc, seat),
            Turn::PollLoads { seat } => self.poll_loads(alloc, seat),
            Turn::Poll { seat, tag } => self.poll(alloc, seat, tag),
        }
    }

    /// The room for what the steps of a turn see, however it ends.
    fn room(&self, alloc: Global, turn: Turn) -> Result<Vec<Seen>, StepRefused>
        ensures room { IfOk result (IsRoomFor self.now.config turn) }
        ensures refused { IfErr result (λ refused. refused ≡ StepRefused.Memory) }
        ensures law { CoreLaw self.now }
    {
        let words = self.seats() as usize;
        let steps = match turn {
            Turn::One { .. } => 1,
            Turn::Enter { .. } => 4,
            Turn::Advance { .. } => 3,
            Turn::PollLoads { .. } => 2,
            Turn::Poll { .. } => words + 4,
        };
        match Vec::with_capacity(alloc, steps) {
            Ok(sees) => Ok(sees),
            Err(_) => Err(StepRefused::Memory),
        }
    }

    /// Takes a step that isn't refused.
    fn take(&mut self, alloc: Global, step: Step) -> Seen
        requires { IsSure self.old step }
        ensures stepped { IsStep self.old step result self.new }
        ensures law { CoreLaw self.new }
    {
        match self.apply(alloc, step) {
            Ok(seen) => seen,
            Err(_) => unreachable!(),
        }
    }

    fn one(&mut self, alloc: Global, step: Step) -> Result<Seens, StepRefused>
        ensures { TakesTurn self.old (Turn.One step) result self.new }
    {
        let mut sees = self.room(alloc, Turn::One { step })?;
        let seen = self.apply(alloc, step)?;
        sees.push_reserved(seen);
        Ok(Seens::from_vec(sees))
    }

    fn enter(&mut self, alloc: Global, seat: u32) -> Result<Seens, StepRefused>
        ensures { TakesTurn self.old (Turn.Enter seat) result self.new }
    {
        let mut sees = self.room(alloc, Turn::Enter { seat })?;
        let loaded = self.apply(alloc, Step::EnterLoad { seat })?;
        sees.push_reserved(loaded);
        let stored = self.take(alloc, Step::EnterStore { seat });
        sees.push_reserved(stored);
        let checked = self.take(alloc, Step::EnterCheck { seat });
        sees.push_reserved(checked);
        if !checked.is_late() {
            return Ok(Seens::from_vec(sees));
        }
        let cleared = self.take(alloc, Step::Clear { seat });
        sees.push_reserved(cleared);
        Ok(Seens::from_vec(sees))
    }

    fn advance(&mut self, alloc: Global, seat: u32) -> Result<Seens, StepRefused>
        ensures { TakesTurn self.old (Turn.Advance seat) result self.new }
    {
        let mut sees = self.room(alloc, Turn::Advance { seat })?;
        let read = self.apply(alloc, Step::AdvanceRead { seat })?;
        sees.push_reserved(read);
        let written = self.take(alloc, Step::AdvanceLoad { seat });
        sees.push_reserved(written);
        if !written.is_hand() {
            return Ok(Seens::from_vec(sees));
        }
        let swapped = self.take(alloc, Step::AdvanceSwap { seat });
        sees.push_reserved(swapped);
        Ok(Seens::from_vec(sees))
    }

    fn poll_loads(&mut self, alloc: Global, seat: u32) -> Result<Seens, StepRefused>
        ensures { TakesTurn self.old (Turn.PollLoads seat) result self.new }
    {
        let mut sees = self.room(alloc, Turn::PollLoads { seat })?;
        let loaded = self.apply(alloc, Step::PollLoad { seat })?;
        sees.push_reserved(loaded);
        if !loaded.is_hand() {
            return Ok(Seens::from_vec(sees));
        }
        let found = self.take(alloc, Step::PollPresent { seat });
        sees.push_reserved(found);
        Ok(Seens::from_vec(sees))
    }

    fn poll(&mut self, alloc: Global, seat: u32, tag: u32) -> Result<Seens, StepRefused>
        ensures { TakesTurn self.old (Turn.Poll seat tag) result self.new }
    {
        let seats = self.seats();
        let mut sees = self.room(alloc, Turn::Poll { seat, tag })?;
        let read = self.apply(alloc, Step::PollRead { seat, tag })?;
        sees.push_reserved(read);
        let loaded = self.take(alloc, Step::PollLoad { seat });
        sees.push_reserved(loaded);
        if !loaded.is_hand() {
            return Ok(Seens::from_vec(sees));
        }
        let found = self.take(alloc, Step::PollPresent { seat });
        sees.push_reserved(found);
        let set = found.set();
        for number in 0..seats {
            if is_present(set, number) {
                let word = self.take(alloc, Step::PollScan { seat });
                sees.push_reserved(word);
            }
        }
        let swapped = self.take(alloc, Step::PollSwap { seat });
        sees.push_reserved(swapped);
        Ok(Seens::from_vec(sees))
    }
}
