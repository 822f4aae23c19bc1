ghost use Rattle.std.specs.Prelude.{◌≡◌, ℕ, ◌+◌, ◌-◌, ◌^◌, ◌<◌, ◌≤◌, ◌↔◌, IsTrue, IsSome};
ghost use Rattle.smr_core.specs.ClockState.{spent};
ghost use Rattle.smr_core.specs.ClockStep as clock;
ghost use Rattle.smr_core.specs.CoreStep.{IsWorker, IsIdleWorker, IsIdleNote, MayLeave, MayPoll};

use crate::clock_core::ClockConfig;
use crate::hands::{exchanged, is_overtaken, is_spent, is_too_far, least_after, next_present};
use smr_seq::Seq;

/// Where a holder stands with its section.
///
/// A worker goes from `Outside` by `Loaded` and `Stored` to `Inside`, or to `Late` where its enter
/// was overtaken. A seat whose worker has left is `Vacant` until a worker comes, which is `Outside`
/// again. A note is `Note` until it is taken in, and `Absorbed` after that.
#[derive(Clone, Copy, Debug, PartialEq, Eq)]
pub enum Phase {
    Outside,
    Loaded,
    Stored,
    Inside,
    Late,
    Vacant,
    Note,
    Absorbed,
}

/// What a holder is in the middle of, beside its section: an advance or a poll.
#[derive(Clone, Copy, Debug, PartialEq, Eq)]
pub enum Task {
    Idle,
    /// The advance has the read sequence.
    AdvRead,
    /// The advance has both sequences, and may exchange.
    AdvLoaded,
    /// The poll has the read sequence.
    PollRead,
    /// The poll has both sequences.
    PollLoaded,
    /// The poll has both sequences and the presence word, and loads the words of the seats in it in order.
    Scanning,
}

/// What one holder of a clock knows: a worker or a vacancy, which have a seat, or a note.
///
/// A number counts only in the phases and tasks that name it.
#[derive(Clone, Copy, Debug, PartialEq, Eq)]
pub struct Holder {
    /// The seat of a worker or of a vacancy.
    pub seat: Option<u32>,
    pub phase: Phase,
    /// From Loaded on, the write sequence that the enter loaded.
    pub loaded: u64,
    /// In Inside and Late, the write sequence that the third step found. In Inside it is the entry mark.
    pub mark: u64,
    pub task: Task,
    /// The read sequence that the advance or poll loaded.
    pub read: u64,
    /// In AdvLoaded, PollLoaded and Scanning, the write sequence that the advance or poll loaded.
    pub write: u64,
    /// In Scanning, the presence word that the poll loaded: bit k is set where the seat k is scanned.
    pub present: u64,
    /// In Scanning, the next seat of that set whose word is to be loaded, and the count of seats where
    /// all were.
    pub scanned: u32,
    /// In Scanning, the least mark so far: to where the read sequence may go.
    pub least: u64,
    /// The greatest write sequence that it knows.
    pub seen: u64,
    /// The greatest number that it knows to be at or below the read sequence.
    pub floor: u64,
    /// How often its exchange moved the write sequence.
    pub advances: u64,
}

/// What each step makes of the holder that takes it, from the value that the step found. The rules
/// are those of FreeBSD's smr(9), where nothing else is said.
impl Holder {
    /// Whether it is a worker, which is a holder with a seat that isn't vacant.
    pub fn is_worker(&self) -> bool
        ensures { IsTrue result ↔ IsWorker self.now }
    {
        self.seat.is_some() && self.phase != Phase::Vacant
    }

    /// Whether it is a worker in no advance or poll.
    pub fn is_idle_worker(&self) -> bool
        ensures { IsTrue result ↔ IsIdleWorker self.now }
    {
        self.is_worker() && self.task == Task::Idle
    }

    /// Whether it is a worker that may leave its seat: outside a section, and in no advance or poll.
    pub fn may_leave(&self) -> bool
        ensures { IsTrue result ↔ MayLeave self.now }
    {
        self.phase == Phase::Outside && self.task == Task::Idle
    }

    /// Whether it is a note in no poll.
    pub fn is_idle_note(&self) -> bool
        ensures { IsTrue result ↔ IsIdleNote self.now }
    {
        self.phase == Phase::Note && self.task == Task::Idle
    }

    /// Whether it may begin a poll, as a worker or a note that is in no advance or poll.
    pub fn may_poll(&self) -> bool
        ensures { IsTrue result ↔ MayPoll self.now }
    {
        (self.is_worker() || self.phase == Phase::Note) && self.task == Task::Idle
    }

    /// A holder that was taken in.
    pub fn spent() -> Self
        ensures { result ≡ spent }
    {
        Holder {
            seat: None,
            phase: Phase::Absorbed,
            loaded: 0,
            mark: 0,
            task: Task::Idle,
            read: 0,
            write: 0,
            present: 0,
            scanned: 0,
            least: 0,
            seen: 0,
            floor: 0,
            advances: 0,
        }
    }

    /// After any load of the write sequence.
    pub fn write_loaded(self, config: ClockConfig, found: u64) -> Self
        ensures { result ≡ clock.write_loaded config self found }
    {
        Holder {
            seen: self.seen.max(found),
            floor: self.floor.max(found.saturating_sub(config.window)),
            ..self
        }
    }

    /// After any load of the read sequence.
    pub fn read_loaded(self, found: u64) -> Self
        ensures { result ≡ clock.read_loaded self found }
    {
        Holder {
            floor: self.floor.max(found),
            ..self
        }
    }

    /// After the first step of an enter.
    pub fn enter_loaded(self, config: ClockConfig, found: u64) -> Self
        ensures { result ≡ clock.enter_loaded config self found }
    {
        Holder {
            phase: Phase::Loaded,
            loaded: found,
            ..self.write_loaded(config, found)
        }
    }

    /// What the second step of an enter stores.
    pub fn entry_word(&self) -> u64
        ensures { result ≡ clock.entry_word self.now }
    {
        u64::from(Seq::low(self.loaded).raw)
    }

    /// After the second step of an enter.
    pub fn enter_stored(self) -> Self
        ensures { result ≡ clock.enter_stored self }
    {
        Holder {
            phase: Phase::Stored,
            ..self
        }
    }

    /// Whether an enter that finds this hand at its third step is too late: own.
    pub fn is_overtaken(&self, config: ClockConfig, found: u64) -> bool
        ensures { result ≡ clock.is_overtaken config self.now.loaded found }
    {
        is_overtaken(config, self.loaded, found)
    }

    /// After the third step of an enter: own.
    pub fn enter_checked(self, config: ClockConfig, found: u64) -> Self
        ensures { result ≡ clock.enter_checked config self found }
    {
        Holder {
            phase: if self.is_overtaken(config, found) {
                Phase::Late
            } else {
                Phase::Inside
            },
            mark: found,
            ..self.write_loaded(config, found)
        }
    }

    /// After an exit.
    pub fn cleared(self) -> Self
        ensures { result ≡ clock.cleared self }
    {
        Holder {
            phase: Phase::Outside,
            ..self
        }
    }

    /// After it has left its seat: own.
    pub fn left(self) -> Self
        ensures { result ≡ clock.left self }
    {
        Holder {
            phase: Phase::Vacant,
            ..self
        }
    }

    /// After it has come to its vacant seat: own.
    pub fn came(self) -> Self
        ensures { result ≡ clock.came self }
    {
        Holder {
            phase: Phase::Outside,
            ..self
        }
    }

    /// After an advance's load of the read sequence.
    pub fn advance_read(self, found: u64) -> Self
        ensures { result ≡ clock.advance_read self found }
    {
        Holder {
            task: Task::AdvRead,
            read: found,
            ..self.read_loaded(found)
        }
    }

    /// Whether an advance that finds this write sequence is too far above the read sequence that it has: own.
    pub fn is_too_far(&self, config: ClockConfig, found: u64) -> bool
        requires { found < 2 ^ 63 }
        ensures { result ≡ clock.is_too_far config self.now.read found }
    {
        is_too_far(config, self.read, found)
    }

    /// After an advance's load of the write sequence, which ends it where there is no room for two more.
    pub fn advance_loaded(self, config: ClockConfig, found: u64) -> Self
        requires { found < 2 ^ 63 }
        ensures { result ≡ clock.advance_loaded config self found }
    {
        let known = self.write_loaded(config, found);
        if is_spent(found) || self.is_too_far(config, found) {
            Holder {
                task: Task::Idle,
                ..known
            }
        } else {
            Holder {
                task: Task::AdvLoaded,
                write: found,
                ..known
            }
        }
    }

    /// After an advance's exchange, whether or not it moved the write sequence.
    pub fn advance_swapped(self, found: u64) -> Self
        requires { clock.MaySwap self }
        ensures { result ≡ clock.advance_swapped self found }
    {
        let goal = self.write + 2;
        let moved = found == self.write;
        Holder {
            task: Task::Idle,
            seen: self.seen.max(exchanged(self.write, goal, found)),
            advances: self.advances + if moved { 1 } else { 0 },
            ..self
        }
    }

    /// After a poll's load of the read sequence.
    pub fn poll_read(self, found: u64) -> Self
        ensures { result ≡ clock.poll_read self found }
    {
        Holder {
            task: Task::PollRead,
            read: found,
            ..self.read_loaded(found)
        }
    }

    /// After a poll's load of the write sequence, where it goes on.
    pub fn poll_loaded(self, config: ClockConfig, found: u64) -> Self
        ensures { result ≡ clock.poll_loaded config self found }
    {
        Holder {
            task: Task::PollLoaded,
            write: found,
            ..self.write_loaded(config, found)
        }
    }

    /// After a poll's load of the write sequence, where it ends.
    pub fn poll_ended(self, config: ClockConfig, found: u64) -> Self
        ensures { result ≡ clock.poll_ended config self found }
    {
        Holder {
            task: Task::Idle,
            ..self.write_loaded(config, found)
        }
    }

    /// After a poll's load of the presence word: own.
    pub fn poll_present(self, config: ClockConfig, found: u64) -> Self
        requires { config.seats ≤ 64 }
        ensures { result ≡ clock.poll_present config self found }
    {
        Holder {
            task: Task::Scanning,
            present: found,
            scanned: next_present(config, found, 0),
            least: self.write,
            ..self
        }
    }

    /// The least mark after a seat's word was loaded.
    pub fn least_after(&self, word: u32) -> u64
        ensures { result ≡ clock.least_after self.now.read self.now.write self.now.least word }
    {
        least_after(self.read, self.write, self.least, word)
    }

    /// After a poll's load of a seat's word.
    pub fn poll_scanned(self, config: ClockConfig, word: u32) -> Self
        requires { clock.MayScan config self }
        ensures { result ≡ clock.poll_scanned config self word }
    {
        Holder {
            scanned: next_present(config, self.present, self.scanned + 1),
            least: self.least_after(word),
            ..self
        }
    }

    /// The read sequence last found by a poll's exchange that found this.
    pub fn last_found(&self, found: u64) -> u64
        ensures { result ≡ clock.last_found self.now found }
    {
        exchanged(self.read, self.least, found)
    }

    /// After a poll's exchange.
    pub fn poll_swapped(self, found: u64) -> Self
        ensures { result ≡ clock.poll_swapped self found }
    {
        Holder {
            task: Task::Idle,
            floor: self.floor.max(self.last_found(found)),
            ..self
        }
    }

    /// The note that it splits off, which knows what it knows of the sequences: own.
    pub fn note(&self) -> Self
        ensures { result ≡ clock.note_of self.now }
    {
        Holder {
            phase: Phase::Note,
            seen: self.seen,
            floor: self.floor,
            ..Holder::spent()
        }
    }

    /// After it has taken in another: own.
    pub fn joined(self, other: &Holder) -> Self
        ensures { result ≡ clock.joined self other.now }
    {
        Holder {
            seen: self.seen.max(other.seen),
            floor: self.floor.max(other.floor),
            ..self
        }
    }
}
