ghost use Rattle.std.specs.Prelude.{◌≡◌, ◌≢◌, ◌<◌, Some, [], true};
ghost use Rattle.smr_core.specs.declared.holder.Phase.{Phase};
ghost use Rattle.smr_core.specs.declared.holder.Task.{Task};

use crate::clock::Clock;
use crate::host::Host;
use crate::view::{NoteJoins, NoteSplits, View};
use atomic_table::Seat;
use smr_core::Phase;
use smr_seq::Seq;

/// The worker of a seat. It may cross threads.
#[derive(Drop)]
pub struct Pass<H: Host> {
    pub(crate) seat: Seat<(), View<H::Part>>,
    pub(crate) number: u32,
    pub(crate) phase: Phase,
    // The write sequence that its last enter loaded.
    pub(crate) loaded: u64,
    ghost numbered: { seat.me.0.holder.seat ≡ Some number },
    ghost known: { number < seat.me.0.setup.config.seats },
    ghost in_phase: { seat.me.0.holder.phase ≡ phase },
    ghost worker: { seat.me.0.holder.phase ≢ Phase.Vacant },
    ghost idle: { seat.me.0.holder.task ≡ Task.Idle },
    ghost has_loaded: { seat.me.0.holder.loaded ≡ loaded },
}

impl<H: Host> Pass<H> {
    ghost use Rattle.smr_clock.specs.Belongs.{holder};

    /// Returns the phase of the pass: `Outside`, `Loaded`, `Stored`, `Inside` or `Late`.
    pub fn phase(&self) -> Phase
        ensures { result ≡ (holder self.now).phase }
    {
        self.phase
    }
}

/// A seat without a worker: what is left of a pass that has left. It may cross threads, and comes as
/// the seat's worker again.
#[derive(Drop)]
pub struct Vacancy<H: Host> {
    pub(crate) seat: Seat<(), View<H::Part>>,
    pub(crate) number: u32,
    // The write sequence that the last enter of its worker loaded.
    pub(crate) loaded: u64,
    ghost numbered: { seat.me.0.holder.seat ≡ Some number },
    ghost known: { number < seat.me.0.setup.config.seats },
    ghost vacant: { seat.me.0.holder.phase ≡ Phase.Vacant },
    ghost idle: { seat.me.0.holder.task ≡ Task.Idle },
    ghost has_loaded: { seat.me.0.holder.loaded ≡ loaded },
}

/// The answer of an advance: two above the write sequence that it loaded. A section is before the goal
/// where its entry mark is below it, that is, where it was entered before the write sequence came to the
/// goal. What was unlinked before the advance can be seen by such sections alone, so it may be used
/// again once the goal is expired: a poll's yes says so.
#[derive(Clone, Copy, Debug, PartialEq, Eq)]
pub struct Goal {
    pub(crate) number: u64,
}

impl Goal {
    ghost use Rattle.smr_clock.specs.Goals.{tag_of};

    /// Returns the low half of the goal, a number of 32 bits.
    pub fn tag(&self) -> Seq
        ensures { result.raw ≡ tag_of self.now }
    {
        Seq::low(self.number)
    }
}

/// What a pass had seen of the sequences when it made the note. It may cross threads, and may poll.
#[derive(Drop)]
pub struct Note<H: Host> {
    pub(crate) seat: Seat<(), View<H::Part>>,
    ghost no_slots: { seat.me.1 ≡ [] },
    ghost is_note: { seat.me.0.holder.phase ≡ Phase.Note },
    ghost fit: { H.may_note seat.me.0.host ≡ true },
}

/// Notes carry what a pass has seen to another thread.
impl<H: Host> Clock<H> {
    ghost use Rattle.smr_clock.specs.Steps.{joined_view};
    ghost use Rattle.smr_clock.specs.Notes.{Notes};
    ghost use Rattle.smr_clock.specs.Notes.{note_knows};
    ghost use Rattle.smr_clock.specs.Calls.{AreOf};
    ghost use Rattle.smr_clock.specs.Calls.{Becomes};
    ghost use Rattle.smr_clock.specs.Belongs.{view};
    ghost use Rattle.smr_clock.specs.Belongs.{IsPassOf};
    /// Returns a note, which has seen what the pass has seen and the write sequence as it is now.
    pub fn note(&self, pass: &mut Pass<H>) -> Note<H>
        requires here { IsPassOf self.now pass.old }
        ensures here { AreOf self.now pass.new result }
        ensures notes { Notes H.copied (view pass.old) (view pass.new) (note_knows result) }
    {
        self.look_at_write_hand(pass);
        let seat = self
            .table
            .shared
            .split_seat::<NoteSplits<H>>(&mut pass.seat);
        Note { seat }
    }

    /// Adds to the pass what the note has seen. The note is spent.
    pub fn absorb(&self, pass: &mut Pass<H>, note: Note<H>)
        requires { AreOf self.now pass.old note }
        ensures { Becomes self.now (joined_view H.merged (view pass.old) (note_knows note)) pass.new }
    {
        let Note { seat } = note;
        self.table
            .shared
            .join_seat::<NoteJoins<H>>(&mut pass.seat, seat);
    }
}
