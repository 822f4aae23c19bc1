ghost use Rattle.std.specs.Prelude.{◌≤◌};
ghost use Rattle.smr_clock.specs.Belongs.{clock_id};
ghost use Rattle.smr_clock.specs.Goals.{number_of};
ghost use Rattle.smr_clock.specs.Notes.{note_holder};

use smr_clock::{Clock, Goal, Host, Note};

/// The goal of a list's last advance that answered, and a note that the pass gave right after it, which has seen the goal.
#[derive(Drop)]
pub(crate) struct Asked<H: Host> {
    pub(crate) goal: Goal,
    pub(crate) note: Note<H>,
    pub ghost seen: { number_of goal ≤ (note_holder note).seen },
}

impl<H: Host> Asked<H> {
    ghost use Rattle.smr_deferred.specs.Asked.{IsAskedAt, PollsAsked};

    /// Whether the goal is known to be expired, by one poll.
    pub(crate) fn poll(&mut self, clock: &Clock<H>) -> bool
        requires { IsAskedAt (clock_id clock.now) self.old }
        ensures { PollsAsked (clock_id clock.now) self.old result self.new }
    {
        clock.poll(&mut self.note, &self.goal)
    }
}
