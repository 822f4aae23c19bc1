ghost use Rattle.std.specs.Prelude.{◌≡◌, ◌≤◌, min};
ghost use Rattle.std.specs.Option.{ForSome, ForNone};
ghost use Rattle.smr_deferred.specs.Asked.{asked_goal};
ghost use Rattle.smr_deferred.specs.Counts.{numbers_in};
ghost use Rattle.smr_deferred.specs.Numbers.{ArePaced};

use crate::asked::Asked;
use crate::counts::Counts;
use smr_clock::laws::no_section_is_before_a_known_goal;
use smr_clock::{AdvanceRefused, Clock, Host, Note, Pass};

/// When a list's next advance is due, and what the list has asked of its clock.
#[derive(Drop)]
pub(crate) struct Pace<H: Host> {
    limit: u32,
    // How many values were listed since the last advance that answered, but no more than the limit.
    since: u32,
    moved: u64,
    // By this note contracts know with which clock the list is used. The pass that used the list first gave it.
    home: Option<Note<H>>,
    asked: Option<Asked<H>>,
    refused: Option<AdvanceRefused>,
    counts: Counts,
    pub ghost some: { 1 ≤ limit },
    pub ghost capped: { since ≡ min (numbers_in counts).since limit },
    pub ghost paced: { ArePaced limit (numbers_in counts) },
    pub ghost behind: { ForSome asked (λ last. moved ≤ asked_goal last) },
    pub ghost unasked: { ForNone asked (moved ≡ 0) },
}

impl<H: Host> Pace<H> {
    ghost use Rattle.std.specs.Prelude.{◌+◌, ◌*◌, true, IsTrue, ◌↔◌};
    ghost use Rattle.smr_clock.specs.Belongs.{clock_id, view};
    ghost use Rattle.smr_deferred.specs.Advancing.{AdvancesOnce, PacesFrom, PushesFrom, refusal_of};
    ghost use Rattle.smr_deferred.specs.Frames.{CountsTo, GoesOn, Settles};
    ghost use Rattle.smr_deferred.specs.Numbers.{one_retired, one_pushed, IsDue};
    ghost use Rattle.smr_deferred.specs.Pace.{limit_in, moved_in, refused_in, numbers_of, AreOfClock, IsLimit, IsNewPace, IsOfClock, MayAdvance, MayPoll};
    ghost use Rattle.smr_deferred.specs.Polling.{PollsOnce, KnowsOver};

    pub(crate) fn new(limit: u32) -> Pace<H>
        requires { IsLimit limit }
        ensures { IsNewPace limit result }
    {
        Pace {
            limit,
            since: 0,
            moved: 0,
            home: None,
            asked: None,
            refused: None,
            counts: Counts::none(),
        }
    }

    pub(crate) fn refused(&self) -> Option<AdvanceRefused>
        ensures { result ≡ refused_in self.now }
    {
        self.refused
    }

    // From its first use on the list has a note, and so a clock.
    fn settle(&mut self, clock: &Clock<H>, pass: &mut Pass<H>)
        requires { AreOfClock clock.now pass.old self.old }
        ensures { Settles clock.now pass.old pass.new self.old self.new }
    {
        if self.home.is_none() {
            self.home = Some(clock.note(pass));
        }
    }

    // One value more was listed.
    fn count_value(&mut self)
        ensures { CountsTo (one_retired (numbers_of self.old)) self.old self.new }
    {
        self.counts = self.counts.retired();
        if self.since < self.limit {
            self.since += 1;
        }
    }

    // One push more was called.
    fn count_push(&mut self)
        ensures { CountsTo (one_pushed (numbers_of self.old)) self.old self.new }
    {
        self.counts = self.counts.pushed();
    }

    // Whether an advance is due in a retirement.
    fn is_due(&self) -> bool
        ensures { IsTrue result ↔ IsDue (limit_in self.now) (numbers_of self.now) }
    {
        self.since >= self.limit
    }

    // Advances once. Where that answers, a note is taken right after it, by which the list polls from then on.
    fn advance(
        &mut self,
        clock: &Clock<H>,
        pass: &mut Pass<H>,
        moved: u64,
    ) -> Result<(), AdvanceRefused>
        requires used { AreOfClock clock.now pass.old self.old }
        requires loaded { moved ≤ (view pass.old).holder.seen + 2 }
        requires room { limit_in self.old * ((numbers_of self.old).answered + 1) ≤ (numbers_of self.old).retired + limit_in self.old * (numbers_of self.old).pushed }
        ensures goes_on { GoesOn clock.now pass.old pass.new self.old self.new }
        ensures advances { AdvancesOnce H.copied (view pass.old) moved (numbers_of self.old) self.old self.new (view pass.new) }
        ensures kept { refused_in self.new ≡ refusal_of result }
    {
        match clock.advance(pass) {
            Ok(goal) => {
                let note = clock.note(pass);
                self.asked = Some(Asked { goal, note });
                self.moved = moved;
                self.refused = None;
                self.since = 0;
                self.counts = self.counts.answered();
                Ok(())
            }
            Err(refused) => {
                self.refused = Some(refused);
                Err(refused)
            }
        }
    }

    /// Counts a value that was listed with this goal, and then advances once if that is due. What a refused advance says is
    /// kept.
    pub(crate) fn retire(&mut self, clock: &Clock<H>, pass: &mut Pass<H>, goal: u64)
        requires { MayAdvance clock.now pass.old goal self.old }
        ensures goes_on { GoesOn clock.now pass.old pass.new self.old self.new }
        ensures paces { PacesFrom H.copied (view pass.old) goal self.old self.new (view pass.new) }
    {
        self.settle(clock, pass);
        self.count_value();
        if self.is_due() {
            let _ = self.advance(clock, pass, goal);
        }
    }

    /// Counts a push, and advances once. `moved` is two above the write sequence that was loaded for it.
    pub(crate) fn push(
        &mut self,
        clock: &Clock<H>,
        pass: &mut Pass<H>,
        moved: u64,
    ) -> Result<(), AdvanceRefused>
        requires { MayAdvance clock.now pass.old moved self.old }
        ensures goes_on { GoesOn clock.now pass.old pass.new self.old self.new }
        ensures advances { PushesFrom H.copied (view pass.old) moved self.old self.new (view pass.new) }
        ensures kept { refused_in self.new ≡ refusal_of result }
    {
        self.settle(clock, pass);
        self.count_push();
        self.advance(clock, pass, moved)
    }

    /// How far the list has asked: the goals of its values up to here are at most the goal that it polls for.
    pub(crate) fn moved(&self) -> u64
        ensures { result ≡ moved_in self.now }
    {
        self.moved
    }

    /// Whether a goal that the list has asked for is known to be expired, by one poll.
    pub(crate) fn poll(&mut self, clock: &Clock<H>, goal: u64) -> bool
        requires { MayPoll (clock_id clock.now) goal self.old }
        ensures mine { IsOfClock (clock_id clock.now) self.new }
        ensures polled { PollsOnce goal result self.old self.new }
        ensures over { result ≡ true → KnowsOver goal self.new }
    {
        no_section_is_before_a_known_goal::<H>();
        let Some(asked) = &mut self.asked else {
            unreachable!()
        };
        asked.poll(clock)
    }
}
