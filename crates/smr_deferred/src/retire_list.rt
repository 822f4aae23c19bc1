ghost use Rattle.std.specs.Prelude.{◌≤◌, All};
ghost use Rattle.smr_deferred.specs.Counts.{numbers_in};
ghost use Rattle.smr_deferred.specs.Numbers.{AreFew};

use crate::pace::Pace;
use smr_clock::{AdvanceRefused, Clock, Host, Pass};
use smr_core::hands::is_spent;
use std::alloc::Global;
use std::collections::VecDeque;
use std::error::Error;
use std::fmt;

/// Why a list wasn't made: its limit isn't 1 to 65,536 retirements.
#[derive(Clone, Copy, Debug, PartialEq, Eq)]
pub struct LimitRefused {
    pub limit: u32,
}

/// Why a value wasn't listed.
#[derive(Clone, Copy, Debug, PartialEq, Eq)]
pub enum RetireRefused {
    /// No goal is left above this write sequence.
    Spent { write: u64 },
    Memory,
}

/// Why no value was given, though the list isn't empty. Both numbers are whole hands.
#[derive(Clone, Copy, Debug, PartialEq, Eq)]
pub enum ReapNo {
    /// The oldest value's goal is above what the list has asked the clock for: a push comes first.
    Ahead { goal: u64, moved: u64 },
    /// The poll said no: a section that may see the oldest value may be open.
    Held { goal: u64 },
}

impl fmt::Display for LimitRefused {
    fn fmt<W: fmt::Write>(&self, f: &mut fmt::Formatter<W>) -> fmt::Result {
        let LimitRefused { limit } = self;
        write!(
            f,
            "an advance in {limit} retirements: it is one in 1 to 65536"
        )
    }
}

impl Error for LimitRefused {}

impl fmt::Display for RetireRefused {
    fn fmt<W: fmt::Write>(&self, f: &mut fmt::Formatter<W>) -> fmt::Result {
        match self {
            RetireRefused::Spent { write } => {
                write!(f, "no goal is left: the write hand is {write}")
            }
            RetireRefused::Memory => write!(f, "out of memory"),
        }
    }
}

impl Error for RetireRefused {}

impl fmt::Display for ReapNo {
    fn fmt<W: fmt::Write>(&self, f: &mut fmt::Formatter<W>) -> fmt::Result {
        match self {
            ReapNo::Ahead { goal, moved } => {
                write!(f, "the goal {goal} is ahead of {moved}, the last asked for")
            }
            ReapNo::Held { goal } => write!(f, "a section before the goal {goal} may be open"),
        }
    }
}

impl Error for ReapNo {}

/// A value with its goal, two above the write sequence that its retirement loaded.
#[derive(Drop)]
pub(crate) struct Retired<T> {
    pub(crate) value: T,
    pub(crate) goal: u64,
}

/// Values that wait until no section can see them, and come back in order. It is used with one pass, and so with one clock.
///
/// What always holds: at most one advance answered for each `limit` values listed, and one for each push.
#[derive(Drop)]
pub struct RetireList<T, H: Host> {
    queue: VecDeque<Retired<T>>,
    pace: Pace<H>,
    pub ghost few: { AreFew pace.limit (numbers_in pace.counts) },
    ghost some: { All (λ retired. 1 ≤ retired.goal) queue.items },
}

impl<T, H: Host> RetireList<T, H> {
    ghost use Rattle.std.specs.Prelude.{◌≡◌, ◌<◌, ℕ, [], Ok, Err, Some, None, IfOk, IfErr, OnOk, IfSome};
    ghost use Rattle.smr_clock.specs.Belongs.{view};
    ghost use Rattle.smr_deferred.specs.Advancing.{refusal_of};
    ghost use Rattle.smr_deferred.specs.Frames.{GoesOn, KeepsPass};
    ghost use Rattle.smr_deferred.specs.Pace.{AreOfClock};
    ghost use Rattle.smr_deferred.specs.Reaping.{Reaps};
    ghost use Rattle.smr_deferred.specs.RetireList.{listed, pace_of, moved_of, refused_of, IsMade, RefusesLimit};
    ghost use Rattle.smr_deferred.specs.Retired.{oldest_goal};
    ghost use Rattle.smr_deferred.specs.Retiring.{Retires, Pushes, DeclinesValue};

    /// Makes an empty list.
    ///
    /// # Arguments
    ///
    /// - `limit`: the list advances the clock once in this many retirements, 1 to 65,536.
    ///
    /// # Errors
    ///
    /// `LimitRefused`: the limit is out of its range.
    pub fn new(alloc: Global, limit: u32) -> Result<RetireList<T, H>, LimitRefused>
        ensures made { IfOk result (IsMade limit) }
        ensures refused { IfErr result (λ refused. RefusesLimit limit refused.limit) }
    {
        if limit == 0 || limit > 65_536 {
            return Err(LimitRefused { limit });
        }
        Ok(RetireList {
            queue: VecDeque::new(alloc),
            pace: Pace::new(limit),
        })
    }

    /// Lists a value that no section can see that is entered from now on. Its goal is two above the write sequence that the
    /// call loads. Then the list advances once if `limit` values or more were listed since its last advance that
    /// succeeded. `RetireList::refused` returns how that advance was refused.
    ///
    /// # Errors
    ///
    /// The caller gets the value back, and the list is unchanged.
    ///
    /// - `Memory`: out of memory.
    /// - `Spent`: no goal is left above the write sequence.
    pub fn retire(
        &mut self,
        _alloc: Global,
        clock: &Clock<H>,
        pass: &mut Pass<H>,
        value: T,
    ) -> Result<(), (T, RetireRefused)>
        requires { AreOfClock clock.now pass.old (pace_of self.old) }
        ensures goes_on { GoesOn clock.now pass.old pass.new (pace_of self.old) (pace_of self.new) }
        ensures retired { OnOk result (Retires H.copied (view pass.old) value self.old self.new (view pass.new)) }
        ensures refused { IfErr result (λ (back, refused). (back ≡ value) × DeclinesValue (view pass.old) self.old refused self.new (view pass.new)) }
    {
        if self.queue.reserve(1).is_err() {
            return Err((value, RetireRefused::Memory));
        }
        let (_, write) = clock.hands(pass);
        if is_spent(write) {
            return Err((value, RetireRefused::Spent { write }));
        }
        let goal = write + 2;
        self.queue.push_back_reserved(Retired { value, goal });
        self.pace.retire(clock, pass, goal);
        Ok(())
    }

    /// Loads the sequences and advances once. The values listed so far can then be reaped once no section before their
    /// goals is open.
    ///
    /// # Errors
    ///
    /// The refusal of that advance.
    pub fn push(&mut self, clock: &Clock<H>, pass: &mut Pass<H>) -> Result<(), AdvanceRefused>
        requires { AreOfClock clock.now pass.old (pace_of self.old) }
        ensures goes_on { GoesOn clock.now pass.old pass.new (pace_of self.old) (pace_of self.new) }
        ensures pushed { Pushes H.copied (view pass.old) self.old self.new (view pass.new) }
        ensures kept { refused_of self.new ≡ refusal_of result }
    {
        let (_, write) = clock.hands(pass);
        self.pace.push(clock, pass, write + 2)
    }

    // The goal of the oldest value.
    fn oldest(&self) -> Option<u64>
        ensures oldest { result ≡ oldest_goal (listed self.now) }
        ensures some { IfSome result (λ goal. 1 ≤ goal) }
    {
        let oldest = self.queue.front()?;
        Some(oldest.goal)
    }

    /// Returns the oldest value, if a poll returns that no section before its goal is open; none ever is from then on.
    /// Returns None if the list is empty. The list polls by its own note, so the pass stays as it is.
    ///
    /// # Errors
    ///
    /// - `Ahead { goal, moved }`: the value's goal is above the last goal that the list asked the clock for. Call
    ///   [`RetireList::push`] first.
    /// - `Held { goal }`: a section that may see the value may be open.
    pub fn reap(&mut self, clock: &Clock<H>, pass: &mut Pass<H>) -> Result<Option<T>, ReapNo>
        requires { AreOfClock clock.now pass.old (pace_of self.old) }
        ensures kept { KeepsPass clock.now pass.old pass.new (pace_of self.new) }
        ensures reaps { Reaps self.old result self.new }
        ensures none { listed self.old ≡ [] → result ≡ Ok None }
        ensures ahead { (goal : ℕ) → oldest_goal (listed self.old) ≡ Some goal → moved_of self.old < goal → result ≡ Err (ReapNo.Ahead goal (moved_of self.old)) }
    {
        let _ = pass;
        let Some(goal) = self.oldest() else {
            return Ok(None);
        };
        let moved = self.pace.moved();
        if moved < goal {
            return Err(ReapNo::Ahead { goal, moved });
        }
        if !self.pace.poll(clock, goal) {
            return Err(ReapNo::Held { goal });
        }
        let Some(Retired { value, goal: _ }) = self.queue.pop_front() else {
            unreachable!()
        };
        Ok(Some(value))
    }

    /// Returns how the last advance was refused. Returns None if it succeeded, or if there was none.
    pub fn refused(&self) -> Option<AdvanceRefused>
        ensures { result ≡ refused_of self.now }
    {
        self.pace.refused()
    }

    /// Ends an empty list. A list whose values may be dropped can be dropped instead.
    pub fn destroy_empty(self)
        requires { listed self ≡ [] }
    {
        let RetireList { queue, pace: _ } = self;
        queue.destroy_empty();
    }
}
