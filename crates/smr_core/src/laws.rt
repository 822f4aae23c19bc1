//! The clock's laws, each for all states and all runs, and the replay of a list of steps.
//!
//! A call of a law does nothing: its contract is the law. The definitions are those that the contract of `Core::apply` uses.
ghost use Rattle.smr_core.specs.ClockMoves.{StepsKeepTheLaw};
ghost use Rattle.smr_core.specs.TurnLaws.{TurnIsDetermined, TakenIsNotRefused};
ghost use Rattle.smr_core.specs.RememberedMoves.{StepsKeepWhatIsRemembered};
ghost use Rattle.smr_core.specs.YesMeans.{YesIsKnown, YesMeansExpired, YesOverRuns, HandsAndMarksOverRuns};
ghost use Rattle.std.specs.Prelude.{◌≡◌, IfOk, IfErr};
ghost use Rattle.smr_core.specs.CoreStep.{Run, StopsAt};

use crate::clock_core::Core;
use crate::turns::{Seens, Step, StepRefused};
use std::alloc::Global;

/// The clock's law holds where a clock begins, and each kind of step keeps it from every state in
/// which it holds, whoever takes the step. Neither hand is lower after any.
pub fn steps_keep_the_law()
    ensures { StepsKeepTheLaw }
{}

/// What the views of a running clock remember beside their holders is so where a clock begins, and
/// stays so by each kind of step: a poll's words were stored by the workers of their seats, they are
/// those of the seats of its set that were scanned, and the least mark follows from them.
pub fn steps_keep_what_is_remembered()
    ensures { StepsKeepWhatIsRemembered }
{}

/// What a poll's yes says, of one step: each number up to the write sequence that the poll loaded, whose
/// low half is the tag, is expired, and the holder that polled knows it.
pub fn yes_of_one_step()
    ensures known { YesIsKnown }
    ensures expired { YesMeansExpired }
{}

/// What a poll's yes says, over every run from a new core. Let the poll's load find the write sequence
/// `l`. From the answer on, for ever, each number up to `l` with the tag as its low half is expired,
/// and no open section is before it; so it is with each goal that an advance answered before that
/// load. Of a number above `l`, and by a no, nothing is said: a tag is only the low half of a goal.
pub fn yes_over_runs()
    ensures { YesOverRuns }
{}

/// Over every run from a new core: neither hand falls, the window is never exceeded, each open
/// section's entry mark is at least the read sequence, and it is the write sequence that the third step of
/// its enter found.
pub fn hands_and_marks_over_runs()
    ensures { HandsAndMarksOverRuns }
{}

/// From a state a turn sees one thing and leads to one state, and where it may be taken it is refused
/// for want of memory at most.
pub fn turns_are_determined()
    ensures determined { TurnIsDetermined }
    ensures not_refused { TakenIsNotRefused }
{}

/// Takes the steps in order. A refusal names the first step that was refused, and the core stands
/// as before that step. The room for what they see is taken before any step.
pub fn replay(alloc: Global, core: &mut Core, steps: &[Step]) -> Result<Seens, (usize, StepRefused)>
    ensures run { IfOk result (λ seens. Run core.old steps.now seens core.new) }
    ensures stopped { IfErr result (λ stop. StopsAt core.old steps.now stop.0 stop.1 core.new) }
{
    let mut seens = match Vec::with_capacity(alloc, steps.len()) {
        Ok(seens) => seens,
        Err(_) => return Err((0, StepRefused::Memory)),
    };
    for (index, step) in steps.iter().enumerate() {
        match core.apply(alloc, *step) {
            Ok(seen) => seens.push_reserved(seen),
            Err(refused) => return Err((index, refused)),
        }
    }
    Ok(Seens::from_vec(seens))
}
