//! What follows from the law of the running clock. A call does nothing: its contract is the law.

ghost use Rattle.smr_clock.specs.declared.clock.Setup.{Setup};
ghost use Rattle.smr_clock.specs.HostLaws.{Includes, IncludesMemory};
ghost use Rattle.smr_clock.specs.Complete.{RefusalsHaveTheirCause};
ghost use Rattle.smr_clock.specs.Moments.{StepsLowerNoHand};
ghost use Rattle.smr_clock.specs.SafeReuse.{KnownIsOver, KnownStaysOver, RunsFollow};

use crate::host::Host;

/// The clock's law is part of every host's rule, so it holds at every moment of every clock. So does the law of what
/// seats remember: each word that a poll found is 0, or the low half of a write sequence that the worker of its seat has
/// stored.
pub fn every_rule_has_the_law<H: Host>()
    ensures clock { Includes H.holds }
    ensures memory { IncludesMemory H.holds }
{}

/// No step of a clock lowers a hand, whatever becomes of the host's words and parts. The clock's law holds after each
/// step, so the moments of any sequence of steps follow one another.
pub fn no_step_lowers_a_hand<H: Host>()
    ensures steps { (setup : Setup) → StepsLowerNoHand H.Part setup }
    ensures runs { (setup : Setup) → RunsFollow H.Part setup }
{}

/// Safe reuse: once a poll has returned true, the goal is expired at every later moment of that clock, and no open
/// section is before it. This holds over any moments that follow one another, and so over every sequence of steps.
pub fn no_section_is_before_a_known_goal<H: Host>()
    ensures known { (setup : Setup) → KnownIsOver H.Part setup }
    ensures runs { (setup : Setup) → KnownStaysOver H.Part setup }
{}

/// An advance is refused only if there is no room. A poll may not return false if its note knew that the goal is
/// expired and the goal is less than 2^31 below the write sequence. Nor may it if it found no section and its exchange
/// wasn't overtaken.
pub fn refusals_have_their_cause<H: Host>()
    ensures { RefusalsHaveTheirCause H.Part }
{}
