ghost use Rattle.trace_schedule.specs.ScheduleLaws.{OutputIsOne, RefusedPrintsNothing};

use smr_core::laws::turns_are_determined;

/// A schedule prints one thing at most, and nothing where one of its lines is refused. The call does
/// nothing: its contract is the law.
pub fn schedules_print_one_thing()
    ensures one { OutputIsOne }
    ensures nothing { RefusedPrintsNothing }
{
    turns_are_determined();
}
