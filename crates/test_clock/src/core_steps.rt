use smr_core::*;
use std::alloc::Global;
use std::process::Abort;
use std::test::Fail;

mod making;
mod refusals;
mod schedules;
mod texts;
mod turns;
mod yes;

/// Applies each step and compares what it saw.
fn play(
    rt: &impl Abort,
    alloc: Global,
    core: &mut Core,
    rows: &[(Step, Seen)],
) -> Result<(), Fail> {
    for (step, seen) in rows {
        assert_eq!(rt; core.apply(alloc, *step)?, *seen, "at {step:?}");
    }
    Ok(())
}
