ghost use Rattle.std.specs.Prelude.{◌≡◌, IfOk};
ghost use Rattle.smr_core.specs.declared.holder.Phase.{Phase};
ghost use Rattle.smr_clock.specs.Belongs.{IsPassOf, clock_id, holder};
ghost use Rattle.smr_deferred.specs.RetireList.{IsUsedWith};

use smr_clock::{AdvanceRefused, Bare, Clock, ClockRefused, Overtaken, Pass};
use smr_core::Phase;
use smr_deferred::{LimitRefused, RetireList};
use std::alloc::Global;
use std::test::Fail;

mod counting;
mod making;
mod retiring;
mod schedules;
mod settings;
mod texts;
mod turns;

// A clock of two seats, with the workers of seat 0 and 1.
fn two_seats(
    alloc: Global,
    start: u64,
    window: u64,
) -> Result<(Clock<Bare>, Pass<Bare>, Pass<Bare>), ClockRefused>
    ensures here { IfOk result (λ made. IsPassOf made.0 made.1 × IsPassOf made.0 made.2) }
    ensures outside { IfOk result (λ made. ((holder made.1).phase ≡ Phase.Outside) × ((holder made.2).phase ≡ Phase.Outside)) }
{
    let (clock, mut passes) = Clock::<Bare>::new(alloc, 2, start, window)?;
    let second = passes.pop();
    let first = passes.pop();
    let (Some(first), Some(second)) = (first, second) else {
        unreachable!()
    };
    Ok((clock, first, second))
}

// An empty list, which no clock was used with yet, and so none but this one.
fn new_list<T>(
    alloc: Global,
    clock: &Clock<Bare>,
    limit: u32,
) -> Result<RetireList<T, Bare>, LimitRefused>
    ensures mine { IfOk result (IsUsedWith (clock_id clock.now)) }
{
    let _ = clock;
    let list = RetireList::new(alloc, limit)?;
    Ok(list)
}
