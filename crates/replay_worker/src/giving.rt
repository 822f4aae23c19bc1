ghost use Rattle.std.specs.Prelude.{◌≡◌, ◌<◌, ◌≤◌, length, OnOk};
ghost use Rattle.trace_text.specs.Limits.{last_slot};
ghost use Rattle.replay_worker.specs.Giving.{TakesFrom, PutsInto, Gives, KeepsRest, MovesOn};

use crate::Memory;
use crate::name_calls::NameCalls;
use crate::worker::Held;
use crate::worker_run::WorkerRun;
use std::alloc::Global;

/// A `give` line: moves what a slot of the giver holds to a slot of the taker, or its emptiness. The taker's slot is empty
/// before. Giver and taker may be away. After `Memory`, which comes where the taker's slots have to grow, the item is lost, and the replay is over.
pub fn move_slot<N: NameCalls>(
    alloc: Global,
    workers: &mut [WorkerRun<N>],
    giver: usize,
    slot: u32,
    taker: usize,
    slot2: u32,
) -> Result<(), Memory>
    requires giver { giver < length workers.old }
    requires taker { taker < length workers.old }
    requires within { slot2 ≤ last_slot }
    ensures gives { OnOk result (Gives giver slot taker slot2 workers.old workers.new) }
    ensures rest { OnOk result (KeepsRest workers.old workers.new) }
    ensures moves { OnOk result (MovesOn giver slot taker slot2 workers.old workers.new) }
{
    let held = take_from(workers, giver, slot);
    put_into(alloc, workers, taker, slot2, held)
}

/// What a worker's slot holds, which is empty then.
fn take_from<N: NameCalls>(workers: &mut [WorkerRun<N>], number: usize, slot: u32) -> Option<Held>
    requires { number < length workers.old }
    ensures { TakesFrom number slot workers.old result workers.new }
{
    workers[number].attendance.take(slot)
}

/// Puts what is held, if there is something, into a worker's slot.
fn put_into<N: NameCalls>(
    alloc: Global,
    workers: &mut [WorkerRun<N>],
    number: usize,
    slot: u32,
    held: Option<Held>,
) -> Result<(), Memory>
    requires { number < length workers.old }
    ensures { OnOk result (PutsInto number slot held workers.old workers.new) }
{
    workers[number].attendance.put(alloc, slot, held)
}
