ghost use Rattle.std.specs.Prelude.{◌≡◌, All, length};
ghost use Rattle.example_server.specs.Serving.{AllBalance, AllServed, AllWorked, AsksNoOther, Works, asked_of};

use crate::round::Round;
use crate::worker::Worker;
use std::alloc::Global;
use std::sync::Wait;
use std::thread::{self, Threads};

/// Serves all rounds, one after another. In each round every worker does its own list, on a thread of its own, and all threads are
/// joined. Waits where a worker's requests do. There has to be a worker for each list of a round, so that no request is left over.
///
/// Whatever the threads' schedule, and whether memory was wanting or not, the accounts of each worker balance.
pub fn serve<R: Threads + Wait + Sync>(
    rt: &R,
    alloc: Global,
    rounds: &[Round],
    workers: &mut [Worker<'_>],
)
    requires { All (AsksNoOther (length workers.old)) rounds.now }
    ensures accounts { AllBalance workers.new }
    ensures count { length workers.new ≡ length workers.old }
    ensures served { AllServed rounds.now workers.old workers.new }
{
    for round in rounds {
        serve_round(rt, alloc, round, workers);
    }
}

// One round.
fn serve_round<R: Threads + Wait + Sync>(
    rt: &R,
    alloc: Global,
    round: &Round,
    workers: &mut [Worker<'_>],
)
    ensures count { length workers.new ≡ length workers.old }
    ensures served { AllWorked round.now workers.old workers.new }
{
    let threads = workers.len().max(1);
    thread::for_each_mut(
        rt,
        workers,
        threads,
        &|number, worker: &mut Worker<'_>|
            ensures { Works (asked_of round.entry.now number) worker.old worker.new }
        { worker.work(rt, alloc, round.list(number)) },
    );
}
