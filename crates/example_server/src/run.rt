use crate::connections::{CONNECTION_SIZE, ConnectionHooks};
use crate::plan::{ROWS, WORKERS, plan};
use crate::report::print_report;
use crate::serving::serve;
use crate::staff::{Shared, hire_all};
use anyhow::Result;
use std::alloc::Global;
use std::sync::Wait;
use std::thread::Threads;
use uma::{Directory, NamePlan, Plan, Pool};

/// Makes the pool, the directory and the workers, serves all rounds, and prints what became of it.
pub fn run<R: Threads + Wait + Print + Sync>(rt: &R, alloc: Global) -> Result<()> {
    // Two slabs of connections, all of which may be out.
    let connections = Plan::new(WORKERS, CONNECTION_SIZE)
        .with_slabs(2)
        .with_bucket(4)
        .with_limit(32);
    let pool = Pool::new(alloc, connections, ConnectionHooks)?;
    // One slab of names.
    let names = NamePlan::new(WORKERS, ROWS).with_slabs(1).with_bucket(4);
    let directory = Directory::new(alloc, names)?;
    let shared = Shared {
        pool: &pool,
        directory: &directory,
    };
    let mut workers = hire_all(rt, alloc, &shared, WORKERS)?;
    let rounds = plan(alloc)?;
    serve(rt, alloc, rounds.as_slice(), workers.as_mut_slice());
    print_report(rt, alloc, &shared, workers.as_slice())
}
