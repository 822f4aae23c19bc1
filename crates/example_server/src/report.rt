ghost use Rattle.std.specs.Prelude.{All};
ghost use Rattle.example_server.specs.Staff.{IsAt};

use crate::desk::Answer;
use crate::staff::Shared;
use crate::worker::Worker;
use anyhow::{Result, anyhow};
use std::alloc::Global;
use std::sync::Wait;
use uma::Table;

/// Prints the table of the pool and of the directory's entries, and what became of each refused request. Fails where there was no
/// memory for a worker's log.
pub fn print_report<R: Wait + Print>(
    rt: &R,
    alloc: Global,
    shared: &Shared<'_>,
    workers: &[Worker<'_>],
) -> Result<()>
    requires { All (IsAt shared.now) workers.now }
{
    print!(rt; "{}", table(rt, alloc, shared, workers)?)?;
    for (number, worker) in workers.iter().enumerate() {
        if !worker.logs {
            return Err(anyhow!("out of memory"));
        }
        for done in worker.log.as_slice() {
            if let Answer::Refused { why }
            | Answer::Unnamed { why, .. }
            | Answer::Kept { why } = done.answer
            {
                println!(rt; "worker {number}: {}: {why}", done.request)?;
            }
        }
    }
    Ok(())
}

// The table, in the manner of `vmstat -z`.
fn table<R: Wait>(
    rt: &R,
    alloc: Global,
    shared: &Shared<'_>,
    workers: &[Worker<'_>],
) -> Result<Table>
    requires { All (IsAt shared.now) workers.now }
{
    let mut pooled = Vec::new(alloc);
    let mut named = Vec::new(alloc);
    for worker in workers {
        pooled.push(worker.desk.connections.ledger())?;
        named.push(worker.desk.names.ledger())?;
    }
    let (pool, directory) = (shared.pool, shared.directory);
    let connections = pool.stats(rt, alloc, b"connection", pooled.as_slice())?;
    let names = directory.stats(rt, alloc, b"name", named.as_slice())?;
    Ok(Table::new(alloc, vec![in alloc; connections, names]?)?)
}
