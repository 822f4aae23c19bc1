ghost use Rattle.std.specs.Prelude.{◌≡◌, All, IfOk, IfErr, length};
ghost use Rattle.example_server.specs.Staff.{BeginsAt, RefusesHire};

use crate::connections::{ConnectionPool, Connections};
use crate::desk::Desk;
use crate::worker::Worker;
use std::alloc::Global;
use std::sync::Wait;
use uma::{Directory, Refused};

/// What the workers share.
#[derive(Drop)]
pub struct Shared<'a> {
    pub pool: &'a ConnectionPool,
    pub directory: &'a Directory,
}

/// Hires so many workers, each with a local of the pool and one of the directory, and each begins with nothing.
///
/// # Errors
///
/// `Taken` where the pool or the directory has no local left, and else `Memory`.
pub fn hire_all<'a, R: Wait>(
    rt: &R,
    alloc: Global,
    shared: &Shared<'a>,
    count: u32,
) -> Result<Vec<Worker<'a>>, Refused>
    ensures count { IfOk result (λ workers. length workers.items ≡ count) }
    ensures begin { IfOk result (λ workers. All (BeginsAt shared.now) workers.items) }
    ensures refused { IfErr result (RefusesHire shared.now) }
{
    let mut workers = Vec::new(alloc);
    for _ in 0..count {
        let worker = hire(rt, alloc, shared)?;
        let Ok(()) = workers.push(worker) else {
            return Err(Refused::Memory);
        };
    }
    Ok(workers)
}

// A worker that holds no connection, and was asked nothing yet.
fn hire<'a, R: Wait>(rt: &R, alloc: Global, shared: &Shared<'a>) -> Result<Worker<'a>, Refused>
    ensures begin { IfOk result (BeginsAt shared.now) }
    ensures refused { IfErr result (RefusesHire shared.now) }
{
    let local = shared.pool.local(rt, alloc)?;
    let names = shared.directory.local(rt, alloc)?;
    Ok(Worker {
        desk: Desk {
            connections: Connections::new(alloc, local),
            names,
        },
        log: Vec::new(alloc),
        logs: true,
    })
}
