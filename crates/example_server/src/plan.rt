ghost use Rattle.std.specs.Prelude.{◌≤◌, All, IfOk};
ghost use Rattle.example_server.specs.Serving.{AsksEach};

use crate::desk::Request;
use crate::round::Round;
use std::alloc::{AllocError, Global};

/// How many workers there are.
pub const WORKERS: u32 = 4;

/// How many rows the directory has. A session's row is its number modulo these.
pub const ROWS: u32 = 16;

/// Four rounds of twelve requests a worker. What is printed of them doesn't depend on the schedule: each worker opens and closes its
/// own sessions, whose rows no other worker binds, and takes two whole buckets of connections before the pool is at its limit.
pub fn plan(alloc: Global) -> Result<Vec<Round>, AllocError>
    ensures { IfOk result (λ rounds. All (AsksEach 4) rounds.items) }
{
    let mut rounds = Vec::new(alloc);
    for number in 0..4 {
        rounds.push(round_of(alloc, number)?)?;
    }
    Ok(rounds)
}

// A list of requests for each worker.
fn round_of(alloc: Global, number: u32) -> Result<Round, AllocError>
    ensures { IfOk result (AsksEach 4) }
{
    let mut lists = Vec::new(alloc);
    for worker in 0..WORKERS {
        lists.push(list_of(alloc, number, worker)?)?;
    }
    Ok(Round { lists })
}

// The requests of a round to a worker.
fn list_of(alloc: Global, number: u32, worker: u32) -> Result<Vec<Request>, AllocError> {
    let mut list = Vec::new(alloc);
    for place in 0..12 {
        list.push(request(number, worker, place))?;
    }
    Ok(list)
}

// A request: sessions are opened, one of them to nobody; then three more, of which the pool gives one; then some are closed, and those
// two that were refused are opened. What is left of each round are looks at another worker's sessions.
fn request(round: u32, worker: u32, place: u32) -> Request
    requires { place ≤ 12 }
{
    let session = session_of(worker, place);
    match (round, place) {
        (0, 1) => Request::Open { session, peer: 0 },
        (0, 0..=7) => open(session),
        (1, 0..=2) => open(session_of(worker, place + 8)),
        (3, 0..=1) => open(session_of(worker, place + 9)),
        (2, 0..=5) => Request::Close { session },
        _ => Request::Look {
            session: session_of(worker.wrapping_add(round) % WORKERS, place),
        },
    }
}

// The session of this place among a worker's. With 16 rows each worker has four of its own, so a session evicts the one four places
// before it.
fn session_of(worker: u32, place: u32) -> u64 {
    u64::from(worker) + u64::from(place) * u64::from(WORKERS)
}

// To a peer of its own.
fn open(session: u64) -> Request {
    let peer = session.wrapping_add(1_000);
    Request::Open { session, peer }
}
