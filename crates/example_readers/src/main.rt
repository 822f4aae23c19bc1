//! Three readers and a writer on threads: an item that a reader finds in a section isn't written again before that section ends.
#![tactic(auto)]

use anyhow::Result;
use std::sync::Wait;
use std::sync::atomic::{AtomicU64, Ordering};
use std::thread;
use uma::{DataLocal, Filled, Plan, Pool, Reader, Refused};

/// A word for each item of a pool, and the number of the item that is in force, if there is one.
type Board = (Vec<AtomicU64>, AtomicU64);

type Own<'a> = DataLocal<'a, u64, Filled<u64>>;

fn main(rt: HostRuntime) -> Result<()> {
    let alloc = rt.alloc();
    let plan = Plan::new(4, 64).with_slabs(16).with_readers();
    let pool = Pool::new(alloc, plan, Filled { value: 0u64 })?;
    let words = (0..1_024).map(|_| AtomicU64::new(0)).collect(alloc)?;
    let board = (words, AtomicU64::new(u64::MAX));
    let local = pool.local(&rt, alloc)?;
    let readers = vec![in alloc; pool.reader(&rt)?, pool.reader(&rt)?, pool.reader(&rt)?]?;
    let (seen, freed) = thread::join(
        &rt,
        || thread::map_vec(&rt, readers, &|reader| stays(reader, &board)),
        || write(&rt, local, &board),
    );
    println!(rt; "the writer freed {} places", freed?)?;
    for (number, stays) in seen?.iter().enumerate() {
        println!(rt; "reader {number}: what it found stayed: {}", (*stays)?)?;
    }
    Ok(())
}

// Puts a thousand values in force, each at a place of its own, which is freed once it isn't in force any more.
fn write<R: Wait + AllocGlobal>(rt: &R, mut local: Own<'_>, board: &Board) -> Result<u64, Refused> {
    for value in 1..1_001 {
        let place = local.alloc(rt, rt.alloc(), 0)?;
        if let Some(word) = board.0.get(place.no() as usize) {
            word.store(value, Ordering::SeqCst);
        }
        board.1.store(u64::from(place.no()), Ordering::SeqCst);
        board.1.store(u64::MAX, Ordering::SeqCst);
        local.free(rt, rt.alloc(), place).map_err(|back| back.why)?;
    }
    Ok(local.ledger().counts.frees)
}

// Looks a thousand times, each time twice within a section. Were both always the same?
fn stays(mut reader: Reader<'_>, board: &Board) -> Result<bool, Refused> {
    for _ in 0..1_000 {
        let _section = reader.read()?;
        if let Some(word) = board.0.get(board.1.load(Ordering::SeqCst) as usize) {
            if word.load(Ordering::SeqCst) != word.load(Ordering::SeqCst) {
                return Ok(false);
            }
        }
    }
    Ok(true)
}
