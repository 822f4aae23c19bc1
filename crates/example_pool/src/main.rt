//! A pool with a limit: two counters are allocated, a third is refused until one is freed, and the pool's table is printed.
#![tactic(auto)]

use anyhow::Result;
use uma::{Filled, Plan, Pool, Table};

fn main(rt: HostRuntime) -> Result<()> {
    let alloc = rt.alloc();
    let plan = Plan::new(1, 64).with_limit(2);
    let pool = Pool::new(alloc, plan, Filled { value: 7u64 })?;
    let mut local = pool.local(&rt, alloc)?;

    let first = local.alloc(&rt, alloc, 0)?;
    let second = local.alloc(&rt, alloc, 0)?;
    let data = first.body().data();
    println!(rt; "items {} and {}: {data}", first.no(), second.no())?;
    if let Err(why) = local.alloc(&rt, alloc, 0) {
        println!(rt; "a third: {why}")?;
    }
    local.free(&rt, alloc, first)?;
    let third = local.alloc(&rt, alloc, 0)?;
    println!(rt; "after a free it is item {}", third.no())?;

    let line = local.stats(&rt, alloc, b"counter")?;
    print!(rt; "{}", Table::new(alloc, vec![in alloc; line]?)?)?;
    local.free(&rt, alloc, second)?;
    local.free(&rt, alloc, third)?;
    Ok(())
}
