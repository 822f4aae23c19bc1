//! The core of a small server: a pool of connections, a directory of sessions, and four workers on threads of their own.
//!
//! It shows a pool with a limit and with hooks that open and close, a struct that can't lose what a worker holds of the pool
//! ([`connections`]), and names of sessions that workers look up without a lock while others bind, evict and unbind them. [`worker`] counts
//! what became of each request. [`serving::serve`] has the contract that a user wants. `docs/GUIDE.md` goes through it step by step.
#![tactic(auto)]

mod connections;
mod desk;
mod plan;
mod report;
mod round;
mod run;
mod serving;
mod staff;
mod worker;

use anyhow::Result;

fn main(rt: HostRuntime) -> Result<()> {
    run::run(&rt, rt.alloc())
}
