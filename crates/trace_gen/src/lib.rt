//! Traces made from a number: the same each time, and always valid.
//!
//! [`make_trace`] draws operations of each worker over three zones and a name cache, by the generator xoshiro256++. A second generator,
//! made from the words of `docs/FORMATS.md` alone, writes the same bytes (tested in `test_replay`).
//!
//! ```
//! let trace = make_trace(alloc, 7, 4, 1000)?;     // seed 7, four workers, a thousand steps
//! ```
//!
//! # What is promised
//!
//! - The trace is a function of the seed and the two counts (`make_trace`: `made`), and is valid (`valid`).
#![tactic(auto)]

ghost use Rattle.std.specs.Prelude.{◌≡◌, IfOk};
ghost use Rattle.trace_text.specs.Limits.{IsWithin};
ghost use Rattle.trace_text.specs.Valid.{IsValid};
ghost use Rattle.trace_gen.specs.Header.{made_trace};

use generator::Generator;
use rounds::RoundsMade;
use std::alloc::Global;
use trace_text::{Trace, Version};
use zone_stats::Memory;

mod generator;
mod head;
mod rounds;

/// The trace, of version 1, that a seed gives: `ops` steps of `workers` workers, 1 to 16, over the zones `alpha`, `beta`
/// and `gamma` and the names `dir`. `ops` is 1 to 50,000. `Memory` is the one error.
pub fn make_trace(alloc: Global, seed: u64, workers: u32, ops: u32) -> Result<Trace, Memory>
    requires workers { IsWithin 1 16 workers }
    requires ops { IsWithin 1 50000 ops }
    ensures made { IfOk result (λ trace. trace ≡ made_trace seed workers ops) }
    ensures valid { IfOk result IsValid }
{
    let head = head::head(alloc, workers)?;
    let mut generator = Generator::new(alloc, seed, workers)?;
    let mut rounds = RoundsMade::new(alloc);
    for _step in 0..ops {
        let drawn = generator.step(workers);
        rounds.push(alloc, workers, drawn)?;
    }
    let rounds = rounds.finish(alloc, workers)?;
    Ok(Trace {
        version: Version::One,
        head,
        rounds,
    })
}
