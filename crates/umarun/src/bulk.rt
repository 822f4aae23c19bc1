//! What the command `bulk` does.
ghost use Rattle.std.specs.Prelude.{IfOk};
ghost use Rattle.umarun.specs.Answers.{AnswersBulk};
ghost use Rattle.umarun.specs.Making.{MayMake};

use crate::replaying::{Replayed, play};
use crate::summary::summary_text;
use std::alloc::Global;
use std::sync::Wait;
use std::thread::Threads;
use trace_gen::make_trace;
use uma_replay::Gate;
use zone_stats::Memory;

/// Makes the trace that a seed gives, of `ops` steps of `workers` workers, replays it under a gate, and answers its report with
/// what it leaves behind, and the report's summary.
pub fn replay_made<R: Threads + Wait + Sync, G: Gate + Sync>(
    rt: &R,
    alloc: Global,
    seed: u64,
    workers: u32,
    ops: u32,
    gate: &G,
) -> Result<(Replayed, Vec<u8>), Memory>
    requires { MayMake workers ops }
    ensures { IfOk result (λ done. AnswersBulk seed workers ops (G.is_free gate.now) done.0.report done.0.ended done.1.items) }
{
    let trace = make_trace(alloc, seed, workers, ops)?;
    let played = play(rt, alloc, &trace, gate)?;
    let text = summary_text(alloc, seed, workers, ops, &played.report)?;
    Ok((played, text))
}
