//! What `main` calls: the command's words, and what the commands `gen` and `steps` do.
ghost use Rattle.std.specs.Prelude.{◌≡◌, ℕ, map, string_bytes, Some, None, IfSome, IfOk, List};
ghost use Rattle.command_line.specs.Commands.{command_of};
ghost use Rattle.trace_gen.specs.Header.{made_trace as trace_of, made_trace};
ghost use Rattle.uma_io.specs.Faults.{Rose};
ghost use Rattle.umarun.specs.Ends.{Ends, ReadsInput, WritesAtEnd, DoesReplay, DoesSteps, DoesGen, DoesBulk, WritesAll};
ghost use Rattle.umarun.specs.Replaying.{HasHeadline, KeepsHeadline};
ghost use Rattle.trace_text.specs.Grammar.{IsTraceText};
ghost use Rattle.umarun.specs.Making.{MayMake, made_text};
ghost use Rattle.trace_lines.specs.declared.refused.TraceRefused.{TraceRefused as Refused};
ghost use Rattle.smr_core.specs.declared.turns.StepRefused.{StepRefused as Turned};
ghost use Rattle.umarun.specs.Answers.{AnswersSteps};
ghost use Rattle.umarun.specs.Stepping.{ArePlayed, RefusesText, RefusesStep};

use crate::bulk::replay_made;
use crate::fault::Fault;
use crate::replaying::{Finish, Replayed, replay, replayed_or_refused};
use command_line::{Command, WordsRefused, command_in};
use std::alloc::Global;
use std::sync::Wait;
use std::thread::Threads;
use trace_gen::make_trace;
use trace_lines::one_verdict;
use trace_print::print;
use trace_text::{one_schedule_reading, parse_schedule, schedule_text, schedules_print_one_thing};
use uma_io::{Sink, Source, read_all, write_all};
use uma_replay::Gate;
use zone_stats::Memory;

/// The most bytes of an input.
pub const MOST_BYTES: u64 = 16_777_216;

/// Does all that the program does: reads the words, then the whole source where the command reads it, then parses it, then
/// replays or plays it, or makes a trace, which `bulk` replays, and writes the whole output. The first refusal ends it. `words`
/// are those after the program's name.
pub fn run<R: Threads + Wait + Sync, S: Source, K: Sink, G: Gate + Sync>(
    rt: &R,
    alloc: Global,
    words: &[String],
    source: &mut S,
    sink: &mut K,
    gate: &G,
) -> Finish
    ensures ends { Ends (command_of (map string_bytes words.now)) result }
    ensures reads { ReadsInput (command_of (map string_bytes words.now)) result.fault source.old source.new
        (S.bytes_left source.old) (S.bytes_left source.new) (Rose (S.fault_count source.old) (S.fault_count source.new)) }
    ensures writes { WritesAtEnd result.fault sink.old sink.new (Rose (K.fault_count sink.old) (K.fault_count sink.new)) }

    // The headline: `Headline` of uma_replay has its sentence, and a field for each clause of it. For `replay` it holds for a
    // valid trace, which is the one that the bytes read are the text of where the source reports them, and for `bulk` for the
    // trace that the numbers give. Under a free gate no operation gave up waiting.
    ensures headline { command_of (map string_bytes words.now) ≡ Some Command.Replay
        → IfSome result.report (λ report. IfSome result.hall (KeepsHeadline (S.bytes_left source.old) report)) }
    ensures bulk_headline { (seed workers ops : ℕ) → command_of (map string_bytes words.now) ≡ Some (Command.Bulk seed workers ops)
        → IfSome result.report (λ report. IfSome result.hall (HasHeadline (trace_of seed workers ops) report)) }
    ensures free { G.is_free gate.now → IfSome result.report (λ report. report.gave_up ≡ 0) }

    // One record for each command.
    ensures replay { command_of (map string_bytes words.now) ≡ Some Command.Replay
        → DoesReplay result (S.bytes_left source.old) (K.bytes_held sink.old) (K.bytes_held sink.new)
        (Rose (S.fault_count source.old) (S.fault_count source.new)) (Rose (K.fault_count sink.old) (K.fault_count sink.new)) }
    ensures steps { command_of (map string_bytes words.now) ≡ Some Command.Steps
        → DoesSteps result (S.bytes_left source.old) (K.bytes_held sink.old) (K.bytes_held sink.new)
        (Rose (S.fault_count source.old) (S.fault_count source.new)) (Rose (K.fault_count sink.old) (K.fault_count sink.new)) }
    ensures made { (seed workers ops : ℕ) → command_of (map string_bytes words.now) ≡ Some (Command.Gen seed workers ops)
        → DoesGen seed workers ops result (K.bytes_held sink.old) (K.bytes_held sink.new)
        (Rose (K.fault_count sink.old) (K.fault_count sink.new)) }
    ensures bulk { (seed workers ops : ℕ) → command_of (map string_bytes words.now) ≡ Some (Command.Bulk seed workers ops)
        → DoesBulk seed workers ops result (K.bytes_held sink.old) (K.bytes_held sink.new)
        (Rose (K.fault_count sink.old) (K.fault_count sink.new)) }
{
    match command_in(alloc, words) {
        Err(WordsRefused::Usage) => Finish::refused(Fault::Usage),
        Err(WordsRefused::Memory) => Finish::refused(Fault::Memory),
        Ok(Command::Replay) => {
            replayed_or_refused();
            match replay(rt, alloc, source, gate) {
                Err(fault) => Finish::refused(fault),
                Ok((played, text)) => reported(sink, played, &text),
            }
        }
        Ok(Command::Steps) => {
            played_or_refused();
            match steps(alloc, source) {
                Err(fault) => Finish::refused(fault),
                Ok(text) => written(sink, &text),
            }
        }
        Ok(Command::Gen { seed, workers, ops }) => match made_text(alloc, seed, workers, ops) {
            Err(_) => Finish::refused(Fault::Memory),
            Ok(text) => written(sink, &text),
        },
        Ok(Command::Bulk { seed, workers, ops }) => {
            match replay_made(rt, alloc, seed, workers, ops, gate) {
                Err(_) => Finish::refused(Fault::Memory),
                Ok((played, summary)) => reported(sink, played, &summary),
            }
        }
    }
}

/// Writes the whole text of a command that makes a report.
fn reported<K: Sink>(sink: &mut K, played: Replayed, text: &[u8]) -> Finish
    ensures report { result.report ≡ Some played.report }
    ensures hall { result.hall ≡ Some played.ended }
    ensures writes { WritesAll result text.now (K.bytes_held sink.old) (K.bytes_held sink.new) (Rose (K.fault_count sink.old) (K.fault_count sink.new)) }
{
    match write_all(sink, text) {
        Ok(()) => Finish::replayed(played, None),
        Err(_) => Finish::replayed(played, Some(Fault::Write)),
    }
}

/// Writes the whole text of a command that makes no report.
fn written<K: Sink>(sink: &mut K, text: &[u8]) -> Finish
    ensures no_report { result.report ≡ None }
    ensures no_hall { result.hall ≡ None }
    ensures writes { WritesAll result text.now (K.bytes_held sink.old) (K.bytes_held sink.new) (Rose (K.fault_count sink.old) (K.fault_count sink.new)) }
{
    match write_all(sink, text) {
        Ok(()) => Finish::good(),
        Err(_) => Finish::refused(Fault::Write),
    }
}

/// The canonical text of the trace that a seed gives, of `ops` steps of `workers` workers. It is a text of that trace.
pub fn made_text(alloc: Global, seed: u64, workers: u32, ops: u32) -> Result<Vec<u8>, Memory>
    requires { MayMake workers ops }
    ensures text { IfOk result (λ text. text.items ≡ made_text seed workers ops) }
    ensures reads_back { IfOk result (λ text. IsTraceText text.items (made_trace seed workers ops)) }
{
    let trace = make_trace(alloc, seed, workers, ops)?;
    print(alloc, &trace)
}

/// Reads a schedule, plays it, and answers what it prints.
pub fn steps<S: Source>(alloc: Global, source: &mut S) -> Result<Vec<u8>, Fault>
    ensures { AnswersSteps result (S.bytes_left source.old) (S.bytes_left source.new) (Rose (S.fault_count source.old) (S.fault_count source.new)) }
{
    let bytes = read_all(alloc, source, MOST_BYTES)?;
    let schedule = parse_schedule(alloc, &bytes)?;
    let printed = schedule_text(alloc, &schedule)?;
    Ok(printed)
}

/// Bytes that are the text of a schedule none of whose steps is refused are refused for no reason. The call does nothing:
/// its contract is the law.
pub fn played_or_refused()
    ensures text { (refused : Refused) (bytes : List ℕ) → RefusesText refused bytes → ArePlayed bytes → ⊥ }
    ensures step { (line : ℕ) (refused : Turned) (bytes : List ℕ)
        → RefusesStep line refused bytes → ArePlayed bytes → ⊥ }
{
    one_verdict();
    one_schedule_reading();
    schedules_print_one_thing();
}
