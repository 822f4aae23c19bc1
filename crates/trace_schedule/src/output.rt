//! What a schedule prints.
ghost use Rattle.std.specs.Prelude.{◌≡◌, ◌++◌, ◌∷◌, [], IfOk, IfErr, OnOk, decimal};
ghost use Rattle.std.specs.List.{flat_map};
ghost use Rattle.trace_lines.specs.CanonicalLine.{line};
ghost use Rattle.smr_core.specs.ClockState.{IsInRange};
ghost use Rattle.smr_core.specs.CoreState.{opening};
ghost use Rattle.trace_schedule.specs.ScheduleGrammar.{IsValidSchedule};
ghost use Rattle.trace_schedule.specs.ScheduleLaws.{NoneIsRefused};
ghost use Rattle.trace_schedule.specs.ScheduleText.{seen_line, present_line, goal_line, word_line, config_of, IsOutput, PrintsLine, RefusesSchedule, RefusesTurnLine, hands_line};

use crate::{Schedule, ScheduleRefused, TurnLine, Version};
use smr_core::{Core, Seen};
use std::alloc::{AllocError, Global};
use trace_lines::{push_line, push_numbers};

/// What a schedule prints: the line of each step that its lines take, in order, and then the sequences.
/// Where a step is refused nothing is printed, and the first line that is refused is named.
pub fn schedule_text(alloc: Global, schedule: &Schedule) -> Result<Vec<u8>, ScheduleRefused>
    requires valid { IsValidSchedule schedule.now }
    ensures ok { IfOk result (λ text. IsOutput schedule.now text.items) }
    ensures refused { IfErr result (RefusesSchedule schedule.now) }
    ensures none_refused { OnOk result (NoneIsRefused schedule.now) }
{
    let mut core = open(alloc, schedule)?;
    let mut text = Vec::new(alloc);
    for line in schedule.lines.as_slice() {
        print_line(alloc, schedule.version, &mut core, &mut text, line)?;
    }
    let hands = [u128::from(core.read_hand()), u128::from(core.write_hand())];
    push_line(alloc, &mut text, b"hands", &hands)?;
    Ok(text)
}

/// The core that a schedule plays on, before its first line.
fn open(alloc: Global, schedule: &Schedule) -> Result<Core, ScheduleRefused>
    requires { IsInRange (config_of schedule.now) }
    ensures ok { IfOk result (λ core. core ≡ opening (config_of schedule.now)) }
    ensures refused { IfErr result (λ refused. refused ≡ ScheduleRefused.Memory) }
{
    match Core::new(alloc, schedule.seats, schedule.start, schedule.window) {
        Ok(core) => Ok(core),
        Err(_) => Err(ScheduleRefused::Memory),
    }
}

/// Takes the turn of a line, and appends what it prints.
#[tactic(auto, using(crate::proofs::ScheduleLemmas::refuses_line))]
fn print_line(
    alloc: Global,
    version: Version,
    core: &mut Core,
    text: &mut Vec<u8>,
    line: &TurnLine,
) -> Result<(), ScheduleRefused>
    ensures printed { OnOk result (PrintsLine version core.old line.now text.old.items text.new.items core.new) }
    ensures refused { IfErr result (RefusesTurnLine core.old line.now) }
{
    match core.turn(alloc, line.turn) {
        Ok(sees) => {
            push_sees(alloc, version, text, sees.as_slice())?;
            Ok(())
        }
        Err(refused) => Err(ScheduleRefused::at(line.line, refused)),
    }
}

/// Appends the lines of what steps saw.
fn push_sees(
    alloc: Global,
    version: Version,
    text: &mut Vec<u8>,
    sees: &[Seen],
) -> Result<(), AllocError>
    ensures { OnOk result (text.new.items ≡ text.old.items ++ flat_map (seen_line version) sees.now) }
{
    for seen in sees {
        push_seen(alloc, version, text, *seen)?;
    }
    Ok(())
}

/// Appends the line of what a step saw.
fn push_seen(
    alloc: Global,
    version: Version,
    text: &mut Vec<u8>,
    seen: Seen,
) -> Result<(), AllocError>
    ensures { OnOk result (text.new.items ≡ text.old.items ++ seen_line version seen) }
{
    match seen {
        Seen::Hand { value } => push_line(alloc, text, b"hand", &[u128::from(value)]),
        Seen::Done => push_line(alloc, text, b"done", &[]),
        Seen::Inside { loaded, found } => push_pair(alloc, text, b"in", loaded, found),
        Seen::Late { loaded, found } => push_pair(alloc, text, b"late", loaded, found),
        Seen::Spent { write } => push_line(alloc, text, b"spent", &[u128::from(write)]),
        Seen::TooFar { read, write } => push_pair(alloc, text, b"toofar", read, write),
        Seen::Goal { goal, moved } => push_goal(alloc, text, goal, moved),
        Seen::Yes { read } => push_line(alloc, text, b"yes", &[u128::from(read)]),
        Seen::No { read } => push_line(alloc, text, b"no", &[u128::from(read)]),
        Seen::Word { seat, word, least } => push_word(alloc, text, seat, word, least),
        Seen::Present { seats } => push_present(alloc, version, text, seats),
        Seen::Holder { number } => push_line(alloc, text, b"holder", &[u128::from(number)]),
    }
}

/// Appends the line of a set of seats, of which version 1 tells nothing.
fn push_present(
    alloc: Global,
    version: Version,
    text: &mut Vec<u8>,
    seats: u64,
) -> Result<(), AllocError>
    ensures { OnOk result (text.new.items ≡ text.old.items ++ present_line version seats) }
{
    match version {
        Version::One => Ok(()),
        Version::Two => push_line(alloc, text, b"present", &[u128::from(seats)]),
    }
}

/// Appends a line of a word and two numbers.
fn push_pair(
    alloc: Global,
    text: &mut Vec<u8>,
    word: &[u8],
    first: u64,
    second: u64,
) -> Result<(), AllocError>
    ensures { OnOk result (text.new.items ≡ text.old.items ++ line (word.now ∷ decimal first ∷ decimal second ∷ [])) }
{
    push_line(alloc, text, word, &[u128::from(first), u128::from(second)])
}

/// Appends the line of an advance's goal.
fn push_goal(alloc: Global, text: &mut Vec<u8>, goal: u64, moved: bool) -> Result<(), AllocError>
    ensures { OnOk result (text.new.items ≡ text.old.items ++ goal_line goal moved) }
{
    text.extend_from_slice(b"goal")?;
    push_numbers(alloc, text, &[u128::from(goal)])?;
    text.extend_from_slice(if moved { b" moved\n" } else { b" kept\n" })
}

/// Appends the line of a seat's word.
fn push_word(
    alloc: Global,
    text: &mut Vec<u8>,
    seat: u32,
    word: u32,
    least: u64,
) -> Result<(), AllocError>
    ensures { OnOk result (text.new.items ≡ text.old.items ++ word_line seat word least) }
{
    text.extend_from_slice(b"word")?;
    push_numbers(alloc, text, &[u128::from(seat), u128::from(word)])?;
    text.extend_from_slice(b" least")?;
    push_numbers(alloc, text, &[u128::from(least)])?;
    text.push(b'\n')?;
    Ok(())
}
