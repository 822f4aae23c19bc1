//! The lines of operations, and of rounds.
ghost use Rattle.std.specs.Prelude.{◌≡◌, ◌++◌, ◌∷◌, OnOk, codes, decimal, map, []};
ghost use Rattle.std.specs.List.{flat_map};
ghost use Rattle.trace_lines.specs.CanonicalLine.{line};
ghost use Rattle.trace_print.specs.CanonicalText.{arg_fields, op_line, ops_text, reserve_fields, between_line, rounds_text};

use crate::head::name_of;
use std::alloc::{AllocError, Global};
use trace_lines::{push_field, push_line, push_numbers};
use trace_text::{Between, Op, OpList, Round, ZoneHead};

/// Appends the lines of the workers from worker 0 on, each worker's in their order.
pub fn push_workers(
    alloc: Global,
    text: &mut Vec<u8>,
    zones: &[ZoneHead],
    lists: &[OpList],
) -> Result<(), AllocError>
    ensures { OnOk result (text.new.items ≡ text.old.items ++ ops_text zones.now 0 lists.now) }
{
    for (worker, ops) in lists.iter().enumerate() {
        push_ops(alloc, text, zones, worker as u128, ops.as_slice())?;
    }
    Ok(())
}

/// Appends the lines of one worker, in their order.
fn push_ops(
    alloc: Global,
    text: &mut Vec<u8>,
    zones: &[ZoneHead],
    worker: u128,
    ops: &[Op],
) -> Result<(), AllocError>
    ensures { OnOk result (text.new.items ≡ text.old.items ++ flat_map (op_line zones.now worker) ops.now) }
{
    for op in ops {
        push_op(alloc, text, zones, worker, *op)?;
    }
    Ok(())
}

/// Appends the line of an operation.
fn push_op(
    alloc: Global,
    text: &mut Vec<u8>,
    zones: &[ZoneHead],
    worker: u128,
    op: Op,
) -> Result<(), AllocError>
    ensures { OnOk result (text.new.items ≡ text.old.items ++ op_line zones.now worker op) }
{
    match op {
        Op::Alloc {
            zone,
            slot,
            arg,
            reserve,
        } => {
            let name = name_of(zones, zone);
            push_request(alloc, text, worker, name, slot, arg, reserve)
        }
        Op::Free { slot } => push_line(alloc, text, b"free", &[worker, u128::from(slot)]),
        Op::Enter => push_line(alloc, text, b"enter", &[worker]),
        Op::Exit => push_line(alloc, text, b"exit", &[worker]),
        Op::Bind { key, value } => {
            let numbers = [worker, u128::from(key), u128::from(value)];
            push_line(alloc, text, b"bind", &numbers)
        },
        Op::Unbind { key } => push_line(alloc, text, b"unbind", &[worker, u128::from(key)]),
        Op::Look { key } => push_line(alloc, text, b"look", &[worker, u128::from(key)]),
        Op::Trim { zone } => push_named(alloc, text, b"trim", worker, name_of(zones, zone), &[]),
        Op::Drain { zone } => push_named(alloc, text, b"drain", worker, name_of(zones, zone), &[]),
        Op::DrainSeat { zone } => {
            push_named(alloc, text, b"drainseat", worker, name_of(zones, zone), &[])
        }
        Op::Prealloc { zone, items } => {
            push_named(
                alloc,
                text,
                b"prealloc",
                worker,
                name_of(zones, zone),
                &[u128::from(items)],
            )
        }
        Op::Away => push_line(alloc, text, b"away", &[worker]),
        Op::Back => push_line(alloc, text, b"back", &[worker]),
    }
}

/// Appends a line of a word, a worker, the name of a zone and numbers.
#[tactic(auto, using(crate::proofs::AppendedLines::named_appended))]
fn push_named(
    alloc: Global,
    text: &mut Vec<u8>,
    word: &[u8],
    worker: u128,
    name: &[u8],
    numbers: &[u128],
) -> Result<(), AllocError>
    ensures { OnOk result (text.new.items
        ≡ text.old.items ++ line (word.now ∷ decimal worker ∷ name.now ∷ map decimal numbers.now)) }
{
    text.extend_from_slice(word)?;
    push_numbers(alloc, text, &[worker])?;
    push_field(text, name)?;
    push_numbers(alloc, text, numbers)?;
    text.push(b'\n')?;
    Ok(())
}

/// Appends the line of a request.
#[tactic(auto, using(crate::proofs::AppendedLines::request_appended))]
fn push_request(
    alloc: Global,
    text: &mut Vec<u8>,
    worker: u128,
    name: &[u8],
    slot: u32,
    arg: u64,
    reserve: bool,
) -> Result<(), AllocError>
    ensures { OnOk result (text.new.items ≡ text.old.items
        ++ line (codes "alloc" ∷ decimal worker ∷ name.now ∷ decimal slot ∷ (arg_fields arg ++ reserve_fields reserve))) }
{
    text.extend_from_slice(b"alloc")?;
    push_numbers(alloc, text, &[worker])?;
    push_field(text, name)?;
    push_numbers(alloc, text, &[u128::from(slot)])?;
    push_arg(alloc, text, arg)?;
    push_reserve(text, reserve)?;
    text.push(b'\n')?;
    Ok(())
}

/// Appends the fields of a request's argument, each after one space.
fn push_arg(alloc: Global, text: &mut Vec<u8>, arg: u64) -> Result<(), AllocError>
    ensures { OnOk result (text.new.items ≡ text.old.items ++ flat_map (λ field. 32 ∷ field) (arg_fields arg)) }
{
    if arg == 0 {
        return Ok(());
    }
    text.extend_from_slice(b" arg")?;
    push_numbers(alloc, text, &[u128::from(arg)])
}

/// Appends the field of a request that may use the reserve, after one space.
fn push_reserve(text: &mut Vec<u8>, reserve: bool) -> Result<(), AllocError>
    ensures { OnOk result (text.new.items ≡ text.old.items ++ flat_map (λ field. 32 ∷ field) (reserve_fields reserve)) }
{
    if !reserve {
        return Ok(());
    }
    text.extend_from_slice(b" reserve")
}

/// Appends the lines of the rounds. A `round` line and what stands between two rounds follow all but the last.
pub fn push_rounds(
    alloc: Global,
    text: &mut Vec<u8>,
    zones: &[ZoneHead],
    rounds: &[Round],
) -> Result<(), AllocError>
    ensures { OnOk result (text.new.items ≡ text.old.items ++ rounds_text zones.now rounds.now) }
{
    for (place, round) in rounds.iter().enumerate() {
        push_workers(alloc, text, zones, round.ops.as_slice())?;
        if place + 1 < rounds.len() {
            text.extend_from_slice(b"round\n")?;
            push_betweens(alloc, text, zones, round.between.as_slice())?;
        }
    }
    Ok(())
}

/// Appends the lines between two rounds, in their order.
fn push_betweens(
    alloc: Global,
    text: &mut Vec<u8>,
    zones: &[ZoneHead],
    betweens: &[Between],
) -> Result<(), AllocError>
    ensures { OnOk result (text.new.items ≡ text.old.items ++ flat_map (between_line zones.now) betweens.now) }
{
    for between in betweens {
        push_between(alloc, text, zones, *between)?;
    }
    Ok(())
}

/// Appends the line of what stands between two rounds.
fn push_between(
    alloc: Global,
    text: &mut Vec<u8>,
    zones: &[ZoneHead],
    between: Between,
) -> Result<(), AllocError>
    ensures { OnOk result (text.new.items ≡ text.old.items ++ between_line zones.now between) }
{
    match between {
        Between::Give {
            giver,
            slot,
            taker,
            slot2,
        } => {
            let numbers = [
                u128::from(giver),
                u128::from(slot),
                u128::from(taker),
                u128::from(slot2),
            ];
            push_line(alloc, text, b"give", &numbers)
        }
        Between::SetMax { zone, limit } => { push_limit(alloc, text, name_of(zones, zone), limit) }
    }
}

/// Appends the line of another limit of a zone.
#[tactic(auto, using(crate::proofs::AppendedLines::limit_appended))]
fn push_limit(alloc: Global, text: &mut Vec<u8>, name: &[u8], limit: u64) -> Result<(), AllocError>
    ensures { OnOk result (text.new.items ≡ text.old.items ++ line (codes "setmax" ∷ name.now ∷ decimal limit ∷ [])) }
{
    text.extend_from_slice(b"setmax")?;
    push_field(text, name)?;
    push_numbers(alloc, text, &[u128::from(limit)])?;
    text.push(b'\n')?;
    Ok(())
}
