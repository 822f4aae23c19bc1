//! What one line of a trace says, by itself.
ghost use Rattle.std.specs.Prelude.{◌≡◌, ℕ, Err, IfOk, IfErr};
ghost use Rattle.trace_lines.specs.Fields.{Reads};
ghost use Rattle.trace_lines.specs.TextLines.{fields_of};
ghost use Rattle.trace_text.specs.TraceLine.{parsed_by, says, parse_alloc, parse_prealloc, parse_zone_work, parse_free, parse_bind, parse_work, parse_give, parse_setmax};
ghost use Rattle.trace_text.specs.TraceShown.{NamesFit};
ghost use Rattle.trace_text.specs.TraceWord.{word_from};

use crate::trace::GREATEST_LIMIT;
use crate::trace_reading::fields::{
    AllocFields, NameField, Word, WorkWord, ZoneWord, arg_in, number_in, number_within,
    only_worker, slot_in, worker_and_key, worker_and_zone, worker_in,
};
use crate::trace_reading::head::parse_head;
use crate::trace_reading::reader::Stage;
use crate::{ClockHead, NamesHead, Op, TraceKind, Version, ZoneHead, ZoneKind};
use trace_lines::{four_fields, next_field, no_field, three_fields, two_fields};
use zone_stats::ZoneName;

/// What a line says. A zone is named here by its name.
#[derive(Drop)]
pub enum ParsedLine<'a> {
    Uma {
        version: Version,
    },
    Workers {
        count: u32,
    },
    Domains {
        count: u8,
    },
    Clock {
        clock: ClockHead,
    },
    Detail,
    Zone {
        zone: ZoneHead,
    },
    Second {
        second: SecondHead,
    },
    Names {
        names: NamesHead,
    },
    /// What a worker does by itself.
    Work {
        worker: u32,
        op: Op,
    },
    /// What a worker does in a zone.
    InZone {
        worker: u32,
        zone: NameField<'a>,
        work: ZoneWork,
    },
    Round,
    Give {
        giver: u32,
        slot: u32,
        taker: u32,
        slot2: u32,
    },
    /// Gives a zone another limit.
    SetMax {
        zone: NameField<'a>,
        limit: u64,
    },
    End,
}

/// A `second` line.
#[derive(Drop)]
pub struct SecondHead {
    pub name: ZoneName,
    /// The name of the primary zone.
    pub of: ZoneName,
    pub bucket: u32,
    pub limit: u64,
    pub kind: ZoneKind,
}

/// What is done in a zone.
#[derive(Clone, Copy)]
pub enum ZoneWork {
    Alloc { slot: u32, arg: u64, reserve: bool },
    Trim,
    Drain,
    DrainSeat,
    Prealloc { items: u64 },
}

/// The word of a line, and what is behind it.
fn any_word(line: &[u8]) -> Result<(Word, &[u8]), TraceKind>
    ensures { Reads (λ x. (x.0, fields_of x.1.now)) result (word_from (fields_of line.now)) }
{
    let Some((first, rest)) = next_field(line) else {
        return Err(TraceKind::Word);
    };
    let word = Word::named(first).ok_or(TraceKind::Word)?;
    Ok((word, rest))
}

/// The same, found at once where the line begins with `free`.
#[inline(always)]
fn free_or_any_word(line: &[u8]) -> Result<(Word, &[u8]), TraceKind>
    ensures { Reads (λ x. (x.0, fields_of x.1.now)) result (word_from (fields_of line.now)) }
{
    match line {
        [b'f', b'r', b'e', b'e', b' ', rest @ ..] => Ok((Word::Work(WorkWord::Free), rest)),
        _ => any_word(line),
    }
}

/// The same, found at once where the line begins with one of the two words of most lines.
#[inline(always)]
fn first_word(line: &[u8]) -> Result<(Word, &[u8]), TraceKind>
    ensures { Reads (λ x. (x.0, fields_of x.1.now)) result (word_from (fields_of line.now)) }
{
    match line {
        [b'a', b'l', b'l', b'o', b'c', b' ', rest @ ..] => {
            Ok((Word::Zone(ZoneWord::Alloc), rest))
        }
        _ => free_or_any_word(line),
    }
}

/// The word of a line behind the first one, where it may stand there, and what is behind it.
#[tactic(auto, using(crate::proofs::TraceWords::says_by_word, crate::proofs::TraceWords::says_unknown, crate::proofs::TraceWords::says_misplaced, crate::proofs::TraceWords::says_no_word))]
#[inline(always)]
pub fn word_in(version: Version, stage: Stage, line: &[u8]) -> Result<(Word, &[u8]), TraceKind>
    ensures word { IfOk result (λ x. (workers : ℕ) → says version stage workers (fields_of line.now) ≡ parsed_by workers x.0 (fields_of x.1.now)) }
    ensures wrong { IfErr result (λ kind. (workers : ℕ) → says version stage workers (fields_of line.now) ≡ Err kind) }
{
    let (word, rest) = first_word(line)?;
    if !word.is_known(version) {
        return Err(TraceKind::Word);
    }
    if !stage.may_follow(word) {
        return Err(TraceKind::Place);
    }
    Ok((word, rest))
}

impl<'a> ParsedLine<'a> {
    /// What a line says by its word and what stands behind it.
    #[inline(always)]
    pub fn by_word(workers: u32, word: Word, rest: &'a [u8]) -> Result<ParsedLine<'a>, TraceKind>
        ensures value { result ≡ parsed_by workers word (fields_of rest.now) }
        ensures names { IfOk result (NamesFit workers) }
    {
        match word {
            Word::Head(word) => parse_head(word, rest),
            Word::Work(word) => parse_work(workers, word, rest),
            Word::Zone(word) => parse_zone_work(workers, word, rest),
            Word::Round => {
                no_field(rest)?;
                Ok(ParsedLine::Round)
            }
            Word::Give => parse_give(workers, rest),
            Word::SetMax => parse_setmax(rest),
            Word::End => {
                no_field(rest)?;
                Ok(ParsedLine::End)
            }
        }
    }
}

/// The most items that a `prealloc` line brings in.
const MOST_ITEMS: u64 = 262_144;

/// What a worker of so many does by itself.
#[inline(always)]
pub fn parse_work(workers: u32, word: WorkWord, rest: &[u8]) -> Result<ParsedLine<'_>, TraceKind>
    ensures value { result ≡ parse_work workers word (fields_of rest.now) }
    ensures names { IfOk result (NamesFit workers) }
{
    match word {
        WorkWord::Free => parse_free(workers, rest),
        WorkWord::Enter => {
            let worker = only_worker(workers, rest)?;
            let op = Op::Enter;
            Ok(ParsedLine::Work { worker, op })
        }
        WorkWord::Exit => {
            let worker = only_worker(workers, rest)?;
            let op = Op::Exit;
            Ok(ParsedLine::Work { worker, op })
        }
        WorkWord::Bind => parse_bind(workers, rest),
        WorkWord::Unbind => {
            let (worker, key) = worker_and_key(workers, rest)?;
            let op = Op::Unbind { key };
            Ok(ParsedLine::Work { worker, op })
        }
        WorkWord::Look => {
            let (worker, key) = worker_and_key(workers, rest)?;
            let op = Op::Look { key };
            Ok(ParsedLine::Work { worker, op })
        }
        WorkWord::Away => {
            let worker = only_worker(workers, rest)?;
            let op = Op::Away;
            Ok(ParsedLine::Work { worker, op })
        }
        WorkWord::Back => {
            let worker = only_worker(workers, rest)?;
            let op = Op::Back;
            Ok(ParsedLine::Work { worker, op })
        }
    }
}

/// A free.
#[inline(always)]
pub fn parse_free(workers: u32, rest: &[u8]) -> Result<ParsedLine<'_>, TraceKind>
    ensures value { result ≡ parse_free workers (fields_of rest.now) }
    ensures names { IfOk result (NamesFit workers) }
{
    let (worker, slot) = two_fields(rest)?;
    let worker = worker_in(workers, worker)?;
    let slot = slot_in(slot)?;
    let op = Op::Free { slot };
    Ok(ParsedLine::Work { worker, op })
}

/// A binding of a name.
fn parse_bind(workers: u32, rest: &[u8]) -> Result<ParsedLine<'_>, TraceKind>
    ensures value { result ≡ parse_bind workers (fields_of rest.now) }
    ensures names { IfOk result (NamesFit workers) }
{
    let (worker, key, value) = three_fields(rest)?;
    let worker = worker_in(workers, worker)?;
    let key = number_in(key)?;
    let value = number_in(value)?;
    let op = Op::Bind { key, value };
    Ok(ParsedLine::Work { worker, op })
}

/// What a worker of so many does in a zone.
#[inline(always)]
pub fn parse_zone_work(
    workers: u32,
    word: ZoneWord,
    rest: &[u8],
) -> Result<ParsedLine<'_>, TraceKind>
    ensures value { result ≡ parse_zone_work workers word (fields_of rest.now) }
    ensures names { IfOk result (NamesFit workers) }
{
    let work = match word {
        ZoneWord::Alloc => return parse_alloc(workers, rest),
        ZoneWord::Prealloc => return parse_prealloc(workers, rest),
        ZoneWord::Trim => ZoneWork::Trim,
        ZoneWord::Drain => ZoneWork::Drain,
        ZoneWord::DrainSeat => ZoneWork::DrainSeat,
    };
    let (worker, zone) = worker_and_zone(workers, rest)?;
    Ok(ParsedLine::InZone { worker, zone, work })
}

/// A request.
#[inline(always)]
pub fn parse_alloc(workers: u32, rest: &[u8]) -> Result<ParsedLine<'_>, TraceKind>
    ensures value { result ≡ parse_alloc workers (fields_of rest.now) }
    ensures names { IfOk result (NamesFit workers) }
{
    let fields = AllocFields::of(rest)?;
    let worker = worker_in(workers, fields.worker)?;
    let zone = NameField::of(fields.zone)?;
    let slot = slot_in(fields.slot)?;
    let arg = arg_in(fields.arg)?;
    let work = ZoneWork::Alloc {
        slot,
        arg,
        reserve: fields.reserve,
    };
    Ok(ParsedLine::InZone { worker, zone, work })
}

/// The bringing in of slabs.
fn parse_prealloc(workers: u32, rest: &[u8]) -> Result<ParsedLine<'_>, TraceKind>
    ensures value { result ≡ parse_prealloc workers (fields_of rest.now) }
    ensures names { IfOk result (NamesFit workers) }
{
    let (worker, zone, items) = three_fields(rest)?;
    let worker = worker_in(workers, worker)?;
    let zone = NameField::of(zone)?;
    let items = number_within(items, 0, MOST_ITEMS)?;
    let work = ZoneWork::Prealloc { items };
    Ok(ParsedLine::InZone { worker, zone, work })
}

/// A move from a worker's slot to one of a worker.
pub fn parse_give(workers: u32, rest: &[u8]) -> Result<ParsedLine<'_>, TraceKind>
    ensures value { result ≡ parse_give workers (fields_of rest.now) }
    ensures names { IfOk result (NamesFit workers) }
{
    let (giver, slot, taker, slot2) = four_fields(rest)?;
    Ok(ParsedLine::Give {
        giver: worker_in(workers, giver)?,
        slot: slot_in(slot)?,
        taker: worker_in(workers, taker)?,
        slot2: slot_in(slot2)?,
    })
}

/// Another limit of a zone.
pub fn parse_setmax(rest: &[u8]) -> Result<ParsedLine<'_>, TraceKind>
    ensures value { result ≡ parse_setmax (fields_of rest.now) }
    ensures names { (workers : ℕ) → IfOk result (NamesFit workers) }
{
    let (zone, limit) = two_fields(rest)?;
    Ok(ParsedLine::SetMax {
        zone: NameField::of(zone)?,
        limit: number_within(limit, 0, GREATEST_LIMIT)?,
    })
}
