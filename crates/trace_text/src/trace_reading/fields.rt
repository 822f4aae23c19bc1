//! The fields of a trace's lines: numbers, names, and what a line starts with.
ghost use Rattle.std.specs.Prelude.{◌≡◌, ◌≤◌, IfOk, length, take, ◌&&◌, nat_le, ◌<◌, Some};
ghost use Rattle.std.specs.Str.Parse.{AllDigits, digits_value};
ghost use Rattle.trace_lines.specs.Fields.{number_in, number_within, Reads};
ghost use Rattle.std.specs.List.{list_all};
ghost use Rattle.trace_text.specs.TraceLine.{is_name, name_in, kind_in, worker_in, slot_in, arg_in, seven_fields, reserve_option, arg_option, options, alloc_fields, only_worker, worker_and_key, worker_and_zone, is_known, word_named};
ghost use Rattle.zone_stats.specs.Name.{is_name_character};
ghost use Rattle.std.specs.Option.{option_map};
ghost use Rattle.trace_lines.specs.TextLines.{fields_of};
ghost use Rattle.trace_text.specs.Limits.{last_slot};

use crate::trace::SLOTS;
use crate::{Between, Op, TraceKind, Version, ZoneKind};
use std::marker::Model;
use trace_lines::{five_fields, next_field, no_field, one_field, ranged, two_fields};
use trace_schedule::named_in;
use zone_stats::ZoneName;

/// A number up to this one has room for one digit more in 64 bits.
const ROOMY: u64 = 1_000_000_000_000_000_000;

/// The number that the digits spell with which a field begins, and how many they are. It stops where the next digit may have no room.
#[inline(always)]
fn digits_in(field: &[u8]) -> (u64, usize)
    ensures within { result.1 ≤ length field.now }
    ensures digits { AllDigits 10 (take result.1 field.now) }
    ensures value { result.0 ≡ digits_value 10 (take result.1 field.now) }
{
    let mut number = 0u64;
    let mut count = 0;
    for byte in field {
        let Some(digit) = char::from(*byte).to_digit(10) else {
            break;
        };
        if number > ROOMY {
            break;
        }
        number = number * 10 + digit as u64;
        count += 1;
    }
    (number, count)
}

/// The number that a field spells, by the rule of `parse_number`. It goes once over the field, but for one that is no number or is beyond
/// 10^19.
#[inline(always)]
pub fn number_in(field: &[u8]) -> Result<u64, TraceKind>
    ensures { result ≡ number_in field.now }
{
    let (number, count) = digits_in(field);
    if count < field.len() || count == 0 {
        return trace_lines::number_in(field);
    }
    if field[0] == b'0' && count > 1 {
        return trace_lines::number_in(field);
    }
    Ok(number)
}

/// A number from `low` to `high`.
#[inline(always)]
pub fn number_within(field: &[u8], low: u64, high: u64) -> Result<u64, TraceKind>
    ensures value { result ≡ number_within low high field.now }
    ensures within { IfOk result (λ n. (low ≤ n) × (n ≤ high)) }
{
    let number = number_in(field)?;
    ranged(low <= number && number <= high, number)
}

/// The most bytes that a name has.
const NAME_MAX: usize = 16;

/// A field that is a name, borrowed from its line. Contracts see the list of its bytes.
#[derive(Drop)]
pub struct NameField<'a> {
    bytes: &'a [u8],
}

impl<'a> Model for NameField<'a> {
    ghost use Rattle.std.specs.Prelude.{ℕ, List};

    ghost Value = { List ℕ };

    ghost view = { λ name. name.bytes.now };
}

impl<'a> NameField<'a> {
    /// The name that a field is.
    #[inline(always)]
    pub fn of(field: &'a [u8]) -> Result<NameField<'a>, TraceKind>
        ensures { result ≡ name_in field.now }
    {
        if is_name(field) {
            Ok(NameField { bytes: field })
        } else {
            Err(TraceKind::Name)
        }
    }

    /// Its bytes.
    #[inline(always)]
    pub fn as_bytes(&self) -> &[u8]
        ensures { result.now ≡ self.now }
    {
        self.bytes
    }
}

/// Whether a field is a name.
fn is_name(field: &[u8]) -> bool
    ensures { result ≡ is_name field.now }
{
    has_length(field.len()) && has_characters(field)
}

/// Whether a name may have so many characters.
fn has_length(count: usize) -> bool
    ensures { result ≡ (nat_le 1 count && nat_le count 16) }
{
    1 <= count && count <= NAME_MAX
}

/// Whether a name may have each of these bytes.
fn has_characters(field: &[u8]) -> bool
    ensures { result ≡ list_all is_name_character field.now }
{
    field.iter().all(|&byte| is_name_character(byte))
}

/// Whether a name may have this byte.
fn is_name_character(byte: u8) -> bool
    ensures { result ≡ is_name_character byte }
{
    byte.is_ascii_alphanumeric() || byte == b'_' || byte == b'-'
}

/// The greatest number of a slot.
const LAST_SLOT: u64 = SLOTS as u64 - 1;

/// The greatest argument of a constructor.
const GREATEST_ARG: u64 = 254;

/// Five fields, in order.
type FiveFields<'a> = (&'a [u8], &'a [u8], &'a [u8], &'a [u8], &'a [u8]);

/// The name that a field is.
#[tactic(auto, using(crate::proofs::TraceFields::name_is, crate::proofs::TraceFields::no_name))]
pub fn name_in(field: &[u8]) -> Result<ZoneName, TraceKind>
    ensures { result ≡ name_in field.now }
{
    match ZoneName::new(field) {
        Some(name) => Ok(name),
        None => Err(TraceKind::Name),
    }
}

/// The kind of a zone.
pub fn kind_in(field: &[u8]) -> Result<ZoneKind, TraceKind>
    ensures { result ≡ kind_in field.now }
{
    match field {
        b"plain" => Ok(ZoneKind::Plain),
        b"smr" => Ok(ZoneKind::Smr),
        _ => Err(TraceKind::Kind),
    }
}

/// A worker of so many.
#[inline(always)]
pub fn worker_in(workers: u32, field: &[u8]) -> Result<u32, TraceKind>
    ensures value { result ≡ worker_in workers field.now }
    ensures there { IfOk result (λ n. n < workers) }
{
    let number = number_in(field)?;
    let number = ranged(number < u64::from(workers), number)?;
    Ok(number as u32)
}

/// The number of a slot.
#[inline(always)]
pub fn slot_in(field: &[u8]) -> Result<u32, TraceKind>
    ensures value { result ≡ slot_in field.now }
    ensures there { IfOk result (λ n. n ≤ last_slot) }
{
    let number = number_within(field, 0, LAST_SLOT)?;
    Ok(number as u32)
}

/// The argument of a constructor: 0 where there is none.
#[inline(always)]
pub fn arg_in(field: Option<&[u8]>) -> Result<u64, TraceKind>
    ensures { result ≡ arg_in (option_map (λ x. x.now) field.entry) }
{
    match field {
        Some(field) => number_within(field, 0, GREATEST_ARG),
        None => Ok(0),
    }
}

/// The seven fields that there are: two, and five more.
pub fn seven_fields<'a>(text: &'a [u8]) -> Result<(&'a [u8], &'a [u8], FiveFields<'a>), TraceKind>
    ensures { Reads (λ x. (x.0.now, x.1.now, (x.2.0.now, x.2.1.now, x.2.2.now, x.2.3.now, x.2.4.now))) result (seven_fields (fields_of text.now)) }
{
    let Some((first, rest)) = next_field(text) else {
        return Err(TraceKind::Fields);
    };
    let Some((second, rest)) = next_field(rest) else {
        return Err(TraceKind::Fields);
    };
    let five = five_fields(rest)?;
    Ok((first, second, five))
}

/// The one worker that there is.
pub fn only_worker(workers: u32, text: &[u8]) -> Result<u32, TraceKind>
    ensures value { result ≡ only_worker workers (fields_of text.now) }
    ensures there { IfOk result (λ n. n < workers) }
{
    worker_in(workers, one_field(text)?)
}

/// A worker and a key.
pub fn worker_and_key(workers: u32, text: &[u8]) -> Result<(u32, u64), TraceKind>
    ensures value { result ≡ worker_and_key workers (fields_of text.now) }
    ensures there { IfOk result (λ x. x.0 < workers) }
{
    let (worker, key) = two_fields(text)?;
    let worker = worker_in(workers, worker)?;
    let key = number_in(key)?;
    Ok((worker, key))
}

/// A worker and the name of a zone.
pub fn worker_and_zone(workers: u32, text: &[u8]) -> Result<(u32, NameField<'_>), TraceKind>
    ensures value { result ≡ worker_and_zone workers (fields_of text.now) }
    ensures there { IfOk result (λ x. x.0 < workers) }
{
    let (worker, zone) = two_fields(text)?;
    let worker = worker_in(workers, worker)?;
    let zone = NameField::of(zone)?;
    Ok((worker, zone))
}

/// Nothing, or `reserve`.
fn reserve_option(text: &[u8]) -> Result<bool, TraceKind>
    ensures { result ≡ reserve_option (fields_of text.now) }
{
    let Some((word, rest)) = next_field(text) else {
        return Ok(false);
    };
    if word != b"reserve".as_slice() {
        return Err(TraceKind::Fields);
    }
    no_field(rest)?;
    Ok(true)
}

/// The number behind `arg`, and then `reserve` or nothing.
fn arg_option(text: &[u8]) -> Result<(&[u8], bool), TraceKind>
    ensures { Reads (λ x. (Some x.0.now, x.1)) result (arg_option (fields_of text.now)) }
{
    let Some((number, rest)) = next_field(text) else {
        return Err(TraceKind::Fields);
    };
    let reserve = reserve_option(rest)?;
    Ok((number, reserve))
}

/// `arg N` or nothing, and then `reserve` or nothing.
fn options(text: &[u8]) -> Result<(Option<&[u8]>, bool), TraceKind>
    ensures { Reads (λ x. (option_map (λ f. f.now) x.0, x.1)) result (options (fields_of text.now)) }
{
    let Some((word, rest)) = next_field(text) else {
        return Ok((None, false));
    };
    if word == b"arg".as_slice() {
        let (number, reserve) = arg_option(rest)?;
        return Ok((Some(number), reserve));
    }
    let reserve = reserve_option(text)?;
    Ok((None, reserve))
}

/// The fields of a request: three, and its options.
#[derive(Clone, Copy)]
pub struct AllocFields<'a> {
    pub worker: &'a [u8],
    pub zone: &'a [u8],
    pub slot: &'a [u8],
    pub arg: Option<&'a [u8]>,
    pub reserve: bool,
}

impl<'a> AllocFields<'a> {
    /// The fields that there are.
    #[inline(always)]
    pub fn of(text: &'a [u8]) -> Result<AllocFields<'a>, TraceKind>
        ensures { Reads (λ x. ((x.worker.now, x.zone.now, x.slot.now), (option_map (λ f. f.now) x.arg, x.reserve))) result (alloc_fields (fields_of text.now)) }
    {
        let Some((worker, rest)) = next_field(text) else {
            return Err(TraceKind::Fields);
        };
        let Some((zone, rest)) = next_field(rest) else {
            return Err(TraceKind::Fields);
        };
        let Some((slot, rest)) = next_field(rest) else {
            return Err(TraceKind::Fields);
        };
        let (arg, reserve) = options(rest)?;
        Ok(AllocFields {
            worker,
            zone,
            slot,
            arg,
            reserve,
        })
    }
}

/// A line below the header, of a text that is being read. A zone is named by its place.
#[derive(Clone, Copy)]
pub enum Entry {
    Does { worker: u32, op: Op },
    Moves { between: Between },
    Round,
}

/// The word with which a line of a trace begins.
#[derive(Clone, Copy)]
pub enum Word {
    /// A word of a header line.
    Head(HeadWord),
    /// A word of what a worker does by itself.
    Work(WorkWord),
    /// A word of what a worker does in a zone.
    Zone(ZoneWord),
    Round,
    Give,
    SetMax,
    End,
}

#[derive(Clone, Copy)]
pub enum HeadWord {
    Uma,
    Workers,
    Domains,
    Clock,
    Detail,
    Zone,
    Second,
    Names,
}

#[derive(Clone, Copy)]
pub enum WorkWord {
    Free,
    Enter,
    Exit,
    Bind,
    Unbind,
    Look,
    Away,
    Back,
}

#[derive(Clone, Copy)]
pub enum ZoneWord {
    Alloc,
    Trim,
    Drain,
    DrainSeat,
    Prealloc,
}

/// The words of lines.
const WORDS: [(&[u8], Word); 25] = [
    (b"alloc", Word::Zone(ZoneWord::Alloc)),
    (b"free", Word::Work(WorkWord::Free)),
    (b"enter", Word::Work(WorkWord::Enter)),
    (b"exit", Word::Work(WorkWord::Exit)),
    (b"bind", Word::Work(WorkWord::Bind)),
    (b"unbind", Word::Work(WorkWord::Unbind)),
    (b"look", Word::Work(WorkWord::Look)),
    (b"away", Word::Work(WorkWord::Away)),
    (b"back", Word::Work(WorkWord::Back)),
    (b"trim", Word::Zone(ZoneWord::Trim)),
    (b"drain", Word::Zone(ZoneWord::Drain)),
    (b"drainseat", Word::Zone(ZoneWord::DrainSeat)),
    (b"prealloc", Word::Zone(ZoneWord::Prealloc)),
    (b"round", Word::Round),
    (b"give", Word::Give),
    (b"setmax", Word::SetMax),
    (b"end", Word::End),
    (b"uma", Word::Head(HeadWord::Uma)),
    (b"workers", Word::Head(HeadWord::Workers)),
    (b"domains", Word::Head(HeadWord::Domains)),
    (b"clock", Word::Head(HeadWord::Clock)),
    (b"detail", Word::Head(HeadWord::Detail)),
    (b"zone", Word::Head(HeadWord::Zone)),
    (b"second", Word::Head(HeadWord::Second)),
    (b"names", Word::Head(HeadWord::Names)),
];

impl Word {
    /// The word that a field is.
    pub fn named(field: &[u8]) -> Option<Word>
        ensures { result ≡ word_named field.now }
    {
        named_in(&WORDS, field)
    }

    /// Whether the version has this word: version 1 has none that changes a limit, and only version 3 has those of
    /// workers that leave and come back.
    pub fn is_known(self, version: Version) -> bool
        ensures { result ≡ is_known version self }
    {
        match self {
            Word::SetMax => version.changes_limits(),
            Word::Work(WorkWord::Away | WorkWord::Back) => version.lets_leave(),
            _ => true,
        }
    }
}
