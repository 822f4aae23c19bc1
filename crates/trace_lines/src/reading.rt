//! The lines of a text and the fields of a line, borrowed from it, and the tests that every grammar makes of them.
ghost use Rattle.std.specs.Prelude.{◌≡◌, ◌≤◌, IfOk, ℕ, IfSome, IfNone, ◌<◌, [], ◌∷◌, length, ◌==◌, not, IfErr, List, Option, Some, None, OnOk, IsErrOf};
ghost use Rattle.trace_lines.specs.Fields.{Reads, no_field, one_field, two_fields, three_fields, four_fields, five_fields, number_in, ranged, number_within, is_head};
ghost use Rattle.trace_lines.specs.TextLines.{fields_of, is_allowed, is_blank, is_plain, TextLine, is_ended, is_allowed as is_allowed_byte, is_skipped, IsRefusedAt};
ghost use Rattle.trace_lines.specs.Number.{IsNumber};
ghost use Rattle.std.specs.List.{list_all, position};
ghost use Rattle.std.specs.Str.Lines.{lines, strip_carriage_return};
ghost use Rattle.trace_lines.specs.Taking.{ReadsLine, TakesLine, ShowsText, at_line};
ghost use Rattle.trace_lines.specs.declared.refused.TraceKind.{TraceKind as KindValue};
ghost use Rattle.trace_lines.specs.declared.refused.TraceRefused.{TraceRefused as Refused};

use crate::refused::{LineRefused, ParseRefused, TraceKind, TraceRefused};
use std::str::from_utf8;

/// That there is no field.
#[inline(always)]
pub fn no_field(text: &[u8]) -> Result<(), TraceKind>
    ensures { result ≡ no_field (fields_of text.now) }
{
    match next_field(text) {
        Some(_) => Err(TraceKind::Fields),
        None => Ok(()),
    }
}

/// The one field that there is.
#[tactic(auto, using(crate::proofs::Counting::one_by))]
#[inline(always)]
pub fn one_field(text: &[u8]) -> Result<&[u8], TraceKind>
    ensures { Reads (λ x. x.now) result (one_field (fields_of text.now)) }
{
    let Some((first, rest)) = next_field(text) else {
        return Err(TraceKind::Fields);
    };
    no_field(rest)?;
    Ok(first)
}

/// The two fields that there are.
#[tactic(auto, using(crate::proofs::Counting::two_by))]
#[inline(always)]
pub fn two_fields(text: &[u8]) -> Result<(&[u8], &[u8]), TraceKind>
    ensures { Reads (λ x. (x.0.now, x.1.now)) result (two_fields (fields_of text.now)) }
{
    let Some((first, rest)) = next_field(text) else {
        return Err(TraceKind::Fields);
    };
    let second = one_field(rest)?;
    Ok((first, second))
}

/// The three fields that there are.
#[tactic(auto, using(crate::proofs::Counting::three_by))]
pub fn three_fields(text: &[u8]) -> Result<(&[u8], &[u8], &[u8]), TraceKind>
    ensures { Reads (λ x. (x.0.now, x.1.now, x.2.now)) result (three_fields (fields_of text.now)) }
{
    let Some((first, rest)) = next_field(text) else {
        return Err(TraceKind::Fields);
    };
    let (second, third) = two_fields(rest)?;
    Ok((first, second, third))
}

/// The four fields that there are.
#[tactic(auto, using(crate::proofs::Counting::four_by))]
pub fn four_fields(text: &[u8]) -> Result<(&[u8], &[u8], &[u8], &[u8]), TraceKind>
    ensures { Reads (λ x. (x.0.now, x.1.now, x.2.now, x.3.now)) result (four_fields (fields_of text.now)) }
{
    let Some((first, rest)) = next_field(text) else {
        return Err(TraceKind::Fields);
    };
    let (second, third, fourth) = three_fields(rest)?;
    Ok((first, second, third, fourth))
}

/// The five fields that there are.
#[tactic(auto, using(crate::proofs::Counting::five_by))]
pub fn five_fields(text: &[u8]) -> Result<(&[u8], &[u8], &[u8], &[u8], &[u8]), TraceKind>
    ensures { Reads (λ x. (x.0.now, x.1.now, x.2.now, x.3.now, x.4.now)) result (five_fields (fields_of text.now)) }
{
    let Some((first, rest)) = next_field(text) else {
        return Err(TraceKind::Fields);
    };
    let (second, third, fourth, fifth) = four_fields(rest)?;
    Ok((first, second, third, fourth, fifth))
}

/// The number that a field spells, by the rule of `parse_number`.
#[tactic(auto, using(crate::proofs::Numbers::number_of_is))]
pub fn number_in(field: &[u8]) -> Result<u64, TraceKind>
    ensures { result ≡ number_in field.now }
{
    parse_number(field).ok_or(TraceKind::Number)
}

/// The number, or `Range` where it isn't within its range.
#[inline(always)]
pub fn ranged(within: bool, number: u64) -> Result<u64, TraceKind>
    ensures { result ≡ ranged within number }
{
    if within {
        Ok(number)
    } else {
        Err(TraceKind::Range)
    }
}

/// A number from `low` to `high`.
pub fn number_within(field: &[u8], low: u64, high: u64) -> Result<u64, TraceKind>
    ensures value { result ≡ number_within low high field.now }
    ensures within { IfOk result (λ n. (low ≤ n) × (n ≤ high)) }
{
    let number = number_in(field)?;
    ranged(low <= number && number <= high, number)
}

/// Whether a first line says that the text is of this kind, in version 1.
pub fn is_head(line: &[u8], name: &[u8]) -> bool
    ensures { result ≡ is_head name.now (fields_of line.now) }
{
    match two_fields(line) {
        Ok((word, version)) => word == name && version == b"1".as_slice(),
        Err(_) => false,
    }
}

/// The number that the text spells: decimal digits without a sign, without a leading zero other than in `0`, at most
/// 2^64 - 1. It goes once over the text and takes no memory.
pub fn parse_number(text: &[u8]) -> Option<u64>
    ensures some { IfSome result (IsNumber text.now) }
    ensures none { IfNone result ((n : ℕ) → IsNumber text.now n → ⊥) }
{
    let &[first, ..] = text else {
        return None;
    };
    // `parse` takes a plus, and zeros in front.
    if first == b'+' {
        return None;
    }
    if first == b'0' && text.len() > 1 {
        return None;
    }
    match from_utf8(text) {
        Ok(text) => text.parse().ok(),
        Err(_) => None,
    }
}

/// The line without the one CR at its end, if it has one.
fn without_return(line: &[u8]) -> &[u8]
    ensures { result.now ≡ strip_carriage_return line.now }
{
    match line.last() {
        Some(b'\r') => &line[..line.len() - 1],
        _ => line,
    }
}

/// Where the first line ends.
fn place_of_end(text: &[u8]) -> Option<usize>
    ensures { result ≡ position (λ byte. byte == 10) text.now }
{
    text.iter().position(|&byte| byte == b'\n')
}

/// The first line, without its end, and what stands behind it.
fn any_line(text: &[u8]) -> (&[u8], &[u8])
    requires { 0 < length text.now }
    ensures line { lines text.now ≡ result.0.now ∷ lines result.1.now }
    ensures shorter { length result.1.now < length text.now }
{
    match place_of_end(text) {
        Some(at) => (without_return(&text[..at]), &text[at + 1..]),
        None => (text, &text[text.len()..]),
    }
}

/// Whether a byte is one from space to tilde.
fn is_plain(byte: u8) -> bool
    ensures { result ≡ is_plain byte }
{
    b' ' <= byte && byte <= b'~'
}

/// Where the first byte stands that is none from space to tilde.
fn place_past_plain(text: &[u8]) -> Option<usize>
    ensures { result ≡ position (λ byte. not (is_plain byte)) text.now }
{
    text.iter().position(|&byte| !is_plain(byte))
}

/// The first line, without its end, what stands behind it, and whether each byte of the line is one that may stand there.
/// It goes once over a line that has bytes from space to tilde alone, and ends at LF.
#[inline(always)]
pub fn first_line(text: &[u8]) -> (&[u8], &[u8], bool)
    requires { 0 < length text.now }
    ensures line { lines text.now ≡ result.0.now ∷ lines result.1.now }
    ensures shorter { length result.1.now < length text.now }
    ensures allowed { result.2 ≡ list_all is_allowed result.0.now }
{
    if let Some(at) = place_past_plain(text) {
        if text[at] == b'\n' {
            return (&text[..at], &text[at + 1..], true);
        }
    }
    let (line, behind) = any_line(text);
    let allowed = is_allowed_line(line);
    (line, behind, allowed)
}

fn is_allowed(byte: u8) -> bool
    ensures { result ≡ is_allowed byte }
{
    byte == b'\t' || is_plain(byte)
}

/// Whether each byte of a line is one that may stand there: a tab, or one from space to tilde.
fn is_allowed_line(line: &[u8]) -> bool
    ensures { result ≡ list_all is_allowed line.now }
{
    line.iter().all(|&byte| is_allowed(byte))
}

fn is_blank(byte: u8) -> bool
    ensures { result ≡ is_blank byte }
{
    byte == b' ' || byte == b'\t'
}

/// Where the first field begins.
pub fn place_of_field(text: &[u8]) -> Option<usize>
    ensures { result ≡ position (λ byte. not (is_blank byte)) text.now }
{
    text.iter().position(|&byte| !is_blank(byte))
}

/// Where the field with which the text begins ends.
fn place_of_blank(text: &[u8]) -> Option<usize>
    ensures { result ≡ position is_blank text.now }
{
    text.iter().position(|&byte| is_blank(byte))
}

/// The first field, and what stands behind it. The fields of a line are what stands between its blanks.
#[inline(always)]
pub fn next_field(text: &[u8]) -> Option<(&[u8], &[u8])>
    ensures some { IfSome result (λ x. fields_of text.now ≡ x.0.now ∷ fields_of x.1.now) }
    ensures none { IfNone result (fields_of text.now ≡ []) }
{
    let start = place_of_field(text)?;
    let text = &text[start..];
    match place_of_blank(text) {
        Some(at) => Some((&text[..at], &text[at + 1..])),
        None => Some((text, &text[text.len()..])),
    }
}

/// A grammar is a test of each line that isn't skipped, by the earlier ones. What keeps a running state for it is handed
/// one line after another, and shows what the earlier ones were.
pub trait Grammar {
    /// What is wrong with a line after these earlier ones, the last one first, or nothing.
    ghost test: { List TextLine → TextLine → Option KindValue };

    /// The state is the one after these lines, the last one first.
    ghost shows: { Self → List TextLine → Type 0 };

    /// What the state keeps between any two lines, whatever they are.
    ghost kept: { Self → Type 0 };

    /// Takes a line in, or says what is wrong with it. `number` is that of the line, from 1.
    fn take(&mut self, number: u64, line: &[u8]) -> Result<(), LineRefused>
        requires { kept self.old }
        ensures takes { ReadsLine test shows self.old number (fields_of line.now) result self.new }
        ensures kept { kept self.new };

    /// Whether the last line was `end`.
    fn is_ended(&self) -> bool
        ensures { (earlier : List TextLine) → shows self.now earlier → result ≡ is_ended earlier };
}

/// Has the grammar take the lines of a text in, one after another. The first bad line is refused with its number and with
/// the first thing that is wrong with it; where there is none but no `end` either, the line after the last one is. It goes
/// a fixed number of times over each line, and takes only the memory that the grammar takes.
pub fn read_lines<G: Grammar>(grammar: &mut G, text: &[u8]) -> Result<(), ParseRefused>
    requires shows { G.shows grammar.old [] }
    requires kept { G.kept grammar.old }
    ensures read { OnOk result (ShowsText G.test G.shows text.now grammar.new) }
    ensures refused { (refused : Refused) → IsErrOf result (ParseRefused.Trace refused)
        → IsRefusedAt G.test text.now refused.line refused.kind }
{
    let mut rest = text;
    let mut number = 0;
    'lines: while !rest.is_empty() {
        let (line, behind, is_allowed) = first_line(rest);
        number += 1;
        if let Err(refused) = read_line(grammar, number, line, is_allowed) {
            return Err(at_line(number, refused));
        }
        rest = behind;
    }
    if !grammar.is_ended() {
        return Err(at_line(number + 1, TraceKind::NoEnd.into()));
    }
    Ok(())
}

/// The refusal of the line of this number.
fn at_line(line: u64, refused: LineRefused) -> ParseRefused
    ensures { result ≡ at_line line refused }
{
    match refused {
        LineRefused::Kind { kind } => ParseRefused::Trace {
            refused: TraceRefused { line, kind },
        },
        LineRefused::Memory => ParseRefused::Memory,
    }
}

/// Has the grammar take a line in where it isn't skipped. Its bytes are tested first, and also where it is skipped.
fn read_line<G: Grammar>(
    grammar: &mut G,
    number: u64,
    line: &[u8],
    is_allowed: bool,
) -> Result<(), LineRefused>
    requires kept { G.kept grammar.old }
    requires allowed { is_allowed ≡ list_all is_allowed_byte line.now }
    ensures takes { TakesLine G.test G.shows grammar.old number line.now result grammar.new }
    ensures kept { G.kept grammar.new }
{
    if !is_allowed {
        return Err(TraceKind::Bytes.into());
    }
    if is_skipped(line) {
        return Ok(());
    }
    grammar.take(number, line)
}

/// Whether a line has no field, or a first field that begins with `#`.
fn is_skipped(line: &[u8]) -> bool
    ensures { result ≡ is_skipped (fields_of line.now) }
{
    match place_of_field(line) {
        Some(at) => line[at] == b'#',
        None => true,
    }
}
