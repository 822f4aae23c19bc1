//! Lines that are printed: fields with one space between two of them.

ghost use Rattle.std.specs.Prelude.{◌≡◌, ◌++◌, ◌∷◌, OnOk, decimal, map};
ghost use Rattle.std.specs.List.{flat_map};
ghost use Rattle.trace_lines.specs.CanonicalLine.{line};

use std::alloc::{AllocError, Global};

/// Appends a line of a word and numbers.
#[tactic(auto, using(crate::proofs::AppendedLines::line_appended))]
pub fn push_line(
    alloc: Global,
    text: &mut Vec<u8>,
    word: &[u8],
    numbers: &[u128],
) -> Result<(), AllocError>
    ensures { OnOk result (text.new.items ≡ text.old.items ++ line (word.now ∷ map decimal numbers.now)) }
{
    text.extend_from_slice(word)?;
    push_numbers(alloc, text, numbers)?;
    text.push(b'\n')?;
    Ok(())
}

/// Appends numbers, each after one space.
pub fn push_numbers(alloc: Global, text: &mut Vec<u8>, numbers: &[u128]) -> Result<(), AllocError>
    ensures { OnOk result (text.new.items ≡ text.old.items ++ flat_map (λ number. 32 ∷ decimal number) numbers.now) }
{
    for &number in numbers {
        push_number(alloc, text, number)?;
    }
    Ok(())
}

/// Appends a number after one space.
fn push_number(alloc: Global, text: &mut Vec<u8>, number: u128) -> Result<(), AllocError>
    ensures { OnOk result (text.new.items ≡ text.old.items ++ 32 ∷ decimal number) }
{
    let digits = format!(in alloc; "{number}")?;
    push_field(text, digits.as_bytes())
}

/// Appends a field after one space.
pub fn push_field(text: &mut Vec<u8>, field: &[u8]) -> Result<(), AllocError>
    ensures { OnOk result (text.new.items ≡ text.old.items ++ 32 ∷ field.now) }
{
    text.push(b' ')?;
    text.extend_from_slice(field)
}
