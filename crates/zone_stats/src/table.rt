//! The text of a report: the table, and the lines below it.
ghost use Rattle.std.specs.Prelude.{◌≡◌, ◌++◌, ◌∷◌, IfOk, OnOk, decimal, flat_map, replicate};
ghost use Rattle.zone_stats.specs.ReportText.{padded_left, padded_right, report_text, zone_text, clock_text, detail_text, hook_text, keg_text, names_text};

use crate::{ClockLine, HookLine, KegLine, Memory, NamesLine, Report, ZoneLine};
use std::alloc::{AllocError, Global};
use trace_lines::push_line;

/// The titles of the columns: ITEM is left in 16 places, the others right in 5, 8, 8, 8, 10, 8, 5 and 8.
const HEADER: &[u8] =
    b"ITEM              SIZE    LIMIT     USED     FREE        REQ     FAIL SLEEP  XDOMAIN\n";

/// How often a request slept, in each zone: no request of this allocator does.
const SLEEPS: u128 = 0;

/// The text of a report: the table of its zones, the lines of hooks and kegs if they are asked for, and those of the clock
/// and of the name cache where it has them.
pub fn table_text(alloc: Global, report: &Report) -> Result<Vec<u8>, Memory>
    ensures { IfOk result (λ text. text.items ≡ report_text report.now) }
{
    let mut text = Vec::new(alloc);
    text.extend_from_slice(HEADER)?;
    push_zones(alloc, &mut text, report.lines.as_slice())?;
    push_detail(alloc, &mut text, report)?;
    push_clock(alloc, &mut text, report.clock)?;
    push_names(alloc, &mut text, report.names)?;
    Ok(text)
}

/// Appends the zones' lines of the table.
fn push_zones(alloc: Global, text: &mut Vec<u8>, lines: &[ZoneLine]) -> Result<(), AllocError>
    ensures { OnOk result (text.new.items ≡ text.old.items ++ flat_map zone_text lines.now) }
{
    for line in lines {
        push_zone(alloc, text, line)?;
    }
    Ok(())
}

/// Appends a zone's line of the table.
fn push_zone(alloc: Global, text: &mut Vec<u8>, line: &ZoneLine) -> Result<(), AllocError>
    ensures { OnOk result (text.new.items ≡ text.old.items ++ zone_text line.now) }
{
    push_left(text, line.name.as_bytes(), 16)?;
    push_cells(
        alloc,
        text,
        &[
            (u128::from(line.size), 5),
            (u128::from(line.limit), 8),
            (line.used, 8),
            (line.free, 8),
            (line.req, 10),
            (line.fail, 8),
            (SLEEPS, 5),
            (line.xdomain, 8),
        ],
    )?;
    text.push(b'\n')?;
    Ok(())
}

/// Appends numbers, each right in its places after one space.
fn push_cells(alloc: Global, text: &mut Vec<u8>, cells: &[(u128, usize)]) -> Result<(), AllocError>
    ensures { OnOk result (text.new.items ≡ text.old.items
        ++ flat_map (λ cell. 32 ∷ padded_right cell.1 (decimal cell.0)) cells.now) }
{
    for &(number, width) in cells {
        let digits = format!(in alloc; "{number}")?;
        text.push(b' ')?;
        push_right(text, digits.as_bytes(), width)?;
    }
    Ok(())
}

/// Appends an item right in so many places, whole where it is too long.
fn push_right(text: &mut Vec<u8>, item: &[u8], width: usize) -> Result<(), AllocError>
    ensures { OnOk result (text.new.items ≡ text.old.items ++ padded_right width item.now) }
{
    push_spaces(text, width.saturating_sub(item.len()))?;
    text.extend_from_slice(item)
}

/// Appends an item left in so many places, whole where it is too long.
fn push_left(text: &mut Vec<u8>, item: &[u8], width: usize) -> Result<(), AllocError>
    ensures { OnOk result (text.new.items ≡ text.old.items ++ padded_left width item.now) }
{
    text.extend_from_slice(item)?;
    push_spaces(text, width.saturating_sub(item.len()))
}

fn push_spaces(text: &mut Vec<u8>, count: usize) -> Result<(), AllocError>
    ensures { OnOk result (text.new.items ≡ text.old.items ++ replicate count 32) }
{
    for _ in 0..count {
        text.push(b' ')?;
    }
    Ok(())
}

/// Appends the lines of the hooks and then those of the kegs, if the report shows them.
pub fn push_detail(alloc: Global, text: &mut Vec<u8>, report: &Report) -> Result<(), AllocError>
    ensures { OnOk result (text.new.items ≡ text.old.items ++ detail_text report.now) }
{
    if report.detail {
        push_hooks(alloc, text, report.hooks.as_slice())?;
        push_kegs(alloc, text, report.kegs.as_slice())?;
    }
    Ok(())
}

/// Appends the lines of the hooks.
fn push_hooks(alloc: Global, text: &mut Vec<u8>, lines: &[HookLine]) -> Result<(), AllocError>
    ensures { OnOk result (text.new.items ≡ text.old.items ++ flat_map hook_text lines.now) }
{
    for line in lines {
        push_hook(alloc, text, line)?;
    }
    Ok(())
}

/// Appends the line of a zone's hooks.
fn push_hook(alloc: Global, text: &mut Vec<u8>, line: &HookLine) -> Result<(), AllocError>
    ensures { OnOk result (text.new.items ≡ text.old.items ++ hook_text line.now) }
{
    let deferred = u128::from(line.deferred);
    let numbers = [line.inits, line.ctors, line.dtors, line.finis, deferred];
    text.extend_from_slice(b"hooks ")?;
    push_line(alloc, text, line.name.as_bytes(), &numbers)
}

/// Appends the lines of the kegs.
fn push_kegs(alloc: Global, text: &mut Vec<u8>, lines: &[KegLine]) -> Result<(), AllocError>
    ensures { OnOk result (text.new.items ≡ text.old.items ++ flat_map keg_text lines.now) }
{
    for line in lines {
        push_keg(alloc, text, line)?;
    }
    Ok(())
}

/// Appends the line of a keg.
fn push_keg(alloc: Global, text: &mut Vec<u8>, line: &KegLine) -> Result<(), AllocError>
    ensures { OnOk result (text.new.items ≡ text.old.items ++ keg_text line.now) }
{
    let slabs = u128::from(line.slabs);
    let free = u128::from(line.free);
    text.extend_from_slice(b"keg ")?;
    push_line(
        alloc,
        text,
        line.name.as_bytes(),
        &[slabs, free, line.inits, line.finis],
    )
}

/// Appends the line of the clock, if there is one.
pub fn push_clock(
    alloc: Global,
    text: &mut Vec<u8>,
    clock: Option<ClockLine>,
) -> Result<(), AllocError>
    ensures { OnOk result (text.new.items ≡ text.old.items ++ clock_text clock) }
{
    let Some(clock) = clock else {
        return Ok(());
    };
    let numbers = [
        u128::from(clock.read),
        u128::from(clock.write),
        u128::from(clock.entered),
        u128::from(clock.late),
    ];
    push_line(alloc, text, b"clock", &numbers)
}

/// Appends the line of the name cache, if there is one.
pub fn push_names(
    alloc: Global,
    text: &mut Vec<u8>,
    names: Option<NamesLine>,
) -> Result<(), AllocError>
    ensures { OnOk result (text.new.items ≡ text.old.items ++ names_text names) }
{
    let Some(names) = names else {
        return Ok(());
    };
    let numbers = [
        u128::from(names.looks),
        u128::from(names.hits),
        u128::from(names.misses),
        u128::from(names.late),
        u128::from(names.binds),
        u128::from(names.unbound),
        u128::from(names.refused),
    ];
    push_line(alloc, text, b"names", &numbers)
}
