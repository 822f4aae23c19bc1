//! The text that the command `bulk` writes.
ghost use Rattle.std.specs.Prelude.{◌≡◌, ◌++◌, IfOk, OnOk, flat_map};
ghost use Rattle.umarun.specs.Summary.{names_summary, summary_text, zone_summary};

use std::alloc::{AllocError, Global};
use trace_lines::push_line;
use zone_stats::{Memory, NamesLine, Report, ZoneLine};

/// How many zones a made trace has beside that of its names, which is the last one.
const ZONES: usize = 3;

/// The summary of a report of the trace that these numbers give: of each zone but that of the names the requests that got an
/// item, the items in use and the requests that were refused, and then how many looks and how many binds there were. No
/// schedule changes it where no request is refused.
#[tactic(auto, unfolding(crate::specs::Summary::summary_text))]
pub fn summary_text(
    alloc: Global,
    seed: u64,
    workers: u32,
    ops: u32,
    report: &Report,
) -> Result<Vec<u8>, Memory>
    ensures { IfOk result (λ text. text.items ≡ summary_text seed workers ops report.now) }
{
    let mut text = Vec::new(alloc);
    let numbers = [u128::from(seed), u128::from(workers), u128::from(ops)];
    push_line(alloc, &mut text, b"bulk", &numbers)?;
    let lines = report.lines.as_slice();
    push_zones(alloc, &mut text, &lines[..ZONES.min(lines.len())])?;
    push_names(alloc, &mut text, report.names)?;
    Ok(text)
}

/// Appends the lines of zones.
fn push_zones(alloc: Global, text: &mut Vec<u8>, lines: &[ZoneLine]) -> Result<(), AllocError>
    ensures { OnOk result (text.new.items ≡ text.old.items ++ flat_map zone_summary lines.now) }
{
    for line in lines {
        push_zone(alloc, text, line)?;
    }
    Ok(())
}

/// Appends the line of a zone.
fn push_zone(alloc: Global, text: &mut Vec<u8>, line: &ZoneLine) -> Result<(), AllocError>
    ensures { OnOk result (text.new.items ≡ text.old.items ++ zone_summary line.now) }
{
    text.extend_from_slice(b"zone ")?;
    push_line(
        alloc,
        text,
        line.name.as_bytes(),
        &[line.req, line.used, line.fail],
    )
}

/// Appends the lines of looks and of binds, if there are names.
fn push_names(alloc: Global, text: &mut Vec<u8>, names: Option<NamesLine>) -> Result<(), AllocError>
    ensures { OnOk result (text.new.items ≡ text.old.items ++ names_summary names) }
{
    let Some(names) = names else {
        return Ok(());
    };
    let binds = u128::from(names.binds) + u128::from(names.refused);
    push_line(alloc, text, b"looks", &[u128::from(names.looks)])?;
    push_line(alloc, text, b"binds", &[binds])
}
