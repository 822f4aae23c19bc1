//! The header lines, with those of the zones.
ghost use Rattle.std.specs.Prelude.{◌≡◌, ◌++◌, ◌∷◌, [], OnOk, codes, decimal};
ghost use Rattle.trace_lines.specs.CanonicalLine.{line};
ghost use Rattle.trace_print.specs.CanonicalText.{first_line, head_text, clock_text, detail_text, names_text, kind_word, zone_line};
ghost use Rattle.std.specs.List.{flat_map};
ghost use Rattle.trace_text.specs.NamedZones.{zone_name};

use std::alloc::{AllocError, Global};
use trace_lines::{push_field, push_line, push_numbers};
use trace_text::{ClockHead, Head, NamesHead, Version, ZoneHead, ZoneKind};

/// Appends the first line, which says the version.
pub fn push_version(text: &mut Vec<u8>, version: Version) -> Result<(), AllocError>
    ensures { OnOk result (text.new.items ≡ text.old.items ++ first_line version) }
{
    text.extend_from_slice(match version {
        Version::One => b"uma 1\n",
        Version::Two => b"uma 2\n",
        Version::Three => b"uma 3\n",
    })
}

/// Appends the other header lines, in their order.
#[tactic(auto, using(crate::proofs::AppendedLines::head_appended))]
pub fn push_head(alloc: Global, text: &mut Vec<u8>, head: &Head) -> Result<(), AllocError>
    ensures { OnOk result (text.new.items ≡ text.old.items ++ head_text head.now) }
{
    push_counts(alloc, text, head.workers, head.domains)?;
    push_clock(alloc, text, head.clock)?;
    push_detail(text, head.detail)?;
    push_zones(alloc, text, head.zones.as_slice())?;
    push_names(alloc, text, &head.names)?;
    Ok(())
}

/// Appends the lines of the workers and the domains.
fn push_counts(
    alloc: Global,
    text: &mut Vec<u8>,
    workers: u32,
    domains: u8,
) -> Result<(), AllocError>
    ensures { OnOk result (text.new.items ≡ text.old.items ++ (line (codes "workers" ∷ decimal workers ∷ []) ++ line (codes "domains" ∷ decimal domains ∷ []))) }
{
    push_line(alloc, text, b"workers", &[u128::from(workers)])?;
    push_line(alloc, text, b"domains", &[u128::from(domains)])?;
    Ok(())
}

/// Appends the `clock` line, if there is a clock.
fn push_clock(alloc: Global, text: &mut Vec<u8>, clock: Option<ClockHead>) -> Result<(), AllocError>
    ensures { OnOk result (text.new.items ≡ text.old.items ++ clock_text clock) }
{
    match clock {
        Some(clock) => {
            let numbers = [u128::from(clock.start), u128::from(clock.window)];
            push_line(alloc, text, b"clock", &numbers)
        }
        None => Ok(()),
    }
}

/// Appends the `detail` line, if the report is to be in detail.
fn push_detail(text: &mut Vec<u8>, detail: bool) -> Result<(), AllocError>
    ensures { OnOk result (text.new.items ≡ text.old.items ++ detail_text detail) }
{
    if detail {
        text.extend_from_slice(b"detail\n")?;
    }
    Ok(())
}

/// Appends the `names` line, if there is a cache of names.
fn push_names(
    alloc: Global,
    text: &mut Vec<u8>,
    names: &Option<NamesHead>,
) -> Result<(), AllocError>
    ensures { OnOk result (text.new.items ≡ text.old.items ++ names_text names.now) }
{
    let Some(names) = names else {
        return Ok(());
    };
    let numbers = [
        u128::from(names.rows),
        u128::from(names.slabs),
        u128::from(names.bucket),
    ];
    text.extend_from_slice(b"names")?;
    push_field(text, names.name.as_bytes())?;
    push_numbers(alloc, text, &numbers)?;
    text.push(b'\n')?;
    Ok(())
}

/// Appends the lines of the zones, in their order.
pub fn push_zones(alloc: Global, text: &mut Vec<u8>, zones: &[ZoneHead]) -> Result<(), AllocError>
    ensures { OnOk result (text.new.items ≡ text.old.items ++ flat_map (zone_line zones.now) zones.now) }
{
    for zone in zones {
        push_zone(alloc, text, zones, zone)?;
    }
    Ok(())
}

/// Appends the `zone` line of a primary zone, or the `second` line of a secondary one.
fn push_zone(
    alloc: Global,
    text: &mut Vec<u8>,
    zones: &[ZoneHead],
    zone: &ZoneHead,
) -> Result<(), AllocError>
    ensures { OnOk result (text.new.items ≡ text.old.items ++ zone_line zones.now zone.now) }
{
    match zone.parent {
        None => {
            let numbers = [
                u128::from(zone.size),
                u128::from(zone.slabs),
                u128::from(zone.bucket),
                u128::from(zone.limit),
                u128::from(zone.reserve),
            ];
            text.extend_from_slice(b"zone")?;
            push_field(text, zone.name.as_bytes())?;
            push_numbers(alloc, text, &numbers)?;
        }
        Some(primary) => {
            text.extend_from_slice(b"second")?;
            push_field(text, zone.name.as_bytes())?;
            push_field(text, name_of(zones, primary))?;
            let numbers = [u128::from(zone.bucket), u128::from(zone.limit)];
            push_numbers(alloc, text, &numbers)?;
        }
    }
    push_field(text, word_of(zone.kind))?;
    text.push(b'\n')?;
    Ok(())
}

/// The word of a kind of zones.
fn word_of(kind: ZoneKind) -> &'static [u8]
    ensures { result.now ≡ kind_word kind }
{
    match kind {
        ZoneKind::Plain => b"plain",
        ZoneKind::Smr => b"smr",
    }
}

/// The name of the zone at this place, or nothing where there is none.
pub fn name_of(zones: &[ZoneHead], place: u32) -> &[u8]
    ensures { result.now ≡ zone_name zones.now place }
{
    match zones.get(place as usize) {
        Some(zone) => zone.name.as_bytes(),
        None => b"",
    }
}
