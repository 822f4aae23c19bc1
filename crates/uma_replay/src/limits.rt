//! The limits that a trace gives its zones and those that kept refusals name, and the numbers of zones and kegs by the zone lines.
ghost use Rattle.std.specs.Prelude.{◌≡◌, ◌<◌, ◌-◌, ◌++◌, [], ◌∷◌, ◌↔◌, ℕ, Contains, IfOk, IsTrue, OnOk, Some, length, map, slice_get, slice_index, ◌≤◌, ◌==◌, false, take};
ghost use Rattle.std.specs.List.{cons_option, filter_map};
ghost use Rattle.trace_text.specs.Lines.{Moves, lines_of};
ghost use Rattle.trace_text.specs.declared.trace.ZoneHead.{ZoneHead};
ghost use Rattle.uma_replay.specs.Limits.{KeepLimits, KeepSomeOf, KeepsOneOf, last_limit, limit_in, named_limit};
ghost use Rattle.std.specs.Option.{option_map_or};
ghost use Rattle.trace_text.specs.Valid.{sharer_count};
ghost use Rattle.replay_rounds.specs.Kegs.{keg_place, index_of};
ghost use Rattle.uma_replay.specs.Reporting.{keg_number};

use crate::Memory;
use std::alloc::Global;
use trace_text::{Between, Round, ZoneHead};
use zone_stats::{Refusal, SeatLedger, ZoneLedgers};

/// The limit of each zone when all lines are done. `Memory` also where a ledger keeps a refusal by a limit that its zone
/// never had, which never happens: no clause carries out of a keg's lock which limits were set.
pub(crate) fn last_limits(
    alloc: Global,
    heads: &[ZoneHead],
    rounds: &[Round],
    ledgers: &[ZoneLedgers],
) -> Result<Vec<u64>, Memory>
    requires { length ledgers.now ≡ length heads.now }
    ensures count { IfOk result (λ limits. length limits.items ≡ length heads.now) }
    ensures last { IfOk result (λ limits. (z : ℕ) (head : ZoneHead) → slice_get heads.now z ≡ Some head → slice_index limits.items z ≡ last_limit (lines_of rounds.now) z head) }
    ensures kept { OnOk result (KeepLimits (lines_of rounds.now) heads.now ledgers.now) }
{
    let mut limits = Vec::with_capacity(alloc, heads.len())?;
    for place in 0..heads.len() {
        let gathered = limits_had(alloc, rounds, place, heads[place].limit)?;
        let had = gathered.as_slice();
        check_ledgers(had, ledgers[place].as_slice())?;
        limits.push(last_of(had))?;
    }
    Ok(limits)
}

/// The last of these limits.
fn last_of(limits: &[u64]) -> u64
    requires { 0 < length limits.now }
    ensures { result ≡ slice_index limits.now (length limits.now - 1) }
{
    limits[limits.len() - 1]
}

/// The limits of the zone at a place: that of its header line first, then those of the `setmax` lines that name it.
fn limits_had(alloc: Global, rounds: &[Round], place: usize, first: u64) -> Result<Vec<u64>, Memory>
    ensures { IfOk result (λ limits. limits.items ≡ first ∷ filter_map (limit_in place) (lines_of rounds.now)) }
{
    let mut limits = Vec::new(alloc);
    limits.push(first)?;
    for number in 0..rounds.len() {
        add_limits(place, rounds[number].between.as_slice(), &mut limits)?;
    }
    Ok(limits)
}

/// Adds the limits that these lines give the zone at a place.
fn add_limits(place: usize, between: &[Between], limits: &mut Vec<u64>) -> Result<(), Memory>
    ensures { OnOk result (limits.new.items ≡ limits.old.items ++ filter_map (limit_in place) (map Moves between.now)) }
{
    for number in 0..between.len() {
        add_limit(place, between[number], limits)?;
    }
    Ok(())
}

/// Adds the limit that a line gives the zone at a place, where it gives it one.
#[tactic(auto, using(crate::proofs::LimitLines::given_none, crate::proofs::LimitLines::given_some))]
fn add_limit(place: usize, line: Between, limits: &mut Vec<u64>) -> Result<(), Memory>
    ensures { OnOk result (limits.new.items ≡ limits.old.items ++ cons_option (limit_in place (Moves line)) []) }
{
    let Some(limit) = limit_of(place, line) else {
        return Ok(());
    };
    limits.push(limit)?;
    Ok(())
}

/// The limit that a line gives the zone at a place.
fn limit_of(place: usize, line: Between) -> Option<u64>
    ensures { result ≡ limit_in place (Moves line) }
{
    match line {
        Between::Give { .. } => None,
        Between::SetMax { zone, limit } => (zone as usize == place).then_some(limit),
    }
}

/// Refuses ledgers of a zone of which one keeps a refusal by a limit that is none of these.
pub(crate) fn check_ledgers(limits: &[u64], ledgers: &[SeatLedger]) -> Result<(), Memory>
    ensures { OnOk result (KeepSomeOf limits.now ledgers.now) }
{
    for number in 0..ledgers.len() {
        check_ledger(limits, ledgers[number])?;
    }
    Ok(())
}

/// The same of one ledger.
fn check_ledger(limits: &[u64], ledger: SeatLedger) -> Result<(), Memory>
    ensures { OnOk result (KeepsOneOf limits.now ledger) }
{
    let Some(refusal) = ledger.last else {
        return Ok(());
    };
    let Some(limit) = limit_named(refusal) else {
        return Ok(());
    };
    if is_among(limits, limit) {
        Ok(())
    } else {
        Err(Memory)
    }
}

/// The limit that a refusal names, where it is one by a limit.
fn limit_named(refusal: Refusal) -> Option<u64>
    ensures { result ≡ named_limit refusal }
{
    match refusal {
        Refusal::AtLimit { limit, .. } => Some(limit),
        Refusal::Reserved { .. } => None,
        Refusal::Full { .. } => None,
        Refusal::Init { .. } => None,
        Refusal::Ctor { .. } => None,
    }
}

/// Whether the limit is one of these.
fn is_among(limits: &[u64], limit: u64) -> bool
    ensures { IsTrue result ↔ Contains limits.now limit }
{
    limits.contains(&limit)
}

/// The number of a zone's keg among the kegs.
pub(crate) fn keg_of(heads: &[ZoneHead], place: usize, head: &ZoneHead) -> usize
    requires { keg_place place head.now < length heads.now }
    ensures { result ≡ keg_number heads.now (keg_place place head.now) }
{
    match head.parent {
        Some(parent) => kegs_before(heads, parent as usize),
        None => kegs_before(heads, place),
    }
}

/// How many of the zones before a place have a keg of their own.
fn kegs_before(heads: &[ZoneHead], place: usize) -> usize
    requires { place < length heads.now }
    ensures { result ≡ keg_number heads.now place }
{
    let mut count = 0;
    for i in 0..place {
        if heads[i].parent.is_none() {
            count += 1;
        }
    }
    count
}

/// A zone's number in its keg: 0 for the primary zone.
pub(crate) fn number_in_keg(heads: &[ZoneHead], place: usize, head: &ZoneHead) -> usize
    requires { place < length heads.now }
    ensures { result ≡ index_of heads.now place head.now }
{
    match head.parent {
        Some(parent) => sharers_before(heads, place, parent) + 1,
        None => 0,
    }
}

/// How many of the zones before a place share the keg of the zone at `parent`.
fn sharers_before(heads: &[ZoneHead], place: usize, parent: u32) -> usize
    requires { place < length heads.now }
    ensures count { result ≡ sharer_count (take place heads.now) parent }
    ensures few { result ≤ place }
{
    let mut count = 0;
    for i in 0..place {
        if shares(&heads[i], parent) {
            count += 1;
        }
    }
    count
}

/// Whether a zone shares the keg of the zone at `parent`.
fn shares(head: &ZoneHead, parent: u32) -> bool
    ensures { result ≡ option_map_or (λ own. own == parent) head.now.parent false }
{
    match head.parent {
        Some(own) => own == parent,
        None => false,
    }
}
