//! What the header lines say.
ghost use Rattle.std.specs.Prelude.{◌≡◌, ◌≤◌, ◌<◌, ◌++◌, [], ◌∷◌, None, length, IfSome, IfOk, IfErr, OnOk, ℕ};
ghost use Rattle.trace_text.specs.Grammar.{zone_named, primary_named, second_zone};
ghost use Rattle.trace_text.specs.Valid.{sharer_count};
ghost use Rattle.trace_lines.specs.TextLines.{fields_of};
ghost use Rattle.trace_schedule.specs.ScheduleGrammar.{start_in, window_in};
ghost use Rattle.trace_text.specs.TraceLine.{clock_in, zone_in, second_in, names_in, parse_head};
ghost use Rattle.trace_text.specs.TraceShown.{NamesFit};

use crate::trace::{GREATEST_LIMIT, MOST_WORKERS};
use crate::trace_reading::fields::{HeadWord, kind_in, name_in, seven_fields};
use crate::trace_reading::parsed_line::{ParsedLine, SecondHead};
use crate::{ClockHead, NamesHead, TraceKind, ZoneHead};
use indexmap::IndexMap;
use listed::Listed;
use std::alloc::{AllocError, Global};
use std::marker::Model;
use trace_lines::{
    LineRefused, five_fields, four_fields, no_field, number_within, one_field, two_fields,
};
use trace_schedule::{start_in, window_in};
use zone_stats::ZoneName;

/// The zones of a trace that is being read, in order of naming, found by their names. There are 16 at most, so a name that is read in
/// place is looked for among all of them. Contracts see the list of them.
#[derive(Drop)]
pub struct Zones {
    heads: IndexMap<ZoneName, ZoneHead>,
}

impl Model for Zones {
    ghost use Rattle.std.specs.Prelude.{List};
    ghost use Rattle.indexmap.specs.IndexMap.{values};
    ghost use Rattle.trace_text.specs.declared.trace.ZoneHead.{ZoneHead as Head};
    ghost use Rattle.trace_text.specs.NamedZones.{AreByName};

    ghost Value = { List Head };

    ghost view = { λ zones. values zones.heads };

    ghost invariant = { λ zones. AreByName zones.heads.entries };
}

/// Where the zone stands that has these bytes for its name.
fn place_of_name(zones: &[ZoneHead], name: &[u8]) -> Option<usize>
    ensures value { result ≡ zone_named zones.now name.now }
    ensures there { IfSome result (λ place. place < length zones.now) }
{
    zones.iter().position(|zone| zone.name.as_bytes() == name)
}

impl Zones {
    /// No zone yet.
    pub fn new(alloc: Global) -> Zones
        ensures { result ≡ [] }
    {
        Zones {
            heads: IndexMap::new(alloc),
        }
    }

    /// How many zones were named, at most 16.
    pub fn len(&self) -> usize
        ensures value { result ≡ length self.now }
        ensures few { length self.now ≤ 16 }
    {
        self.heads.len()
    }

    /// The place of the zone of this name.
    pub fn named(&self, name: &ZoneName) -> Option<u32>
        ensures { result ≡ zone_named self.now name.now }
    {
        let place = self.heads.get_index_of(name)?;
        Some(place as u32)
    }

    /// The place of the zone that has these bytes for its name.
    pub fn place_of(&self, name: &[u8]) -> Option<u32>
        ensures { result ≡ zone_named self.now name.now }
    {
        let place = place_of_name(self.heads.values().as_slice(), name)?;
        Some(place as u32)
    }

    /// The place of the primary zone of this name.
    pub fn primary_named(&self, name: &ZoneName) -> Option<u32>
        ensures { result ≡ primary_named self.now name.now }
    {
        let (place, _name, zone) = self.heads.get_full(name)?;
        match zone.parent {
            None => Some(place as u32),
            Some(_) => None,
        }
    }

    /// How many secondary zones share the keg of the zone at this place.
    pub fn sharer_count(&self, place: u32) -> usize
        ensures { result ≡ sharer_count self.now place }
    {
        self.heads
            .values()
            .filter(|zone| match zone.parent {
                Some(parent) => parent == place,
                None => false,
            })
            .count()
    }

    /// Appends a zone, whose name is new.
    pub fn push(&mut self, zone: ZoneHead) -> Result<(), LineRefused>
        requires few { length self.old < 16 }
        requires new { zone_named self.old zone.name ≡ None }
        ensures pushed { OnOk result (self.new ≡ self.old ++ zone ∷ []) }
        ensures memory { IfErr result (λ refused. refused ≡ LineRefused.Memory) }
    {
        self.heads.insert(zone.name.copied(), zone)?;
        Ok(())
    }

    /// Appends a secondary zone, whose name is new, where its primary zone is there.
    pub fn push_second(&mut self, second: SecondHead) -> Result<(), LineRefused>
        requires few { length self.old < 16 }
        requires new { zone_named self.old second.name ≡ None }
        ensures pushed { OnOk result (self.new ≡ self.old ++ second_zone (primary_named self.old second.of) self.old second) }
        ensures memory { IfErr result (λ refused. refused ≡ LineRefused.Memory) }
    {
        let Some(place) = self.primary_named(&second.of) else {
            return Ok(());
        };
        let Some((_name, primary)) = self.heads.get_index(place as usize) else {
            return Ok(());
        };
        let zone = ZoneHead {
            name: second.name,
            parent: Some(place),
            size: primary.size,
            slabs: primary.slabs,
            bucket: second.bucket,
            limit: second.limit,
            reserve: primary.reserve,
            kind: second.kind,
        };
        self.push(zone)
    }

    /// The zones as a part of a trace.
    pub fn into_heads(self, alloc: Global) -> Result<Listed<ZoneHead>, AllocError>
        ensures { IfOk result (λ heads. heads ≡ self) }
    {
        let heads: Vec<ZoneHead> = self.heads.into_values().collect(alloc)?;
        Ok(Listed::from_vec(heads))
    }
}

/// The most memory domains.
const MOST_DOMAINS: u64 = 4;

/// The least size of an item, in bytes.
const LEAST_SIZE: u64 = 8;

/// The greatest size of an item, in bytes.
const GREATEST_SIZE: u64 = 4_096;

/// The most slabs of a keg, and of the zone of a cache's entries.
const MOST_SLABS: u64 = 1_024;

/// The fewest items of a bucket.
const LEAST_BUCKET: u64 = 4;

/// The most items of a bucket.
const GREATEST_BUCKET: u64 = 64;

/// The most free items that a keg keeps for requests with `reserve`.
const GREATEST_RESERVE: u64 = 65_535;

/// The most rows of a cache of names.
const MOST_ROWS: u64 = 4_096;

/// What a header line says behind the first one.
pub fn parse_head(word: HeadWord, rest: &[u8]) -> Result<ParsedLine<'_>, TraceKind>
    ensures value { result ≡ parse_head word (fields_of rest.now) }
    ensures names { (workers : ℕ) → IfOk result (NamesFit workers) }
{
    match word {
        HeadWord::Uma => Err(TraceKind::Place),
        HeadWord::Workers => {
            let count = number_within(one_field(rest)?, 1, MOST_WORKERS as u64)?;
            Ok(ParsedLine::Workers {
                count: count as u32,
            })
        }
        HeadWord::Domains => {
            let count = number_within(one_field(rest)?, 1, MOST_DOMAINS)?;
            Ok(ParsedLine::Domains { count: count as u8 })
        }
        HeadWord::Clock => {
            let clock = clock_in(rest)?;
            Ok(ParsedLine::Clock { clock })
        }
        HeadWord::Detail => {
            no_field(rest)?;
            Ok(ParsedLine::Detail)
        }
        HeadWord::Zone => {
            let zone = zone_in(rest)?;
            Ok(ParsedLine::Zone { zone })
        }
        HeadWord::Second => {
            let second = second_in(rest)?;
            Ok(ParsedLine::Second { second })
        }
        HeadWord::Names => {
            let names = names_in(rest)?;
            Ok(ParsedLine::Names { names })
        }
    }
}

/// The numbers of a clock.
fn clock_in(rest: &[u8]) -> Result<ClockHead, TraceKind>
    ensures { result ≡ clock_in (fields_of rest.now) }
{
    let (start, window) = two_fields(rest)?;
    Ok(ClockHead {
        start: start_in(start)?,
        window: window_in(window)?,
    })
}

/// A primary zone.
fn zone_in(rest: &[u8]) -> Result<ZoneHead, TraceKind>
    ensures { result ≡ zone_in (fields_of rest.now) }
{
    let (name, size, five) = seven_fields(rest)?;
    Ok(ZoneHead {
        name: name_in(name)?,
        parent: None,
        size: number_within(size, LEAST_SIZE, GREATEST_SIZE)? as u32,
        slabs: number_within(five.0, 1, MOST_SLABS)? as u32,
        bucket: number_within(five.1, LEAST_BUCKET, GREATEST_BUCKET)? as u32,
        limit: number_within(five.2, 0, GREATEST_LIMIT)?,
        reserve: number_within(five.3, 0, GREATEST_RESERVE)?,
        kind: kind_in(five.4)?,
    })
}

/// A secondary zone.
fn second_in(rest: &[u8]) -> Result<SecondHead, TraceKind>
    ensures { result ≡ second_in (fields_of rest.now) }
{
    let (name, of, bucket, limit, kind) = five_fields(rest)?;
    Ok(SecondHead {
        name: name_in(name)?,
        of: name_in(of)?,
        bucket: number_within(bucket, LEAST_BUCKET, GREATEST_BUCKET)? as u32,
        limit: number_within(limit, 0, GREATEST_LIMIT)?,
        kind: kind_in(kind)?,
    })
}

/// A cache of names.
fn names_in(rest: &[u8]) -> Result<NamesHead, TraceKind>
    ensures { result ≡ names_in (fields_of rest.now) }
{
    let (name, rows, slabs, bucket) = four_fields(rest)?;
    Ok(NamesHead {
        name: name_in(name)?,
        rows: number_within(rows, 1, MOST_ROWS)? as u32,
        slabs: number_within(slabs, 1, MOST_SLABS)? as u32,
        bucket: number_within(bucket, LEAST_BUCKET, GREATEST_BUCKET)? as u32,
    })
}
