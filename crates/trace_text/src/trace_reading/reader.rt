ghost use Rattle.std.specs.Prelude.{◌≡◌, ◌==◌, ◌&&◌, nat_le, ◌<◌, [], false, OnOk, IfOk, IfErr};
ghost use Rattle.trace_text.specs.TraceKnown.{is_start, is_last, Keeps, Knows, trace_by};
ghost use Rattle.trace_text.specs.TraceLine.{rank, may_follow};
ghost use Rattle.trace_lines.specs.TextLines.{fields_of};
ghost use Rattle.trace_text.specs.Grammar.{entry_of, passes_most, stage_of, takes_name, trace_test, work_op};
ghost use Rattle.trace_text.specs.TraceApplied.{Adds, AddsAll, Applies, conflict_found};
ghost use Rattle.trace_text.specs.declared.trace_reading.parsed_line.ParsedLine.TheVariants.{InZone, SetMax};
ghost use Rattle.trace_text.specs.TraceTables.{AreWhole, EntryFits, most_workers};
ghost use Rattle.trace_text.specs.TraceShown.{NamesFit, WorkSlotFits};
ghost use Rattle.trace_text.specs.TraceTaken.{TakesParsed, TakesWord};

use crate::trace_reading::fields::{Entry, HeadWord, NameField, Word, WorkWord, ZoneWord};
use crate::trace_reading::head::Zones;
use crate::trace_reading::parsed_line::{ParsedLine, ZoneWork, parse_alloc, parse_free, word_in};
use crate::trace_reading::rounds::RoundsSoFar;
use crate::trace_reading::tables::Tables;
use crate::{Between, ClockHead, Head, NamesHead, Op, Trace, TraceKind, Version};
use std::alloc::{AllocError, Global};
use trace_lines::{Grammar, LineRefused};

/// How far a text has come: what its last line was.
#[derive(Clone, Copy)]
pub enum Stage {
    /// Before the first line.
    Start,
    Uma,
    Workers,
    Domains,
    Clock,
    Detail,
    Zones,
    Names,
    /// What a worker does.
    Works,
    /// A `round` line, or one that stands between two rounds.
    Between,
    End,
}

impl Stage {
    /// Whether no line was there yet.
    pub fn is_start(self) -> bool
        ensures { result ≡ is_start self }
    {
        matches!(self, Stage::Start)
    }

    /// Whether the last line was `end`.
    pub fn is_last(self) -> bool
        ensures { result ≡ is_last self }
    {
        matches!(self, Stage::End)
    }

    /// Its place in the order of a text.
    fn rank(self) -> u8
        ensures { result ≡ rank self }
    {
        match self {
            Stage::Start => 0,
            Stage::Uma => 1,
            Stage::Workers => 2,
            Stage::Domains => 3,
            Stage::Clock => 4,
            Stage::Detail => 5,
            Stage::Zones => 6,
            Stage::Names => 7,
            Stage::Works => 8,
            Stage::Between => 9,
            Stage::End => 10,
        }
    }

    /// Whether its place is one of these.
    fn is_within(self, low: u8, high: u8) -> bool
        ensures { result ≡ (nat_le low (rank self) && nat_le (rank self) high) }
    {
        let rank = self.rank();
        low <= rank && rank <= high
    }

    /// Whether a line with this word may stand next.
    pub fn may_follow(self, word: Word) -> bool
        ensures { result ≡ may_follow self word }
    {
        match word {
            Word::Head(HeadWord::Uma) => false,
            Word::Head(HeadWord::Workers) => self.is_within(1, 1),
            Word::Head(HeadWord::Domains) => self.is_within(2, 2),
            Word::Head(HeadWord::Clock) => self.is_within(3, 3),
            Word::Head(HeadWord::Detail) => self.is_within(3, 4),
            Word::Head(_) => self.is_within(3, 6),
            Word::Give | Word::SetMax => self.is_within(9, 9),
            _ => self.is_within(3, 9),
        }
    }
}

/// The running state of a reading: what the lines so far have said.
#[derive(Drop)]
pub struct TraceReader {
    pub stage: Stage,
    /// What the first line said, and version 1 before it.
    pub version: Version,
    pub workers: u32,
    pub domains: u8,
    pub clock: Option<ClockHead>,
    pub detail: bool,
    pub zones: Zones,
    pub names: Option<NamesHead>,
    pub tables: Tables,
    /// The lines below the header.
    pub entries: RoundsSoFar,
}

impl<'a> ParsedLine<'a> {
    /// What the line is in the order of a text.
    #[inline(always)]
    pub fn stage(&self) -> Stage
        ensures { result ≡ stage_of self.now }
    {
        match self {
            ParsedLine::Uma { .. } => Stage::Uma,
            ParsedLine::Workers { .. } => Stage::Workers,
            ParsedLine::Domains { .. } => Stage::Domains,
            ParsedLine::Clock { .. } => Stage::Clock,
            ParsedLine::Detail => Stage::Detail,
            ParsedLine::Zone { .. } | ParsedLine::Second { .. } => Stage::Zones,
            ParsedLine::Names { .. } => Stage::Names,
            ParsedLine::Work { .. } | ParsedLine::InZone { .. } => Stage::Works,
            ParsedLine::Round | ParsedLine::Give { .. } | ParsedLine::SetMax { .. } =>
                Stage::Between,
            ParsedLine::End => Stage::End,
        }
    }
}

impl ZoneWork {
    /// The operation, in the zone at this place.
    #[inline(always)]
    pub fn op(self, zone: u32) -> Op
        ensures { result ≡ work_op self zone }
    {
        match self {
            ZoneWork::Alloc { slot, arg, reserve } => Op::Alloc {
                zone,
                slot,
                arg,
                reserve,
            },
            ZoneWork::Trim => Op::Trim { zone },
            ZoneWork::Drain => Op::Drain { zone },
            ZoneWork::DrainSeat => Op::DrainSeat { zone },
            ZoneWork::Prealloc { items } => Op::Prealloc { zone, items },
        }
    }
}

impl TraceReader {
    /// Before the first line.
    pub fn new(alloc: Global) -> Result<TraceReader, AllocError>
        ensures knows { IfOk result (λ reader. Knows reader []) }
        ensures kept { IfOk result Keeps }
    {
        Ok(TraceReader {
            stage: Stage::Start,
            version: Version::One,
            workers: 0,
            domains: 0,
            clock: None,
            detail: false,
            zones: Zones::new(alloc),
            names: None,
            tables: Tables::new(alloc)?,
            entries: RoundsSoFar::new(alloc),
        })
    }

    /// The trace, once the last line was `end`.
    pub fn trace(self, alloc: Global) -> Result<Trace, AllocError>
        ensures { IfOk result (λ trace. trace ≡ trace_by self) }
    {
        let rounds = self.entries.into_rounds(alloc, self.workers)?;
        let head = Head {
            workers: self.workers,
            domains: self.domains,
            clock: self.clock,
            detail: self.detail,
            zones: self.zones.into_heads(alloc)?,
            names: self.names,
        };
        Ok(Trace {
            version: self.version,
            head,
            rounds,
        })
    }

    /// Takes in a line below the header.
    #[inline(always)]
    fn add(&mut self, entry: Entry) -> Result<(), LineRefused>
        requires whole { AreWhole self.old.tables }
        requires fits { EntryFits entry }
        ensures adds { OnOk result (Adds entry self.old self.new) }
        ensures whole { AreWhole self.new.tables }
        ensures workers { self.new.workers ≡ self.old.workers }
        ensures memory { IfErr result (λ refused. refused ≡ LineRefused.Memory) }
    {
        let Ok(()) = self.entries.push(entry) else {
            return Err(LineRefused::Memory);
        };
        let Ok(()) = self.tables.mark(entry) else {
            return Err(LineRefused::Memory);
        };
        Ok(())
    }

    /// Takes in what a worker does in a zone, where it is there.
    #[inline(always)]
    fn add_in_zone(
        &mut self,
        worker: u32,
        zone: NameField<'_>,
        work: ZoneWork,
    ) -> Result<(), LineRefused>
        requires whole { AreWhole self.old.tables }
        requires worker { worker < most_workers }
        requires slot { WorkSlotFits work }
        ensures added { OnOk result (AddsAll (entry_of self.old.zones (InZone worker zone.entry work)) self.old self.new) }
        ensures whole { AreWhole self.new.tables }
        ensures workers { self.new.workers ≡ self.old.workers }
        ensures memory { IfErr result (λ refused. refused ≡ LineRefused.Memory) }
    {
        let Some(place) = self.zones.place_of(zone.as_bytes()) else {
            return Ok(());
        };
        let op = work.op(place);
        self.add(Entry::Does { worker, op })
    }

    /// Takes in another limit of a zone, where it is there.
    fn add_limit(&mut self, zone: NameField<'_>, limit: u64) -> Result<(), LineRefused>
        requires whole { AreWhole self.old.tables }
        ensures added { OnOk result (AddsAll (entry_of self.old.zones (SetMax zone.entry limit)) self.old self.new) }
        ensures whole { AreWhole self.new.tables }
        ensures workers { self.new.workers ≡ self.old.workers }
        ensures memory { IfErr result (λ refused. refused ≡ LineRefused.Memory) }
    {
        let Some(place) = self.zones.place_of(zone.as_bytes()) else {
            return Ok(());
        };
        let between = Between::SetMax { zone: place, limit };
        self.add(Entry::Moves { between })
    }

    /// What is wrong with a line that says this.
    #[inline(always)]
    fn conflict(&self, parsed: &ParsedLine<'_>) -> Option<TraceKind>
        ensures { result ≡ conflict_found self.now parsed.now }
    {
        parsed.conflict(
            self.clock.is_some(),
            self.names.is_some(),
            &self.zones,
            &self.tables,
        )
    }

    /// Takes in what a line behind the first one says.
    #[inline(always)]
    fn apply(&mut self, parsed: ParsedLine<'_>) -> Result<(), LineRefused>
        requires kept { Keeps self.old }
        requires new { takes_name self.old.zones parsed ≡ false }
        requires few { passes_most self.old.zones parsed ≡ false }
        requires names { NamesFit most_workers parsed }
        ensures applied { OnOk result (Applies parsed.entry self.old self.new) }
        ensures kept { Keeps self.new }
        ensures memory { IfErr result (λ refused. refused ≡ LineRefused.Memory) }
    {
        self.stage = parsed.stage();
        match parsed {
            ParsedLine::Workers { count } => self.workers = count,
            ParsedLine::Domains { count } => self.domains = count,
            ParsedLine::Clock { clock } => self.clock = Some(clock),
            ParsedLine::Detail => self.detail = true,
            ParsedLine::Names { names } => self.names = Some(names),
            ParsedLine::Zone { zone } => self.zones.push(zone)?,
            ParsedLine::Second { second } => self.zones.push_second(second)?,
            ParsedLine::Work { worker, op } => self.add(Entry::Does { worker, op })?,
            ParsedLine::InZone { worker, zone, work } => self.add_in_zone(worker, zone, work)?,
            ParsedLine::Round => self.add(Entry::Round)?,
            ParsedLine::Give {
                giver,
                slot,
                taker,
                slot2,
            } => self.add(Entry::Moves {
                between: Between::Give {
                    giver,
                    slot,
                    taker,
                    slot2,
                },
            })?,
            ParsedLine::SetMax { zone, limit } => self.add_limit(zone, limit)?,
            ParsedLine::Uma { version } => self.version = version,
            ParsedLine::End => {}
        }
        Ok(())
    }

    /// Takes in a line behind the first line that says this, or tells what is wrong with it.
    #[inline(always)]
    fn take_parsed(&mut self, parsed: ParsedLine<'_>) -> Result<(), LineRefused>
        requires kept { Keeps self.old }
        requires names { NamesFit self.old.workers parsed }
        ensures takes { TakesParsed parsed.entry self.old result self.new }
        ensures kept { Keeps self.new }
    {
        match self.conflict(&parsed) {
            Some(kind) => Err(kind.into()),
            None => self.apply(parsed),
        }
    }

    /// Takes in a line with this word behind the first line, or says what is wrong with what is behind the word.
    fn take_word(&mut self, word: Word, rest: &[u8]) -> Result<(), LineRefused>
        requires kept { Keeps self.old }
        ensures takes { TakesWord word (fields_of rest.now) self.old result self.new }
        ensures kept { Keeps self.new }
    {
        let parsed = ParsedLine::by_word(self.workers, word, rest)?;
        self.take_parsed(parsed)
    }

    /// Takes in an `alloc` line.
    fn take_alloc(&mut self, rest: &[u8]) -> Result<(), LineRefused>
        requires kept { Keeps self.old }
        ensures takes { TakesWord (Word.Zone ZoneWord.Alloc) (fields_of rest.now) self.old result self.new }
        ensures kept { Keeps self.new }
    {
        let parsed = parse_alloc(self.workers, rest)?;
        self.take_parsed(parsed)
    }

    /// Takes in a `free` line.
    fn take_free(&mut self, rest: &[u8]) -> Result<(), LineRefused>
        requires kept { Keeps self.old }
        ensures takes { TakesWord (Word.Work WorkWord.Free) (fields_of rest.now) self.old result self.new }
        ensures kept { Keeps self.new }
    {
        let parsed = parse_free(self.workers, rest)?;
        self.take_parsed(parsed)
    }
}

impl Grammar for TraceReader {
    ghost test = { trace_test };

    ghost shows = { Knows };

    ghost kept = { Keeps };

    fn take(&mut self, _number: u64, line: &[u8]) -> Result<(), LineRefused> {
        if self.stage.is_start() {
            let Some(version) = Version::by_head(line) else {
                return Err(TraceKind::Head.into());
            };
            self.stage = Stage::Uma;
            self.version = version;
            return Ok(());
        }
        if self.stage.is_last() {
            return Err(TraceKind::After.into());
        }
        let (word, rest) = word_in(self.version, self.stage, line)?;
        // The two words of most lines go ways of their own.
        match word {
            Word::Zone(ZoneWord::Alloc) => self.take_alloc(rest),
            Word::Work(WorkWord::Free) => self.take_free(rest),
            _ => self.take_word(word, rest),
        }
    }

    fn is_ended(&self) -> bool {
        self.stage.is_last()
    }
}
