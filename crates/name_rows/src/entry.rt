ghost use Rattle.std.specs.Prelude.{◌≡◌, true, IfOk, IfErr};
ghost use Rattle.name_rows.specs.EntryWords.{is_worded, words_no};
ghost use Rattle.uma_life.specs.Hook.{KegInit, ZoneInit, Ctor, Dtor, ZoneFini, KegFini, MayPass, base_phase};

use crate::words::Words;
use uma_life::{Body, BodyPhase, Tally};

/// How far an entry is on its way from one cleaning to the next.
#[derive(Clone, Copy, Debug, PartialEq, Eq)]
pub enum EntryState {
    /// It never was linked since the opening or its last cleaning. Its words may be written.
    Clean,
    /// Its words are written.
    Written,
    /// This version of this row names it.
    Linked { row: u64, version: u64 },
    /// No row names it any more.
    Unlinked,
    /// A section that may still read it has an entry mark below the goal.
    Stamped { goal: u64 },
}

/// The body of an item of names: two words of the clock, in which a key and its value stand. An entry that was raised
/// where the root didn't have its number has no words; it is never built.
#[derive(Drop)]
pub struct Entry {
    pub(crate) no: u32,
    pub(crate) phase: BodyPhase,
    pub(crate) tally: Tally,
    pub(crate) words: Option<Words>,
    ghost numbered: { words_no no words ≡ no },
    ghost worded: { is_worded phase words ≡ true },
}

impl Body for Entry {
    ghost use Rattle.name_rows.specs.Entries.{entry_life};

    ghost life = { entry_life };

    fn no(&self) -> u32 {
        self.no
    }

    fn phase(&self) -> BodyPhase {
        self.phase
    }

    fn tally(&self) -> Tally {
        self.tally
    }
}

/// The code with which an entry without words refuses to begin its life.
const NO_WORDS: u8 = 255;

// The phase of an item that is in a zone and not built.
fn unbuilt(zone: u8) -> BodyPhase
    ensures { result ≡ base_phase zone }
{
    if zone == 0 {
        BodyPhase::Kept
    } else {
        BodyPhase::Zoned { zone }
    }
}

/// The hooks of an entry's life. Each changes the phase and its one count, and leaves the words as they were: an entry
/// that wasn't ripe when it was freed is built again with its stamp.
impl Entry {
    ghost use Rattle.name_rows.specs.Entries.{RefusesToBegin};
    ghost use Rattle.name_rows.specs.Entries.{Begins};
    ghost use Rattle.name_rows.specs.Entries.{Passes};
    ghost use Rattle.name_rows.specs.Entries.{entry_life};
    /// Runs when the entry's slab is brought in.
    ///
    /// # Errors
    ///
    /// 255: the entry has no words. Nothing changes, so no entry without words is ever built.
    pub fn keg_init(&mut self) -> Result<(), u8>
        requires { MayPass KegInit (entry_life self.old) }
        ensures begins { IfOk result (λ _. Begins self.old self.new) }
        ensures refuses { IfErr result (λ code. RefusesToBegin self.old code self.new) }
    {
        if self.words.is_none() {
            return Err(NO_WORDS);
        }
        self.phase = BodyPhase::Kept;
        self.tally.keg_inits = self.tally.keg_inits.wrapping_add(1);
        Ok(())
    }

    /// Runs when the entry enters a secondary zone.
    ///
    /// # Arguments
    ///
    /// - `zone`: the number of the zone, 1 to 7.
    pub fn zone_init(&mut self, zone: u8)
        requires { MayPass (ZoneInit zone) (entry_life self.old) }
        ensures { Passes (ZoneInit zone) self.old self.new }
    {
        self.phase = BodyPhase::Zoned { zone };
        let counts = &mut self.tally.zones[zone as usize];
        counts.inits = counts.inits.wrapping_add(1);
    }

    /// Runs on an allocation. It neither cleans the entry nor writes its words.
    ///
    /// # Arguments
    ///
    /// - `zone`: the number of the zone, 0 to 7.
    pub fn ctor(&mut self, zone: u8)
        requires { MayPass (Ctor zone) (entry_life self.old) }
        ensures { Passes (Ctor zone) self.old self.new }
    {
        self.phase = BodyPhase::Built { zone };
        let counts = &mut self.tally.zones[zone as usize];
        counts.ctors = counts.ctors.wrapping_add(1);
    }

    /// Runs once for each allocation that was freed. A section may still read the words.
    ///
    /// # Arguments
    ///
    /// - `zone`: the number of the zone, 0 to 7.
    pub fn dtor(&mut self, zone: u8)
        requires { MayPass (Dtor zone) (entry_life self.old) }
        ensures { Passes (Dtor zone) self.old self.new }
    {
        self.phase = unbuilt(zone);
        let counts = &mut self.tally.zones[zone as usize];
        counts.dtors = counts.dtors.wrapping_add(1);
    }

    /// Runs when the entry leaves a secondary zone.
    ///
    /// # Arguments
    ///
    /// - `zone`: the number of the zone, 1 to 7.
    pub fn zone_fini(&mut self, zone: u8)
        requires { MayPass (ZoneFini zone) (entry_life self.old) }
        ensures { Passes (ZoneFini zone) self.old self.new }
    {
        self.phase = BodyPhase::Kept;
        let counts = &mut self.tally.zones[zone as usize];
        counts.finis = counts.finis.wrapping_add(1);
    }

    /// Runs when the entry's slab is given up. The entry then goes to the root, which keeps its stamp for the next
    /// entry of its number.
    pub fn keg_fini(&mut self)
        requires { MayPass KegFini (entry_life self.old) }
        ensures { Passes KegFini self.old self.new }
    {
        self.phase = BodyPhase::Gone;
        self.tally.keg_finis = self.tally.keg_finis.wrapping_add(1);
    }
}

/// What the owner of an entry knows of it: what stands in its two words, and its state.
#[derive(Clone, Copy, Debug, PartialEq, Eq)]
pub struct Owned {
    pub entry: u32,
    pub key: u64,
    pub value: u64,
    pub state: EntryState,
}
