ghost use Rattle.std.specs.Prelude.{◌≡◌, Some, ◌⊎◌, None, IfOk};
ghost use Rattle.std.specs.Arc.{arc_value};
ghost use Rattle.smr_clock.specs.Notes.{IsSeatOf};
ghost use Rattle.name_rows.specs.declared.words.Words.{Words};
ghost use Rattle.uma_life.specs.declared.tally.BodyPhase.TheVariants.{Raw, Gone};
ghost use Rattle.name_rows.specs.Roots.{CanRaise};

use crate::home::Home;
use name_rows::{Entry, Names, Root};
use smr_clock::Clock;
use std::alloc::Global;
use std::sync::{Arc, Wait};
use uma_life::{Body, BodyPhase, Hooks, Memory, Tally};

/// An entry, with a handle of the home to which it goes back.
#[derive(Drop)]
pub struct RaisedEntry {
    pub(crate) entry: Entry,
    pub(crate) home: Arc<Home>,
    ghost ours: { (words : Words) → entry.words ≡ Some words → IsSeatOf (arc_value home).clock words.seat },
}

impl RaisedEntry {
    ghost use Rattle.name_rows.specs.Entries.{IsEntryOf};
    ghost use Rattle.name_cache.specs.Homes.{home_clock};
    ghost use Rattle.name_cache.specs.Raised.{raised_entry, raised_home, IsEntryIn, AreHalvesOf};

    /// Returns the entry, to be read only. It is written and linked after [`RaisedEntry::into_parts`].
    pub fn entry(&self) -> &Entry
        ensures { IsEntryIn self.now result.now }
    {
        &self.entry
    }

    /// Returns the home to which the entry goes back.
    pub fn home(&self) -> &Home
        ensures { result.now ≡ raised_home self.now }
    {
        &self.home
    }

    /// Takes the entry apart, into the bare entry, whose words the caller may write, and the handle of its home.
    pub fn into_parts(self) -> (Entry, Arc<Home>)
        ensures { AreHalvesOf self result.0 (arc_value result.1) }
    {
        (self.entry, self.home)
    }

    /// Makes an entry with a handle of the home to which it goes back. The two may come from different entries, of one
    /// clock.
    pub fn from_parts(entry: Entry, home: Arc<Home>) -> RaisedEntry
        requires here { IsEntryOf (home_clock (arc_value home)) entry }
        ensures { (raised_entry result ≡ entry) × (raised_home result ≡ arc_value home) }
    {
        RaisedEntry { entry, home }
    }
}

impl Body for RaisedEntry {
    ghost use Rattle.name_cache.specs.Raised.{raised_life, raised_origin};

    ghost life = { raised_life };

    ghost origin = { raised_origin };

    fn no(&self) -> u32 {
        self.entry.no()
    }

    fn phase(&self) -> BodyPhase {
        self.entry.phase()
    }

    fn tally(&self) -> Tally {
        self.entry.tally()
    }
}

/// The hooks of entries. `keg_init` refuses, with 255, exactly an entry without words: one whose number the root didn't
/// have. Nothing else is refused. No hook changes an entry's words.
#[derive(Drop)]
pub struct EntryHooks {
    pub(crate) home: Arc<Home>,
}

impl EntryHooks {
    ghost use Rattle.name_cache.specs.Hooked.{hooks_home, AreHooksOf};

    /// Makes two sets of hooks over one root, one for a zone and one for its keg.
    ///
    /// # Errors
    ///
    /// `Memory`: out of memory, or too many handles. The root is dropped.
    pub fn pair(
        alloc: Global,
        clock: &Clock<Names>,
        root: Root,
    ) -> Result<(EntryHooks, EntryHooks), Memory>
        requires { CanRaise clock.now root }
        ensures { IfOk result (λ (one, other). AreHooksOf clock.now one other) }
    {
        let home = Home::new(alloc, clock, root)?;
        let one = Arc::new(alloc, home).map_err(|_| Memory)?;
        let other = Arc::try_clone(&one).map_err(|_| Memory)?;
        Ok((EntryHooks { home: one }, EntryHooks { home: other }))
    }

    /// Returns the home from which these hooks raise entries.
    pub fn home(&self) -> &Home
        ensures { result.now ≡ hooks_home self.now }
    {
        &self.home
    }
}

impl Hooks<RaisedEntry> for EntryHooks {
    ghost use Rattle.name_cache.specs.Hooked.{RaisesAtHome, hooks_home};
    ghost use Rattle.name_cache.specs.Homes.{home_clock, home_origin, LowersInto};
    ghost use Rattle.name_cache.specs.Raised.{KeepsWords, raised_entry, raised_home, raised_life, refusal_of};

    ghost origin = { λ hooks. home_origin (hooks_home hooks) };

    ghost refuses_init = { λ hooks body zone. refusal_of zone body.entry.words };

    ghost refuses_ctor = { λ hooks body zone arg. None };

    ghost makes = { λ hooks number body. RaisesAtHome hooks number body };

    ghost leaves_init = { λ hooks body zone left. KeepsWords body left };

    ghost leaves_ctor = { λ hooks body zone arg left. KeepsWords body left };

    ghost leaves_dtor = { λ hooks body zone left. KeepsWords body left };

    ghost leaves_fini = { λ hooks body zone left. KeepsWords body left };

    fn raw<R: Wait>(&self, rt: &R, _alloc: Global, no: u32) -> Result<RaisedEntry, Memory> {
        let home = Arc::try_clone(&self.home).map_err(|_| Memory)?;
        let entry = self.home.raise(rt, no);
        Ok(RaisedEntry { entry, home })
    }

    fn keg_init(&self, body: &mut RaisedEntry) -> Result<(), u8> {
        body.entry.keg_init()
    }

    fn zone_init(&self, zone: u8, body: &mut RaisedEntry) -> Result<(), u8> {
        body.entry.zone_init(zone);
        Ok(())
    }

    fn ctor(&self, zone: u8, body: &mut RaisedEntry, _arg: u64) -> Result<(), u8> {
        body.entry.ctor(zone);
        Ok(())
    }

    fn dtor(&self, zone: u8, body: &mut RaisedEntry) {
        body.entry.dtor(zone);
    }

    fn zone_fini(&self, zone: u8, body: &mut RaisedEntry) {
        body.entry.zone_fini(zone);
    }

    fn keg_fini(&self, body: &mut RaisedEntry) {
        body.entry.keg_fini();
    }

    fn bury<R: Wait>(&self, rt: &R, body: RaisedEntry) -> Tally
        requires { ((raised_life body).phase ≡ Raw) ⊎ ((raised_life body).phase ≡ Gone) }
        ensures tally { result ≡ (raised_life body).tally }
        ensures lowered { LowersInto (home_clock (raised_home body)) (raised_entry body) }
    {
        let RaisedEntry { entry, home } = body;
        home.lower(rt, entry)
    }
}
