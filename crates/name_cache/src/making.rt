ghost use Rattle.std.specs.Prelude.{◌≡◌, ◌<◌, ◌++◌, ◌∷◌, [], IfOk, IfErr, OnOk};
ghost use Rattle.keyed_lock.specs.KeyedLock.{lock_key};
ghost use Rattle.smr_clock.specs.Belongs.{clock_id};
ghost use Rattle.uma_zone.specs.Making.{AcceptsSet};
ghost use Rattle.uma_zone.specs.Zone.{zone_home};
ghost use Rattle.name_cache.specs.Cache.{cache_domains};
ghost use Rattle.name_cache.specs.Calls.{IsNewSeat};
ghost use Rattle.name_cache.specs.Made.{IsMadeOf, AreLocksOf};
ghost use Rattle.name_cache.specs.Making.{CanMake, RefusesCache, AreFreshRows, IsFreshRow};
ghost use Rattle.name_cache.specs.RowKey.{key_identity, identity};

use crate::cache::{EntryZone, NameCache};
use crate::key::RowKey;
use crate::locked_row::{LockedRow, RowLock};
use crate::{EntryHooks, RaisedEntry};
use name_rows::{Names, Opened, Row};
use smr_clock::{Clock, Pass};
use std::alloc::Global;
use std::snapshot::Snapshot;
use std::sync::Wait;
use uma_life::Memory;
use uma_seat::SeatCache;
use uma_zone::{Zone, ZoneRefused, ZoneSet};

/// How many bytes an entry is said to have: 64 fit a slab.
const ENTRY_SIZE: u32 = 64;

impl NameCache {
    /// Makes a cache with an SMR zone of entries of 64 bytes, over a clock of names and its rows, which must be empty.
    /// The zone's frees are deferred, and the clock must have a number for each of the 64 entries of each slab. Returns
    /// the cache, which has a handle of the clock, the clock, and its passes.
    ///
    /// # Arguments
    ///
    /// - `set`: the numbers of the zone, as for `Zone::primary`; `smr` must be true.
    ///
    /// # Errors
    ///
    /// A refused call drops what was passed in.
    ///
    /// - `Slabs`, `Bucket`, `Domains`: that number is out of its range. They are tested in this order.
    /// - `Memory`: out of memory, or too many handles.
    pub fn new(
        alloc: Global,
        opened: Opened,
        set: ZoneSet,
    ) -> Result<(NameCache, Clock<Names>, Vec<Pass<Names>>), ZoneRefused>
        requires { CanMake opened set }
        ensures made { IfOk result (λ (cache, clock, passes). IsMadeOf opened set cache clock passes.items) }
        ensures accepted { OnOk result (AcceptsSet 64 set) }
        ensures refused { IfErr result (RefusesCache set) }
    {
        let Opened {
            clock,
            passes,
            rows,
            root,
        } = opened;
        let (hooks, keg_hooks) = EntryHooks::pair(alloc, &clock, root)?;
        let zone = Zone::primary(alloc, &clock, ENTRY_SIZE, set, hooks, keg_hooks)?;
        let rows = lock_rows(alloc, &clock, &zone, rows.into_vec())?;
        Ok((NameCache { zone, rows }, clock, passes.into_vec()))
    }

    /// Makes a seat of the cache's zone in a memory domain, for one worker at a time. It blocks on the locks of the keg
    /// and of that domain.
    ///
    /// # Arguments
    ///
    /// - `domain`: the number of the memory domain, below the zone's count of domains.
    ///
    /// # Errors
    ///
    /// `Memory`: out of memory.
    pub fn seat<R: Wait>(
        &self,
        rt: &R,
        alloc: Global,
        domain: u8,
    ) -> Result<SeatCache<RaisedEntry, Names>, Memory>
        requires { domain < cache_domains self.now }
        ensures { IfOk result (IsNewSeat self.now domain) }
    {
        self.zone.seat(rt, alloc, domain)
    }
}

// A lock for each row, in order.
fn lock_rows(
    alloc: Global,
    clock: &Clock<Names>,
    zone: &EntryZone,
    rows: Vec<Row>,
) -> Result<Vec<RowLock>, Memory>
    requires rows { AreFreshRows clock.now rows.items }
    ensures { IfOk result (λ locks. AreLocksOf (clock_id clock.now) (zone_home zone.now) rows.items locks.items) }
{
    let mut locks = Vec::new(alloc);
    for row in rows {
        let lock = lock_row(alloc, clock, zone, row)?;
        push_lock(&mut locks, lock)?;
    }
    Ok(locks)
}

fn push_lock(locks: &mut Vec<RowLock>, lock: RowLock) -> Result<(), Memory>
    ensures { IfOk result (λ _. locks.new.items ≡ locks.old.items ++ lock ∷ []) }
{
    match locks.push(lock) {
        Ok(()) => Ok(()),
        Err(_) => Err(Memory),
    }
}

// A lock for an empty row.
fn lock_row(
    alloc: Global,
    clock: &Clock<Names>,
    zone: &EntryZone,
    row: Row,
) -> Result<RowLock, Memory>
    requires { IsFreshRow clock.now row.number row }
    ensures { IfOk result (λ lock. key_identity (lock_key lock) ≡ identity (clock_id clock.now) (zone_home zone.now) row.number row.version) }
{
    let key = RowKey {
        clock: Snapshot::of(clock),
        zone: Snapshot::of(zone),
        number: row.number(),
        version: row.version(),
    };
    let row = LockedRow::new(row, &key);
    match RowLock::new(alloc, row, &key) {
        Ok(lock) => Ok(lock),
        Err(_row) => Err(Memory),
    }
}
