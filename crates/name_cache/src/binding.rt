ghost use Rattle.std.specs.Prelude.{◌≡◌, ◌%◌, IfOk, IfErr, Some, Err, OnErr, IfSome, IfNone};
ghost use Rattle.keyed_lock.specs.KeyedGuard.{guard_key};
ghost use Rattle.smr_clock.specs.Belongs.{view};
ghost use Rattle.uma_life.specs.Live.{live_ticket};
ghost use Rattle.uma_bucket.specs.Home.{IsHome};
ghost use Rattle.name_cache.specs.Bind.{RefusesToBind, IsOnlyFlushed};
ghost use Rattle.name_cache.specs.Cache.{cache_zone, cache_clock, cache_home, row_count, first_version};
ghost use Rattle.name_cache.specs.Calls.{MayBind, BindsKey, CanFreeParts, UnbindsKey, WantsRoom};
ghost use Rattle.name_cache.specs.Frames.{CanRequest, KeepsWorker, KeepsFreeing, KeepsRequesting, IsCachePass, KeepsKnown};
ghost use Rattle.name_cache.specs.LockedRow.{row_identity};
ghost use Rattle.name_cache.specs.Rebound.{HandsEntry, HandsOutNone, SendsNothing, TakesApart, Rebinds, FreesParts, FreesEvicted, TakesOut, HasFoundNone};
ghost use Rattle.name_cache.specs.RowKey.{identity, key_identity};
ghost use Rattle.name_cache.specs.Unbind.{FindsUnbound};

use crate::RaisedEntry;
use crate::cache::NameCache;
use crate::key::RowKey;
use crate::locked_row::{LockedRow, RowOfKey};
use crate::parts::EntryParts;
use keyed_lock::KeyedGuard;
use name_rows::Names;
use smr_clock::{Clock, Pass};
use std::alloc::Global;
use std::error::Error;
use std::fmt;
use std::sync::Wait;
use uma_life::{Live, Memory};
use uma_seat::SeatCache;
use uma_zone::{AllocAsk, AllocRefused};
use zone_stats::Refusal;

/// Why a key was not bound. The tests are made in the order want of memory and `Zone`, `Unripe`, `Worn`. After the latter two
/// its row is as it was.
#[derive(Clone, Copy, Debug, PartialEq, Eq)]
pub enum BindRefused {
    /// The zone of entries turned the request for an entry away.
    Zone { refusal: Refusal },
    /// The row's version is 2^44 - 2 or above: the row takes no further name.
    Worn { row: u32, version: u64 },
    /// A section that may still read the entry that the zone handed out may be open: the read sequence that was loaded is
    /// below the entry's stamp.
    Unripe { read: u64, stamp: u64 },
    /// Memory is wanting.
    Memory,
}

impl fmt::Display for BindRefused {
    fn fmt<W: fmt::Write>(&self, f: &mut fmt::Formatter<W>) -> fmt::Result {
        match self {
            BindRefused::Zone { refusal } => write!(f, "{refusal}"),
            BindRefused::Worn { row, version } => {
                write!(f, "row {row} is worn at version {version}")
            }
            BindRefused::Unripe { read, stamp } => write!(
                f,
                "the entry's stamp {stamp} is above the read hand {read}"
            ),
            BindRefused::Memory => write!(f, "out of memory"),
        }
    }
}

impl Error for BindRefused {}

impl From<AllocRefused> for BindRefused {
    ghost use Rattle.std.specs.Prelude.{◌≡◌};
    ghost use Rattle.name_cache.specs.Bind.{as_bind};

    ghost from_gives = { λ refused passed. passed ≡ as_bind refused };

    fn from(refused: AllocRefused) -> BindRefused {
        match refused {
            AllocRefused::Refused { refusal } => BindRefused::Zone { refusal },
            AllocRefused::Memory => BindRefused::Memory,
        }
    }
}

/// How a bind left the row that it had locked.
#[derive(Drop)]
pub(crate) enum Rebound {
    /// The row binds the key now. The entry that it named before is stamped.
    Done {
        receipt: Receipt,
        evicted: Option<EntryParts>,
    },
    /// The row is as it was. The entry that was to be linked isn't.
    Refused {
        entry: EntryParts,
        refused: BindRefused,
    },
}

/// Which record of a row a bind or an unbind made.
#[derive(Clone, Copy, Debug, PartialEq, Eq)]
pub struct Receipt {
    /// The row of the key, below the count of rows.
    pub row: u32,
    /// Its version from then on, until the next bind or unbind there; below 2^44.
    pub version: u64,
}

/// What a bind asks of the zone: `ctor` of an entry doesn't look at its argument, and no entry is kept in reserve for it.
const ASK: AllocAsk = AllocAsk {
    arg: 0,
    reserve: false,
};

impl NameCache {
    /// Binds a key to a value. If the key's row had another key, that name is evicted.
    ///
    /// The seat gets room first. Under the row's lock an entry is allocated, its words are written, and one store of
    /// the row's word links it. The former entry is stamped, and is freed once no section may see it. The receipt names
    /// the row's new record, which the pass knows from then on. The seat's ledger must have room for two requests. It
    /// blocks on the locks of the row, of a domain of the zone, and of its keg.
    ///
    /// # Arguments
    ///
    /// - `key`: the key, any number. Its row is the key modulo the count of rows.
    /// - `value`: the value, any number.
    ///
    /// # Errors
    ///
    /// - `Memory`: out of memory. The pass learns nothing, and each bucket of the seat's shelf is in an inbox or a
    ///   list, or still on the shelf.
    /// - `Zone { refusal }`: the zone refused the request for an entry, as `Zone::alloc` does.
    /// - `Unripe { read, stamp }`: a section may still read the entry that the zone gave, because the read sequence is
    ///   below the entry's stamp. The row is unchanged, and the entry is freed again.
    /// - `Worn { row, version }`: the row's version is 2^44 - 2 or above. The row is unchanged, and the entry is freed
    ///   again.
    pub fn bind<R: Wait>(
        &self,
        rt: &R,
        alloc: Global,
        clock: &Clock<Names>,
        pass: &mut Pass<Names>,
        seat: &mut SeatCache<RaisedEntry, Names>,
        key: u64,
        value: u64,
    ) -> Result<Receipt, BindRefused>
        requires { MayBind self.now clock.now pass.old seat.old }
        ensures bound { IfOk result (λ receipt. BindsKey self.now key value (view pass.old) seat.old receipt (view pass.new) seat.new) }
        ensures refused { IfErr result (RefusesToBind (cache_zone self.now) (row_count self.now) key (view pass.old) seat.old (view pass.new) seat.new) }
        ensures flushed { result ≡ Err BindRefused.Memory → IsOnlyFlushed (cache_zone self.now) seat.old seat.new (view pass.old) (view pass.new) }
        ensures kept { KeepsWorker self.now clock.now pass.old pass.new seat.old seat.new }
    {
        if self.zone.make_room(rt, alloc, clock, pass, seat).is_err() {
            return Err(BindRefused::Memory);
        }
        match self.rebind(rt, alloc, clock, pass, seat, key, value)? {
            Rebound::Done { receipt, evicted } => {
                self.free_evicted(clock, pass, seat, evicted);
                Ok(receipt)
            }
            Rebound::Refused { entry, refused } => {
                self.free(clock, pass, seat, entry);
                Err(refused)
            }
        }
    }

    // Allocates an entry and binds the key by it, under the lock of the key's row. The lock is held until the entry is linked,
    // or the bind is refused.
    fn rebind<R: Wait>(
        &self,
        rt: &R,
        alloc: Global,
        clock: &Clock<Names>,
        pass: &mut Pass<Names>,
        seat: &mut SeatCache<RaisedEntry, Names>,
        key: u64,
        value: u64,
    ) -> Result<Rebound, BindRefused>
        requires { CanRequest self.now clock.now pass.old seat.old }
        ensures rebound { IfOk result (λ rebound. Rebinds self.now key value (view pass.old) seat.old rebound (view pass.new) seat.new) }
        ensures refused { IfErr result (HandsOutNone (cache_zone self.now) seat.old seat.new) }
        ensures memory { result ≡ Err BindRefused.Memory → SendsNothing seat.old seat.new (view pass.old) (view pass.new) }
        ensures kept { KeepsRequesting self.now clock.now pass.old pass.new seat.old seat.new }
    {
        let mut guard = self.lock_row(rt, key);
        let entry = self.take_entry(rt, alloc, clock, pass, seat)?;
        Ok(guard.value.bind(clock, pass, entry, key, value))
    }

    // The lock of the key's row.
    pub(crate) fn lock_row<'a, R: Wait>(
        &'a self,
        rt: &R,
        key: u64,
    ) -> KeyedGuard<'a, LockedRow, RowKey, RowOfKey>
        ensures row { row_identity result.value ≡ identity (cache_clock self.now) (cache_home self.now) (key % row_count self.now) (first_version self.now (key % row_count self.now)) }
        ensures mine { row_identity result.value ≡ key_identity (guard_key result) }
    {
        let row = (key % self.rows.len() as u64) as usize;
        self.rows[row].lock(rt)
    }

    // Allocates an entry.
    fn take_entry<R: Wait>(
        &self,
        rt: &R,
        alloc: Global,
        clock: &Clock<Names>,
        pass: &mut Pass<Names>,
        seat: &mut SeatCache<RaisedEntry, Names>,
    ) -> Result<EntryParts, BindRefused>
        requires { CanRequest self.now clock.now pass.old seat.old }
        ensures handed { IfOk result (λ parts. HandsEntry self.now seat.old parts seat.new) }
        ensures refused { IfErr result (HandsOutNone (cache_zone self.now) seat.old seat.new) }
        ensures memory { result ≡ Err BindRefused.Memory → SendsNothing seat.old seat.new (view pass.old) (view pass.new) }
        ensures kept { KeepsRequesting self.now clock.now pass.old pass.new seat.old seat.new }
    {
        let live = self.zone.alloc(rt, alloc, clock, pass, seat, ASK)?;
        Ok(self.parts_of(live))
    }

    // The parts of an item that the zone handed out. Its words are of the cache's clock.
    fn parts_of(&self, live: Live<RaisedEntry>) -> EntryParts
        requires home { IsHome (cache_home self.now) (live_ticket live) }
        ensures { TakesApart self.now live result }
    {
        EntryParts::of(live)
    }

    // Frees an entry that a row gave out, if there is one.
    fn free_evicted(
        &self,
        clock: &Clock<Names>,
        pass: &mut Pass<Names>,
        seat: &mut SeatCache<RaisedEntry, Names>,
        evicted: Option<EntryParts>,
    )
        requires { CanFreeParts self.now clock.now pass.old seat.old evicted }
        ensures frees { FreesEvicted (view pass.old) seat.old evicted (view pass.new) seat.new }
        ensures kept { KeepsFreeing self.now clock.now pass.old pass.new seat.old seat.new }
    {
        if let Some(evicted) = evicted {
            self.free(clock, pass, seat, evicted);
        }
    }

    // Frees an entry that is in no row.
    pub(crate) fn free(
        &self,
        clock: &Clock<Names>,
        pass: &mut Pass<Names>,
        seat: &mut SeatCache<RaisedEntry, Names>,
        entry: EntryParts,
    )
        requires { CanFreeParts self.now clock.now pass.old seat.old (Some entry) }
        ensures frees { FreesParts (view pass.old) seat.old entry (view pass.new) seat.new }
        ensures kept { KeepsFreeing self.now clock.now pass.old pass.new seat.old seat.new }
    {
        self.zone.free_smr(clock, pass, seat, entry.into_live());
    }

    /// Takes a key out. Returns the value that its row bound to it, and the receipt of the empty record that follows.
    /// Returns None if the row, under its lock, doesn't bind the key. The entry is stamped, and is freed once no
    /// section may see it. The seat's ledger must have room for one request. It blocks on the locks of the row and of
    /// the zone's domains.
    ///
    /// # Arguments
    ///
    /// - `key`: the key, any number.
    ///
    /// # Errors
    ///
    /// `Memory`: out of memory for the seat's room, before the row is looked at. The pass learns nothing, and each
    /// bucket of the seat's shelf is in an inbox or a list, or still on the shelf.
    pub fn unbind<R: Wait>(
        &self,
        rt: &R,
        alloc: Global,
        clock: &Clock<Names>,
        pass: &mut Pass<Names>,
        seat: &mut SeatCache<RaisedEntry, Names>,
        key: u64,
    ) -> Result<Option<(u64, Receipt)>, Memory>
        requires { CanRequest self.now clock.now pass.old seat.old }
        ensures unbound { IfOk result (λ found. IfSome found (λ (value, receipt). UnbindsKey self.now key value (view pass.old) seat.old receipt (view pass.new) seat.new)) }
        ensures none { IfOk result (λ found. IfNone found (FindsUnbound (row_count self.now) key (view pass.old) seat.old (view pass.new) seat.new)) }
        ensures memory { OnErr result (WantsRoom self.now seat.old seat.new (view pass.old) (view pass.new)) }
        ensures kept { KeepsWorker self.now clock.now pass.old pass.new seat.old seat.new }
    {
        self.zone.make_room(rt, alloc, clock, pass, seat)?;
        match self.take_out(rt, clock, pass, key) {
            Some((value, receipt, entry)) => {
                self.free(clock, pass, seat, entry);
                Ok(Some((value, receipt)))
            }
            None => Ok(None),
        }
    }

    // Takes the key out of its row, under the row's lock.
    fn take_out<R: Wait>(
        &self,
        rt: &R,
        clock: &Clock<Names>,
        pass: &mut Pass<Names>,
        key: u64,
    ) -> Option<(u64, Receipt, EntryParts)>
        requires pass { IsCachePass self.now clock.now pass.old }
        ensures unbound { IfSome result (λ (value, receipt, entry). TakesOut self.now key value (view pass.old) receipt entry (view pass.new)) }
        ensures none { IfNone result (HasFoundNone (row_count self.now) key (view pass.old) (view pass.new)) }
        ensures pass { KeepsKnown clock.now pass.old pass.new }
    {
        let mut guard = self.lock_row(rt, key);
        guard.value.unbind(clock, pass, key)
    }
}
