ghost use Rattle.std.specs.Prelude.{◌≡◌, IfOk};
ghost use Rattle.keyed_lock.specs.KeyedLock.{lock_key};
ghost use Rattle.smr_clock.specs.Belongs.{clock_id};
ghost use Rattle.name_rows.specs.Belongs.{IsNamesClock};
ghost use Rattle.name_rows.specs.Entries.{entry_life};
ghost use Rattle.name_rows.specs.Roots.{CanRaise};

use keyed_lock::{KeyedLock, LockRule};
use name_rows::{Entry, Names, Root, lower, raise};
use smr_clock::Clock;
use std::alloc::Global;
use std::snapshot::Snapshot;
use std::sync::Wait;
use uma_life::{Memory, Tally};

/// Which clock the root under a lock is of. It is for contracts alone.
#[derive(Drop)]
pub struct HomeKey {
    pub clock: Snapshot<Clock<Names>>,
}

/// The root is of the key's clock.
pub struct RootOfClock;

impl LockRule<Root, HomeKey> for RootOfClock {
    ghost use Rattle.name_rows.specs.Roots.{IsRootOf};

    ghost keeps = { λ key root. IsRootOf key.clock.value root };
}

pub type RootLock = KeyedLock<Root, HomeKey, RootOfClock>;

/// The entries that aren't raised, under a lock, and a handle of their clock.
#[derive(Drop)]
pub struct Home {
    pub(crate) clock: Clock<Names>,
    pub(crate) root: RootLock,
    ghost same_clock: { clock_id (lock_key root).clock.value ≡ clock_id clock },
    ghost names: { IsNamesClock clock },
}

impl Home {
    ghost use Rattle.name_cache.specs.Homes.{home_clock, IsNewEntry, RaisesFrom, MayEnd, LowersInto};

    /// Makes a home of this root, with a handle of the clock.
    ///
    /// # Errors
    ///
    /// `Memory`: out of memory, or too many handles.
    pub fn new(alloc: Global, clock: &Clock<Names>, root: Root) -> Result<Home, Memory>
        requires { CanRaise clock.now root }
        ensures { IfOk result (λ home. clock_id (home_clock home) ≡ clock_id clock.now) }
    {
        let handle = clock.share(alloc).map_err(|_| Memory)?;
        let key = HomeKey {
            clock: Snapshot::of(clock),
        };
        let root = RootLock::new(alloc, root, &key).map_err(|_root| Memory)?;
        Ok(Home {
            clock: handle,
            root,
        })
    }

    /// Returns the clock of the entries.
    pub fn clock(&self) -> &Clock<Names>
        ensures same { result.now ≡ home_clock self.now }
        ensures names { IsNamesClock result.now }
    {
        &self.clock
    }

    /// Returns an entry of this number that has passed no hook. It has words exactly if the root has the number, as it
    /// is under the lock; the root then loses the number. It blocks on the lock of the root.
    ///
    /// # Arguments
    ///
    /// - `no`: the number of the entry.
    pub fn raise<R: Wait>(&self, rt: &R, no: u32) -> Entry
        ensures new { IsNewEntry (home_clock self.now) no result }
        ensures raised { RaisesFrom (home_clock self.now) no result }
    {
        let mut guard = self.root.lock(rt);
        raise(&self.clock, &mut guard.value, no)
    }

    /// Ends an entry, and returns its tally. If the entry has words, the root gets its number again, with the entry's
    /// state. It blocks on the lock of the root.
    pub fn lower<R: Wait>(&self, rt: &R, entry: Entry) -> Tally
        requires { MayEnd (home_clock self.now) entry }
        ensures tally { result ≡ (entry_life entry).tally }
        ensures lowered { LowersInto (home_clock self.now) entry }
    {
        let mut guard = self.root.lock(rt);
        lower(&self.clock, &mut guard.value, entry)
    }
}
