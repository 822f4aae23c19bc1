ghost use Rattle.std.specs.Prelude.{◌≡◌, ◌≤◌, ◌<◌, Some, ◌^◌, IfOk, false};
ghost use Rattle.std.specs.List.{All};
ghost use Rattle.std.specs.Arc.{arc_value};
ghost use Rattle.deed_book.specs.FailShare.{share_table};
ghost use Rattle.keyed_lock.specs.KeyedLock.{lock_key};
ghost use Rattle.locked_keg.specs.Key.{key_numbers, key_rights, key_fails};
ghost use Rattle.uma_domain.specs.Identity.{home_of};
ghost use Rattle.uma_zone.specs.Domains.{domains_home};
ghost use Rattle.uma_zone.specs.Right.{right_table};
ghost use Rattle.uma_life.specs.Live.{live_table};
ghost use Rattle.uma_bucket.specs.Sums.{AreOfAtMost, Balance};
ghost use Rattle.uma_keg.specs.Keg.{HasZone};
ghost use Rattle.locked_keg.specs.LockedKeg.{keg_in};
ghost use Rattle.keyed_lock.specs.KeyedGuard.{guard_key};

use crate::domains::ZoneDomains;
use crate::right::KeptRight;
use deed_book::{FailShare, Memory};
use keyed_lock::KeyedGuard;
use locked_keg::{KegKey, KegLock, KegRule, LockedKeg};
use smr_clock::Host;
use std::alloc::Global;
use std::snapshot::Snapshot;
use std::sync::{Arc, Wait};
use uma_bucket::Sums;
use uma_domain::Domain;
use uma_keg::{Census, KegCounts};
use uma_life::{Body, Hooks, Lives};

pub(crate) mod alloc;
pub(crate) mod make;
pub(crate) mod reclaim;

/// A zone of items, primary or secondary, which threads share by reference. Each of them allocates and frees by a seat of
/// its own, which [`Zone::seat`] makes.
///
/// What always holds: its domains and its lock are of one keg, and know one count of domains. It was added to that keg under
/// its number, which a share of its fail book shows. The rights that a primary zone keeps are the keg's own.
#[derive(Drop)]
pub struct Zone<T: Body, K: Hooks<T>, H: Host> {
    pub(crate) keg: Arc<KegLock<T, K>>,
    pub(crate) domains: ZoneDomains<T, H>,
    pub(crate) hooks: K,
    // Its number in its keg, 0 for the primary zone.
    pub(crate) index: u8,
    // For how many items a bucket of its seats has room.
    pub(crate) bucket: u32,
    // The limit that it was made with, where 0 is none. What it is now, the keg knows alone.
    pub(crate) limit: u64,
    // A share of its fail book, which only a zone that was added has. For contracts alone.
    pub(crate) added: Snapshot<FailShare>,
    // The rights to zones that the keg hasn't yet, the next at the end. A secondary zone keeps none.
    pub(crate) rights: Vec<KeptRight>,
    pub ghost below: { index < 8 },
    pub ghost least: { 4 ≤ bucket },
    pub ghost most: { bucket ≤ 64 },
    pub ghost home: { domains_home domains ≡ home_of (key_numbers (lock_key (arc_value keg))) index (lock_key (arc_value keg)).domains },
    pub ghost was_added: { key_fails (lock_key (arc_value keg)) index ≡ Some (share_table added.value) },
    pub ghost rights_of_keg: { All (λ right. right_table right ≡ key_rights (lock_key (arc_value keg))) rights.items },
}

impl<T: Body + Drop, K: Hooks<T>, H: Host> Zone<T, K, H> {
    ghost use Rattle.uma_zone.specs.Zone.{zone_index};

    /// Returns how often the items in the lists and inboxes of the domains have passed each hook, and how many of them
    /// are deferred. In this zone the ctors exceed the dtors by the deferred items, and in every other zone they are
    /// equal, modulo 2^64. It blocks on the lock of each domain, and settles the inboxes into the lists.
    ///
    /// # Errors
    ///
    /// `Memory`: out of memory for a settle.
    pub fn sums<R: Wait>(&self, rt: &R) -> Result<Sums, Memory>
        ensures few { IfOk result (AreOfAtMost (2 ^ 34)) }
        ensures balance { IfOk result (Balance (zone_index self.now)) }
    {
        self.domains.sums(rt)
    }
}

impl<T: Body, K: Hooks<T>, H: Host> Zone<T, K, H> {
    ghost use Rattle.uma_zone.specs.Zone.{zone_home, zone_smr, zone_domains, zone_hooks, zone_rights, IsDomainAt};
    ghost use Rattle.uma_zone.specs.KegStates.{CountsKeg, HasKegNumbers, TakesCensus};
    ghost use Rattle.uma_zone.specs.SetMax.{SetsMax};
    ghost use Rattle.uma_zone.specs.Locking.{LocksKeg};

    /// Returns the count of memory domains, 1 to 4.
    pub fn domains(&self) -> u8
        ensures { result ≡ zone_domains self.now }
    {
        self.domains.count()
    }

    /// Returns the memory domain of this number.
    ///
    /// # Arguments
    ///
    /// - `domain`: the number of the memory domain, below the zone's count of domains.
    pub fn domain(&self, domain: u8) -> &Domain<T, H>
        requires { domain < zone_domains self.now }
        ensures { IsDomainAt self.now domain result.now }
    {
        self.domains.get(domain)
    }

    /// Returns whether the zone's readers hold no lock, so that its frees are deferred.
    pub fn is_smr(&self) -> bool
        ensures { result ≡ zone_smr self.now }
    {
        self.domains.is_smr()
    }

    /// Returns the zone's own hooks.
    pub fn hooks(&self) -> &K
        ensures { result.now ≡ zone_hooks self.now }
    {
        &self.hooks
    }

    /// Returns the counts of the keg at one moment. It blocks on the keg's lock.
    pub fn counts<R: Wait>(&self, rt: &R) -> KegCounts
        ensures stands { CountsKeg self.now result }
        ensures numbers { HasKegNumbers self.now result }
    {
        let guard = self.lock(rt);
        guard.value.counts()
    }

    /// Takes the census of the keg at one moment, and returns it with the live items that it was lent, in the same
    /// order. They may belong to any zone of the keg. A zone whose right this zone still keeps has no items outside. It
    /// blocks on the keg's lock.
    ///
    /// # Errors
    ///
    /// The caller gets the live items back: out of memory. The call also fails if the keg has a zone whose right is
    /// kept, which never happens; the keg's lock doesn't let us prove that.
    pub fn census<R: Wait>(
        &self,
        rt: &R,
        alloc: Global,
        lives: Lives<T>,
    ) -> Result<(Census, Lives<T>), Lives<T>>
        requires { All (λ item. live_table item ≡ (zone_home self.now).book) lives }
        ensures { TakesCensus self.now lives result }
    {
        let mut guard = self.lock(rt);
        if self.keeps_used_right(&guard.value) {
            return Err(lives);
        }
        guard.value.census(alloc, lives)
    }

    // Whether the keg has a zone whose right is kept still.
    fn keeps_used_right(&self, keg: &LockedKeg<T, K>) -> bool
        ensures { result ≡ false → All (λ no. HasZone (keg_in keg.now) no → ⊥) (zone_rights self.now) }
    {
        for right in &self.rights {
            if keg.has_zone(right.no()) {
                return true;
            }
        }
        false
    }

    /// Sets the zone's limit, and returns the former one. It blocks on the keg's lock only.
    ///
    /// A lowered limit takes nothing away. Live, cached and deferred items stay outside, and caches still serve what
    /// they hold. No fetch gives an item until fewer items are outside than the limit.
    ///
    /// # Arguments
    ///
    /// - `limit`: the most items outside the slabs, at most 1,000,000; 0 means no limit.
    pub fn set_max<R: Wait>(&self, rt: &R, limit: u64) -> u64
        requires { limit ≤ 1000000 }
        ensures set { SetsMax self.now limit result }
    {
        let mut guard = self.lock(rt);
        guard.value.set_limit(self.index, limit)
    }

    /// The keg with its fail books. Waits until it has the lock. All that is known through the lock is said here.
    pub(crate) fn lock<'a, R: Wait>(
        &'a self,
        rt: &R,
    ) -> KeyedGuard<'a, LockedKeg<T, K>, KegKey, KegRule>
        ensures { LocksKeg self.now (guard_key result) result.value }
    {
        self.keg.lock(rt)
    }
}
