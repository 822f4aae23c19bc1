ghost use Rattle.std.specs.Prelude.{◌≡◌, ◌<◌, ◌⊎◌, IfOk, IfErr, OnOk, Err, Some};
ghost use Rattle.deed_book.specs.Deed.{deed_table, no_of};
ghost use Rattle.deed_book.specs.FailShare.{share_table};
ghost use Rattle.smr_clock.specs.Belongs.{clock_id};
ghost use Rattle.uma_bucket.specs.Bucket.{IsOutOfRange};
ghost use Rattle.locked_keg.specs.Key.{key_rights, key_fails};
ghost use Rattle.uma_zone.specs.Making.{IsBucketSize, IsDomainCount, AreRightsOf, KeepsRights};

use crate::domains::ZoneDomains;
use crate::right::KeptRight;
use crate::zone::Zone;
use deed_book::{Deed, FailShare, Memory, Memory as NoMemory};
use locked_keg::LockedKeg;
use smr_clock::{Clock, Host};
use std::alloc::Global;
use std::error::Error;
use std::fmt;
use std::snapshot::Snapshot;
use std::sync::{Arc, Wait};
use uma_keg::{Keg, KegRefused};
use uma_life::{Body, Hooks};
use uma_seat::{SeatCache, Seating};

/// Why no zone was made. The tests are made in the order of the variants.
#[derive(Clone, Copy, Debug, PartialEq, Eq)]
pub enum ZoneRefused {
    /// The size of an item is outside 8 to 4,096 bytes.
    Size { size: u32 },
    /// The greatest number of slabs is outside 1 to 1,024.
    Slabs { slabs: u32 },
    /// The size of a bucket is outside 4 to 64 items.
    Bucket { bucket: u32 },
    /// The count of memory domains is outside 1 to 4.
    Domains { domains: u8 },
    /// The keg has this many zones already, as many as it may have.
    Zones { zones: u8 },
    /// Memory is wanting.
    Memory,
}

impl fmt::Display for ZoneRefused {
    fn fmt<W: fmt::Write>(&self, f: &mut fmt::Formatter<W>) -> fmt::Result {
        match self {
            ZoneRefused::Size { size } => write!(f, "an item of {size} bytes: it has 8 to 4096"),
            ZoneRefused::Slabs { slabs } => write!(f, "a keg of {slabs} slabs: it has 1 to 1024"),
            ZoneRefused::Bucket { bucket } => {
                write!(f, "a bucket of {bucket} items: it has room for 4 to 64")
            }
            ZoneRefused::Domains { domains } => write!(f, "{domains} domains: there are 1 to 4"),
            ZoneRefused::Zones { zones } => write!(
                f,
                "the keg has {zones} zones, and no right is left"
            ),
            ZoneRefused::Memory => write!(f, "out of memory"),
        }
    }
}

impl Error for ZoneRefused {}

impl From<NoMemory> for ZoneRefused {
    ghost use Rattle.std.specs.Prelude.{◌≡◌};
    ghost use Rattle.uma_zone.specs.declared.zone.make.ZoneRefused.TheVariants.{Memory};

    ghost from_gives = { λ _ refused. refused ≡ Memory };

    fn from(_: NoMemory) -> ZoneRefused {
        ZoneRefused::Memory
    }
}

impl From<KegRefused> for ZoneRefused {
    ghost use Rattle.std.specs.Prelude.{◌≡◌};
    ghost use Rattle.uma_zone.specs.Making.{as_zone};

    ghost from_gives = { λ refused passed. passed ≡ as_zone refused };

    fn from(refused: KegRefused) -> ZoneRefused {
        match refused {
            KegRefused::Size { size } => ZoneRefused::Size { size },
            KegRefused::Slabs { slabs } => ZoneRefused::Slabs { slabs },
            KegRefused::Memory => ZoneRefused::Memory,
        }
    }
}

/// What a primary zone is made with.
#[derive(Clone, Copy, Debug, PartialEq, Eq)]
pub struct ZoneSet {
    /// The most slabs of its keg, 1 to 1,024.
    pub slabs: u32,
    /// How many items a bucket has room for, 4 to 64.
    pub bucket: u32,
    /// The limit that the zone begins with: the most items outside the keg that a fetch leaves; 0 is none.
    pub limit: u64,
    /// How many free items the keg keeps for requests that say that they may use them.
    pub reserve: u64,
    /// How many memory domains there are, 1 to 4.
    pub domains: u8,
    /// Whether readers of the zone hold no lock, so that its frees are deferred.
    pub smr: bool,
}

/// What a secondary zone is made with. It has the size, the keg and the count of domains of its primary zone.
#[derive(Clone, Copy, Debug, PartialEq, Eq)]
pub struct SecondSet {
    /// How many items a bucket has room for, 4 to 64.
    pub bucket: u32,
    /// The limit that the zone begins with: the most items outside the keg that a fetch leaves; 0 is none.
    pub limit: u64,
    /// Whether readers of the zone hold no lock, so that its frees are deferred.
    pub smr: bool,
}

/// The least and the greatest count of items that a bucket can have room for.
const LEAST_BUCKET: u32 = 4;

const MOST_BUCKET: u32 = 64;

/// The most memory domains of a zone.
const MOST_DOMAINS: u8 = 4;

/// The most zones of a keg.
const MOST_ZONES: u8 = 8;

impl<T: Body + Drop, K: Hooks<T>, H: Host> Zone<T, K, H> {
    ghost use Rattle.uma_zone.specs.Zone.{zone_key, zone_index, zone_domains};
    ghost use Rattle.uma_zone.specs.Making.{IsNewKeg, IsOverKeg, IsSameZone, MakesDomains, MakesPrimary, MakesSecondary, RefusesAndKeeps, RefusesPrimary};
    ghost use Rattle.uma_zone.specs.Seat.{MakesSeat, IsSeatingOf};

    /// Makes a zone over a keg of its own. The keg runs `keg_hooks` when slabs are brought in or given up, and its
    /// items have the origin of these hooks. The zone runs `ctor` and `dtor` of `hooks`. `clock` is the clock of the
    /// zone's readers. No slab is brought in yet. The hooks are dropped if the zone isn't made.
    ///
    /// # Arguments
    ///
    /// - `size`: the nominal size of an item in bytes, 8 to 4,096. A slab has 4,096 / `size` items, rounded down, and
    ///   at most 256.
    /// - `set`: the zone's numbers: at most `slabs` slabs, 1 to 1,024; buckets of `bucket` items, 4 to 64; `limit`
    ///   items outside, where 0 means no limit; `reserve` free items; `domains` memory domains, 1 to 4; and whether the
    ///   zone is an SMR zone.
    ///
    /// # Errors
    ///
    /// - `Size`, `Slabs`, `Bucket`, `Domains`: that number is out of its range. They are tested in this order.
    /// - `Memory`: out of memory, or too many handles of the clock.
    pub fn primary(
        alloc: Global,
        clock: &Clock<H>,
        size: u32,
        set: ZoneSet,
        hooks: K,
        keg_hooks: K,
    ) -> Result<Zone<T, K, H>, ZoneRefused>
        ensures made { IfOk result (MakesPrimary (clock_id clock.now) size set hooks keg_hooks) }
        ensures refused { IfErr result (RefusesPrimary size set) }
    {
        let (keg, rights) = match Keg::new(alloc, size, set.slabs, set.reserve, keg_hooks) {
            Ok(made) => made,
            Err(KegRefused::Memory) => {
                // Each number is tested before want of memory is told.
                check_bucket(set.bucket)?;
                check_domains(set.domains)?;
                return Err(ZoneRefused::Memory);
            }
            Err(refused) => return Err(refused.into()),
        };
        check_bucket(set.bucket)?;
        check_domains(set.domains)?;
        Ok(Zone::over(alloc, clock, set, hooks, keg, rights)?)
    }

    // The primary zone of a new keg that came with these rights.
    fn over(
        alloc: Global,
        clock: &Clock<H>,
        set: ZoneSet,
        hooks: K,
        keg: Keg<T, K>,
        mut rights: Vec<Deed>,
    ) -> Result<Zone<T, K, H>, Memory>
        requires { IsNewKeg set keg rights.items }
        ensures { IfOk result (IsOverKeg (clock_id clock.now) keg set hooks) }
    {
        let Some(right) = rights.pop() else {
            unreachable!()
        };
        let rights = keep_rights(alloc, &keg, rights)?;
        let domains = ZoneDomains::new(alloc, clock, keg.numbers(), 0, set.domains, set.smr)?;
        let mut keg = LockedKeg::new(alloc, keg)?;
        let (index, added) = keg.add_zone(right, set.limit);
        let Ok(keg) = Arc::new(alloc, keg.lock_up(alloc, set.domains)?) else {
            return Err(Memory);
        };
        Ok(Zone {
            keg,
            domains,
            hooks,
            index,
            bucket: set.bucket,
            limit: set.limit,
            added: Snapshot::of(&added),
            rights,
        })
    }

    /// Makes a further zone over the same keg, by the next of the seven rights that this one, the primary zone, keeps.
    /// Its items pass `zone_init` and `zone_fini` of `hooks` around each stay. It blocks on the keg's lock.
    ///
    /// # Errors
    ///
    /// The right is kept after each refusal.
    ///
    /// - `Bucket`: the size of a bucket is outside 4 to 64.
    /// - `Zones`: no right is left.
    /// - `Memory`: out of memory.
    pub fn secondary<R: Wait>(
        &mut self,
        rt: &R,
        alloc: Global,
        set: SecondSet,
        hooks: K,
    ) -> Result<Zone<T, K, H>, ZoneRefused>
        requires { zone_index self.old ≡ 0 }
        ensures made { IfOk result (MakesSecondary self.old set hooks self.new) }
        ensures refused { IfErr result (RefusesAndKeeps self.old set self.new) }
        ensures out_of_range { IsOutOfRange set.bucket → result ≡ Err (ZoneRefused.Bucket set.bucket) }
        ensures same { IsSameZone self.old self.new }
    {
        check_bucket(set.bucket)?;
        let Some(next) = self.rights.last() else {
            return Err(ZoneRefused::Zones { zones: MOST_ZONES });
        };
        let index = next.no();
        let keg = Arc::try_clone(&self.keg).map_err(|_| ZoneRefused::Memory)?;
        let domains = self.new_domains(rt, alloc, index, set.smr)?;
        let Some(next) = self.rights.pop() else {
            unreachable!()
        };
        let added = self.add(rt, next.use_up(rt), set.limit);
        Ok(Zone {
            keg,
            domains,
            hooks,
            index,
            bucket: set.bucket,
            limit: set.limit,
            added: Snapshot::of(&added),
            rights: Vec::new(alloc),
        })
    }

    // Domains, as many as this zone has, of a zone of its keg.
    fn new_domains<R: Wait>(
        &self,
        rt: &R,
        alloc: Global,
        index: u8,
        smr: bool,
    ) -> Result<ZoneDomains<T, H>, Memory>
        ensures { MakesDomains self.now index smr result }
    {
        let guard = self.lock(rt);
        let book = guard.value.numbers();
        ZoneDomains::new(
            alloc,
            self.domains.clock(),
            book,
            index,
            self.domains.count(),
            smr,
        )
    }

    // Adds a zone to the keg by this right. A share of its fail book shows that it was added.
    fn add<R: Wait>(&self, rt: &R, right: Deed, limit: u64) -> FailShare
        requires { deed_table right ≡ key_rights (zone_key self.now) }
        ensures { key_fails (zone_key self.now) (no_of right) ≡ Some (share_table result) }
    {
        let mut guard = self.lock(rt);
        let (_, added) = guard.value.add_zone(right, limit);
        added
    }

    /// Makes a seat of this zone in a memory domain, with a port of each domain's inbox. It has no items and two spare
    /// buckets, and has counted nothing. One worker at a time uses it. The call blocks on the locks of the keg and of
    /// the domains.
    ///
    /// # Arguments
    ///
    /// - `domain`: the number of the memory domain, below the zone's count of domains.
    ///
    /// # Errors
    ///
    /// `Memory`: out of memory. The call also returns it if the zone isn't in its keg, which never happens; the keg's
    /// lock doesn't let us prove that.
    pub fn seat<R: Wait>(
        &self,
        rt: &R,
        alloc: Global,
        domain: u8,
    ) -> Result<SeatCache<T, H>, Memory>
        requires { domain < zone_domains self.now }
        ensures { MakesSeat self.now domain result }
    {
        let (seating, share) = self.open(rt, domain)?;
        let misses = self.domains.open_misses(rt, domain);
        let ports = self.domains.open_ports(rt, alloc)?;
        match SeatCache::new(alloc, self.bucket, seating, share, misses, ports) {
            Ok(seat) => Ok(seat),
            Err(_) => Err(Memory),
        }
    }

    // For what a seat of the domain is made, and a share of the zone's fail book for it.
    fn open<R: Wait>(&self, rt: &R, domain: u8) -> Result<(Seating<H>, FailShare), Memory>
        requires { domain < zone_domains self.now }
        ensures { IfOk result (λ (seating, share). IsSeatingOf self.now domain seating share) }
    {
        let mut guard = self.lock(rt);
        if !guard.value.has_zone(self.index) {
            return Err(Memory);
        }
        let seating = self.domains.seating(guard.value.numbers(), domain);
        Ok((seating, guard.value.new_share(self.index)))
    }
}

// Keeps the rights that are left of a new keg, in their order.
fn keep_rights<T: Body, K: Hooks<T>>(
    alloc: Global,
    keg: &Keg<T, K>,
    rights: Vec<Deed>,
) -> Result<Vec<KeptRight>, Memory>
    requires { AreRightsOf keg.now rights.items }
    ensures { IfOk result (λ kept. KeepsRights keg.now rights.items kept.items) }
{
    let mut kept = Vec::new(alloc);
    for right in rights {
        let right = KeptRight::new(alloc, keg.rights(), right)?;
        kept.push(right).map_err(|_| Memory)?;
    }
    Ok(kept)
}

// Refuses a size that no bucket has.
fn check_bucket(bucket: u32) -> Result<(), ZoneRefused>
    ensures taken { OnOk result (IsBucketSize bucket) }
    ensures refused { IfErr result (λ why. (why ≡ ZoneRefused.Bucket bucket) × IsOutOfRange bucket) }
{
    if bucket < LEAST_BUCKET || bucket > MOST_BUCKET {
        return Err(ZoneRefused::Bucket { bucket });
    }
    Ok(())
}

// Refuses a count of domains that no zone has.
fn check_domains(domains: u8) -> Result<(), ZoneRefused>
    ensures taken { OnOk result (IsDomainCount domains) }
    ensures refused { IfErr result (λ why. (why ≡ ZoneRefused.Domains domains) × (domains < 1 ⊎ 4 < domains)) }
{
    if domains == 0 || domains > MOST_DOMAINS {
        return Err(ZoneRefused::Domains { domains });
    }
    Ok(())
}
