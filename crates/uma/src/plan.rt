ghost use Rattle.std.specs.Prelude.{◌≡◌, true, IfErr, OnOk};

use crate::directory::Directory;
use crate::refused::Refused;
use std::snapshot::Snapshot;
use uma_zone::ZoneSet;
use zone_stats::SeatLedger;

/// What a pool is made with.
///
/// [`Plan::new`] asks for the two numbers that nobody can guess; the others have defaults: 64 slabs, buckets of
/// 16 items, no limit, no reserve, one memory domain, and no readers without a lock.
#[derive(Clone, Copy, Debug, PartialEq, Eq)]
pub struct Plan {
    /// The most workers that have a local of the pool, 1 to 64.
    pub workers: u32,
    /// How many bytes an item is said to have, 8 to 4,096: a slab is a page of 4,096, and has at most 256 items.
    pub size: u32,
    /// The most slabs, 1 to 1,024. Each is brought in as it is needed.
    pub slabs: u32,
    /// How many items a bucket of a local has room for, 4 to 64.
    pub bucket: u32,
    /// The most items outside the slabs, those in use and those that locals have cached; 0 is no limit.
    pub limit: u64,
    /// How many free items are kept for requests that may use them.
    pub reserve: u64,
    /// How many memory domains there are, 1 to 4.
    pub domains: u8,
    /// Whether readers of the pool hold no lock, so that what is freed waits until no section may see it.
    pub smr: bool,
}

impl Plan {
    ghost use Rattle.uma.specs.Making.{RefusesPlan};
    ghost use Rattle.uma.specs.Plan.{IsGood, plan_of, set_of};

    /// Returns a plan for a pool of items of `size` bytes. The other numbers have defaults: 64 slabs, buckets of 16
    /// items, no limit, no reserve, one memory domain, and no readers. [`Pool::new`] tests the ranges.
    ///
    /// # Arguments
    ///
    /// - `workers`: the most workers that may have a local or a reader of the pool, 1 to 64.
    /// - `size`: the nominal size of an item in bytes, 8 to 4,096. A slab has 4,096 / `size` items, rounded down, and
    ///   at most 256.
    pub fn new(workers: u32, size: u32) -> Plan
        ensures { result ≡ plan_of workers size }
    {
        Plan {
            workers,
            size,
            slabs: 64,
            bucket: 16,
            limit: 0,
            reserve: 0,
            domains: 1,
            smr: false,
        }
    }

    /// Returns the plan with a limit on the items outside the slabs. Items in use, cached items and items that wait for
    /// readers count.
    ///
    /// # Arguments
    ///
    /// - `limit`: the most items outside the slabs; 0 means no limit.
    pub fn with_limit(self, limit: u64) -> Plan
        ensures { result ≡ record self { limit = limit } }
    {
        Plan { limit, ..self }
    }

    /// Returns the plan with a reserve of free items. Only [`Local::alloc_reserved`](crate::Local::alloc_reserved) may
    /// use them.
    ///
    /// # Arguments
    ///
    /// - `reserve`: the count of free items that are kept.
    pub fn with_reserve(self, reserve: u64) -> Plan
        ensures { result ≡ record self { reserve = reserve } }
    {
        Plan { reserve, ..self }
    }

    /// Returns the plan with this many memory domains. A local belongs to one of them.
    ///
    /// # Arguments
    ///
    /// - `domains`: the count of memory domains, 1 to 4.
    pub fn with_domains(self, domains: u8) -> Plan
        ensures { result ≡ record self { domains = domains } }
    {
        Plan { domains, ..self }
    }

    /// Returns the plan with this many slabs. A slab is brought in when it is needed.
    ///
    /// # Arguments
    ///
    /// - `slabs`: the most slabs, 1 to 1,024.
    pub fn with_slabs(self, slabs: u32) -> Plan
        ensures { result ≡ record self { slabs = slabs } }
    {
        Plan { slabs, ..self }
    }

    /// Returns the plan with buckets of this size. A local caches items in buckets.
    ///
    /// # Arguments
    ///
    /// - `bucket`: the most items in a bucket, 4 to 64.
    pub fn with_bucket(self, bucket: u32) -> Plan
        ensures { result ≡ record self { bucket = bucket } }
    {
        Plan { bucket, ..self }
    }

    /// Returns the plan for a pool with readers that hold no lock. They look within a section
    /// ([`Local::read`](crate::Local::read), [`Reader::read`](crate::Reader::read)). An item that is freed stays built,
    /// and isn't handed out, until no section that began before the free is open.
    pub fn with_readers(self) -> Plan
        ensures { result ≡ record self { smr = true } }
    {
        Plan { smr: true, ..self }
    }

    // Names the first number that is out of its range.
    pub(crate) fn check(self) -> Result<(), Refused>
        ensures good { OnOk result (IsGood self) }
        ensures refused { IfErr result (RefusesPlan self) }
    {
        let Plan {
            workers,
            size,
            slabs,
            bucket,
            domains,
            ..
        } = self;
        if !(1..=64).contains(&workers) {
            return Err(Refused::Workers { workers });
        }
        if !(8..=4_096).contains(&size) {
            return Err(Refused::Size { size });
        }
        if !(1..=1_024).contains(&slabs) {
            return Err(Refused::Slabs { slabs });
        }
        if !(4..=64).contains(&bucket) {
            return Err(Refused::Bucket { bucket });
        }
        if !(1..=4).contains(&domains) {
            return Err(Refused::Domains { domains });
        }
        Ok(())
    }

    // The numbers of its zone.
    pub(crate) fn set(self) -> ZoneSet
        ensures { result ≡ set_of self }
    {
        ZoneSet {
            slabs: self.slabs,
            bucket: self.bucket,
            limit: self.limit,
            reserve: self.reserve,
            domains: self.domains,
            smr: self.smr,
        }
    }
}

/// What a local of a directory counted, and of which directory it is, which contracts alone see.
#[derive(Drop)]
pub struct NameLedger {
    pub counts: SeatLedger,
    pub(crate) directory: Snapshot<Directory>,
}

/// What a directory is made with.
///
/// [`NamePlan::new`] asks for the two numbers that nobody can guess; the others have defaults: 64 slabs of 64 entries, and buckets of 16.
#[derive(Clone, Copy, Debug, PartialEq, Eq)]
pub struct NamePlan {
    /// The most workers that have a local of the directory, 1 to 64.
    pub workers: u32,
    /// How many rows there are, 1 to 4,096. A name's row is the name modulo this, and a row has one name.
    pub rows: u32,
    /// The most slabs of 64 entries, 1 to 1,024.
    pub slabs: u32,
    /// How many entries a bucket of a local has room for, 4 to 64.
    pub bucket: u32,
}

impl NamePlan {
    ghost use Rattle.uma.specs.NamePlan.{IsGoodNames, RefusesNamePlan, name_plan_of, name_set_of};

    /// Returns a plan for a directory. The other numbers have defaults: 64 slabs of 64 entries, and buckets of 16
    /// entries. [`Directory::new`] tests the ranges.
    ///
    /// # Arguments
    ///
    /// - `workers`: the most workers that may have a local of the directory, 1 to 64.
    /// - `rows`: the count of rows, 1 to 4,096. A name's row is the name modulo this count, and a row has at most one
    ///   name.
    pub fn new(workers: u32, rows: u32) -> NamePlan
        ensures { result ≡ name_plan_of workers rows }
    {
        NamePlan {
            workers,
            rows,
            slabs: 64,
            bucket: 16,
        }
    }

    /// Returns the plan with this many slabs of 64 entries.
    ///
    /// # Arguments
    ///
    /// - `slabs`: the most slabs, 1 to 1,024.
    pub fn with_slabs(self, slabs: u32) -> NamePlan
        ensures { result ≡ record self { slabs = slabs } }
    {
        NamePlan { slabs, ..self }
    }

    /// Returns the plan with buckets of this size.
    ///
    /// # Arguments
    ///
    /// - `bucket`: the most entries in a bucket, 4 to 64.
    pub fn with_bucket(self, bucket: u32) -> NamePlan
        ensures { result ≡ record self { bucket = bucket } }
    {
        NamePlan { bucket, ..self }
    }

    // Names the first number that is out of its range.
    pub(crate) fn check(self) -> Result<(), Refused>
        ensures good { OnOk result (IsGoodNames self) }
        ensures refused { IfErr result (RefusesNamePlan self) }
    {
        let NamePlan {
            workers,
            rows,
            slabs,
            bucket,
        } = self;
        if !(1..=64).contains(&workers) {
            return Err(Refused::Workers { workers });
        }
        if !(1..=4_096).contains(&rows) {
            return Err(Refused::Rows { rows });
        }
        if !(1..=1_024).contains(&slabs) {
            return Err(Refused::Slabs { slabs });
        }
        if !(4..=64).contains(&bucket) {
            return Err(Refused::Bucket { bucket });
        }
        Ok(())
    }

    // The numbers of its zone of entries.
    pub(crate) fn set(self) -> ZoneSet
        ensures { result ≡ name_set_of self }
    {
        ZoneSet {
            slabs: self.slabs,
            bucket: self.bucket,
            limit: 0,
            reserve: 0,
            domains: 1,
            smr: true,
        }
    }
}
