ghost use Rattle.std.specs.Prelude.{◌≡◌, ◌<◌, ◌+◌, ◌-◌, ◌^◌, ◌↔◌, ℕ, IsTrue, min, length, slice_index_or};
ghost use Rattle.uma_life.specs.Hook.{Hook};
ghost use Rattle.uma_life.specs.Life.{no_counts};
ghost use Rattle.uma_life.specs.Sum.{times_of, sum_of, zone_sums, AreBelow, AreBelowEach, IsBelow, AreCounts, AddsCounts, AddsSums, zone_sums_with, zone_sums_and, capped_zone};

/// Where an item stands in its life.
#[derive(Clone, Copy, Debug, PartialEq, Eq)]
pub enum BodyPhase {
    /// It passed no hook.
    Raw,
    /// It is in its keg, or in the primary zone and not built.
    Kept,
    /// It is in a secondary zone, which is 1 to 7, and not built.
    Zoned { zone: u8 },
    /// It is built, in a zone below 8.
    Built { zone: u8 },
    /// It passed `keg_fini`.
    Gone,
}

/// How often an item passed each hook.
#[derive(Clone, Copy, Debug, PartialEq, Eq)]
pub struct Tally {
    pub keg_inits: u64,
    pub keg_finis: u64,
    /// By the zone's number. Zone 0 is the primary zone, whose inits and finis stay 0.
    pub zones: [ZoneTally; 8],
}

/// How often an item passed each hook of a zone. The counts wrap.
#[derive(Clone, Copy, Debug, PartialEq, Eq)]
pub struct ZoneTally {
    pub inits: u64,
    pub ctors: u64,
    pub dtors: u64,
    pub finis: u64,
}

/// How often the items of a keg passed each hook of a zone, summed up without a wrap.
#[derive(Clone, Copy, Debug, PartialEq, Eq)]
pub struct ZoneTallySum {
    pub inits: u128,
    pub ctors: u128,
    pub dtors: u128,
    pub finis: u128,
}

/// How often the items of a keg passed each hook, summed up without a wrap.
#[derive(Clone, Copy, Debug, PartialEq, Eq)]
pub struct TallySum {
    pub keg_inits: u128,
    pub keg_finis: u128,
    /// By the zone's number. Zone 0 is the primary zone, whose inits and finis stay 0.
    pub zones: [ZoneTallySum; 8],
}

impl TallySum {
    ghost use Rattle.uma_life.specs.Sum.{no_sums};

    /// The sums of no tally.
    pub fn none() -> TallySum
        ensures { result ≡ no_sums }
    {
        let none = ZoneTallySum {
            inits: 0,
            ctors: 0,
            dtors: 0,
            finis: 0,
        };
        TallySum {
            keg_inits: 0,
            keg_finis: 0,
            zones: [none; 8],
        }
    }

    /// Adds the tally of one more item.
    pub fn add(&mut self, tally: Tally)
        requires { AreBelow (2 ^ 127) self.old }
        ensures sums { (hook : Hook) → sum_of self.new hook ≡ sum_of self.old hook + times_of tally hook }
        ensures counts { (hook : Hook) → times_of tally hook < 2 ^ 64 }
    {
        self.keg_inits += u128::from(tally.keg_inits);
        self.keg_finis += u128::from(tally.keg_finis);
        self.zones = zones_with(self.zones, tally.zones);
    }

    /// Adds the sums of other items.
    pub fn add_sums(&mut self, others: TallySum)
        requires room { AreBelow (2 ^ 127) self.old }
        requires few { AreBelow (2 ^ 127) others }
        ensures { (hook : Hook) → sum_of self.new hook ≡ sum_of self.old hook + sum_of others hook }
    {
        self.keg_inits += others.keg_inits;
        self.keg_finis += others.keg_finis;
        self.zones = zones_and(self.zones, others.zones);
    }

    /// The sums as counts of 64 bits: one that is greater stops at 2^64 - 1.
    pub fn capped(&self) -> Tally
        ensures { (hook : Hook) → times_of result hook ≡ min (sum_of self.now hook) (2 ^ 64 - 1) }
    {
        Tally {
            keg_inits: capped(self.keg_inits),
            keg_finis: capped(self.keg_finis),
            zones: capped_zones(self.zones),
        }
    }

    /// Whether each sum is below a bound.
    pub fn are_below(&self, bound: u128) -> bool
        ensures { IsTrue result ↔ AreBelow bound self.now }
    {
        self.keg_inits < bound && self.keg_finis < bound && zones_are_below(self.zones, bound)
    }
}

impl ZoneTallySum {
    /// These sums with the counts of one more item.
    fn with(self, counts: ZoneTally) -> ZoneTallySum
        requires { IsBelow (2 ^ 127) self }
        ensures sums { result ≡ zone_sums_with self counts }
        ensures counts { AreCounts counts }
    {
        ZoneTallySum {
            inits: self.inits + u128::from(counts.inits),
            ctors: self.ctors + u128::from(counts.ctors),
            dtors: self.dtors + u128::from(counts.dtors),
            finis: self.finis + u128::from(counts.finis),
        }
    }

    /// These sums with those of other items.
    fn and(self, others: ZoneTallySum) -> ZoneTallySum
        requires room { IsBelow (2 ^ 127) self }
        requires few { IsBelow (2 ^ 127) others }
        ensures { result ≡ zone_sums_and self others }
    {
        ZoneTallySum {
            inits: self.inits + others.inits,
            ctors: self.ctors + others.ctors,
            dtors: self.dtors + others.dtors,
            finis: self.finis + others.finis,
        }
    }

    fn is_below(self, bound: u128) -> bool
        ensures { IsTrue result ↔ IsBelow bound self }
    {
        self.inits < bound && self.ctors < bound && self.dtors < bound && self.finis < bound
    }

    fn capped(self) -> ZoneTally
        ensures { result ≡ capped_zone self }
    {
        ZoneTally {
            inits: capped(self.inits),
            ctors: capped(self.ctors),
            dtors: capped(self.dtors),
            finis: capped(self.finis),
        }
    }
}

/// These sums of eight zones with the counts of one more item.
fn zones_with(sums: [ZoneTallySum; 8], counts: [ZoneTally; 8]) -> [ZoneTallySum; 8]
    requires { AreBelowEach (2 ^ 127) sums }
    ensures { AddsCounts sums counts result }
{
    let mut more = sums;
    for zone in 0..8 {
        more[zone] = sums[zone].with(counts[zone]);
    }
    more
}

/// These sums of eight zones with those of other items.
fn zones_and(sums: [ZoneTallySum; 8], others: [ZoneTallySum; 8]) -> [ZoneTallySum; 8]
    requires room { AreBelowEach (2 ^ 127) sums }
    requires few { AreBelowEach (2 ^ 127) others }
    ensures { AddsSums sums others result }
{
    let mut more = sums;
    for zone in 0..8 {
        more[zone] = sums[zone].and(others[zone]);
    }
    more
}

/// A sum as a count of 64 bits.
fn capped(sum: u128) -> u64
    ensures { result ≡ min sum (2 ^ 64 - 1) }
{
    sum.min(u128::from(u64::MAX)) as u64
}

fn capped_zones(sums: [ZoneTallySum; 8]) -> [ZoneTally; 8]
    ensures eight { (length sums ≡ 8) × (length result ≡ 8) }
    ensures capped { (zone : ℕ) → zone < 8 → slice_index_or result zone no_counts ≡ capped_zone (zone_sums sums zone) }
{
    let mut zones = [sums[0].capped(); 8];
    for zone in 1..8 {
        zones[zone] = sums[zone].capped();
    }
    zones
}

fn zones_are_below(zones: [ZoneTallySum; 8], bound: u128) -> bool
    ensures eight { length zones ≡ 8 }
    ensures below { IsTrue result ↔ AreBelowEach bound zones }
{
    for sums in zones {
        if !sums.is_below(bound) {
            return false;
        }
    }
    true
}
