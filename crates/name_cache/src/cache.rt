ghost use Rattle.std.specs.Prelude.{◌≡◌, true, length};
ghost use Rattle.uma_zone.specs.Zone.{zone_clock, zone_home, zone_index, zone_smr};
ghost use Rattle.name_rows.specs.Belongs.{FitsNames};
ghost use Rattle.name_cache.specs.Origins.{clock_numbers};
ghost use Rattle.name_cache.specs.Locks.{AreNamed};

use crate::locked_row::RowLock;
use crate::{EntryHooks, RaisedEntry};
use name_rows::Names;
use uma_zone::Zone;

/// The zone of a cache's entries.
pub type EntryZone = Zone<RaisedEntry, EntryHooks, Names>;

/// A cache of names, which threads share by reference. Each of them has a pass of its clock, and a seat of its own, which
/// [`NameCache::seat`] makes.
///
/// What always holds: the zone is a primary one, its frees are deferred, and its items are entries of its clock. There is a lock for each row of the clock, in
/// order, and its key names this clock, this zone and the row's number.
#[derive(Drop)]
pub struct NameCache {
    pub(crate) zone: EntryZone,
    pub(crate) rows: Vec<RowLock>,
    ghost primary: { zone_index zone ≡ 0 },
    pub ghost smr: { zone_smr zone ≡ true },
    ghost raised: { (zone_home zone).book.origin ≡ clock_numbers (zone_clock zone) },
    ghost names: { FitsNames (zone_clock zone).1 (zone_clock zone).0.words },
    ghost long: { length rows.items ≡ (zone_clock zone).1.plan.0 },
    ghost named: { AreNamed (zone_clock zone) (zone_home zone) rows.items },
}
