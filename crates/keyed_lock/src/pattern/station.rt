ghost use Rattle.std.specs.Prelude.{◌≡◌, ◌<◌, IfOk};
ghost use Rattle.keyed_lock.specs.KeyedLock.{lock_key};
ghost use Rattle.keyed_lock.specs.HighWater.{water_id, KnowsHeight};
ghost use Rattle.keyed_lock.specs.WaterKey.{key_water};

use crate::pattern::high_water::{Gauge, HighWater};
use crate::pattern::key::WaterKey;
use crate::pattern::row::{GaugeRow, RowLock};
use std::alloc::{AllocError, Global};
use std::snapshot::Snapshot;
use std::sync::Wait;

/// A water, and a row of its gauges under a lock whose key names that water.
#[derive(Drop)]
pub struct Station {
    pub(crate) water: HighWater,
    pub(crate) row: RowLock,
    ghost same_water: { key_water (lock_key row) ≡ water_id water },
    ghost some: { 0 < (lock_key row).count },
}

impl Station {
    ghost use Rattle.keyed_lock.specs.Station.{station_water, station_count};

    /// A station with a row of `count` gauges.
    pub fn new(alloc: Global, count: u64) -> Result<Station, AllocError>
        requires { 0 < count }
        ensures count { IfOk result (λ station. station_count station ≡ count) }
    {
        let water = HighWater::new(alloc)?;
        let gauges = GaugeRow::new(alloc, &water, count)?;
        let key = WaterKey {
            water: Snapshot::of(&water),
            count,
        };
        let row = RowLock::new(alloc, gauges, &key).map_err(|_gauges| AllocError)?;
        Ok(Station { water, row })
    }

    /// The water of the gauges that `raise` answers.
    pub fn water(&self) -> &HighWater
        ensures { water_id result.now ≡ station_water self.now }
    {
        &self.water
    }

    /// Raises the water to `height` or more by a gauge of the row. Waits until it has the row.
    ///
    /// No clause can say what the row is after that. What the call did to the water is told by the gauge that it answers.
    pub fn raise<R: Wait>(&self, rt: &R, height: u64) -> Gauge
        ensures { KnowsHeight (station_water self.now) height result }
    {
        let mut guard = self.row.lock(rt);
        guard.value.raise(&self.water, height)
    }
}
