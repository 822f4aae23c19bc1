ghost use Rattle.std.specs.Prelude.{◌≡◌, ◌+◌, ◌<◌, IfOk};
ghost use Rattle.atomic_table.specs.Seated.{TableId};
ghost use Rattle.keyed_lock.specs.HighWater.{water_id, KnowsHeight};

use crate::pattern::high_water::{Gauge, HighWater};
use crate::pattern::key::WaterKey;
use crate::{KeyedLock, LockRule};
use std::alloc::{AllocError, Global};

/// Gauges, for whoever needs one for a step.
#[derive(Drop)]
pub struct GaugeRow {
    gauges: Vec<Gauge>,
}

impl GaugeRow {
    ghost use Rattle.keyed_lock.specs.GaugeRow.{AreGaugesOf, gauge_count, HasRoom};

    /// A row of `count` gauges of the water.
    pub fn new(alloc: Global, water: &HighWater, count: u64) -> Result<GaugeRow, AllocError>
        ensures ours { IfOk result (λ row. AreGaugesOf (water_id water.now) row) }
        ensures count { IfOk result (λ row. gauge_count row ≡ count) }
    {
        let mut gauges = Vec::new(alloc);
        for _ in 0..count {
            gauges.push(water.gauge())?;
        }
        Ok(GaugeRow { gauges })
    }

    /// Lends a gauge of the row.
    pub fn take(&mut self) -> Gauge
        requires { 0 < gauge_count self.old }
        ensures count { gauge_count self.new + 1 ≡ gauge_count self.old }
        ensures room { HasRoom self.new }
        ensures ours { (water : TableId) → AreGaugesOf water self.old → (result.table_id ≡ water) × AreGaugesOf water self.new }
    {
        let Some(gauge) = self.gauges.pop() else {
            unreachable!()
        };
        gauge
    }

    /// Lays a gauge back into a row that lent one.
    pub fn lay_back(&mut self, gauge: Gauge)
        requires { HasRoom self.old }
        ensures count { gauge_count self.new ≡ gauge_count self.old + 1 }
        ensures ours { (water : TableId) → AreGaugesOf water self.old → gauge.table_id ≡ water → AreGaugesOf water self.new }
    {
        let Ok(()) = self.gauges.push(gauge) else {
            unreachable!()
        };
    }

    /// Raises the water to `height` or more by a gauge of the row, which is laid back. The answer is a gauge that knows it.
    pub fn raise(&mut self, water: &HighWater, height: u64) -> Gauge
        requires some { 0 < gauge_count self.old }
        requires ours { AreGaugesOf (water_id water.now) self.old }
        ensures count { gauge_count self.new ≡ gauge_count self.old }
        ensures ours { AreGaugesOf (water_id water.now) self.new }
        ensures raised { KnowsHeight (water_id water.now) height result }
    {
        let mut gauge = self.take();
        water.raise(&mut gauge, height);
        let receipt = water.copy(&mut gauge);
        self.lay_back(gauge);
        receipt
    }
}

/// The row has as many gauges as the key says, all of the key's water.
pub struct GaugesOfKey;

impl LockRule<GaugeRow, WaterKey> for GaugesOfKey {
    ghost use Rattle.keyed_lock.specs.GaugeRow.{AreGaugesOf, gauge_count};
    ghost use Rattle.keyed_lock.specs.WaterKey.{key_water};

    ghost keeps = { λ key row. AreGaugesOf (key_water key) row × (gauge_count row ≡ key.count) };
}

pub type RowLock = KeyedLock<GaugeRow, WaterKey, GaugesOfKey>;
