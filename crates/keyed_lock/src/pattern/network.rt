ghost use Rattle.std.specs.Prelude.{◌≡◌, ◌<◌, IfOk};
ghost use Rattle.keyed_lock.specs.KeyedLock.{lock_key};
ghost use Rattle.keyed_lock.specs.HighWater.{water_id, KnowsHeight};
ghost use Rattle.keyed_lock.specs.WaterKey.{key_water};

use crate::pattern::high_water::{Gauge, HighWater};
use crate::pattern::key::WaterKey;
use crate::pattern::row::{GaugeRow, RowLock};
use crate::{KeyedLock, LockRule};
use std::alloc::{AllocError, Global};
use std::snapshot::Snapshot;
use std::sync::Wait;

/// Rows of gauges, each under a lock of its own.
#[derive(Drop)]
struct RowList {
    rows: Vec<RowLock>,
}

impl RowList {
    ghost use Rattle.keyed_lock.specs.RowList.{AreRowsOf, row_count};

    fn new(alloc: Global, water: &HighWater, rows: u64, gauges: u64) -> Result<RowList, AllocError>
        requires { 0 < gauges }
        ensures ours { IfOk result (λ list. AreRowsOf (water_id water.now) list) }
        ensures count { IfOk result (λ list. row_count list ≡ rows) }
    {
        let key = WaterKey {
            water: Snapshot::of(water),
            count: gauges,
        };
        let mut list = Vec::new(alloc);
        for _ in 0..rows {
            let row = GaugeRow::new(alloc, water, gauges)?;
            let lock = RowLock::new(alloc, row, &key).map_err(|_row| AllocError)?;
            list.push(lock)?;
        }
        Ok(RowList { rows: list })
    }

    /// Raises the water by a gauge of one of the rows.
    fn raise<R: Wait>(&self, rt: &R, water: &HighWater, row: usize, height: u64) -> Gauge
        requires ours { AreRowsOf (water_id water.now) self.now }
        requires row { row < row_count self.now }
        ensures { KnowsHeight (water_id water.now) height result }
    {
        let mut guard = self.rows[row].lock(rt);
        guard.value.raise(water, height)
    }
}

/// There are as many rows as the key says, each under a lock whose key names the same water.
struct RowsOfKey;

impl LockRule<RowList, WaterKey> for RowsOfKey {
    ghost use Rattle.keyed_lock.specs.RowList.{AreRowsOf, row_count};
    ghost use Rattle.keyed_lock.specs.WaterKey.{key_water};

    ghost keeps = { λ key list. AreRowsOf (key_water key) list × (row_count list ≡ key.count) };
}

/// A water, and rows of its gauges: locks under one more lock.
#[derive(Drop)]
pub struct Network {
    water: HighWater,
    rows: KeyedLock<RowList, WaterKey, RowsOfKey>,
    ghost same_water: { key_water (lock_key rows) ≡ water_id water },
}

impl Network {
    ghost use Rattle.keyed_lock.specs.Network.{network_water, network_rows};

    /// A network of `rows` rows with `gauges` gauges each.
    pub fn new(alloc: Global, rows: u64, gauges: u64) -> Result<Network, AllocError>
        requires { 0 < gauges }
        ensures { IfOk result (λ network. network_rows network ≡ rows) }
    {
        let water = HighWater::new(alloc)?;
        let list = RowList::new(alloc, &water, rows, gauges)?;
        let key = WaterKey {
            water: Snapshot::of(&water),
            count: rows,
        };
        let rows = KeyedLock::new(alloc, list, &key).map_err(|_list| AllocError)?;
        Ok(Network { water, rows })
    }

    /// The water of the gauges that `raise` answers.
    pub fn water(&self) -> &HighWater
        ensures { water_id result.now ≡ network_water self.now }
    {
        &self.water
    }

    /// Raises the water to `height` or more by a gauge of one of the rows. Waits until it has the list, and then until it
    /// has the row, so it holds both locks at once.
    pub fn raise<R: Wait>(&self, rt: &R, row: usize, height: u64) -> Gauge
        requires { row < network_rows self.now }
        ensures { KnowsHeight (network_water self.now) height result }
    {
        let guard = self.rows.lock(rt);
        guard.value.raise(rt, &self.water, row, height)
    }
}
