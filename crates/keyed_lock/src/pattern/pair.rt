ghost use Rattle.std.specs.Prelude.{◌≡◌, ◌<◌, IfOk};
ghost use Rattle.keyed_lock.specs.HighWater.{KnowsHeight};
ghost use Rattle.keyed_lock.specs.Station.{station_water, station_count};

use crate::pattern::high_water::Gauge;
use crate::pattern::station::Station;
use std::alloc::{AllocError, Global};
use std::sync::Wait;

/// Two stations. Their rows have one Rust type, and their keys tell them apart.
#[derive(Drop)]
pub struct Pair {
    pub upper: Station,
    pub lower: Station,
}

impl Pair {
    /// Two stations, with a row of `count` gauges each.
    pub fn new(alloc: Global, count: u64) -> Result<Pair, AllocError>
        requires { 0 < count }
        ensures upper { IfOk result (λ pair. station_count pair.upper ≡ count) }
        ensures lower { IfOk result (λ pair. station_count pair.lower ≡ count) }
    {
        let upper = Station::new(alloc, count)?;
        let lower = Station::new(alloc, count)?;
        Ok(Pair { upper, lower })
    }

    /// Raises both waters to `height` or more, with both rows held. Waits for the upper row first, and then for the lower.
    ///
    /// In between each row lacks a gauge, and breaks its rule. When the guards go, each gauge has to be back in its own row.
    pub fn raise_both<R: Wait>(&self, rt: &R, height: u64) -> (Gauge, Gauge)
        ensures upper { KnowsHeight (station_water self.now.upper) height result.0 }
        ensures lower { KnowsHeight (station_water self.now.lower) height result.1 }
    {
        let mut upper_row = self.upper.row.lock(rt);
        let mut lower_row = self.lower.row.lock(rt);
        let mut upper_gauge = upper_row.value.take();
        let mut lower_gauge = lower_row.value.take();
        self.upper.water.raise(&mut upper_gauge, height);
        self.lower.water.raise(&mut lower_gauge, height);
        let upper = self.upper.water.copy(&mut upper_gauge);
        let lower = self.lower.water.copy(&mut lower_gauge);
        upper_row.value.lay_back(upper_gauge);
        lower_row.value.lay_back(lower_gauge);
        (upper, lower)
    }
}
