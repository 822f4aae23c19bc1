//! A worked example of a layer that keeps seats of a table under a lock.
//!
//! `HighWater` is a table whose one word only rises, and `Gauge` is a seat of it. They stand for a real layer's table, such as a clock with
//! its notes. A step with a gauge requires that the gauge belongs to *that* water, and contracts never lose which water that is:
//!
//! - `WaterKey` names a water and a number, for contracts only.
//! - `GaugeRow` is a row of gauges, and `RowLock` its lock: the gauges belong to the water that the lock's key names.
//! - `Station` owns a water and such a lock, whose key names that water. Its `raise` locks, calls and unlocks.
//! - `Pair` holds the rows of two waters at once, and keeps them apart.
//! - `Network` has rows, each under its own lock, in a list under one more lock.
//!
//! Every change is a method of the locked value, with its whole contract. So a function that takes a lock has nothing left to prove by
//! hand.

mod high_water;
mod key;
mod network;
mod pair;
mod row;
mod station;

pub use high_water::{Gauge, HighWater};
pub use key::WaterKey;
pub use network::Network;
pub use pair::Pair;
pub use row::{GaugeRow, GaugesOfKey, RowLock};
pub use station::Station;
