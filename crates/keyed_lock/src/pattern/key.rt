use crate::pattern::high_water::HighWater;
use std::snapshot::Snapshot;

/// Which water the value under a lock is about, and how many things the value has.
///
/// The snapshot stands for the water itself: `Snapshot::of(&water)` ties them. The count is a plain number: two keys with
/// equal counts agree on the count alone.
#[derive(Drop)]
pub struct WaterKey {
    pub water: Snapshot<HighWater>,
    pub count: u64,
}
