use crate::cache::EntryZone;
use name_rows::Names;
use smr_clock::Clock;
use std::snapshot::Snapshot;

/// Which row of which cache it is: the key of the row's lock. The snapshots stand for the clock of names, and for the zone
/// of the entries.
#[derive(Drop)]
pub struct RowKey {
    pub clock: Snapshot<Clock<Names>>,
    pub zone: Snapshot<EntryZone>,
    /// The row's number.
    pub number: u32,
    /// The version with which the cache got the row.
    pub version: u64,
}
