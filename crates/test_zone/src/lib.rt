//! Tests of items, deeds, buckets, slabs, locks, lists and cache zones: what no contract says, such as worked rows at the edges and values
//! that cross threads, and the contracts of these crates met at types of a caller's own.
#![tactic(auto)]

#[cfg(test)]
mod body;
#[cfg(test)]
mod buckets;
#[cfg(test)]
mod caches;
#[cfg(test)]
mod clock;
#[cfg(test)]
mod deeds;
#[cfg(test)]
mod items;
#[cfg(test)]
mod lists;
#[cfg(test)]
mod lives;
#[cfg(test)]
mod locks;
#[cfg(test)]
mod logs;
#[cfg(test)]
mod places_of_slabs;
#[cfg(test)]
mod ports;
#[cfg(test)]
mod slabs;
#[cfg(test)]
mod stations;
