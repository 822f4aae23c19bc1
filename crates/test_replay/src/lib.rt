//! Tests of the report, the streams, the schedules, the traces and the names: what no contract says, such as exact texts and worked rows.
#![tactic(auto)]

#[cfg(test)]
mod entries;
#[cfg(test)]
mod lines;
#[cfg(test)]
mod made_traces;
#[cfg(test)]
mod printed;
#[cfg(test)]
mod printing;
#[cfg(test)]
mod refusals;
#[cfg(test)]
mod rows;
#[cfg(test)]
mod schedule_prints;
#[cfg(test)]
mod schedules;
#[cfg(test)]
mod streams;
#[cfg(test)]
mod table_rows;
#[cfg(test)]
mod tables;
#[cfg(test)]
mod traces;
#[cfg(test)]
mod zone_names;
