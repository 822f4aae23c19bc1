//! Tests of sequences, of the clock as plain data, of the running clock and of retire lists: what no contract says, such as exact texts,
//! refusals, threads that run at the same time, and that a poll does say yes.
#![tactic(auto)]

#[cfg(test)]
mod core_steps;
#[cfg(test)]
mod running;
#[cfg(test)]
mod sequences;
