//! The reclamation clock as plain data: its state, its steps, and the law that every step keeps.
//!
//! A clock reports when no reader can still see what was unlinked. The head of smr_clock says how, and why it is right. This crate defines
//! the clock for one thread: a [`Core`] takes one [`Step`] at a time, in any order, so a test or a schedule can play every interleaving.
//! smr_clock proves its running clock from the definitions and lemmas here.
//!
//! The words are the two *hands* (the write sequence and the read sequence), one word for each seat, and the presence word. A [`Holder`] is
//! a worker, a vacancy (the seat of a worker that is away) or a note. It records how far the worker is with its section ([`Phase`]) and
//! with an advance or poll ([`Task`]), and what it knows of the sequences. A [`Turn`] is a step or a whole operation.
//!
//! ```
//! let mut core = Core::new(alloc, 2, 101, 16)?;                   // two seats, both sequences at 101, a window of 16
//! let seen = core.apply(alloc, Step::EnterLoad { seat: 0 })?;     // Seen::Hand { value: 101 }
//! let seens = core.turn(alloc, Turn::Advance { seat: 1 })?;       // three steps; the last has Seen::Goal { goal: 103, moved: true }
//! ```
//!
//! # What is promised
//!
//! - Every state keeps the clock's law, `CoreLaw` (`Core::apply`: `law`; for every step from every such state, `laws::steps_keep_the_law`).
//!   `specs/ClockLaw` has its eight parts.
//! - Over every run neither hand falls, the window isn't exceeded, and the mark of each open section is at or above the read sequence
//!   (`laws::hands_and_marks_over_runs`).
//! - After a poll has said yes, no section is ever open that is before a goal which the poll was asked about and which was made before the
//!   poll's load (`laws::yes_over_runs`).
//! - From a state, a turn has one outcome, and only want of memory can refuse a turn that may be taken (`laws::turns_are_determined`).
//!
//! Not proved: that a poll ever says yes.
#![tactic(auto)]

mod clock_core;
pub mod hands;
mod holder;
pub mod laws;
mod steps;
mod turns;

pub use clock_core::{ClockConfig, Core, CoreRefused};
pub use holder::{Holder, Phase, Task};
pub use laws::replay;
pub use steps::Actor;
pub use turns::{FoundWord, Seen, Seens, Step, StepRefused, Turn};
