//! The command line of umarun: what the words after the program's name ask for.
//!
//! ```
//! let command = command_in(alloc, &words)?;       // Usage, or want of memory
//! ```
//!
//! # What is promised
//!
//! - The command is that of the words, and `Usage` comes only if they are none (`command_in`: `command`, `usage`).
//! - The numbers of a command are in their ranges (`ranges`).
//!
//! `clap` takes the commands and their positional words, all as texts. There are no options: a word that begins with `-` is refused first.
#![tactic(auto)]

mod command;
mod grammar;
mod reading;
mod refused;

pub use command::Command;
pub use reading::command_in;
pub use refused::WordsRefused;
