//! The running clock of safe memory reclamation, FreeBSD's smr(9): it reports when no reader can still see what was unlinked.
//!
//! Threads enter and leave read-side critical sections (*sections*), advance the clock and poll it at the same time, without a lock. Each
//! step is one atomic step on a word. A [`Pass`] is a thread's handle (crossbeam's `LocalHandle`): it enters sections, and advances. A
//! [`Vacancy`] keeps its seat while the worker is away. A [`Note`] is a copy of what a pass knows, and polls.
//!
//! ```
//! let (clock, passes) = Clock::new(alloc, 4, 1, 1 << 20)?;    // four seats, both sequences at 1, a window of 2^20
//! clock.enter(&mut pass)?;                                    // Overtaken: it lost a race with the clock
//! clock.exit(&mut pass);
//! let goal = clock.advance(&mut pass)?;                       // by the thread that has unlinked something
//! let mut note = clock.note(&mut pass);
//! let over = clock.poll(&mut note, &goal);                    // true: no section that can see it is open, nor ever will be
//! ```
//!
//! - **Words.** The *write sequence* (`wr_seq`) is the clock's time, and the *read sequence* (`rd_seq`) follows it. Both are odd and never fall,
//!   and the write sequence is above the read sequence by at most the *window*, which is at most 2^30. A seat's word is 0 outside a section, and
//!   otherwise the low half of the write sequence that the enter loaded. The presence word has a bit for each seat that has a worker.
//! - **Enter** loads the write sequence, stores its low half in the seat's word, and loads the write sequence again: this is the section's *mark*.
//!   If the hand moved by the window or more in between, the enter is late. It clears the word and fails. An exit stores 0.
//! - **Advance** loads the read sequence, then the write sequence. The *goal* is two above the latter. The advance is refused if the goal is above
//!   the read sequence by more than the window, or out of range. Otherwise it compare-exchanges the write sequence to the goal, once. A section is
//!   *before* the goal if its mark is below it; any other was entered after the unlinking. A goal is *expired* once the read sequence is at it.
//! - **Poll** loads the read sequence r, the write sequence l, the presence word, and the word of each present seat. The least mark begins as l. A
//!   word's *reading* is the number up to l, and less than 2^31 below it, that has this low half. A word that isn't 0 and has a reading
//!   lowers the least mark to it, but not below r. The poll then compare-exchanges the read sequence from r to the least mark, once, and says
//!   yes if the goal is at most the read sequence that this leaves.
//!
//! # Why it is right
//!
//! The law: *the read sequence is at most the mark of every open section*. An enter makes the write sequence its mark, which isn't below the read
//! hand. Only a poll moves the read sequence, and its least mark is at most the mark m of each open section. If m is above l, this is clear,
//! because the least mark is at most l. Otherwise m is at most l. If the section was open when its word was loaded, then l is above m by at
//! most the window, and m is above what the enter loaded by less than the window. So the word is read exactly, as a number up to m, and r
//! is at most m too. If the section was entered later, m is the write sequence of that time, at least l. The same is true if its seat isn't in
//! the presence word, which was loaded after l: a seat without a worker has no open section.
//!
//! # What is promised
//!
//! - The law holds at every moment of every interleaving (`laws::every_rule_has_the_law`), and no step lowers a hand
//!   (`laws::no_step_lowers_a_hand`).
//! - After a yes no section is ever open that is before the goal (`Clock::poll`; `laws::no_section_is_before_a_known_goal`). A no promises
//!   nothing.
//! - An advance is refused only for want of room, and a poll that found no section says no only if another poll moved the read sequence
//!   (`laws::refusals_have_their_cause`).
//!
//! Not proved: that a poll ever says yes. No call blocks.
#![tactic(auto)]

mod clock;
mod host;
pub mod laws;
mod making;
mod pass;
mod polls;
mod sections;
mod view;

pub use clock::{Clock, Memory, Setup};
pub use host::{Bare, Host, HostAct, HostJoin, HostPlay, HostSeat, HostSplit, Ruled};
pub use making::ClockRefused;
pub use pass::{Goal, Note, Pass, Vacancy};
pub use polls::{AdvanceRefused, Overtaken};
pub use view::{LastPoll, Remembers, View};
