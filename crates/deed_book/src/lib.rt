//! Ownership tokens for numbers, and books of how calls ended.
//!
//! A [`Book`] knows which item numbers are outside their keg. Each such number has one [`Deed`], a token that can be neither copied nor
//! made up, and that may go to another thread. So no number is out twice. A deed names the number, the zone that it was issued to, and its
//! book's [`Origin`].
//!
//! A [`FailBook`] lists how each fetch or lookup ended, each end with its [`Cause`]: refusals, and also fetches that gave items. A
//! [`FailShare`] has the causes that its holder met. The book lists what its shares list, so no share can invent an end.
//!
//! ```
//! let mut book = Book::new(alloc, 64)?;       // the numbers 0 to 63, all at home
//! let deed = book.issue(5, 0);                // number 5 is outside, in zone 0
//! let (no, zone) = book.accept(deed);         // (5, 0): it is at home again
//! ```
//!
//! # What is promised
//!
//! - Each deed's number is outside, with the deed's zone, and no two deeds have one number (`no_number_is_out_twice`).
//! - A number that is accepted was outside with the deed's zone (`Book::accept`: `AcceptsDeed`).
//! - Each cause is in a fail book's list exactly as often as in the lists of its shares together (`shares_add_up_to_their_book`).
//!
//! The number of a dropped deed stays outside for good. Deeds and shares may be sent to other threads, but not shared by reference.
#![tactic(auto)]

mod book;
mod deed;
mod fail_book;

pub use book::{Book, no_number_is_out_twice};
pub use boxcar::tag::Names;
pub use deed::{BookRefused, Cause, Deed, Memory, Origin};
pub use fail_book::{FailBook, FailShare, shares_add_up_to_their_book};
