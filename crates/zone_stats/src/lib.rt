//! What the seats of a zone counted, one line a zone, and the table that a person reads, in the manner of `vmstat -z`.
//!
//! A [`SeatLedger`] counts one seat's requests, allocs, fails and frees. A [`Refusal`] says why a request got no item. [`sum`] makes a
//! [`ZoneLine`] of the ledgers of a zone's seats. A [`Report`] has the lines of zones, hooks, kegs, the clock and the name cache, and
//! [`table_text`] is its text.
//!
//! ```
//! seat.count_alloc();                                             // seat: SeatLedger
//! let line = sum(name, 256, 0, ledgers, out, keg_free);           // size 256, no limit
//! let text = table_text(alloc, &report)?;
//! ```
//!
//! # What is promised
//!
//! - A line has the sums of its seats' ledgers (`sum`: `zone_line`). USED and FREE stop at 0.
//! - A ledger's law holds after every call: each request is an alloc or a fail, and `cross <= frees` (`specs/Ledger`).
//! - The text is exactly `report_text` of the report (`table_text`: `text`), so every column is in a contract.
#![tactic(auto)]

pub use ledger::SeatLedger;
pub use name::ZoneName;
pub use refusal::{Memory, Refusal};
pub use report::{
    ClockLine, HookLine, HookLines, KegLine, KegLines, Ledgers, Lines, NamesLine, Report,
    ZoneLedgers, ZoneLine, sum,
};
pub use table::table_text;

mod ledger;
mod name;
mod refusal;
mod report;
mod table;
