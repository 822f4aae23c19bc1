//! The rows and entries of name_cache, as words under the clock's law: a lookup is three loads, without a lock.
//!
//! A name is a key with a value, both numbers. A key's *row* is the key modulo the count of rows. The row's word has a *version* and at
//! most one *entry*; the entry has a key word and a value word. A reader in a section loads the row's word, then the entry's key and value.
//! A writer writes a *clean* entry, and *links* it by one store of the row's word. That *unlinks* the entry that was there. It is
//! *stamped*, two above the write sequence, and is clean again once the read sequence has reached the stamp.
//!
//! ```
//! let opened = make(alloc, 4, 1, 1 << 20, 64, 256, 0)?;   // four seats, both sequences at 1, a window; 64 rows, 256 entries, version 0
//! write(&clock, &mut entry, key, value);                  // entry is clean
//! let (version, old) = link(&clock, &mut row, entry);     // then: stamp(&clock, &mut old), and later ripe(&clock, &mut old)
//! let found = find(&clock, &mut pass, key);               // in a section
//! ```
//!
//! # What is promised
//!
//! - `find` returns the value that the row bound to the key at its first load (`find`: `finds`), never older than what the pass knew.
//! - An entry's words don't change under a reader that may still read them (`laws::held_words_stand`). Only a clean entry is written.
//! - `link` and `unlink` are one store each, and raise the row's version by one (`LinksEntry`, `UnlinksEntry`).
//! - `ripe` is refused only if the read sequence is below the entry's stamp (`ripe`: `unripe`).
//!
//! After `make`, no call allocates or blocks. name_cache puts these steps together.
#![tactic(auto)]

mod entry;
mod finding;
pub mod laws;
mod making;
mod names;
mod root;
mod row;
mod row_steps;
mod words;
mod writing;

pub use entry::{Entry, EntryState, Owned};
pub use finding::{find, meet};
pub use making::{NamesRefused, Opened, PassList, RowList, make};
pub use names::{Bound, Hold, Names, Part, Record, RowView};
pub use root::{Guest, Root};
pub use row::Row;
pub use row_steps::{link, unlink};
pub use words::Words;
pub use writing::{Unripe, lower, raise, ripe, stamp, write};
