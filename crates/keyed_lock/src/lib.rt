//! A lock whose contract says which lock it is, and so what its value is about.
//!
//! Contracts know of the value in an ordinary mutex only what the type of the value says. They can't say 'each seat in this row belongs to
//! that table', because the table isn't part of the value. A [`KeyedLock`] has a *key*, which is given when the lock is made and never
//! changes. Its [`LockRule`] is a fact about a key and a value: the value keeps the rule for the lock's own key whenever nobody holds the
//! lock. A [`KeyedGuard`] has the value while the lock is held, and puts it back at every way out of its scope.
//!
//! ```
//! let lock = KeyedLock::<Row, Key, SeatsOfTable>::new(alloc, row, &key)?;     // Err(row): out of memory
//! let mut guard = lock.lock(rt);
//! guard.value.raise(table);                                                   // a method of Row that keeps the rule
//! ```
//!
//! The key is for contracts only: `new` takes a reference to it, and nothing of it is stored at run time. [`pattern`] is a worked example,
//! and `NOTES.md` gives the rules for building a layer on a lock.
//!
//! # What is promised
//!
//! - A caller that gets the lock finds a value that keeps the rule for the lock's key (`KeyedLock::lock`, `KeyedLock::try_lock`: `kept`).
//!   It has to prove the rule again when the guard is dropped (`KeyedGuard`: `drop`).
//! - One holder at a time has the value. The text at [`KeyedLock`] gives the law in five parts; parts 1 to 4 are proved.
//! - `into_inner` returns a value that keeps the rule.
//!
//! Not proved, but tested with threads: that a lock is ever released, that a sleeper is woken, and that `try_lock` succeeds if nobody holds
//! the lock. `lock` blocks, at first spinning. `into_inner` blocks for ever if a guard was forgotten (`mem::forget`).
#![tactic(auto)]

mod lock;
pub mod pattern;

pub use lock::{KeyedGuard, KeyedLock, LockRule};
