//! Reading and writing all bytes of a stream, with faults of the stream told apart from one's own refusals.
//!
//! A [`Source`] gives bytes and a [`Sink`] takes them. Each counts its *faults*, the calls that failed. A caller sees by the count that a
//! failure came from the stream, in this very call. Contracts also know which bytes a source has left and which a sink holds, where the
//! object can tell: [`MemSource`] and [`MemSink`] can, a file can't.
//!
//! ```
//! let mut source = StdSource::new(reader);
//! let bytes = read_all(alloc, &mut source, 1 << 20)?;     // refused as `TooLong` above 1 MiB
//! write_all(&mut StdSink::new(writer), bytes.as_slice())?;
//! ```
//!
//! # What is promised
//!
//! - `read_all` returns all bytes that were left, at most `most` (`all`, `within`, `end`). It fails with `Fault` only if a fault was
//!   counted in the call, and with `TooLong` only if more bytes were left (`fault`, `too_long`).
//! - `write_all` adds all bytes to the sink (`written`). If it fails, a fault was counted and only a part was added (`rose`, `part`).
//! - A count of faults never falls (`never_falls`). It stays at 2^64 - 1 once it is there, and `Rose` includes that case.
//!
//! `StdSink` never flushes, so give it a writer that keeps nothing back.
#![tactic(auto)]

mod reading;
mod sink;
mod source;

pub use reading::{Failed, Memory, ReadRefused, WriteFault, read_all, write_all};
pub use sink::{MemSink, Sink, StdSink};
pub use source::{MemSource, Source, StdSource};
