ghost use Rattle.std.specs.Prelude.{ℕ, Option, ◌≡◌, List, ◌≤◌, if◌then◌else◌, is_ok};
ghost use Rattle.uma_io.specs.Source.{Reads};
ghost use Rattle.uma_io.specs.MemSource.{CopiesFront, GivesOrFails};
ghost use Rattle.std.specs.Io.KnownBytes.{ReadConsumes};
ghost use Rattle.uma_io.specs.Faults.{raised};

use crate::reading::{Failed, counted};
use std::io::Read;
use std::marker::Model;

/// Where bytes come from. It counts its faults, and the count never falls.
pub trait Source {
    // The bytes that reads will still give, in order, where the source tells them.
    ghost bytes_left: { Self → Option (List ℕ) };

    // How many faults there were, up to the last value of a `u64`.
    ghost fault_count: { Self → ℕ };

    /// Puts the next bytes at the front of `room`, and answers how many: fewer than there is room for,
    /// if it likes, but 0 only at the end of the input or where `room` is empty. What stands in `room`
    /// after them is of no meaning. After `Failed` a further call may succeed.
    fn read(&mut self, room: &mut [u8]) -> Result<usize, Failed>
        ensures { Reads (bytes_left self.old) (fault_count self.old) result room.new (bytes_left self.new) (fault_count self.new) };

    /// The count of faults, from 0, which stands still at `u64::MAX`.
    fn faults(&self) -> u64
        ensures { result ≡ fault_count self.now };
}

/// A source over bytes in memory, for tests: it gives few bytes at a time and fails where it is told to.
#[derive(Drop)]
pub struct MemSource {
    bytes: Vec<u8>,
    given: usize,
    each: usize,
    failing: Vec<u64>,
    calls: u64,
    faults: u64,
}

impl Model for MemSource {
    ghost use Rattle.std.specs.Prelude.{◌≤◌, drop, vec_len};
    ghost use Rattle.uma_io.specs.MemSource.{MemSourceState};

    ghost Value = { MemSourceState };

    ghost view = { λ s. record {
      left = drop s.given s.bytes.items;
      each = s.each;
      failing = s.failing.items;
      calls = s.calls;
      faults = s.faults;
    } };

    ghost invariant = { λ s. (s.given ≤ vec_len s.bytes) × (1 ≤ s.each) };
}

impl MemSource {
    /// A source of `bytes` that gives at most `each` of them in a call, and fails in the calls of `read`
    /// whose numbers, from 1, are among `failing`. It takes no memory.
    pub fn new(bytes: Vec<u8>, each: usize, failing: Vec<u64>) -> MemSource
        requires { 1 ≤ each }
        ensures { result ≡ record {
          left = bytes.items;
          each = each;
          failing = failing.items;
          calls = 0;
          faults = 0;
        } }
    {
        MemSource {
            bytes,
            given: 0,
            each,
            failing,
            calls: 0,
            faults: 0,
        }
    }
}

impl Source for MemSource {
    ghost use Rattle.std.specs.Prelude.{Some};

    ghost bytes_left = { λ s. Some s.left };

    ghost fault_count = { λ s. s.faults };

    fn read(&mut self, room: &mut [u8]) -> Result<usize, Failed>
        ensures source { Reads (Some self.old.left) self.old.faults result room.new (Some self.new.left) self.new.faults }
        ensures gives { GivesOrFails self.old result room.new self.new }
    {
        self.calls = self.calls.saturating_add(1);
        if self.failing.contains(&self.calls) {
            self.faults = self.faults.saturating_add(1);
            return Err(Failed);
        }
        let rest = &self.bytes.as_slice()[self.given..];
        let given = copy_front(rest, room, self.each);
        self.given += given;
        Ok(given)
    }

    fn faults(&self) -> u64 {
        self.faults
    }
}

// Copies as many bytes as both have from the front of one to the front of the other, up to `most`.
fn copy_front(from: &[u8], to: &mut [u8], most: usize) -> usize
    ensures { CopiesFront from.now to.old most result to.new }
{
    let count = to.len().min(most).min(from.len());
    to[..count].copy_from_slice(&from[..count]);
    count
}

/// A source over a reader of the standard library. It tells nothing of its bytes.
///
/// Each `Err` of the reader is a fault, also one that only says that a signal interrupted the call.
#[derive(Drop)]
pub struct StdSource<R> {
    reader: R,
    faults: u64,
}

// Contracts see the reader and the count of faults.
impl<R> Model for StdSource<R> {
    ghost use Rattle.uma_io.specs.StdStream.{StdStream};

    ghost Value = { StdStream R };

    ghost view = { λ s. record { inner = s.reader; faults = s.faults } };
}

impl<R: Read> StdSource<R> {
    /// A source of what the reader gives from here on, with no fault yet.
    pub fn new(reader: R) -> StdSource<R>
        ensures { result ≡ record { inner = reader; faults = 0 } }
    {
        StdSource { reader, faults: 0 }
    }
}

impl<R: Read> Source for StdSource<R> {
    ghost use Rattle.std.specs.Prelude.{None};

    ghost bytes_left = { λ _. None };

    ghost fault_count = { λ s. s.faults };

    fn read(&mut self, room: &mut [u8]) -> Result<usize, Failed>
        ensures source { Reads None self.old.faults result room.new None self.new.faults }

        // Exactly an `Err` of the reader raises the count, by one.
        ensures counts { self.new.faults ≡ (if is_ok result then self.old.faults else raised self.old.faults) }

        // The answer is the reader's: bytes that it is known to have are given where it gave them, and kept where it failed;
        // the end is answered only where it is at its end.
        ensures reads { ReadConsumes (R.remaining self.old.inner) (R.remaining self.new.inner) result room.new }
    {
        counted(self.reader.read(room), &mut self.faults)
    }

    fn faults(&self) -> u64 {
        self.faults
    }
}
