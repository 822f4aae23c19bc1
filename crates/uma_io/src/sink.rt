ghost use Rattle.std.specs.Prelude.{ℕ, Option, ◌≡◌, List, [], IfOk, if◌then◌else◌, is_ok};
ghost use Rattle.uma_io.specs.Sink.{Writes};
ghost use Rattle.uma_io.specs.MemSink.{AreHeld, TakesOrFails};
ghost use Rattle.std.specs.Io.KnownBytes.{WriteAppends};
ghost use Rattle.uma_io.specs.Faults.{raised};

use crate::reading::{Failed, Memory, counted, fault};
use std::alloc::Global;
use std::io::Write;
use std::marker::Model;

/// Where bytes go. It counts its faults, and the count never falls.
pub trait Sink {
    // The bytes that it was given and took, in order, where the sink tells them.
    ghost bytes_held: { Self → Option (List ℕ) };

    // How many faults there were, up to the last value of a `u64`.
    ghost fault_count: { Self → ℕ };

    /// Takes a front of `piece`, and answers how many bytes: at least one, unless `piece` is empty. A
    /// sink that can take nothing fails. After `Failed` a further call may succeed.
    fn write(&mut self, piece: &[u8]) -> Result<usize, Failed>
        ensures { Writes (bytes_held self.old) (fault_count self.old) piece.now result (bytes_held self.new) (fault_count self.new) };

    /// The count of faults, from 0, which stands still at `u64::MAX`.
    fn faults(&self) -> u64
        ensures { result ≡ fault_count self.now };
}

/// A sink into memory, for tests: it has so much room, and fails where it is told to.
#[derive(Drop)]
pub struct MemSink {
    bytes: Vec<u8>,
    room: usize,
    failing: Vec<u64>,
    calls: u64,
    faults: u64,
}

impl Model for MemSink {
    ghost use Rattle.std.specs.Prelude.{◌≤◌, vec_len, vec_capacity};
    ghost use Rattle.uma_io.specs.MemSink.{MemSinkState};

    ghost Value = { MemSinkState };

    ghost view = { λ s. record {
      held = s.bytes.items;
      room = s.room;
      failing = s.failing.items;
      calls = s.calls;
      faults = s.faults;
    } };

    ghost invariant = { λ s. (vec_len s.bytes ≤ s.room) × (s.room ≤ vec_capacity s.bytes) };
}

impl MemSink {
    /// A sink with room for `room` bytes, all of which it takes from the allocator now. It fails in the
    /// calls of `write` whose numbers, from 1, are among `failing`, and where its room is used up.
    pub fn new(alloc: Global, room: usize, failing: Vec<u64>) -> Result<MemSink, Memory>
        ensures { IfOk result (λ sink. sink ≡ record {
          held = [];
          room = room;
          failing = failing.items;
          calls = 0;
          faults = 0;
        }) }
    {
        let bytes = Vec::with_capacity(alloc, room)?;
        Ok(MemSink {
            bytes,
            room,
            failing,
            calls: 0,
            faults: 0,
        })
    }

    /// The bytes that it holds.
    pub fn bytes(&self) -> &[u8]
        ensures { AreHeld self.now result.now }
    {
        self.bytes.as_slice()
    }
}

impl Sink for MemSink {
    ghost use Rattle.std.specs.Prelude.{Some};

    ghost bytes_held = { λ s. Some s.held };

    ghost fault_count = { λ s. s.faults };

    fn write(&mut self, piece: &[u8]) -> Result<usize, Failed>
        ensures sink { Writes (Some self.old.held) self.old.faults piece.now result (Some self.new.held) self.new.faults }
        ensures takes { TakesOrFails self.old piece.now result self.new }
    {
        self.calls = self.calls.saturating_add(1);
        let free = self.room - self.bytes.len();
        let is_full = free == 0 && !piece.is_empty();
        if is_full || self.failing.contains(&self.calls) {
            self.faults = self.faults.saturating_add(1);
            return Err(Failed);
        }
        let taken = piece.len().min(free);
        // The room was taken when the sink was made.
        self.bytes.extend_from_slice(&piece[..taken]).unwrap();
        Ok(taken)
    }

    fn faults(&self) -> u64 {
        self.faults
    }
}

/// A sink into a writer of the standard library. It tells nothing of its bytes.
///
/// Each `Err` of the writer is a fault, also one that only says that a signal interrupted the call, and
/// so is a write that takes nothing of a piece that isn't empty. It never flushes: give it a writer that
/// keeps nothing back.
#[derive(Drop)]
pub struct StdSink<W> {
    writer: W,
    faults: u64,
}

// Contracts see the writer and the count of faults.
impl<W> Model for StdSink<W> {
    ghost use Rattle.uma_io.specs.StdStream.{StdStream};

    ghost Value = { StdStream W };

    ghost view = { λ s. record { inner = s.writer; faults = s.faults } };
}

impl<W: Write> StdSink<W> {
    /// A sink into the writer, with no fault yet.
    pub fn new(writer: W) -> StdSink<W>
        ensures { result ≡ record { inner = writer; faults = 0 } }
    {
        StdSink { writer, faults: 0 }
    }
}

impl<W: Write> Sink for StdSink<W> {
    ghost use Rattle.std.specs.Prelude.{None};

    ghost bytes_held = { λ _. None };

    ghost fault_count = { λ s. s.faults };

    fn write(&mut self, piece: &[u8]) -> Result<usize, Failed>
        ensures sink { Writes None self.old.faults piece.now result None self.new.faults }

        // Exactly an `Err` of the writer, or a write that takes nothing, raises the count, by one.
        ensures counts { self.new.faults ≡ (if is_ok result then self.old.faults else raised self.old.faults) }

        // The answer is the writer's: what it is known to hold grows by what was taken, and by nothing where it failed.
        ensures writes { WriteAppends (W.contents self.old.inner) (W.contents self.new.inner) result piece.now }
    {
        match counted(self.writer.write(piece), &mut self.faults) {
            Ok(0) if !piece.is_empty() => Err(fault(&mut self.faults)),
            answer => answer,
        }
    }

    fn faults(&self) -> u64 {
        self.faults
    }
}
