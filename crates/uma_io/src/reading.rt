ghost use Rattle.uma_io.specs.Faults.{CountsFault, PassesOrCounts, Rose};
ghost use Rattle.std.specs.Prelude.{ℕ, ◌≡◌, ◌+◌, ◌-◌, ◌<◌, ◌≤◌, vec_len, IfSome, IfOk, IfErr, IsErrOf, OnOk, OnErr};
ghost use Rattle.uma_io.specs.Source.{Exhausts, HasMoreThan};
ghost use Rattle.uma_io.specs.Reading.{AppendsTaken, EndsPiece, FaultsOrEnds, Loses};
ghost use Rattle.uma_io.specs.Sink.{Adds, AddsPart};

use crate::sink::Sink;
use crate::source::Source;
use std::alloc::{AllocError, Global};
use std::error::Error;
use std::{fmt, io};

/// A call of a source or a sink failed, and the object's count of faults rose.
#[derive(Debug, Clone, Copy, PartialEq, Eq)]
pub struct Failed;

impl fmt::Display for Failed {
    fn fmt<W: fmt::Write>(&self, f: &mut fmt::Formatter<W>) -> fmt::Result {
        write!(f, "a source or a sink failed")
    }
}

impl Error for Failed {}

/// The allocator had no room.
#[derive(Debug, Clone, Copy, PartialEq, Eq)]
pub struct Memory;

impl fmt::Display for Memory {
    fn fmt<W: fmt::Write>(&self, f: &mut fmt::Formatter<W>) -> fmt::Result {
        write!(f, "out of memory")
    }
}

impl Error for Memory {}

impl From<AllocError> for Memory {
    fn from(_: AllocError) -> Memory {
        Memory
    }
}

/// What an answer of the standard library becomes: each `Err` is a fault, and is counted, and an `Ok` is passed on.
pub fn counted(answer: io::Result<usize>, faults: &mut u64) -> Result<usize, Failed>
    ensures { PassesOrCounts answer faults.old result faults.new }
{
    match answer {
        Ok(taken) => Ok(taken),
        Err(_) => Err(fault(faults)),
    }
}

/// Counts a fault.
pub fn fault(faults: &mut u64) -> Failed
    ensures { CountsFault faults.old faults.new }
{
    *faults = faults.saturating_add(1);
    Failed
}

/// Why not all bytes were read.
#[derive(Debug, Clone, Copy, PartialEq, Eq)]
pub enum ReadRefused {
    /// The source failed.
    Fault,
    /// More than `most` bytes came.
    TooLong { most: u64 },
    /// The allocator had no room for the bytes.
    Memory,
}

impl fmt::Display for ReadRefused {
    fn fmt<W: fmt::Write>(&self, f: &mut fmt::Formatter<W>) -> fmt::Result {
        match self {
            ReadRefused::Fault => write!(f, "the source failed"),
            ReadRefused::TooLong { most } => write!(f, "more than {most} bytes"),
            ReadRefused::Memory => write!(f, "out of memory"),
        }
    }
}

impl Error for ReadRefused {}

impl From<Failed> for ReadRefused {
    ghost use Rattle.uma_io.specs.declared.reading.ReadRefused.TheVariants.{Fault};

    ghost from_gives = { λ _ refused. refused ≡ Fault };

    fn from(_: Failed) -> ReadRefused {
        ReadRefused::Fault
    }
}

impl From<AllocError> for ReadRefused {
    ghost use Rattle.uma_io.specs.declared.reading.ReadRefused.TheVariants.{Memory};

    ghost from_gives = { λ _ refused. refused ≡ Memory };

    fn from(_: AllocError) -> ReadRefused {
        ReadRefused::Memory
    }
}

// How many bytes are asked for at once.
const CHUNK: usize = 8192;

/// Reads to the end of the input, over short reads too, and answers all bytes that came.
///
/// At most `most + 1` bytes are taken, so that it returns for an input without an end. Bytes that were
/// taken before a refusal are lost.
pub fn read_all<S: Source>(alloc: Global, source: &mut S, most: u64) -> Result<Vec<u8>, ReadRefused>
    ensures all { IfOk result (λ bytes. IfSome (S.bytes_left source.old) (λ left. bytes.items ≡ left)) }
    ensures within { IfOk result (λ bytes. vec_len bytes ≤ most) }
    ensures end { OnOk result (Exhausts (S.bytes_left source.old) (S.bytes_left source.new)) }

    // A fault only where one was counted in this call. Too long only where more bytes were left: with
    // `all` and `within` exactly there, unless a fault or want of memory came first.
    ensures fault { IsErrOf result ReadRefused.Fault
        → Rose (S.fault_count source.old) (S.fault_count source.new) }
    ensures too_long { (named : ℕ) → IsErrOf result (ReadRefused.TooLong named)
        → (named ≡ most) × HasMoreThan most (S.bytes_left source.old) }
    ensures lost { IfErr result (λ refused. Loses most (S.bytes_left source.old) refused (S.bytes_left source.new)) }

    ensures never_falls { S.fault_count source.old ≤ S.fault_count source.new }
{
    let mut chunk = [0; CHUNK];
    let mut bytes = Vec::new(alloc);
    while append_piece(source, &mut chunk, &mut bytes, most)? > 0 {}
    Ok(bytes)
}

// One read, of no more than one byte past `most`, whose bytes are appended. Answers how many they are:
// 0 at the end of the input.
fn append_piece<S: Source>(
    source: &mut S,
    chunk: &mut [u8; CHUNK],
    bytes: &mut Vec<u8>,
    most: u64,
) -> Result<usize, ReadRefused>
    requires { vec_len bytes.old ≤ most }
    ensures appends { OnOk result (AppendsTaken (S.bytes_left source.old) bytes.old.items
        (S.bytes_left source.new) bytes.new.items) }
    ensures ends { IfOk result (λ n. EndsPiece most bytes.old n bytes.new (S.bytes_left source.new)) }
    ensures faults { FaultsOrEnds most (S.fault_count source.old) result (S.fault_count source.new) }
    ensures lost { IfErr result (λ refused. Loses (most - vec_len bytes.old) (S.bytes_left source.old) refused
        (S.bytes_left source.new)) }
{
    let free = most - bytes.len() as u64;
    let room = &mut chunk[..asked(free)];
    let taken = source.read(room)?;
    if taken as u64 > free {
        return Err(ReadRefused::TooLong { most });
    }
    bytes.extend_from_slice(&room[..taken])?;
    Ok(taken)
}

// How many bytes are asked for where `free` more may come: one more than that, up to a chunk.
fn asked(free: u64) -> usize
    ensures { (0 < result) × (result ≤ CHUNK) × (result ≤ free + 1) }
{
    if free < CHUNK as u64 {
        free as usize + 1
    } else {
        CHUNK
    }
}

/// The sink failed before it took all bytes.
#[derive(Debug, Clone, Copy, PartialEq, Eq)]
pub struct WriteFault;

impl fmt::Display for WriteFault {
    fn fmt<W: fmt::Write>(&self, f: &mut fmt::Formatter<W>) -> fmt::Result {
        write!(f, "the sink failed")
    }
}

impl Error for WriteFault {}

impl From<Failed> for WriteFault {
    fn from(_: Failed) -> WriteFault {
        WriteFault
    }
}

/// Writes all of `bytes`, in as many calls as the sink needs. It takes no memory.
pub fn write_all<K: Sink>(sink: &mut K, bytes: &[u8]) -> Result<(), WriteFault>
    ensures written { OnOk result (Adds (K.bytes_held sink.old) bytes.now (K.bytes_held sink.new)) }

    // The one refusal comes only from a fault in this call, before the last byte was taken.
    ensures rose { OnErr result (Rose (K.fault_count sink.old) (K.fault_count sink.new)) }
    ensures part { OnErr result (AddsPart (K.bytes_held sink.old) bytes.now (K.bytes_held sink.new)) }

    ensures never_falls { K.fault_count sink.old ≤ K.fault_count sink.new }
{
    let mut rest = bytes;
    while !rest.is_empty() {
        let taken = sink.write(rest)?;
        rest = &rest[taken..];
    }
    Ok(())
}
