ghost use Rattle.std.specs.Prelude.{◌≡◌, ◌≤◌, IfSome, OnOk, IsErrOf, List, length};
ghost use Rattle.uma_io.specs.Faults.{Rose};
ghost use Rattle.uma_io.specs.Sink.{Adds, AddsPart};
ghost use Rattle.uma_io.specs.Source.{HasMoreThan};
ghost use Rattle.uma_io.specs.declared.reading.ReadRefused.{ReadRefused};
ghost use Rattle.uma_io.specs.declared.reading.WriteFault.{WriteFault};

use std::alloc::Global;
use std::io;
use std::io::{ErrorKind, Read, Write};
use std::test::Fail;
use uma_io::{
    Failed, MemSink, MemSource, ReadRefused, Sink, Source, StdSink, StdSource, WriteFault,
    read_all, write_all,
};

const INPUT: &[u8] = b"abcde";

#[derive(Debug, Clone, Copy, PartialEq, Eq)]
enum CopyRefused {
    Read(ReadRefused),
    Write(WriteFault),
}

// What a program does with its input and its output, proved from the two traits alone.
fn copy_all<S: Source, K: Sink>(
    alloc: Global,
    source: &mut S,
    sink: &mut K,
    most: u64,
) -> Result<(), CopyRefused>
    ensures copied { OnOk result (IfSome (S.bytes_left source.old)
        (λ left. (length left ≤ most) × Adds (K.bytes_held sink.old) left (K.bytes_held sink.new))) }
    ensures read_fault { IsErrOf result (CopyRefused.Read ReadRefused.Fault)
        → Rose (S.fault_count source.old) (S.fault_count source.new) }
    ensures too_long { IsErrOf result (CopyRefused.Read (ReadRefused.TooLong most))
        → HasMoreThan most (S.bytes_left source.old) }
    ensures unwritten { (refused : ReadRefused) → IsErrOf result (CopyRefused.Read refused)
        → K.bytes_held sink.new ≡ K.bytes_held sink.old }
    ensures write_fault { (fault : WriteFault) → IsErrOf result (CopyRefused.Write fault)
        → Rose (K.fault_count sink.old) (K.fault_count sink.new) }
    ensures part_written { (fault : WriteFault) → IsErrOf result (CopyRefused.Write fault)
        → IfSome (S.bytes_left source.old)
        (λ left. AddsPart (K.bytes_held sink.old) left (K.bytes_held sink.new)) }
{
    let bytes = match read_all(alloc, source, most) {
        Ok(bytes) => bytes,
        Err(refused) => return Err(CopyRefused::Read(refused)),
    };
    match write_all(sink, bytes.as_slice()) {
        Ok(()) => Ok(()),
        Err(fault) => Err(CopyRefused::Write(fault)),
    }
}

#[test]
fn all_bytes_are_copied_over_short_reads_and_writes(rt: HostRuntime) -> Result<(), Fail> {
    let bytes = INPUT.to_vec(rt.alloc())?;
    let mut source = MemSource::new(bytes, 2, Vec::new(rt.alloc()));
    let mut sink = MemSink::new(rt.alloc(), 5, Vec::new(rt.alloc()))?;
    assert_eq!(rt; copy_all(rt.alloc(), &mut source, &mut sink, 5), Ok(()));
    assert_eq!(rt; sink.bytes(), INPUT);
    Ok(())
}

// The most bytes of a call, the calls that fail, the most bytes in all; the refusal, and how many bytes
// were taken.
type ReadRow = (usize, &'static [u64], u64, Option<ReadRefused>, usize);

#[test]
fn a_fault_or_one_byte_too_many_ends_the_reading_and_the_rest_stays(
    rt: HostRuntime,
) -> Result<(), Fail> {
    let rows: [ReadRow; 10] = [
        (1, &[], 5, None, 5),
        (2, &[], 5, None, 5),
        (9, &[], u64::MAX, None, 5),
        (2, &[6], 5, None, 5),
        (2, &[], 4, Some(ReadRefused::TooLong { most: 4 }), 5),
        (9, &[], 3, Some(ReadRefused::TooLong { most: 3 }), 4),
        (9, &[], 0, Some(ReadRefused::TooLong { most: 0 }), 1),
        (2, &[1], 5, Some(ReadRefused::Fault), 0),
        (2, &[2], 5, Some(ReadRefused::Fault), 2),
        (2, &[4], 5, Some(ReadRefused::Fault), 5),
    ];
    for (each, failing, most, refused, taken) in rows {
        let bytes = INPUT.to_vec(rt.alloc())?;
        let mut source = MemSource::new(bytes, each.max(1), failing.to_vec(rt.alloc())?);
        match read_all(rt.alloc(), &mut source, most) {
            Ok(bytes) => assert_eq!(rt; bytes.as_slice(), INPUT),
            Err(found) => assert_eq!(rt; Some(found), refused),
        }
        let is_fault = refused == Some(ReadRefused::Fault);
        assert_eq!(rt; source.faults(), u64::from(is_fault));
        let rest = read_all(rt.alloc(), &mut source, 5)?;
        assert_eq!(rt; rest.as_slice(), &INPUT[taken.min(5)..]);
    }
    Ok(())
}

// The room, the calls that fail; how many bytes are held, and how many faults there were.
type WriteRow = (usize, &'static [u64], usize, u64);

#[test]
fn a_fault_or_a_full_sink_ends_the_writing_after_a_front(rt: HostRuntime) -> Result<(), Fail> {
    let rows: [WriteRow; 5] = [
        (5, &[], 5, 0),
        (9, &[2], 5, 0),
        (4, &[], 4, 1),
        (0, &[], 0, 1),
        (9, &[1], 0, 1),
    ];
    for (room, failing, held, faults) in rows {
        let mut sink = MemSink::new(rt.alloc(), room, failing.to_vec(rt.alloc())?)?;
        assert_eq!(rt; write_all(&mut sink, INPUT).is_ok(), faults == 0);
        assert_eq!(rt; sink.bytes(), &INPUT[..held.min(5)]);
        assert_eq!(rt; sink.faults(), faults);
    }
    Ok(())
}

// Gives up to two bytes a call, and fails in its second call.
#[derive(Drop)]
struct ShortReader {
    rest: &'static [u8],
    calls: u64,
}

impl Read for ShortReader {
    fn read(&mut self, buf: &mut [u8]) -> io::Result<usize> {
        self.calls = self.calls.saturating_add(1);
        if self.calls == 2 {
            return Err(io::Error::from(ErrorKind::Interrupted));
        }
        let most = buf.len().min(2);
        self.rest.read(&mut buf[..most])
    }
}

#[test]
fn each_error_of_a_reader_is_a_fault(rt: HostRuntime) -> Result<(), Fail> {
    let mut source = StdSource::new(ShortReader {
        rest: INPUT,
        calls: 0,
    });
    let mut room = [0; 4];
    assert_eq!(rt; source.read(&mut room), Ok(2));
    assert_eq!(rt; room, *b"ab\0\0");
    assert_eq!(rt;
        read_all(rt.alloc(), &mut source, 5).err(),
        Some(ReadRefused::Fault)
    );
    assert_eq!(rt; source.faults(), 1);
    let rest = read_all(rt.alloc(), &mut source, 3)?;
    assert_eq!(rt; rest.as_slice(), b"cde".as_slice());
    assert_eq!(rt; source.faults(), 1);
    Ok(())
}

// Takes up to two bytes a call, fails in its second call and takes nothing in its third.
#[derive(Drop)]
struct ShortWriter {
    held: Vec<u8>,
    calls: u64,
}

impl Write for ShortWriter {
    fn write(&mut self, buf: &[u8]) -> io::Result<usize> {
        self.calls = self.calls.saturating_add(1);
        match self.calls {
            2 => Err(io::Error::from(ErrorKind::Interrupted)),
            3 => Ok(0),
            _ => self.held.write(&buf[..buf.len().min(2)]),
        }
    }

    fn flush(&mut self) -> io::Result<()> {
        Ok(())
    }
}

#[test]
fn each_error_of_a_writer_is_a_fault_and_so_is_taking_nothing(rt: HostRuntime) -> Result<(), Fail> {
    let mut writer = ShortWriter {
        held: Vec::new(rt.alloc()),
        calls: 0,
    };
    let mut sink = StdSink::new(&mut writer);
    assert_eq!(rt; write_all(&mut sink, INPUT), Err(WriteFault));
    assert_eq!(rt; sink.faults(), 1);
    assert_eq!(rt; sink.write(b"cde"), Err(Failed));
    assert_eq!(rt; sink.faults(), 2);
    assert_eq!(rt; write_all(&mut sink, b"cde"), Ok(()));
    assert_eq!(rt; sink.faults(), 2);
    assert_eq!(rt; writer.held.as_slice(), INPUT);
    Ok(())
}
