//! Sinks that take few bytes at a time, or fail.

use report::{Listed, NoRows, ThreadStatus, write_journal, write_report, write_run};
use semantics::{Entry, EntryKind, ObjectId, Printed};
use sinks::{Sink, SinkFailed, StdSink};
use std::alloc::{AllocError, Global};
use std::io;
use std::io::{ErrorKind, Write};
use std::test::Fail;

/// A sink that takes one byte a call, and fails after `room` bytes.
#[derive(Drop)]
struct Slow {
    taken: Vec<u8>,
    room: usize,
    failures: u64,
}

impl Sink for Slow {
    ghost use Rattle.std.specs.Prelude.{None};

    ghost written = { λ s. record { bytes = None; waiting = 0; failures = s.failures } };

    fn put(&mut self, bytes: &[u8]) -> Result<usize, SinkFailed> {
        if bytes.is_empty() {
            return Ok(0);
        }
        if self.taken.len() >= self.room || self.taken.push(bytes[0]).is_err() {
            self.failures += 1;
            return Err(SinkFailed);
        }
        Ok(1)
    }

    fn flush(&mut self) -> Result<(), SinkFailed> {
        Ok(())
    }
}

/// A writer that takes `step` bytes a call, and fails after `room` bytes.
#[derive(Drop)]
struct Narrow {
    taken: Vec<u8>,
    step: usize,
    room: usize,
}

impl Write for Narrow {
    fn write(&mut self, bytes: &[u8]) -> io::Result<usize> {
        if self.taken.len() >= self.room {
            return Err(io::Error::from(ErrorKind::StorageFull));
        }
        let room = self.room - self.taken.len();
        let most = bytes.len().min(self.step).min(room);
        self.taken.extend_from_slice(&bytes[..most])?;
        Ok(most)
    }

    fn flush(&mut self) -> io::Result<()> {
        Ok(())
    }
}

/// A writer that keeps what it takes until it is flushed, and can fail then.
#[derive(Drop)]
struct Keeping {
    kept: Vec<u8>,
    taken: Vec<u8>,
    fails: bool,
}

impl Write for Keeping {
    fn write(&mut self, bytes: &[u8]) -> io::Result<usize> {
        self.kept.extend_from_slice(bytes)?;
        Ok(bytes.len())
    }

    fn flush(&mut self) -> io::Result<()> {
        if self.fails {
            return Err(io::Error::from(ErrorKind::StorageFull));
        }
        self.taken.extend_from_slice(self.kept.as_slice())?;
        self.kept.clear();
        Ok(())
    }
}

/// A writer that has taken nothing.
fn keeping_writer(rt: &impl AllocGlobal, fails: bool) -> Keeping {
    Keeping {
        kept: Vec::new(rt.alloc()),
        taken: Vec::new(rt.alloc()),
        fails,
    }
}

const PRINTED: [Printed; 2] = [
    Printed {
        thread: 1,
        number: i32::MIN,
    },
    Printed {
        thread: 1,
        number: 0,
    },
];

const STANDINGS: [ThreadStatus; 4] = [
    ThreadStatus::Trapped { trap: 3, line: 7 },
    ThreadStatus::Running,
    ThreadStatus::Blocked,
    ThreadStatus::Ended,
];

/// A step of a thread, whose allocation is refused or not.
fn step(thread: u8, refused: bool) -> Entry {
    Entry::new(EntryKind::Step { thread, refused })
}

/// A clearing of the weak references to the objects of these names.
fn clearing(alloc: Global, numbers: &[usize]) -> Result<Entry, AllocError> {
    let mut names = Vec::new(alloc);
    for number in numbers {
        names.push(ObjectId { number: *number })?;
    }
    Ok(Entry::new(EntryKind::Clearing(names)))
}

fn entries(alloc: Global) -> Result<Vec<Entry>, AllocError> {
    let mut entries = Vec::new(alloc);
    entries.push(step(1, false))?;
    entries.push(clearing(alloc, &[46])?)?;
    entries.push(step(1, true))?;
    entries.push(clearing(alloc, &[47, 50, 4294967295])?)?;
    entries.push(step(10, false))?;
    entries.push(step(255, true))?;
    Ok(entries)
}

const REPORT: &[u8] = b"T1 -2147483648\nT1 0\nT1 trap 3 line 7\nT2 running\nT3 blocked\nT4 ended\n";

const TEXT: &[u8] =
    b"T1 -2147483648\nT1 0\nT1 trap 3 line 7\nT2 running\nT3 blocked\nT4 ended\njournal 1 ~46 1! ~47,50,4294967295 10 255!\n";

#[test]
fn byte_by_byte(rt: HostRuntime) -> Result<(), Fail> {
    let mut sink = Slow {
        taken: Vec::new(rt.alloc()),
        room: 1000,
        failures: 0,
    };
    let entries = entries(rt.alloc())?;
    write_run(&mut sink, &PRINTED, &STANDINGS, &NoRows, &Listed(&entries))?;
    assert!(rt; sink.taken.as_slice() == TEXT);
    Ok(())
}

#[test]
fn a_failing_sink_has_a_beginning(rt: HostRuntime) -> Result<(), Fail> {
    let entries = entries(rt.alloc())?;
    for room in 0..TEXT.len() {
        let mut sink = Slow {
            taken: Vec::new(rt.alloc()),
            room,
            failures: 0,
        };
        let failed = write_run(
            &mut sink,
            &PRINTED,
            &STANDINGS,
            &NoRows,
            &Listed(&entries),
        ).is_err();
        assert!(rt; failed && sink.failures == 1 && sink.taken.as_slice() == &TEXT[..room]);
    }
    Ok(())
}

/// Writes the report and then the journal, where the sink hasn't failed.
fn write_text<W: Write>(sink: &mut StdSink<W>, entries: &[Entry]) -> Result<(), SinkFailed> {
    if sink.failures() > 0 {
        return Err(SinkFailed);
    }
    write_report(sink, &PRINTED, &STANDINGS, &NoRows)?;
    write_journal(sink, &Listed(entries))?;
    sink.flush()
}

#[test]
fn through_a_writer(rt: HostRuntime) -> Result<(), Fail> {
    let entries = entries(rt.alloc())?;
    for step in [1, 7, 1000] {
        let taken = Vec::new(rt.alloc());
        let mut sink = StdSink::new(Narrow {
            taken,
            step,
            room: 1000,
        });
        write_text(&mut sink, &entries)?;
        assert!(rt; sink.into_inner().taken.as_slice() == TEXT);
    }
    Ok(())
}

#[test]
fn a_failing_writer_has_a_beginning(rt: HostRuntime) -> Result<(), Fail> {
    let entries = entries(rt.alloc())?;
    for room in [0, 1, TEXT.len() - 1] {
        let taken = Vec::new(rt.alloc());
        let mut sink = StdSink::new(Narrow {
            taken,
            step: 5,
            room,
        });
        let failed = write_text(&mut sink, &entries).is_err();
        assert!(rt; failed && sink.failures() == 1);
        assert!(rt; sink.into_inner().taken.as_slice() == &TEXT[..room]);
    }
    Ok(())
}

#[test]
fn a_writer_that_keeps_bytes_is_flushed(rt: HostRuntime) -> Result<(), Fail> {
    let entries = entries(rt.alloc())?;
    let mut sink = StdSink::new(keeping_writer(&rt, false));
    write_text(&mut sink, &entries)?;
    assert!(rt; sink.failures() == 0);
    assert!(rt; sink.into_inner().taken.as_slice() == TEXT);
    Ok(())
}

#[test]
fn a_writer_that_fails_at_its_flush_is_told(rt: HostRuntime) -> Result<(), Fail> {
    let entries = entries(rt.alloc())?;
    let mut sink = StdSink::new(keeping_writer(&rt, true));
    let failed = write_text(&mut sink, &entries).is_err();
    assert!(rt; failed && sink.failures() == 1);
    assert!(rt; sink.into_inner().taken.is_empty());
    Ok(())
}
