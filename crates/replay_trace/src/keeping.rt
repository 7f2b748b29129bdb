//! A sink that keeps the last line that it took.

ghost use Rattle.std.specs.Prelude.{◌≡◌};

use sinks::{Sink, SinkFailed};
use std::alloc::Global;

/// A sink that keeps the last line that it took, which of a run is that of its journal.
#[derive(Drop)]
pub struct Keeping<W: Sink> {
    sink: W,
    line: Vec<u8>,
    /// Whether memory was refused for some of it.
    lacks: bool,
}

impl<W: Sink> Keeping<W> {
    /// One that has taken nothing.
    pub fn new(alloc: Global, sink: W) -> Keeping<W>
        ensures { result.sink ≡ sink }
    {
        Keeping {
            sink,
            line: Vec::new(alloc),
            lacks: false,
        }
    }

    /// The last line, unless memory was refused for it.
    pub fn last_line(&self) -> Option<&[u8]> {
        if self.lacks { None } else { Some(&self.line) }
    }
}

/// Keeps the last of the lines that a line goes on with. Whether there was room.
fn keep(line: &mut Vec<u8>, bytes: &[u8]) -> bool {
    for byte in bytes {
        if let Some(b'\n') = line.last() {
            line.clear();
        }
        if line.push(*byte).is_err() {
            return false;
        }
    }
    true
}

impl<W: Sink> Sink for Keeping<W> {
    ghost written = { λ k. W.written k.sink };

    fn put(&mut self, bytes: &[u8]) -> Result<usize, SinkFailed> {
        let taken = self.sink.put(bytes)?;
        let (front, _) = bytes.split_at(taken);
        if !self.lacks {
            self.lacks = !keep(&mut self.line, front);
        }
        Ok(taken)
    }

    fn flush(&mut self) -> Result<(), SinkFailed> {
        self.sink.flush()
    }
}
