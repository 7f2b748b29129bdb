//! A sink made of a writer.

ghost use Rattle.std.specs.Prelude.{◌≡◌, ◌+◌, ◌-◌, ◌<◌, ◌≤◌, ◌^◌, [], IfOk, OnOk, OnErr, length, drop, take};
ghost use Rattle.std.specs.Io.KnownBytes.{Appends, Keeps, append_known};

use crate::sink::{Sink, SinkFailed};
use arrayvec::ArrayVec;
use std::io::Write;

/// The size of a sink's buffer in bytes.
const BUFFER: usize = 4096;

/// A writer behind a buffer of 4,096 bytes, with the number of its failures. As many bytes that are put together go past the
/// buffer.
///
/// The bytes that it tells are those that the writer took, followed by those that wait in the buffer. After a
/// `flush` that succeeds none waits, so they are exactly what the writer took. It never allocates.
#[derive(Drop)]
pub struct StdSink<W: Write> {
    writer: W,
    buffer: ArrayVec<u8, BUFFER>,
    // How many bytes of the buffer the writer took already.
    sent: usize,
    failures: u64,
    ghost sent_before: { sent ≤ length buffer.items },
}

/// Gives a writer some of these bytes, and answers how many; or counts one more failure.
fn write_some<W: Write>(
    writer: &mut W,
    failures: &mut u64,
    bytes: &[u8],
) -> Result<usize, SinkFailed>
    requires can_fail { failures.old < 2 ^ 64 - 1 }
    ensures within { IfOk result (λ n. n ≤ length bytes.now) }
    ensures some { IfOk result (λ n. 0 < n) }
    ensures taken { IfOk result (λ n. Appends (W.contents writer.old) (W.contents writer.new) (take n bytes.now)) }
    ensures kept { OnErr result (Keeps (W.contents writer.old) (W.contents writer.new)) }
    ensures same { OnOk result (failures.new ≡ failures.old) }
    ensures failed { OnErr result (failures.new ≡ failures.old + 1) }
{
    match writer.write(bytes) {
        Ok(taken) if taken > 0 => Ok(taken),
        _ => {
            *failures += 1;
            Err(SinkFailed)
        }
    }
}

impl<W: Write> StdSink<W> {
    /// A sink to which nothing was put.
    pub fn new(writer: W) -> StdSink<W>
        ensures writer { result.writer ≡ writer }
        ensures empty { result.buffer.items ≡ [] }
        ensures none { result.failures ≡ 0 }
    {
        StdSink {
            writer,
            buffer: ArrayVec::new(),
            sent: 0,
            failures: 0,
        }
    }

    /// The writer, again. Bytes that wait are lost.
    pub fn into_inner(self) -> W
        ensures { result ≡ self.writer }
    {
        self.writer
    }

    /// How many writes failed.
    pub fn failures(&self) -> u64
        ensures { result ≡ self.now.failures }
    {
        let StdSink { failures, .. } = self;
        *failures
    }

    /// Gives the writer some of the bytes that wait.
    fn send_some(&mut self) -> Result<(), SinkFailed>
        requires can_fail { self.old.failures < 2 ^ 64 - 1 }
        requires some { self.old.sent < length self.old.buffer.items }
        ensures kept { Keeps (append_known (W.contents self.old.writer) (drop self.old.sent self.old.buffer.items))
            (append_known (W.contents self.new.writer) (drop self.new.sent self.new.buffer.items)) }
        ensures buffer { self.new.buffer.items ≡ self.old.buffer.items }
        ensures some { OnOk result (self.old.sent < self.new.sent) }
        ensures same { OnOk result (self.new.failures ≡ self.old.failures) }
        ensures failed { OnErr result (self.new.failures ≡ self.old.failures + 1) }
    {
        let (_, waiting) = self.buffer.as_slice().split_at(self.sent);
        let taken = write_some(&mut self.writer, &mut self.failures, waiting)?;
        self.sent += taken;
        Ok(())
    }

    /// Gives the writer all of the bytes that wait, and empties the buffer, which takes time by its size.
    fn send_all(&mut self) -> Result<(), SinkFailed>
        requires { self.old.failures < 2 ^ 64 - 1 }
        ensures kept { Keeps (append_known (W.contents self.old.writer) (drop self.old.sent self.old.buffer.items))
            (append_known (W.contents self.new.writer) (drop self.new.sent self.new.buffer.items)) }
        ensures empty { OnOk result (self.new.buffer.items ≡ []) }
        ensures same { OnOk result (self.new.failures ≡ self.old.failures) }
        ensures failed { OnErr result (self.new.failures ≡ self.old.failures + 1) }
    {
        if self.buffer.is_empty() {
            return Ok(());
        }
        while self.sent < self.buffer.len() {
            self.send_some()?;
        }
        self.sent = 0;
        self.buffer.clear();
        Ok(())
    }
}

impl<W: Write> Sink for StdSink<W> {
    ghost written = { λ s. record {
      bytes = append_known (W.contents s.writer) (drop s.sent s.buffer.items);
      waiting = length s.buffer.items - s.sent;
      failures = s.failures;
    } };

    fn put(&mut self, bytes: &[u8]) -> Result<usize, SinkFailed> {
        if bytes.len() >= BUFFER {
            self.send_all()?;
            return write_some(&mut self.writer, &mut self.failures, bytes);
        }
        if self.buffer.is_full() {
            self.send_all()?;
        }
        let room = self.buffer.remaining_capacity();
        let (front, _) = bytes.split_at(bytes.len().min(room));
        match self.buffer.try_extend_from_slice(front) {
            Ok(()) => Ok(front.len()),
            Err(_) => unreachable!(),
        }
    }

    fn flush(&mut self) -> Result<(), SinkFailed> {
        self.send_all()?;
        match self.writer.flush() {
            Ok(()) => Ok(()),
            Err(_) => {
                self.failures += 1;
                Err(SinkFailed)
            }
        }
    }
}
