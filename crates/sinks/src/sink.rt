//! Where text goes.

ghost use Rattle.std.specs.Prelude.{◌≡◌, ◌+◌, ◌<◌, ◌≤◌, length, take, IfOk, OnOk, OnErr};
ghost use Rattle.std.specs.List.{flat_map};
ghost use Rattle.std.specs.Io.KnownBytes.{Appends, Keeps};
ghost use Rattle.sinks.specs.Sink.{Written, CanFail, Writes};

use thiserror::Error;

/// A sink didn't take what it was given.
#[derive(Clone, Copy, Debug, Error)]
#[error("the writer failed")]
pub struct SinkFailed;

/// Takes bytes, and counts its failures.
///
/// Bytes that were taken may wait in the sink. They reach its writer at a later `put`, and all of them at a
/// `flush` that succeeds. So a writer's failure may come late: then its bytes are a beginning of those taken.
pub trait Sink {
    /// The bytes taken so far, where the sink tells them, how many of them wait, and how often it failed.
    ghost written: { Self → Written };

    /// Takes a beginning of the bytes, and answers its length.
    fn put(&mut self, bytes: &[u8]) -> Result<usize, SinkFailed>
        requires { CanFail (written self.old) }
        ensures within { IfOk result (λ n. n ≤ length bytes.now) }
        ensures some { IfOk result (λ n. 0 < length bytes.now → 0 < n) }
        ensures taken { IfOk result (λ n. Appends (written self.old).bytes (written self.new).bytes (take n bytes.now)) }
        ensures same { OnOk result ((written self.new).failures ≡ (written self.old).failures) }
        ensures kept { OnErr result (Keeps (written self.old).bytes (written self.new).bytes) }
        ensures failed { OnErr result ((written self.new).failures ≡ (written self.old).failures + 1) };

    /// Sends on the bytes that wait.
    fn flush(&mut self) -> Result<(), SinkFailed>
        requires { CanFail (written self.old) }
        ensures kept { Keeps (written self.old).bytes (written self.new).bytes }
        ensures none_waits { OnOk result ((written self.new).waiting ≡ 0) }
        ensures same { OnOk result ((written self.new).failures ≡ (written self.old).failures) }
        ensures failed { OnErr result ((written self.new).failures ≡ (written self.old).failures + 1) };
}

/// Puts all of the bytes.
pub fn put_all<S: Sink>(sink: &mut S, bytes: &[u8]) -> Result<(), SinkFailed>
    requires { CanFail (S.written sink.old) }
    ensures { Writes (S.written sink.old) (S.written sink.new) result bytes.now }
{
    let mut rest = bytes;
    while !rest.is_empty() {
        let taken = sink.put(rest)?;
        let (_, after) = rest.split_at(taken);
        rest = after;
    }
    Ok(())
}

/// Puts the pieces one after the other.
pub fn put_pieces<S: Sink>(sink: &mut S, pieces: &[&[u8]]) -> Result<(), SinkFailed>
    requires { CanFail (S.written sink.old) }
    ensures { Writes (S.written sink.old) (S.written sink.new) result (flat_map (λ piece. piece.now) pieces.now) }
{
    for piece in pieces {
        put_all(sink, piece)?;
    }
    Ok(())
}
