//! Values that have a text.

ghost use Rattle.std.specs.Prelude.{ℕ, List};
ghost use Rattle.std.specs.List.{flat_map};
ghost use Rattle.sinks.specs.Sink.{CanFail, Writes};

use sinks::{Sink, SinkFailed};

/// A value that has a text.
pub trait Text {
    ghost text: { Self → List ℕ };

    /// Puts the text.
    fn put<S: Sink>(&self, sink: &mut S) -> Result<(), SinkFailed>
        requires { CanFail (S.written sink.old) }
        ensures { Writes (S.written sink.old) (S.written sink.new) result (text self.now) };
}

/// Puts the texts of the values one after the other.
pub fn put_each<T: Text, S: Sink>(sink: &mut S, values: &[T]) -> Result<(), SinkFailed>
    requires { CanFail (S.written sink.old) }
    ensures { Writes (S.written sink.old) (S.written sink.new) result (flat_map T.text values.now) }
{
    for value in values {
        value.put(sink)?;
    }
    Ok(())
}
