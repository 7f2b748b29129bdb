//! Traces of journals that are spelled.

ghost use Rattle.sinks.specs.Sink.{CanFail};
ghost use Rattle.replay_trace.specs.Traces.{GoesOn, WritesSome};

use crate::entries::{Traced, put_some, trace};
use sinks::{Sink, SinkFailed};
use std::alloc::Global;
use world_schedules::{ReadError, read_journal};
use world_values::World;

/// The words of a journal's line, after the first, or of a text that has no such line.
fn entries_of(line: &[u8]) -> &[u8] {
    match line {
        [b'j', b'o', b'u', b'r', b'n', b'a', b'l', entries @ ..] => entries,
        _ => line,
    }
}

/// The number of threads of a world.
fn thread_count(world: &World) -> u8 {
    match u8::try_from(world.threads().len()) {
        Ok(count) => count,
        Err(_) => 8,
    }
}

/// Tells the entries of a journal, if its line was kept.
fn trace_kept<W: Sink>(
    alloc: Global,
    traced: Traced<'_>,
    line: Option<&[u8]>,
    out: &mut W,
) -> Result<(), SinkFailed>
    requires { CanFail (W.written out.old) }
    ensures { WritesSome (W.written out.old) (W.written out.new) result }
{
    let Some(line) = line else {
        return put_some(out, b"memory\n");
    };
    match read_journal(alloc, entries_of(line), thread_count(traced.world)) {
        Ok(journal) => trace(alloc, traced, &journal, out),
        Err(ReadError::Memory) => put_some(out, b"memory\n"),
        Err(_) => put_some(out, b""),
    }
}

/// Tells the entries of the journal that a run has written, of which this is the line: that of the report, or a text of entries. Without
/// the line, and where memory is refused, the last line that it tells is `memory`.
#[tactic(auto, using(crate::proofs::TraceLemmas::goes_on, crate::proofs::TraceLemmas::goes_on_kept))]
pub fn trace_line<W: Sink>(alloc: Global, traced: Traced<'_>, line: Option<&[u8]>, out: &mut W)
    requires { CanFail (W.written out.old) }
    ensures { GoesOn (W.written out.old) (W.written out.new) }
{
    match trace_kept(alloc, traced, line, out) {
        Ok(()) => {
            let _ = out.flush();
        }
        Err(_) => {}
    }
}

/// Tells that memory was refused.
#[tactic(auto, using(crate::proofs::TraceLemmas::goes_on, crate::proofs::TraceLemmas::goes_on_kept))]
pub fn tell_lack<W: Sink>(out: &mut W)
    requires { CanFail (W.written out.old) }
    ensures { GoesOn (W.written out.old) (W.written out.new) }
{
    match put_some(out, b"memory\n") {
        Ok(()) => {
            let _ = out.flush();
        }
        Err(_) => {}
    }
}

/// Tells nothing.
#[tactic(auto, using(crate::proofs::TraceLemmas::stays))]
pub fn tell_nothing<W: Sink>(out: &mut W)
    ensures { GoesOn (W.written out.old) (W.written out.new) }
{
    let _ = out;
}
