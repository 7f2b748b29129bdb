//! Where text goes: sinks, which take bytes and count their failures, and the sink that a writer makes.
#![tactic(auto)]

mod sink;
mod std_sink;

pub use sink::{Sink, SinkFailed, put_all, put_pieces};
pub use std_sink::StdSink;
