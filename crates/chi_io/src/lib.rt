//! The outside world: a shelf of files that can be fetched, and sinks that bytes are put to.
#![tactic(auto)]

mod disk_shelf;
mod mem_shelf;
mod mem_sink;
mod mute_shelf;
mod mute_sink;
mod shelf;
mod sink;
mod std_sink;

pub use disk_shelf::DiskShelf;
pub use mem_shelf::MemShelf;
pub use mem_sink::MemSink;
pub use mute_shelf::MuteShelf;
pub use mute_sink::MuteSink;
pub use shelf::{Fetch, Shelf};
pub use sink::{Put, Sink, SinkFailed, put_all};
pub use std_sink::StdSink;
