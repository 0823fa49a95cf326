ghost use Rattle.std.specs.Prelude.{◌≡◌, ◌<◌, ◌≤◌, false, length, None};
ghost use Rattle.chi_io.specs.Counts.{Rose};
ghost use Rattle.chi_io.specs.Sink.{Puts, is_stopped, count_after_put};
ghost use Rattle.chi_io.specs.Streams.{Writes};

use crate::{Put, Sink};
use std::io::Write;
use std::marker::Model;

/// A stream of the system as a sink. It tells nothing of what it takes, and contracts see it as
/// its count of failures.
///
/// A stream that takes nothing has failed, and so has one whose write a signal interrupts.
#[derive(Drop)]
pub struct StdSink<W> {
    stream: W,
    faults: u64,
}

impl<W> Model for StdSink<W> {
    ghost use Rattle.std.specs.Prelude.{ℕ};

    ghost Value = { ℕ };

    ghost view = { λ s. s.faults };
}

impl<W: Write> StdSink<W> {
    /// The sink of a stream that hasn't failed.
    pub fn new(stream: W) -> StdSink<W>
        ensures { result ≡ 0 }
    {
        StdSink { stream, faults: 0 }
    }
}

impl<W: Write> Sink for StdSink<W> {
    ghost taken = { λ _. None };

    ghost faults = { λ sink. sink };

    ghost stopped = { is_stopped };

    fn put(&mut self, bytes: &[u8]) -> Put
        requires some { 0 < length bytes.now }
        requires going { is_stopped self.old ≡ false }
        ensures puts { Puts bytes.now None None
            (Rose self.old self.new) (is_stopped self.new) result }
        ensures count { self.old ≤ self.new }

        // A failure is counted, and nothing else.
        ensures exact { self.new ≡ count_after_put self.old result }
    {
        let answer = write_once(&mut self.stream, bytes);
        if answer == Put::Failed {
            self.faults = self.faults.saturating_add(1);
        }
        answer
    }
}

/// Writes to `stream` once. A stream that takes nothing has failed.
fn write_once<W: Write>(stream: &mut W, bytes: &[u8]) -> Put
    ensures { Writes bytes.now (W.contents stream.old) (W.contents stream.new) result }
{
    match stream.write(bytes) {
        Ok(0) | Err(_) => Put::Failed,
        Ok(n) => Put::Took(n),
    }
}
