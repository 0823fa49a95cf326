ghost use Rattle.std.specs.Prelude.{◌≡◌, ◌<◌, ◌≤◌, ℕ, Bool, true, false, List, [], length, codes, Option, Some, IsOk, OnOk, OnErr};
ghost use Rattle.chi_io.specs.Counts.{Rose};
ghost use Rattle.chi_io.specs.Sink.{Grew, GrewByProperFront, Puts};

use std::error::Error;
use std::fmt;

/// What a sink answers when bytes are put to it.
#[derive(Clone, Copy, Debug, PartialEq, Eq)]
pub enum Put {
    /// It took this many of the bytes, the first ones.
    Took(usize),
    /// It took nothing, and is stopped.
    Failed,
}

/// What bytes can be put to, until it fails for the first time.
pub trait Sink {
    /// All the bytes that the sink has taken, where it tells them.
    ghost taken: { Self → Option (List ℕ) };

    /// How often the sink has failed, a count that stands still at 2^64 - 1.
    ghost faults: { Self → ℕ };

    /// Whether the sink has failed, and may not be put to any more.
    ghost stopped: { Self → Bool };

    /// Puts `bytes`, of which the sink takes as many as it likes, from the first one on.
    fn put(&mut self, bytes: &[u8]) -> Put
        requires some { 0 < length bytes.now }
        requires going { stopped self.old ≡ false }
        ensures puts { Puts bytes.now (taken self.old) (taken self.new)
            (Rose (faults self.old) (faults self.new)) (stopped self.new) result }
        ensures count { faults self.old ≤ faults self.new };
}

/// A sink failed before it had taken all that was put.
#[derive(Clone, Copy, Debug, PartialEq, Eq)]
pub struct SinkFailed;

impl fmt::Display for SinkFailed {
    ghost output = { λ _. Some (codes "the sink failed") };

    fn fmt<W: fmt::Write>(&self, f: &mut fmt::Formatter<W>) -> fmt::Result {
        f.write_str("the sink failed")
    }
}

impl Error for SinkFailed {}

/// Puts all of `bytes`: at first the whole, and after each put that took a part the whole rest.
pub fn put_all<S: Sink>(sink: &mut S, bytes: &[u8]) -> Result<(), SinkFailed>
    requires going { S.stopped sink.old ≡ false }
    ensures ok { OnOk result (Grew (S.taken sink.old) (S.taken sink.new) bytes.now) }
    ensures goes_on { OnOk result (S.stopped sink.new ≡ false) }
    ensures err { OnErr result (GrewByProperFront (S.taken sink.old) (S.taken sink.new) bytes.now) }
    ensures cause { OnErr result (Rose (S.faults sink.old) (S.faults sink.new)) }
    ensures stopped { OnErr result (S.stopped sink.new ≡ true) }
    ensures count { S.faults sink.old ≤ S.faults sink.new }

    // An empty list makes no put: the sink is the very same.
    ensures nothing { bytes.now ≡ [] → IsOk result × (sink.new ≡ sink.old) }
{
    let mut rest = bytes;
    while !rest.is_empty() {
        match sink.put(rest) {
            Put::Took(n) => rest = rest.split_at(n).1,
            Put::Failed => return Err(SinkFailed),
        }
    }
    Ok(())
}
