ghost use Rattle.std.specs.Prelude.{◌≡◌, ◌<◌, ◌≤◌, false, length, None};
ghost use Rattle.chi_io.specs.Counts.{Rose};
ghost use Rattle.chi_io.specs.Sink.{Puts};

use crate::{Put, Sink};
use std::marker::Model;

/// A sink that passes each put on to another, and doesn't tell what that takes. Contracts see it as the other one.
#[derive(Debug, Drop)]
pub struct MuteSink<S> {
    inner: S,
}

impl<S> Model for MuteSink<S> {
    ghost Value = { S };

    ghost view = { λ s. s.inner };
}

impl<S: Sink> MuteSink<S> {
    /// The same sink, which tells nothing.
    pub fn new(inner: S) -> MuteSink<S>
        ensures { result ≡ inner }
    {
        MuteSink { inner }
    }
}

impl<S: Sink> Sink for MuteSink<S> {
    ghost taken = { λ _. None };

    ghost faults = { S.faults };

    ghost stopped = { S.stopped };

    fn put(&mut self, bytes: &[u8]) -> Put
        requires some { 0 < length bytes.now }
        requires going { S.stopped self.old ≡ false }
        ensures puts { Puts bytes.now None None
            (Rose (S.faults self.old) (S.faults self.new)) (S.stopped self.new) result }
        ensures count { S.faults self.old ≤ S.faults self.new }

        // It is a put to the other one.
        ensures passed { Puts bytes.now (S.taken self.old) (S.taken self.new)
            (Rose (S.faults self.old) (S.faults self.new)) (S.stopped self.new) result }
    {
        self.inner.put(bytes)
    }
}
