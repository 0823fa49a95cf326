ghost use Rattle.std.specs.Prelude.{◌≡◌, ◌<◌, ◌≤◌, false, [], length, IfOk, Some};
ghost use Rattle.chi_io.specs.Counts.{Rose};
ghost use Rattle.chi_io.specs.Sink.{Puts, is_stopped};
ghost use Rattle.chi_io.specs.MemSinkState.{PutsExactly};

use crate::{Put, Sink};
use chi_base::NoMemory;
use std::alloc::Global;
use std::marker::Model;

/// A sink in memory, which tells what it has taken and fails at the puts that it was told to.
#[derive(Debug, Drop)]
pub struct MemSink {
    room: usize,
    most: usize,
    failing: Vec<u64>,
    /// It has the capacity of the room from the start.
    bytes: Vec<u8>,
    puts: u64,
    faults: u64,
}

impl Model for MemSink {
    ghost use Rattle.chi_io.specs.MemSinkState.{MemSinkState};
    ghost use Rattle.std.specs.Prelude.{◌<◌, ◌≤◌, vec_len, vec_capacity};

    ghost Value = { MemSinkState };

    ghost view = { λ s. record {
      room = s.room;
      most = s.most;
      failing = s.failing.items;
      bytes = s.bytes.items;
      puts = s.puts;
      faults = s.faults;
    } };

    ghost invariant = { λ s.
        (0 < s.most) × (s.puts ≤ vec_len s.bytes)
        × (vec_len s.bytes ≤ s.room) × (s.room ≤ vec_capacity s.bytes) };
}

impl MemSink {
    /// A sink that takes at most `room` bytes in all and at most `most` of them in one put. Put
    /// number i, counted from 0, fails where i is in `failing`. Its puts take no memory.
    pub fn new(
        alloc: Global,
        room: usize,
        most: usize,
        failing: Vec<u64>,
    ) -> Result<MemSink, NoMemory>
        requires some { 0 < most }
        ensures made { IfOk result (λ sink. sink ≡ record {
          room = room;
          most = most;
          failing = failing.items;
          bytes = [];
          puts = 0;
          faults = 0;
        }) }
    {
        let bytes = Vec::with_capacity(alloc, room)?;
        Ok(MemSink {
            room,
            most,
            failing,
            bytes,
            puts: 0,
            faults: 0,
        })
    }

    /// What was taken.
    pub fn bytes(&self) -> &[u8]
        ensures { result.now ≡ self.now.bytes }
    {
        self.bytes.as_slice()
    }
}

impl Sink for MemSink {
    ghost taken = { λ sink. Some sink.bytes };

    ghost faults = { λ sink. sink.faults };

    ghost stopped = { λ sink. is_stopped sink.faults };

    fn put(&mut self, bytes: &[u8]) -> Put
        requires some { 0 < length bytes.now }
        requires going { is_stopped self.old.faults ≡ false }
        ensures puts { Puts bytes.now (Some self.old.bytes) (Some self.new.bytes)
            (Rose self.old.faults self.new.faults) (is_stopped self.new.faults) result }
        ensures count { self.old.faults ≤ self.new.faults }

        // And exactly how much it takes or that it fails, and what the sink is after it.
        ensures exact { PutsExactly bytes.now self.old self.new result }
    {
        let left = self.room - self.bytes.len();
        let fails = self.failing.contains(&self.puts);
        if fails || left == 0 {
            self.faults = self.faults.saturating_add(1);
            return Put::Failed;
        }
        let taken = bytes.len().min(self.most).min(left);
        self.bytes.extend_from_slice(&bytes[..taken]).unwrap();
        self.puts += 1;
        Put::Took(taken)
    }
}
