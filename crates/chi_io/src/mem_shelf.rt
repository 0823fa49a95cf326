ghost use Rattle.std.specs.Prelude.{◌≡◌, ◌≢◌, ◌≤◌, AllPairs, option_map, Some};
ghost use Rattle.chi_io.specs.Counts.{Rose};
ghost use Rattle.chi_io.specs.Shelf.{Answers};
ghost use Rattle.chi_io.specs.MemShelfState.{files_of, contents, FailsNext, AnswersExactly, after_fetch};

use crate::{Fetch, Shelf};
use std::alloc::Global;
use std::marker::Model;

/// A shelf in memory, which tells its files and fails at the calls that it was told to.
#[derive(Debug, Drop)]
pub struct MemShelf {
    files: Vec<(Vec<u8>, Vec<u8>)>,
    failing: Vec<u64>,
    calls: u64,
    faults: u64,
}

impl Model for MemShelf {
    ghost use Rattle.chi_io.specs.MemShelfState.{MemShelfState, files_of};

    ghost Value = { MemShelfState };

    ghost view = { λ s. record {
      files = files_of s.files.items;
      failing = s.failing.items;
      calls = s.calls;
      faults = s.faults;
    } };
}

impl MemShelf {
    /// A shelf of `files`, each a name with its bytes. Call number i, counted from 0, fails where i
    /// is in `failing`.
    pub fn new(files: Vec<(Vec<u8>, Vec<u8>)>, failing: Vec<u64>) -> MemShelf
        requires names_differ { AllPairs (λ file later. file.0.items ≢ later.0.items) files.items }
        ensures made { result ≡ record {
          files = files_of files.items;
          failing = failing.items;
          calls = 0;
          faults = 0;
        } }
    {
        MemShelf {
            files,
            failing,
            calls: 0,
            faults: 0,
        }
    }
}

impl Shelf for MemShelf {
    ghost files = { λ shelf. Some (contents shelf.files) };

    ghost faults = { λ shelf. shelf.faults };

    fn fetch(&mut self, alloc: Global, name: &[u8], limit: u64) -> Fetch
        ensures answer { Answers (Some (contents self.old.files)) name.now limit
            (Rose self.old.faults self.new.faults) result }
        ensures same { Some (contents self.new.files) ≡ Some (contents self.old.files) }
        ensures count { self.old.faults ≤ self.new.faults }

        // And exactly which answer comes, and what the shelf is after it.
        ensures exact { AnswersExactly (contents self.old.files name.now) limit
            (FailsNext self.old) result }
        ensures after { self.new ≡ after_fetch self.old result }
    {
        let fails = self.failing.contains(&self.calls);
        self.calls = self.calls.saturating_add(1);
        if fails {
            self.faults = self.faults.saturating_add(1);
            return Fetch::Failed;
        }
        match look_up(self.files.as_slice(), name) {
            None => Fetch::NoSuch,
            Some(bytes) => copy_within(alloc, bytes.as_slice(), limit),
        }
    }
}

/// What `name` has among `files`.
fn look_up<'a>(files: &'a [(Vec<u8>, Vec<u8>)], name: &[u8]) -> Option<&'a Vec<u8>>
    ensures { option_map (λ bytes. bytes.now.items) result
        ≡ contents (files_of files.now) name.now }
{
    for file in files {
        if file.0.as_slice() == name {
            return Some(&file.1);
        }
    }
    None
}

/// A copy of `bytes`, if they are at most `limit`.
fn copy_within(alloc: Global, bytes: &[u8], limit: u64) -> Fetch
    ensures { AnswersExactly (Some bytes.now) limit ⊥ result }
{
    if bytes.len() as u64 > limit {
        return Fetch::TooLong;
    }
    match Vec::from_slice(alloc, bytes) {
        Ok(copy) => Fetch::Bytes(copy),
        Err(_) => Fetch::NoMemory,
    }
}
