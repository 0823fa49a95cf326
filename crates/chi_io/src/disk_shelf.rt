ghost use Rattle.std.specs.Prelude.{◌≡◌, ◌+◌, ◌≤◌, ◌⊎◌, None};
ghost use Rattle.chi_io.specs.Counts.{Rose};
ghost use Rattle.chi_io.specs.Shelf.{Answers, count_after_fetch};
ghost use Rattle.chi_io.specs.Streams.{Reads, ConsumesAtMost};

use crate::{Fetch, Shelf};
use std::alloc::Global;
use std::io::{Error, ErrorKind, Read};
use std::marker::Model;
use std::rt::Files;
use std::{fs, str};

/// How many bytes one read asks for.
const PIECE: usize = 4096;

/// The files of the system as a shelf. It tells nothing of what they have, and contracts see it as
/// its count of failures: names that are missing, files that are too long, and what failed.
///
/// A name that isn't UTF-8 is missing. A read that a signal interrupts has failed.
#[derive(Drop)]
pub struct DiskShelf<'a, R> {
    files: &'a R,
    faults: u64,
}

impl<'a, R> Model for DiskShelf<'a, R> {
    ghost use Rattle.std.specs.Prelude.{ℕ};

    ghost Value = { ℕ };

    ghost view = { λ s. s.faults };
}

impl<'a, R: Files> DiskShelf<'a, R> {
    /// The shelf of these files, which hasn't failed.
    pub fn new(files: &'a R) -> DiskShelf<'a, R>
        ensures { result ≡ 0 }
    {
        DiskShelf { files, faults: 0 }
    }
}

impl<R: Files> Shelf for DiskShelf<'_, R> {
    ghost files = { λ _. None };

    ghost faults = { λ shelf. shelf };

    fn fetch(&mut self, alloc: Global, name: &[u8], limit: u64) -> Fetch
        ensures answer { Answers None name.now limit (Rose self.old self.new) result }
        ensures count { self.old ≤ self.new }

        // Each refusal but for want of memory is counted, and nothing else.
        ensures exact { self.new ≡ count_after_fetch self.old result }
    {
        let answer = read_named(self.files, alloc, name, limit);
        match &answer {
            Fetch::NoSuch | Fetch::TooLong | Fetch::Failed => {
                self.faults = self.faults.saturating_add(1);
            }
            Fetch::Bytes(_) | Fetch::NoMemory => {}
        }
        answer
    }
}

/// Fetches the file of this name. The count of failures is left to the caller.
fn read_named<R: Files>(files: &R, alloc: Global, name: &[u8], limit: u64) -> Fetch
    ensures { Answers None name.now limit (Unit {0}) result }
{
    let Ok(path) = str::from_utf8(name) else {
        return Fetch::NoSuch;
    };
    match fs::open(files, path) {
        Ok(mut file) => read_within(alloc, &mut file, limit),
        Err(error) => match error.kind() {
            ErrorKind::NotFound => Fetch::NoSuch,
            _ => failure(&error),
        },
    }
}

/// Reads to the end, if that is at most `limit` bytes away, and else reads one byte more than
/// `limit`. Each read but the last gives a byte, so at most `limit + 1` reads are made.
fn read_within<F: Read>(alloc: Global, file: &mut F, limit: u64) -> Fetch
    ensures reads { Reads (F.remaining file.old) limit result }
    ensures most { ConsumesAtMost (F.remaining file.old) (F.remaining file.new) (limit + 1) }
{
    let mut bytes = Vec::new(alloc);
    let mut piece = [0; PIECE];
    loop {
        let left = limit - bytes.len() as u64;
        let asked = left.saturating_add(1).min(PIECE as u64) as usize;
        match file.read(&mut piece[..asked]) {
            Ok(0) => return Fetch::Bytes(bytes),
            Ok(n) if n as u64 > left => return Fetch::TooLong,
            Ok(n) => {
                if bytes.extend_from_slice(&piece[..n]).is_err() {
                    return Fetch::NoMemory;
                }
            }
            Err(error) => return failure(&error),
        }
    }
}

/// What a call of the system that failed is answered by.
fn failure(error: &Error) -> Fetch
    ensures { (result ≡ Fetch.NoMemory) ⊎ (result ≡ Fetch.Failed) }
{
    match error.kind() {
        ErrorKind::OutOfMemory => Fetch::NoMemory,
        _ => Fetch::Failed,
    }
}
