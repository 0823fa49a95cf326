ghost use Rattle.std.specs.Prelude.{◌≡◌, ◌≤◌, ℕ, Option};
ghost use Rattle.chi_io.specs.Counts.{Rose};
ghost use Rattle.chi_io.specs.Shelf.{Files, Answers};

use std::alloc::Global;

/// What a shelf answers when a name is fetched.
#[derive(Debug, Drop, PartialEq, Eq)]
pub enum Fetch {
    /// All bytes that the name has.
    Bytes(Vec<u8>),
    /// There is no such name.
    NoSuch,
    /// The name has more bytes than the limit.
    TooLong,
    /// The shelf failed.
    Failed,
    /// Memory is wanting.
    NoMemory,
}

/// Files that can be fetched by their names. They never change.
pub trait Shelf {
    /// What each name has, where the shelf tells it.
    ghost files: { Self → Option Files };

    /// How often the shelf has failed, a count that stands still at 2^64 - 1.
    ghost faults: { Self → ℕ };

    /// Fetches all that `name` has, if that is at most `limit` bytes.
    fn fetch(&mut self, alloc: Global, name: &[u8], limit: u64) -> Fetch
        ensures answer { Answers (files self.old) name.now limit
            (Rose (faults self.old) (faults self.new)) result }
        ensures same { files self.new ≡ files self.old }
        ensures count { faults self.old ≤ faults self.new };
}
