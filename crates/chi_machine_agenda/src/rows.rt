//! A list of numbers for each instance.

ghost use Rattle.std.specs.Prelude.{◌≡◌, ◌∷◌, ◌++◌, ◌<◌, ◌≤◌, [], length, get_or, slice_set, OnOk, OnErr};
ghost use Rattle.chi_machine_agenda.specs.Joined.{numbers_at, SameRows};

use chi_base::NoMemory;
use std::alloc::Global;
use std::marker::Model;

/// Numbers, in room that stays.
#[derive(Debug, Drop)]
struct Row {
    items: Vec<u32>,
}

impl Model for Row {
    ghost use Rattle.std.specs.Prelude.{List, ℕ};

    ghost Value = { List ℕ };

    ghost view = { λ r. r.items.items };
}

impl Row {
    fn new(alloc: Global) -> Row
        ensures { result ≡ [] }
    {
        Row {
            items: Vec::new(alloc),
        }
    }

    fn as_slice(&self) -> &[u32]
        ensures { result.now ≡ self.now }
    {
        self.items.as_slice()
    }

    /// One number more.
    fn push(&mut self, number: u32) -> Result<(), NoMemory>
        ensures ok { OnOk result (self.new ≡ self.old ++ number ∷ []) }
        ensures err { OnErr result (self.new ≡ self.old) }
    {
        self.items.push(number)?;
        Ok(())
    }

    /// These numbers instead.
    fn set(&mut self, numbers: &[u32]) -> Result<(), NoMemory>
        ensures ok { OnOk result (self.new ≡ numbers.now) }
        ensures err { OnErr result (self.new ≡ []) }
    {
        self.items.clear();
        self.items.extend_from_slice(numbers)?;
        Ok(())
    }
}

/// A list of numbers for each of some instances.
#[derive(Debug, Drop)]
pub struct Rows {
    alloc: Global,
    rows: Vec<Row>,
}

impl Model for Rows {
    ghost use Rattle.std.specs.Prelude.{List, ℕ};

    ghost Value = { List (List ℕ) };

    ghost view = { λ r. r.rows.items };
}

/// Empty lists for all up to so many.
fn lengthen(alloc: Global, rows: &mut Vec<Row>, count: usize) -> Result<(), NoMemory>
    ensures room { OnOk result (count ≤ length rows.new.items) }
    ensures more { length rows.old.items ≤ length rows.new.items }
    ensures kept { SameRows rows.old.items rows.new.items }
{
    for _more in rows.len()..count {
        rows.push(Row::new(alloc))?;
    }
    Ok(())
}

impl Rows {
    /// No lists. It takes no memory.
    pub(crate) fn new(alloc: Global) -> Rows
        ensures { result ≡ [] }
    {
        Rows {
            alloc,
            rows: Vec::new(alloc),
        }
    }

    /// A list for so many instances at least. New ones are empty.
    pub(crate) fn reserve(&mut self, count: usize) -> Result<(), NoMemory>
        ensures room { OnOk result (count ≤ length self.new) }
        ensures more { length self.old ≤ length self.new }
        ensures kept { SameRows self.old self.new }
    {
        lengthen(self.alloc, &mut self.rows, count)
    }

    /// The list of an instance.
    pub(crate) fn at(&self, pid: u32) -> &[u32]
        requires { pid < length self.now }
        ensures { result.now ≡ numbers_at self.now pid }
    {
        self.rows[pid as usize].as_slice()
    }

    /// One number of it.
    pub(crate) fn number_at(&self, pid: u32, i: usize) -> u32
        requires pid { pid < length self.now }
        requires within { i < length (numbers_at self.now pid) }
        ensures { result ≡ get_or (numbers_at self.now pid) i 0 }
    {
        self.rows[pid as usize].as_slice()[i]
    }

    /// One number more in it.
    pub(crate) fn push(&mut self, pid: u32, number: u32) -> Result<(), NoMemory>
        requires { pid < length self.old }
        ensures ok { OnOk result (self.new ≡ slice_set self.old pid (numbers_at self.old pid ++ number ∷ [])) }
        ensures err { OnErr result (self.new ≡ self.old) }
    {
        self.rows[pid as usize].push(number)
    }

    /// These numbers instead.
    pub(crate) fn set(&mut self, pid: u32, numbers: &[u32]) -> Result<(), NoMemory>
        requires { pid < length self.old }
        ensures ok { OnOk result (self.new ≡ slice_set self.old pid numbers.now) }
        ensures err { OnErr result (self.new ≡ slice_set self.old pid []) }
    {
        self.rows[pid as usize].set(numbers)
    }
}
