ghost use Rattle.std.specs.Prelude.{◌≡◌, ◌++◌, ◌∷◌, [], length, IfOk, OnErr, OnOk};

use chi_base::{Items, NoMemory};
use std::alloc::Global;
use std::marker::Model;

/// A list that grows at its end. Contracts see it as the list of its elements.
#[derive(Drop)]
pub struct Growing<T> {
    elements: Vec<T>,
}

impl<T> Model for Growing<T> {
    ghost use Rattle.std.specs.Prelude.{List};
    ghost use Rattle.std.specs.Coded.{coded_list};

    ghost Value = { List T };

    ghost coded = { coded_list T.code };

    ghost view = { λ list. list.elements.items };
}

impl<T: Drop> Growing<T> {
    /// An empty list.
    pub fn new(alloc: Global) -> Growing<T>
        ensures { result ≡ [] }
    {
        Growing {
            elements: Vec::new(alloc),
        }
    }

    /// Adds an element at the end.
    pub fn push(&mut self, value: T) -> Result<(), NoMemory>
        ensures ok { OnOk result (self.new ≡ self.old ++ value ∷ []) }
        ensures err { OnErr result (self.new ≡ self.old) }
    {
        self.elements.push(value)?;
        Ok(())
    }

    /// How many elements there are.
    pub fn count(&self) -> usize
        ensures { result ≡ length self.now }
    {
        self.elements.len()
    }

    /// The elements, as a list that grows no more.
    pub fn into_items(self, alloc: Global) -> Result<Items<T>, NoMemory>
        ensures { IfOk result (λ items. items ≡ self) }
    {
        let Growing { elements } = self;
        Items::of(alloc, elements)
    }
}
