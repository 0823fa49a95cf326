ghost use Rattle.std.specs.Prelude.{◌≡◌, IfOk};

use crate::NoMemory;
use std::alloc::Global;
use std::marker::Model;

/// A finished list: contracts see it as the list of its elements, with no capacity and no pointer,
/// so that trees of it are plain data and a copy equals what it copies. A list is grown as a `Vec`
/// and then made into one of these.
#[derive(Debug, Drop)]
pub struct Items<T> {
    elements: Vec<T>,
}

impl<T> Model for Items<T> {
    ghost use Rattle.std.specs.Prelude.{List};
    ghost use Rattle.std.specs.Coded.{coded_list};

    ghost Value = { List T };

    ghost coded = { coded_list T.code };

    ghost view = { λ items. items.elements.items };
}

impl<T> Items<T> {
    /// The elements, as they lie in memory.
    pub fn as_slice(&self) -> &[T]
        ensures same { result.now ≡ self.now }
    {
        self.elements.as_slice()
    }
}

impl<T: Drop> Items<T> {
    /// The list of a vector's elements, which stay where they are.
    pub fn of(_alloc: Global, values: Vec<T>) -> Result<Items<T>, NoMemory>
        ensures same { IfOk result (λ items. items ≡ values.items) }
    {
        Ok(Items { elements: values })
    }

    /// The elements, to be changed or used up. None is copied.
    pub fn into_vec(self, _alloc: Global) -> Result<Vec<T>, NoMemory>
        ensures same { IfOk result (λ values. values.items ≡ self) }
    {
        let Items { elements } = self;
        Ok(elements)
    }
}
