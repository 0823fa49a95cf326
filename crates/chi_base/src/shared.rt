ghost use Rattle.std.specs.Prelude.{◌≡◌, ◌<◌, ◌∷◌, length, slice_get, slice_set, Some, IfOk, OnOk};

use crate::NoMemory;
use std::alloc::Global;
use std::marker::Model;
use std::mem;
use std::rc::Rc;

/// What can be copied, where memory is found. A copy is as cheap as the type has it: that of a list that is shared
/// counts one more owner.
pub trait Copied: Sized {
    /// A copy, which is the very same to contracts.
    fn copied(&self, alloc: Global) -> Result<Self, NoMemory>
        ensures same { IfOk result (λ copy. copy ≡ self.now) };
}

/// A list of fixed size whose elements its copies share: contracts see it as the list of its elements. Only its sole
/// owner changes them where they are; any other owner first gets elements of its own, each copied.
#[derive(Debug, Drop)]
pub struct Shared<T> {
    shared: Rc<Vec<T>>,
}

impl<T> Model for Shared<T> {
    ghost use Rattle.std.specs.Prelude.{List};
    ghost use Rattle.std.specs.Coded.{coded_list};

    ghost Value = { List T };

    ghost coded = { coded_list T.code };

    ghost view = { λ items. items.shared.value.items };
}

impl<T> Shared<T> {
    /// The elements, as they lie in memory.
    pub fn as_slice(&self) -> &[T]
        ensures same { result.now ≡ self.now }
    {
        self.shared.as_ref().as_slice()
    }
}

impl<T: Drop> Shared<T> {
    /// The list of a vector's elements, which stay where they are.
    pub fn of(alloc: Global, values: Vec<T>) -> Result<Shared<T>, NoMemory>
        ensures same { IfOk result (λ items. items ≡ values.items) }
    {
        let shared = Rc::new(alloc, values)?;
        Ok(Shared { shared })
    }

    /// The same list. It counts one more owner, and copies no element.
    pub fn copy(&self) -> Result<Shared<T>, NoMemory>
        ensures same { IfOk result (λ items. items ≡ self.now) }
    {
        let shared = self.shared.clone()?;
        Ok(Shared { shared })
    }
}

impl<T: Drop + Copied> Shared<T> {
    /// The elements, to be changed or used up: the very ones of a sole owner, and else copies.
    pub fn into_vec(self, alloc: Global) -> Result<Vec<T>, NoMemory>
        ensures same { IfOk result (λ values. values.items ≡ self) }
    {
        let Shared { shared } = self;
        match Rc::try_unwrap(shared) {
            Ok(values) => Ok(values),
            Err(shared) => Ok(copies_of(alloc, shared.as_ref().as_slice())?),
        }
    }

    /// Sees to it that nobody else has the elements, so that `Rc::get_mut` lends them; where it didn't, that would be told
    /// as want of memory, as `Row` says.
    fn make_own(&mut self, alloc: Global) -> Result<(), NoMemory>
        ensures same { self.new ≡ self.old }
    {
        if has_other_owners(&self.shared) {
            let copies = copies_of(alloc, self.shared.as_ref().as_slice())?;
            self.shared = Rc::new(alloc, copies)?;
        }
        Ok(())
    }

    /// Stores a value in the place of another, which comes out.
    pub fn replace(&mut self, alloc: Global, place: usize, value: T) -> Result<T, NoMemory>
        requires inside { place < length self.old }
        ensures taken { IfOk result (λ old. slice_get self.old place ≡ Some old) }
        ensures rest { OnOk result (self.new ≡ slice_set self.old place value) }
    {
        self.make_own(alloc)?;
        match Rc::get_mut(&mut self.shared) {
            Some(values) => Ok(mem::replace(&mut values[place], value)),
            None => Err(NoMemory),
        }
    }

    /// Takes the first element out. The others move up.
    pub fn take_first(&mut self, alloc: Global) -> Result<T, NoMemory>
        requires some { 0 < length self.old }
        ensures taken { IfOk result (λ first. self.old ≡ first ∷ self.new) }
    {
        self.make_own(alloc)?;
        match Rc::get_mut(&mut self.shared) {
            Some(values) => Ok(values.remove(0)),
            None => Err(NoMemory),
        }
    }
}

/// Whether what is shared has another owner.
pub(crate) fn has_other_owners<C>(shared: &Rc<C>) -> bool {
    Rc::strong_count(shared) != 1
}

/// A copy of each value, in a vector that has room for no more.
pub fn copies_of<T: Drop + Copied>(alloc: Global, values: &[T]) -> Result<Vec<T>, NoMemory>
    ensures same { IfOk result (λ copies. copies.items ≡ values.now) }
{
    let mut copies = Vec::with_capacity(alloc, values.len())?;
    for value in values {
        copies.push(value.copied(alloc)?)?;
    }
    Ok(copies)
}
