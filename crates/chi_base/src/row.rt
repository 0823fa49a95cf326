ghost use Rattle.std.specs.Prelude.{◌≡◌, ◌<◌, ◌≤◌, ◌++◌, ◌+◌, ◌∷◌, [], drop, insert, length, remove, slice_get, slice_index_or, slice_set, take, Some, IfOk, IfSome, IsSome, OnOk, option_copied, ◌↔◌};

use crate::NoMemory;
use crate::shared::{Copied, copies_of, has_other_owners};
use std::alloc::Global;
use std::collections::VecDeque;
use std::marker::Model;
use std::mem;
use std::rc::Rc;

/// A list in a ring, whose elements its copies share: contracts see it as the list of its elements. Its sole owner
/// changes it where it is, and makes it longer at its end and shorter at either end in the time of what comes and goes;
/// any other owner first gets elements of its own, each copied.
#[derive(Debug, Drop)]
pub struct Row<T> {
    shared: Rc<VecDeque<T>>,
}

impl<T> Model for Row<T> {
    ghost use Rattle.std.specs.Prelude.{List};
    ghost use Rattle.std.specs.Coded.{coded_list};

    ghost Value = { List T };

    ghost coded = { coded_list T.code };

    ghost view = { λ row. row.shared.value.items };
}

impl<T> Row<T> {
    /// The elements, as the two stretches in which they lie.
    pub fn as_slices(&self) -> (&[T], &[T])
        ensures same { result.0.now ++ result.1.now ≡ self.now }
    {
        self.shared.as_ref().as_slices()
    }

    /// How many elements there are, in constant time.
    pub fn len(&self) -> usize
        ensures same { result ≡ length self.now }
    {
        self.shared.as_ref().len()
    }

    /// The element at a place, in constant time, if there is one.
    pub fn get(&self, place: usize) -> Option<&T>
        ensures variant { IsSome result ↔ (place < length self.now) }
        ensures lookup { IfSome result (λ x. x.now ≡ slice_index_or self.now place x.now) }
        ensures same { option_copied result ≡ slice_get self.now place }
    {
        self.shared.as_ref().get(place)
    }
}

impl<T: Drop> Row<T> {
    /// The list of a vector's elements, which stay where they are.
    pub fn of(alloc: Global, values: Vec<T>) -> Result<Row<T>, NoMemory>
        ensures same { IfOk result (λ row. row ≡ values.items) }
    {
        let shared = Rc::new(alloc, VecDeque::from_vec(values))?;
        Ok(Row { shared })
    }

    /// The same list. It counts one more owner, and copies no element.
    pub fn copy(&self) -> Result<Row<T>, NoMemory>
        ensures same { IfOk result (λ row. row ≡ self.now) }
    {
        let shared = self.shared.clone()?;
        Ok(Row { shared })
    }
}

impl<T: Drop + Copied> Row<T> {
    /// The elements, to be changed or used up: the very ones of a sole owner, and else copies.
    pub fn into_vec(self, alloc: Global) -> Result<Vec<T>, NoMemory>
        ensures same { IfOk result (λ values. values.items ≡ self) }
    {
        let Row { shared } = self;
        match Rc::try_unwrap(shared) {
            Ok(values) => Ok(values.into_vec()),
            Err(shared) => {
                let (first, second) = shared.as_ref().as_slices();
                Ok(copies_of_both(alloc, first, second)?)
            }
        }
    }

    /// Sees to it that nobody else has the elements, so that `Rc::get_mut` lends them. No contract of `Rc` says so: how
    /// many owners there are is no part of what contracts see. Where it lent them not, that would be told as want of
    /// memory, which is the one answer that no clause ties to a cause.
    fn make_own(&mut self, alloc: Global) -> Result<(), NoMemory>
        ensures same { self.new ≡ self.old }
    {
        if has_other_owners(&self.shared) {
            let (first, second) = self.shared.as_ref().as_slices();
            let copies = copies_of_both(alloc, first, second)?;
            self.shared = Rc::new(alloc, VecDeque::from_vec(copies))?;
        }
        Ok(())
    }

    /// Stores a value in the place of another, which comes out.
    pub fn replace(&mut self, alloc: Global, place: usize, value: T) -> Result<T, NoMemory>
        requires inside { place < length self.old }
        ensures taken { IfOk result (λ old. slice_get self.old place ≡ Some old) }
        ensures rest { OnOk result (self.new ≡ slice_set self.old place value) }
    {
        self.make_own(alloc)?;
        match Rc::get_mut(&mut self.shared) {
            Some(values) => Ok(mem::replace(&mut values[place], value)),
            None => Err(NoMemory),
        }
    }

    /// Appends an element.
    pub fn push(&mut self, alloc: Global, value: T) -> Result<(), NoMemory>
        ensures pushed { OnOk result (self.new ≡ self.old ++ value ∷ []) }
    {
        self.make_own(alloc)?;
        match Rc::get_mut(&mut self.shared) {
            Some(values) => {
                values.push_back(value)?;
                Ok(())
            }
            None => Err(NoMemory),
        }
    }

    /// Appends a copy of each element of another list.
    pub fn extend(&mut self, alloc: Global, more: &Row<T>) -> Result<(), NoMemory>
        ensures appended { OnOk result (self.new ≡ self.old ++ more.now) }
    {
        let (first, second) = more.as_slices();
        self.push_copies(alloc, first)?;
        self.push_copies(alloc, second)?;
        Ok(())
    }

    fn push_copies(&mut self, alloc: Global, values: &[T]) -> Result<(), NoMemory>
        ensures appended { OnOk result (self.new ≡ self.old ++ values.now) }
    {
        for value in values {
            self.push(alloc, value.copied(alloc)?)?;
        }
        Ok(())
    }

    /// So many elements from a place on. Of a sole owner the others go, and these stay where they are; else these are
    /// copied, and no others.
    #[tactic(auto, using(crate::proofs::Parts::drop_of_take))]
    pub fn part(self, alloc: Global, from: usize, size: usize) -> Result<Row<T>, NoMemory>
        requires inside { from + size ≤ length self }
        ensures part { IfOk result (λ row. row ≡ take size (drop from self)) }
    {
        if has_other_owners(&self.shared) {
            return Ok(self.copied_part(alloc, from, size)?);
        }
        let mut row = self;
        row.truncate(alloc, from + size)?;
        row.behead(alloc, from)?;
        Ok(row)
    }

    fn copied_part(&self, alloc: Global, from: usize, size: usize) -> Result<Row<T>, NoMemory>
        requires inside { from + size ≤ length self.now }
        ensures part { IfOk result (λ row. row ≡ take size (drop from self.now)) }
    {
        let mut copies = Vec::with_capacity(alloc, size)?;
        // the length of a list that is there bounds its places, so that their sum fits
        let _whole = self.len();
        for place in 0..size {
            let Some(value) = self.get(from + place) else {
                unreachable!();
            };
            copies.push(value.copied(alloc)?)?;
        }
        Ok(Row::of(alloc, copies)?)
    }

    fn truncate(&mut self, alloc: Global, size: usize) -> Result<(), NoMemory>
        ensures kept { OnOk result (self.new ≡ take size self.old) }
    {
        self.make_own(alloc)?;
        match Rc::get_mut(&mut self.shared) {
            Some(values) => {
                values.truncate(size);
                Ok(())
            }
            None => Err(NoMemory),
        }
    }

    fn behead(&mut self, alloc: Global, count: usize) -> Result<(), NoMemory>
        requires inside { count ≤ length self.old }
        ensures rest { OnOk result (self.new ≡ drop count self.old) }
    {
        for _turn in 0..count {
            drop(self.take_first(alloc)?);
        }
        Ok(())
    }

    /// Puts an element before a place. The fewer of those before it and after it move.
    pub fn insert(&mut self, alloc: Global, place: usize, value: T) -> Result<(), NoMemory>
        requires inside { place ≤ length self.old }
        ensures inserted { OnOk result (self.new ≡ insert self.old place value) }
    {
        self.make_own(alloc)?;
        match Rc::get_mut(&mut self.shared) {
            Some(values) => {
                values.insert(place, value)?;
                Ok(())
            }
            None => Err(NoMemory),
        }
    }

    /// Takes an element out. The fewer of those before it and after it move.
    pub fn remove(&mut self, alloc: Global, place: usize) -> Result<T, NoMemory>
        requires inside { place < length self.old }
        ensures taken { IfOk result (λ old. slice_get self.old place ≡ Some old) }
        ensures rest { OnOk result (self.new ≡ remove self.old place) }
    {
        self.make_own(alloc)?;
        match Rc::get_mut(&mut self.shared) {
            Some(values) => match values.remove(place) {
                Some(old) => Ok(old),
                None => unreachable!(),
            },
            None => Err(NoMemory),
        }
    }

    /// Takes the first element out. None of the others moves.
    pub fn take_first(&mut self, alloc: Global) -> Result<T, NoMemory>
        requires some { 0 < length self.old }
        ensures taken { IfOk result (λ first. self.old ≡ first ∷ self.new) }
    {
        self.make_own(alloc)?;
        match Rc::get_mut(&mut self.shared) {
            Some(values) => match values.pop_front() {
                Some(first) => Ok(first),
                None => unreachable!(),
            },
            None => Err(NoMemory),
        }
    }
}

/// A copy of each element of two stretches.
fn copies_of_both<T: Drop + Copied>(
    alloc: Global,
    first: &[T],
    second: &[T],
) -> Result<Vec<T>, NoMemory>
    ensures same { IfOk result (λ copies. copies.items ≡ first.now ++ second.now) }
{
    let mut copies = copies_of(alloc, first)?;
    let mut more = copies_of(alloc, second)?;
    copies.append(&mut more)?;
    Ok(copies)
}
