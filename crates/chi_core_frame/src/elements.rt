ghost use Rattle.std.specs.Prelude.{◌≡◌, ◌≢◌, ◌+◌, ◌<◌, ◌^◌, [], ◌∷◌, None, Some, IfOk, IfSome, MatchOption, option_copied, slice_get};
ghost use Rattle.chi_core.specs.Reading.{elements_of};
ghost use Rattle.chi_core_frame.specs.Elements.{held_by, left};

use crate::scalars::copied;
use chi_base::NoMemory;
use chi_value::{Items, Row, Value};
use std::alloc::Global;
use std::marker::Model;

/// What has elements, in order.
#[derive(Debug, Drop)]
pub(crate) enum Held {
    /// What a list has.
    List(Row),
    /// What a set has, or a dictionary.
    Sorted(Items),
}

impl Held {
    /// The element at a place, in constant time, if there is one.
    fn get(&self, place: usize) -> Option<&Value>
        ensures same { option_copied result ≡ slice_get (held_by self.now) place }
        ensures within { IfSome result (λ _. place + 1 < 2 ^ 64) }
    {
        match self {
            Held::List(items) => {
                // the length of a list that is there bounds its places
                let _size = items.len();
                items.get(place)
            }
            Held::Sorted(items) => items.as_slice().get(place),
        }
    }
}

/// What is left of the elements of a container. The container is kept, which nobody changes then, and an element is
/// copied as it is taken: so nothing here costs what the container is long. Contracts see the list of what is left.
#[derive(Debug, Drop)]
pub struct Elements {
    held: Held,
    /// How many were taken.
    taken: usize,
}

impl Model for Elements {
    ghost use Rattle.std.specs.Prelude.{List};
    ghost use Rattle.std.specs.Coded.{codes};
    ghost use Rattle.chi_value.specs.contracts.value.Value as values;
    ghost use Rattle.chi_value.specs.declared.value.Value as value;
    ghost use Rattle.chi_core_frame.specs.Elements.{left};

    ghost Value = { List value.Value };

    ghost coded = { Prim.hlevel (codes, values.the_row.coded) };

    ghost view = { λ e. left e.held e.taken };
}

impl Elements {
    /// The elements of a container, all of which are left; those of a dictionary are pairs of a key and what it has.
    pub fn of(container: Value) -> Elements
        requires { elements_of container ≢ None }
        ensures { elements_of container ≡ Some result }
    {
        match container {
            Value::ListOf(items) => Elements {
                held: Held::List(items),
                taken: 0,
            },
            Value::SetOf(items) | Value::DictOf(items) => Elements {
                held: Held::Sorted(items),
                taken: 0,
            },
            Value::Bool(_)
            | Value::Int(_)
            | Value::Real(_)
            | Value::Text(_)
            | Value::Choice(_, _)
            | Value::TupleOf(_)
            | Value::Chan(_)
            | Value::Dist(_)
            | Value::Timer(_)
            | Value::Inst(_) => unreachable!(),
        }
    }

    /// Takes the next element, if one is left.
    #[tactic(auto, using(crate::proofs::Leaving::next_left))]
    pub fn next(&mut self, alloc: Global) -> Result<Option<Value>, NoMemory>
        ensures { IfOk result (λ next. MatchOption next (self.old ≡ []) (λ x. self.old ≡ x ∷ self.new)) }
    {
        match self.held.get(self.taken) {
            Some(element) => {
                let next = copied(alloc, element)?;
                self.taken += 1;
                Ok(Some(next))
            }
            None => Ok(None),
        }
    }
}
