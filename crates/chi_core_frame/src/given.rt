//! What copies, defaults, literals and lists make of values that are given away. What refuses them is
//! why something stops.

ghost use Rattle.std.specs.Prelude.{◌≡◌, ◌≢◌, Err, IfOk, IfErr};
ghost use Rattle.chi_value.specs.declared.value.Value.TheVariants as values;
ghost use Rattle.chi_ops.specs.Operations.{build};
ghost use Rattle.chi_ops.specs.Sequences.{insert_at};
ghost use Rattle.chi_core.specs.Answer.{Gives, Amiss, wanted};
ghost use Rattle.chi_core.specs.Containers.{done};
ghost use Rattle.chi_core.specs.Evaluation.{fresh};
ghost use Rattle.chi_core.specs.Reading.{part_of};
ghost use Rattle.chi_core_frame.specs.declared.stop.Stop.TheVariants.{NoMemory};
ghost use Rattle.chi_core_frame.specs.Stops.{Stops};

use crate::scalars::copied;
use crate::stop::Stop;
use chi_core::{FaultKind, View};
use chi_core_apply::{fresh, made_of, part_in};
use chi_ops::inserted;
use chi_value::{Kind, MOST_ELEMENTS, Row, Shape, Value};
use std::alloc::Global;

/// A copy of a value.
pub fn copy_of(alloc: Global, value: &Value) -> Result<Value, Stop>
    ensures value { IfOk result (λ copy. copy ≡ value.now) }
    ensures stops { IfErr result (λ stop. stop ≡ NoMemory) }
{
    Ok(copied(alloc, value)?)
}

/// A fresh default: each channel in it is new.
#[tactic(auto, using(crate::proofs::Stopping::stopping))]
pub fn fresh_of(alloc: Global, shape: &Shape, view: &mut View) -> Result<Value, Stop>
    ensures value { IfOk result (λ v. fresh shape.now view.old ≡ Gives v view.new) }
    ensures stops { IfErr result (λ stop. Stops stop (fresh shape.now view.old)) }
{
    Ok(fresh(alloc, shape, view)?)
}

/// A literal of its parts.
#[tactic(auto, using(crate::proofs::Stopping::stopping))]
pub fn literal_of(alloc: Global, kind: Kind, parts: Vec<Value>, view: &View) -> Result<Value, Stop>
    requires { done (build kind parts.items) view.now ≢ Amiss }
    ensures value { IfOk result (λ v. done (build kind parts.items) view.now ≡ Gives v view.now) }
    ensures stops { IfErr result (λ stop. Stops stop (done (build kind parts.items) view.now)) }
{
    Ok(made_of(alloc, kind, parts, view)?)
}

/// The part of a tuple.
#[tactic(auto, using(crate::proofs::Stopping::wanted_part))]
pub fn part_of(alloc: Global, whole: Value, number: u32, view: &View) -> Result<Value, Stop>
    requires { wanted (part_of whole number) view.now ≢ Amiss }
    ensures value { IfOk result (λ v. wanted (part_of whole number) view.now ≡ Gives v view.now) }
    ensures stops { IfErr result (λ stop. Stops stop (wanted (part_of whole number) view.now)) }
{
    Ok(part_in(alloc, &whole, number)?)
}

/// A list with an element put before a place. Where nobody else has the list, it grows where it is.
#[tactic(auto, using(crate::proofs::Storing::done_stops, crate::proofs::Unspent::insertion_unspent, crate::proofs::Inserting::inserting, chi_core_apply::proofs::Operations::operations))]
pub fn insertion_of(
    alloc: Global,
    xs: Value,
    place: usize,
    x: Value,
    view: &View,
) -> Result<Value, Stop>
    requires { done (insert_at xs place x) view.now ≢ Amiss }
    ensures value { IfOk result (λ v. done (insert_at xs place x) view.now ≡ Gives v view.now) }
    ensures stops { IfErr result (λ stop. Stops stop (done (insert_at xs place x) view.now)) }
    ensures never { result ≢ Err Stop.Spent }
{
    if place >= MOST_ELEMENTS {
        return Err(Stop::Fault(FaultKind::TooLarge));
    }
    Ok(inserted(alloc, xs, place as u32, x)?)
}

/// A list of values.
pub fn list_of(alloc: Global, items: Vec<Value>) -> Result<Value, Stop>
    ensures value { IfOk result (λ list. list ≡ values.ListOf items.items) }
    ensures stops { IfErr result (λ stop. stop ≡ NoMemory) }
{
    Ok(Value::ListOf(Row::of(alloc, items)?))
}
