//! Insertion into lists, by a function that says where.

ghost use Rattle.std.specs.Prelude.{◌≡◌, ◌≢◌, [], ◌∷◌, Err, IfOk, IfErr, OnOk};
ghost use Rattle.chi_ops.specs.Sequences.{insert_at};
ghost use Rattle.chi_core.specs.Answer.{Gives, Amiss};
ghost use Rattle.chi_core.specs.Containers.{done};
ghost use Rattle.chi_core.specs.Evaluation.{place_before};
ghost use Rattle.chi_plain_eval.specs.Calls.{before_by, meaning, run_by};
ghost use Rattle.chi_plain_eval.specs.Kinds.{inserted_by};
ghost use Rattle.chi_core_frame.specs.Alike.{AreAlikeBut};
ghost use Rattle.chi_core_frame.specs.Stops.{Stops};

use crate::bodies::call;
use crate::expressions::eval;
use crate::here::Here;
use crate::reading::{list_in, truth_of};
use chi_base::NoMemory;
use chi_core::{CExpr, View};
use chi_core_frame::{Stop, Variables, copied, insertion_of};
use chi_value::{Row, Value};
use std::alloc::Global;

/// An expression that inserts: those of the list and of the element, and the function that says before which others
/// this stands.
#[derive(Clone, Copy)]
pub struct InsertBy<'e> {
    pub list: &'e CExpr,
    pub element: &'e CExpr,
    pub function: u32,
}

/// A list, and an element with the place in it before which the element goes.
#[derive(Debug, Drop)]
struct Insertion {
    list: Value,
    element: Value,
    place: usize,
}

/// What goes where, by a function that says whether the element stands before another.
#[cycle(eval)]
#[tactic(auto, using(crate::proofs::Insertions::inserting))]
fn insertion_in(
    parts: &InsertBy<'_>,
    here: &Here<'_>,
    variables: &Variables,
    view: &mut View,
) -> Result<Insertion, Stop>
    requires { inserted_by (meaning here.now variables.now) (run_by here.now) parts.now.function parts.now.list.now parts.now.element.now view.old ≢ Amiss }
    ensures value { IfOk result (λ it. inserted_by (meaning here.now variables.now) (run_by here.now) parts.now.function parts.now.list.now parts.now.element.now view.old ≡ done (insert_at it.list it.place it.element) view.new) }
    ensures stops { IfErr result (λ stop. Stops stop (inserted_by (meaning here.now variables.now) (run_by here.now) parts.now.function parts.now.list.now parts.now.element.now view.old)) }
{
    let list = eval(parts.list, here, variables, view)?;
    let element = eval(parts.element, here, variables, view)?;
    let place = place_before(list_in(&list), here, parts.function, &element, view)?;
    Ok(Insertion {
        list,
        element,
        place,
    })
}

/// A list with an element before the first of which a function says that it stands before it.
#[cycle(eval)]
#[tactic(auto, using(crate::proofs::Insertions::putting))]
pub fn insert_by(
    parts: &InsertBy<'_>,
    here: &Here<'_>,
    variables: &Variables,
    view: &mut View,
) -> Result<Value, Stop>
    requires { inserted_by (meaning here.now variables.now) (run_by here.now) parts.now.function parts.now.list.now parts.now.element.now view.old ≢ Amiss }
    ensures value { IfOk result (λ v. inserted_by (meaning here.now variables.now) (run_by here.now) parts.now.function parts.now.list.now parts.now.element.now view.old ≡ Gives v view.new) }
    ensures stops { IfErr result (λ stop. Stops stop (inserted_by (meaning here.now variables.now) (run_by here.now) parts.now.function parts.now.list.now parts.now.element.now view.old)) }
{
    let Insertion {
        list,
        element,
        place,
    } = insertion_in(parts, here, variables, view)?;
    insertion_of(here.alloc, list, place, element, view)
}

/// As insert_by, where the value of a variable is let go of once the place is known: a list that is a copy of it isn't
/// shared then, and grows where it is.
#[cycle(eval)]
#[tactic(auto, using(crate::proofs::Insertions::putting))]
pub fn insert_off(
    parts: &InsertBy<'_>,
    here: &Here<'_>,
    slot: u32,
    variables: &mut Variables,
    view: &mut View,
) -> Result<Value, Stop>
    requires { inserted_by (meaning here.now variables.old) (run_by here.now) parts.now.function parts.now.list.now parts.now.element.now view.old ≢ Amiss }
    ensures value { IfOk result (λ v. inserted_by (meaning here.now variables.old) (run_by here.now) parts.now.function parts.now.list.now parts.now.element.now view.old ≡ Gives v view.new) }
    ensures stops { IfErr result (λ stop. Stops stop (inserted_by (meaning here.now variables.old) (run_by here.now) parts.now.function parts.now.list.now parts.now.element.now view.old)) }
    ensures alike { OnOk result (AreAlikeBut slot variables.old variables.new) }
    ensures kept { result ≡ Err Stop.Spent → variables.new ≡ variables.old }
{
    let Insertion {
        list,
        element,
        place,
    } = insertion_in(parts, here, variables, view)?;
    variables.unset(slot);
    insertion_of(here.alloc, list, place, element, view)
}

/// How many elements come before the first of which a function says that x stands before it.
#[cycle(eval)]
#[tactic(auto, using(chi_core_frame::proofs::Stopping::stopping, crate::proofs::Insertions::placing))]
fn place_before(
    items: &Row,
    here: &Here<'_>,
    number: u32,
    x: &Value,
    view: &mut View,
) -> Result<usize, Stop>
    requires { place_before (before_by (run_by here.now) number x.now) items.now view.old ≢ Amiss }
    ensures place { IfOk result (λ n. place_before (before_by (run_by here.now) number x.now) items.now view.old ≡ Gives n view.new) }
    ensures stops { IfErr result (λ stop. Stops stop (place_before (before_by (run_by here.now) number x.now) items.now view.old)) }
{
    for place in 0..items.len() {
        let Some(y) = items.get(place) else {
            unreachable!();
        };
        let pair = two_copies(here.alloc, x, y)?;
        let holds = call(number, pair, here, view)?;
        if truth_of(holds) {
            return Ok(place);
        }
    }
    Ok(items.len())
}

/// Copies of two values.
fn two_copies(alloc: Global, x: &Value, y: &Value) -> Result<Vec<Value>, NoMemory>
    ensures { IfOk result (λ pair. pair.items ≡ x.now ∷ y.now ∷ []) }
{
    let mut pair = Vec::new(alloc);
    pair.push(copied(alloc, x)?)?;
    pair.push(copied(alloc, y)?)?;
    Ok(pair)
}
