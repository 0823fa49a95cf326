//! Calls.

ghost use Rattle.std.specs.Prelude.{◌≡◌, true, length, map, IfOk, OnOk};
ghost use Rattle.chi_check_types.specs.Faults.{first_of};
ghost use Rattle.chi_check_expr.specs.Calls as calls;
ghost use Rattle.chi_check_expr.specs.Typing as spec;

use crate::calls::{call, insert, takes_function};
use crate::typing::containers::type_all;
use crate::typing::type_in;
use chi_base::NoMemory;
use chi_check_types::{Fault, Made, Scope, Site};
use chi_tree::{Expr, Name};
use std::alloc::Global;

/// A call.
#[cycle(typing)]
pub(super) fn type_call(
    alloc: Global,
    name: &Name,
    arguments: &[Expr],
    scope: &Scope,
    site: Site,
    kept: &mut Option<Fault>,
) -> Result<Option<Made>, NoMemory>
    ensures made { IfOk result (λ m. m ≡ (calls.call site scope.now name.now (map (spec.read site scope.now) arguments.now)).made) }
    ensures noted { OnOk result (kept.new ≡ first_of kept.old (calls.call site scope.now name.now (map (spec.read site scope.now) arguments.now)).faults) }
{
    if takes_function(name, arguments) {
        type_insertion(alloc, name, arguments, scope, site, kept)
    } else {
        type_plain(alloc, name, arguments, scope, site, kept)
    }
}

/// An insertion of three arguments, of which the first two are typed.
#[cycle(typing)]
fn type_insertion(
    alloc: Global,
    name: &Name,
    arguments: &[Expr],
    scope: &Scope,
    site: Site,
    kept: &mut Option<Fault>,
) -> Result<Option<Made>, NoMemory>
    requires three { length arguments.now ≡ 3 }
    ensures made { IfOk result (λ m. m ≡ (calls.called site scope.now name.now true (map (spec.read site scope.now) arguments.now)).made) }
    ensures noted { OnOk result (kept.new ≡ first_of kept.old (calls.called site scope.now name.now true (map (spec.read site scope.now) arguments.now)).faults) }
{
    let list = type_in(alloc, &arguments[0], scope, site, kept)?;
    match type_in(alloc, &arguments[1], scope, site, kept) {
        Ok(element) => insert(alloc, scope, site, name, list, element, &arguments[2], kept),
        Err(refusal) => {
            drop(list);
            Err(refusal)
        }
    }
}

/// A call whose arguments are all typed.
#[cycle(typing)]
fn type_plain(
    alloc: Global,
    name: &Name,
    arguments: &[Expr],
    scope: &Scope,
    site: Site,
    kept: &mut Option<Fault>,
) -> Result<Option<Made>, NoMemory>
    ensures made { IfOk result (λ m. m ≡ (calls.called_with site scope.now name.now (map (spec.typing site scope.now) arguments.now)).made) }
    ensures noted { OnOk result (kept.new ≡ first_of kept.old (calls.called_with site scope.now name.now (map (spec.typing site scope.now) arguments.now)).faults) }
{
    let parts = type_all(alloc, arguments, scope, site, kept)?;
    call(alloc, scope, site, name, parts, kept)
}
