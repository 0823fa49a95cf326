//! The calls of a node whose arguments are typed.

ghost use Rattle.std.specs.Prelude.{◌≡◌, true, false, length, [], ◌∷◌, None, IfOk, OnOk};
ghost use Rattle.std.specs.Option.{option_copied};
ghost use Rattle.chi_check_types.specs.Faults.{first_of};
ghost use Rattle.chi_check_types.specs.Predefined as names;
ghost use Rattle.chi_check_expr.specs.Calls as spec;
ghost use Rattle.chi_check_expr.specs.Typing.{read};

use chi_base::{Items, NoMemory};
use chi_check_expr_operators::predefined_call;
use chi_check_expr_parts::call_of;
use chi_check_types::{Fault, Known, Made, Predefined, Scope, Site, is_predefined, predefined_of};
use chi_tree::{Expr, Name};
use std::alloc::Global;

/// Whether the name is that of the insertion by a function.
fn is_insertion(name: &Name) -> bool
    ensures { result ≡ spec.is_insertion (names.predefined_of name.now.text) }
{
    match predefined_of(&name.text) {
        Some(Predefined::Insert) => true,
        _ => false,
    }
}

/// Whether it is an insertion of three arguments, the last of which isn't typed.
pub(crate) fn takes_function(name: &Name, arguments: &[Expr]) -> bool
    ensures three { result ≡ true → length arguments.now ≡ 3 }
    ensures insertion { result ≡ true → spec.is_insertion (names.predefined_of name.now.text) ≡ true }
    ensures other { result ≡ false → length arguments.now ≡ 3 → spec.is_insertion (names.predefined_of name.now.text) ≡ false }
{
    if arguments.len() != 3 {
        return false;
    }
    is_insertion(name)
}

/// What is known of an expression that is a name alone, which isn't predefined.
fn function_known<'a>(scope: &'a Scope, by: &Expr, site: Site) -> Option<&'a Known>
    ensures { option_copied result ≡ spec.function_known scope.now (read site scope.now by.now).name }
{
    match by {
        Expr::Named(name) => {
            if is_predefined(&name.text) {
                None
            } else {
                scope.known(&name.text)
            }
        }
        _ => None,
    }
}

/// An insertion of an element into a list, by a function.
pub(crate) fn insert(
    alloc: Global,
    scope: &Scope,
    site: Site,
    name: &Name,
    list: Option<Made>,
    element: Option<Made>,
    by: &Expr,
    kept: &mut Option<Fault>,
) -> Result<Option<Made>, NoMemory>
    ensures made { IfOk result (λ m. m ≡ (spec.inserted site scope.now name.now list element (read site scope.now by.now).name).made) }
    ensures noted { OnOk result (kept.new ≡ first_of kept.old (spec.inserted site scope.now name.now list element (read site scope.now by.now).name).faults) }
{
    let known = function_known(scope, by, site);
    let arguments = Items::of(alloc, vec![in alloc; list, element, None]?)?;
    predefined_call(
        alloc,
        site,
        name.place,
        Predefined::Insert,
        arguments,
        known,
        kept,
    )
}

/// A call of a predefined name, or of what is known of another one.
pub(crate) fn call(
    alloc: Global,
    scope: &Scope,
    site: Site,
    name: &Name,
    arguments: Items<Option<Made>>,
    kept: &mut Option<Fault>,
) -> Result<Option<Made>, NoMemory>
    ensures made { IfOk result (λ m. m ≡ (spec.call_by site scope.now name.now (names.predefined_of name.now.text) arguments).made) }
    ensures noted { OnOk result (kept.new ≡ first_of kept.old (spec.call_by site scope.now name.now (names.predefined_of name.now.text) arguments).faults) }
{
    match predefined_of(&name.text) {
        Some(predefined) => predefined_call(
            alloc, site, name.place, predefined, arguments, None, kept,
        ),
        None => call_of(
            alloc,
            site,
            name.place,
            scope.known(&name.text),
            arguments,
            kept,
        ),
    }
}
