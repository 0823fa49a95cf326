//! The names that are visible in the tests.

ghost use Rattle.chi_check_expr.specs.Clean.{Clean, HaveDefaults};

use crate::sources::type_of;
use chi_base::Items;
use chi_check_expr::{Known, Scope, Site, mean_in};
use chi_check_types::{Meant, NameKind};
use chi_token::Bytes;
use chi_tree::TypeTree;
use chi_types::Ty;
use std::alloc::Global;
use std::test::Fail;

/// Variables with their slots and their types.
const VARIABLES: [(&str, u32, &str); 11] = [
    ("b", 0, "bool"),
    ("i", 1, "int"),
    ("r", 2, "real"),
    ("s", 3, "string"),
    ("t", 4, "timer"),
    ("is", 6, "list int"),
    ("rs", 7, "list real"),
    ("ks", 8, "set int"),
    ("qs", 9, "set real"),
    ("d", 10, "dict(int: real)"),
    ("g", 12, "dist int"),
];

/// Functions with their numbers, the types of their parameters, and those of their results.
const FUNCTIONS: [(&str, u32, &str, &str); 4] = [
    ("f", 0, "real", "bool"),
    ("less", 1, "int int", "bool"),
    ("below", 2, "real real", "bool"),
    ("count", 3, "", "int"),
];

fn declare(alloc: Global, scope: &mut Scope, name: &'static str, known: Known) -> Result<(), Fail> {
    let name = match Bytes::copy_of(alloc, name.as_bytes()) {
        Ok(name) => name,
        Err(fault) => {
            drop(known);
            return Err(Fail::from(fault));
        }
    };
    if scope.known(&name).is_some() || scope.count() > 1000 {
        drop(known);
        return Ok(());
    }
    Ok(scope.declare(&name, known)?)
}

fn tree_meant(alloc: Global, scope: &Scope, tree: &TypeTree) -> Result<Ty, Fail> {
    let mut kept = None;
    match mean_in(alloc, tree, scope, Site::Process, false, &mut kept)? {
        Some(Meant { ty, sizes: _ }) => Ok(ty),
        None => Ok(Ty::Void),
    }
}

/// The type that a source means, and `Void` where it means none.
fn meant(alloc: Global, scope: &Scope, source: &str) -> Result<Ty, Fail> {
    match type_of(alloc, source.as_bytes())? {
        Some(tree) => {
            let ty = tree_meant(alloc, scope, &tree);
            drop(tree);
            ty
        }
        None => Ok(Ty::Void),
    }
}

fn all_meant(alloc: Global, scope: &Scope, sources: &'static str) -> Result<Items<Ty>, Fail> {
    let mut types = Vec::new(alloc);
    for source in sources.split_whitespace() {
        types.push(meant(alloc, scope, source)?)?;
    }
    Ok(Items::of(alloc, types)?)
}

fn declare_others(alloc: Global, scope: &mut Scope) -> Result<(), Fail> {
    let pair = meant(alloc, scope, "tuple(tuple(int x; real y) a; int b)")?;
    declare(alloc, scope, "w", Known::Fixed(15, pair))?;
    declare(alloc, scope, "n", Known::Const(0, Ty::Int))?;
    declare(alloc, scope, "red", Known::Value(0, 0))?;
    declare(alloc, scope, "large", Known::Value(1, 1))?;
    let untyped = Known::Untyped(NameKind::Function);
    declare(alloc, scope, "no_function", untyped)
}

/// No names.
#[tactic(auto, using(crate::proofs::NoNames::are_clean, crate::proofs::NoNames::have_defaults))]
pub fn no_names(alloc: Global) -> Scope
    ensures clean { Clean result }
    ensures defaults { HaveDefaults result }
{
    Scope::new(alloc)
}

fn declare_variables(alloc: Global, scope: &mut Scope) -> Result<(), Fail> {
    for (name, slot, source) in VARIABLES {
        let ty = meant(alloc, scope, source)?;
        declare(alloc, scope, name, Known::Var(slot, ty))?;
    }
    Ok(())
}

fn declare_functions(alloc: Global, scope: &mut Scope) -> Result<(), Fail> {
    for (name, number, params, outcome) in FUNCTIONS {
        let params = all_meant(alloc, scope, params)?;
        let outcome = meant(alloc, scope, outcome)?;
        declare(alloc, scope, name, Known::Func(number, params, outcome))?;
    }
    Ok(())
}

fn declare_all(alloc: Global, scope: &mut Scope) -> Result<(), Fail> {
    declare_variables(alloc, scope)?;
    declare_functions(alloc, scope)?;
    declare_others(alloc, scope)
}

/// What is known of the names.
pub fn names(alloc: Global) -> Result<Scope, Fail> {
    let mut scope = Scope::new(alloc);
    match declare_all(alloc, &mut scope) {
        Ok(()) => Ok(scope),
        Err(fault) => {
            drop(scope);
            Err(fault)
        }
    }
}
