//! The walks as they are begun from outside. What is higher than the walks over a core have stack for is refused here
//! for want of memory, before any core is made of it.

ghost use Rattle.std.specs.Prelude.{◌≡◌, IfOk, OnOk};
ghost use Rattle.chi_check_types.specs.Faults.{first_of};
ghost use Rattle.chi_check_expr.specs.Typing as spec;

use crate::typing;
use chi_base::NoMemory;
use chi_check_types::{Fault, Made, Meant, Scope, Site};
use chi_tree::{Expr, TypeTree};
use chi_tree_heights::{height_of, type_height_of};
use std::alloc::Global;

/// The greatest height of the core of one expression: how many operators and parts may lie over one another. A
/// stack of 8 MiB holds the deepest walk over so many.
pub const MOST_HEIGHT: u32 = 5_000;

/// The core and the type of an expression, if it has a type.
pub fn type_in(
    alloc: Global,
    e: &Expr,
    scope: &Scope,
    site: Site,
    kept: &mut Option<Fault>,
) -> Result<Option<Made>, NoMemory>
    ensures made { IfOk result (λ m. m ≡ (spec.typing site scope.now e.now).made) }
    ensures noted { OnOk result (kept.new ≡ first_of kept.old (spec.typing site scope.now e.now).faults) }
{
    if height_of(e) > MOST_HEIGHT {
        return Err(NoMemory);
    }
    typing::type_in(alloc, e, scope, site, kept)
}

/// What a type tree means, if it is a type. `sizes` says whether a size may stand there.
pub fn mean_in(
    alloc: Global,
    tree: &TypeTree,
    scope: &Scope,
    site: Site,
    sizes: bool,
    kept: &mut Option<Fault>,
) -> Result<Option<Meant>, NoMemory>
    ensures made { IfOk result (λ m. m ≡ (spec.reading site scope.now tree.now sizes).made) }
    ensures noted { OnOk result (kept.new ≡ first_of kept.old (spec.reading site scope.now tree.now sizes).faults) }
{
    if type_height_of(tree) > MOST_HEIGHT {
        return Err(NoMemory);
    }
    typing::mean_in(alloc, tree, scope, site, sizes, kept)
}
