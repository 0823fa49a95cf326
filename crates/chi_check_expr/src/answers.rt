//! The answers for one expression and for one type: what it comes to, or the first broken rule.

ghost use Rattle.chi_check_types.specs.declared.site.Site.{Site};
ghost use Rattle.chi_check_expr.specs.Answers.{Answers, CoreAndType, TypeAndDefault};
ghost use Rattle.chi_check_expr.specs.Clean.{Clean, HaveDefaults};
ghost use Rattle.chi_check_expr.specs.Typing as spec;

use crate::entering::{mean_in, type_in};
use chi_check_types::{Fault, Made, Meant, Scope, Site, TypeFault, default_of};
use chi_core::CExpr;
use chi_tree::{Expr, TypeTree};
use chi_types::Ty;
use std::alloc::Global;

/// The core and the type of an expression.
#[tactic(auto, using(crate::proofs::Answered::expr_made, crate::proofs::Answered::expr_unmade))]
pub fn type_expr(
    alloc: Global,
    tree: &Expr,
    scope: &Scope,
    site: Site,
) -> Result<(CExpr, Ty), TypeFault>
    requires clean { Clean scope.now }
    ensures answer { Answers CoreAndType result (spec.typing site scope.now tree.now) }
{
    let mut kept = None;
    let made = type_in(alloc, tree, scope, site, &mut kept)?;
    match kept {
        Some(Fault { rule, place }) => Err(TypeFault::Broken { rule, place }),
        None => match made {
            Some(Made { core, ty }) => Ok((core, ty)),
            None => unreachable!(),
        },
    }
}

/// The type that a type tree means, and the expression of its default. `local` says that it is that of
/// a local variable, whose lists may have sizes.
#[tactic(auto, using(crate::proofs::Answered::type_made, crate::proofs::Answered::type_unmade, crate::proofs::HasDefaults::meant_default))]
pub fn type_tree(
    alloc: Global,
    tree: &TypeTree,
    scope: &Scope,
    site: Site,
    local: bool,
) -> Result<(Ty, CExpr), TypeFault>
    requires clean { Clean scope.now }
    requires defaults { HaveDefaults scope.now }
    ensures answer { Answers TypeAndDefault result (spec.reading site scope.now tree.now local) }
{
    let mut kept = None;
    let meant = mean_in(alloc, tree, scope, site, local, &mut kept)?;
    match kept {
        Some(Fault { rule, place }) => Err(TypeFault::Broken { rule, place }),
        None => match meant {
            Some(Meant { ty, sizes }) => match default_of(alloc, &ty, sizes)? {
                Some(default) => Ok((ty, default)),
                None => unreachable!(),
            },
            None => unreachable!(),
        },
    }
}
