//! The first tokens of expressions and of types.

ghost use Rattle.std.specs.Prelude.{◌≡◌};
ghost use Rattle.chi_check_stat_rules.specs.Places as spec;

use chi_token::Place;
use chi_tree::{Expr, TypeTree};

/// The place of an expression's first token.
#[cycle(expr_place)]
pub fn expr_place(e: &Expr) -> Place
    ensures { result ≡ spec.expr_place e.now }
{
    match e {
        Expr::Chain { first, .. } => expr_place(first.get()),
        Expr::Relation { left, .. } => expr_place(left.get()),
        Expr::Power { base, .. } => expr_place(base.get()),
        Expr::Part { whole, .. } => expr_place(whole.get()),
        Expr::Time(place) => *place,
        Expr::Named(name) => name.place,
        Expr::Call { name, .. } => name.place,
        Expr::Prefix { place, .. }
        | Expr::Int { place, .. }
        | Expr::Real { place, .. }
        | Expr::Text { place, .. }
        | Expr::Bool { place, .. }
        | Expr::Cast { place, .. }
        | Expr::Round { place, .. }
        | Expr::TupleOf { place, .. }
        | Expr::ListOf { place, .. }
        | Expr::SetOf { place, .. }
        | Expr::DictOf { place, .. }
        | Expr::EmptyList { place, .. }
        | Expr::EmptySet { place, .. }
        | Expr::EmptyDict { place, .. } => *place,
    }
}

/// The place of a type's first token.
pub fn type_place(tree: &TypeTree) -> Place
    ensures { result ≡ spec.type_place tree.now }
{
    match tree {
        TypeTree::Defined(name) => name.place,
        TypeTree::Word { place, .. }
        | TypeTree::List { place, .. }
        | TypeTree::Set { place, .. }
        | TypeTree::Dist { place, .. }
        | TypeTree::Dict { place, .. }
        | TypeTree::Tuple { place, .. }
        | TypeTree::Chan { place, .. } => *place,
    }
}
