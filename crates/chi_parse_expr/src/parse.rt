//! The parsers of an expression and of a type.
ghost use Rattle.std.specs.Prelude.{◌≡◌, ◌^◌, ◌<◌, ◌≤◌, length};
ghost use Rattle.chi_grammar.specs.Exact.{Parses};
ghost use Rattle.chi_grammar.specs.Rules.{part};
ghost use Rattle.chi_tree.specs.Limits.{whole_room};
ghost use Rattle.chi_tree.specs.Parts as s;
ghost use Rattle.chi_tree.specs.Rules.{grammar};
ghost use Rattle.chi_tree.specs.View.{expr_of, type_of};
ghost use Rattle.chi_parse_expr.specs.Nested.{room_inside};

use crate::levels::expr;
use crate::types::any_type;
use chi_grammar::{ParseFault, Room};
use chi_token::Spanned;
use chi_tree::{Expr, TypeTree, whole_room};
use std::alloc::Global;

/// The room that is left inside levels of expressions.
fn room_inside(nest: u32) -> Room
    requires { nest ≤ whole_room.expressions }
    ensures { result ≡ room_inside nest }
{
    let whole = whole_room();
    Room {
        blocks: whole.blocks,
        expressions: whole.expressions - nest,
    }
}

/// The longest expression that stands at an index, inside levels of expressions, with the index after it.
pub fn parse_expr(
    alloc: Global,
    tokens: &[Spanned],
    at: u32,
    nest: u32,
) -> Result<(Expr, u32), ParseFault>
    requires short { length tokens.now < 2 ^ 32 }
    requires inside { at ≤ length tokens.now }
    requires shallow { nest ≤ whole_room.expressions }
    ensures { Parses grammar tokens.now expr_of (room_inside nest) (part s.Expr) at result }
{
    expr(alloc, tokens, at, room_inside(nest))
}

/// The longest type that stands at an index, inside levels of expressions, with the index after it.
pub fn parse_type(
    alloc: Global,
    tokens: &[Spanned],
    at: u32,
    nest: u32,
) -> Result<(TypeTree, u32), ParseFault>
    requires short { length tokens.now < 2 ^ 32 }
    requires inside { at ≤ length tokens.now }
    requires shallow { nest ≤ whole_room.expressions }
    ensures { Parses grammar tokens.now type_of (room_inside nest) (part s.AnyType) at result }
{
    any_type(alloc, tokens, at, room_inside(nest))
}
