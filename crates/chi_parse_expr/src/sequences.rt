//! Expressions between commas.
ghost use Rattle.std.specs.Prelude.{◌^◌, ◌<◌, ◌≤◌, length, ◌++◌};
ghost use Rattle.chi_grammar.specs.Rules.{part, many, maybe, ◌▸◌};
ghost use Rattle.chi_grammar.specs.Reads.{Reads};
ghost use Rattle.chi_tree.specs.Tables.{table};
ghost use Rattle.chi_tree.specs.Rules.{grammar, sign};
ghost use Rattle.chi_tree.specs.View.{arguments_of, exprs_of, more_exprs_of};
ghost use Rattle.chi_token.specs.declared.sign.Sign.TheVariants.{Comma};
ghost use Rattle.chi_tree.specs.Parts as s;

use crate::levels::expr;
use chi_base::Items;
use chi_grammar::{Nesting, ParseFault, Room};
use chi_parse_look::classes::{COMMA, FIRST_OF_EXPR, LEFT_PAREN, RIGHT_PAREN};
use chi_parse_look::{enter, is_next, take};
use chi_token::Spanned;
use chi_tree::Expr;
use std::alloc::Global;

/// The arguments of a call with their brackets.
#[cycle(expr)]
pub fn arguments(
    alloc: Global,
    tokens: &[Spanned],
    at: u32,
    room: Room,
) -> Result<(Items<Expr>, u32), ParseFault>
    requires short { length tokens.now < 2 ^ 32 }
    requires inside { at ≤ length tokens.now }
    ensures { Reads grammar table tokens.now arguments_of room (part s.Arguments) at result }
{
    let inner = enter(tokens, at, room, Nesting::Expression, &[LEFT_PAREN])?;
    let (_, start) = take(tokens, at, LEFT_PAREN)?;
    let (values, last) = optional_exprs(alloc, tokens, start, inner)?;
    let (_, end) = take(tokens, last, RIGHT_PAREN)?;
    Ok((values, end))
}

#[cycle(expr)]
fn optional_exprs(
    alloc: Global,
    tokens: &[Spanned],
    at: u32,
    room: Room,
) -> Result<(Items<Expr>, u32), ParseFault>
    requires short { length tokens.now < 2 ^ 32 }
    requires inside { at ≤ length tokens.now }
    ensures { Reads grammar table tokens.now exprs_of room (maybe (part s.Exprs)) at result }
{
    if is_next(tokens, at, &FIRST_OF_EXPR) {
        return exprs(alloc, tokens, at, room);
    }
    let items = Items::of(alloc, Vec::new(alloc))?;
    Ok((items, at))
}

/// Expressions between commas.
#[cycle(expr)]
pub fn exprs(
    alloc: Global,
    tokens: &[Spanned],
    at: u32,
    room: Room,
) -> Result<(Items<Expr>, u32), ParseFault>
    requires short { length tokens.now < 2 ^ 32 }
    requires inside { at ≤ length tokens.now }
    ensures { Reads grammar table tokens.now exprs_of room (part s.Exprs) at result }
{
    exprs_after(alloc, tokens, at, room, Vec::new(alloc))
}

#[cycle(expr)]
pub fn exprs_after(
    alloc: Global,
    tokens: &[Spanned],
    at: u32,
    room: Room,
    mut found: Vec<Expr>,
) -> Result<(Items<Expr>, u32), ParseFault>
    requires short { length tokens.now < 2 ^ 32 }
    requires inside { at ≤ length tokens.now }
    ensures { Reads grammar table tokens.now (λ t. found.items ++ exprs_of t) room (part s.Exprs) at result }
{
    let (first, middle) = expr(alloc, tokens, at, room)?;
    found.push(first)?;
    more_exprs(alloc, tokens, middle, room, found)
}

/// Further expressions, each after a comma, put after those that were found before.
#[cycle(expr)]
pub fn more_exprs(
    alloc: Global,
    tokens: &[Spanned],
    at: u32,
    room: Room,
    mut found: Vec<Expr>,
) -> Result<(Items<Expr>, u32), ParseFault>
    requires short { length tokens.now < 2 ^ 32 }
    requires inside { at ≤ length tokens.now }
    ensures { Reads grammar table tokens.now (λ t. found.items ++ more_exprs_of t) room (many (sign Comma ▸ part s.Expr)) at result }
{
    let mut end = at;
    'turn: while is_next(tokens, end, &[COMMA]) {
        let (_, start) = take(tokens, end, COMMA)?;
        let (one, after) = expr(alloc, tokens, start, room)?;
        found.push(one)?;
        end = after;
    }
    let items = Items::of(alloc, found)?;
    Ok((items, end))
}
