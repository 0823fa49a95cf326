//! Prefixes and powers.
ghost use Rattle.std.specs.Prelude.{◌^◌, ◌<◌, ◌≤◌, length};
ghost use Rattle.chi_grammar.specs.Rules.{part};
ghost use Rattle.chi_grammar.specs.Reads.{Reads};
ghost use Rattle.chi_tree.specs.Tables.{table};
ghost use Rattle.chi_tree.specs.Rules.{grammar, nested};
ghost use Rattle.chi_tree.specs.View.{expr_of, powered};
ghost use Rattle.chi_tree.specs.Parts as s;

use crate::nodes::prefix_of;
use crate::postfixes::post;
use chi_base::Boxed;
use chi_grammar::{Nesting, ParseFault, Room};
use chi_parse_look::classes::{CARET, FIRST_OF_UNARY, PREFIX_SIGNS};
use chi_parse_look::{boxed, enter, is_next, take, take_one_of};
use chi_token::Spanned;
use chi_tree::Expr;
use std::alloc::Global;

#[cycle(expr)]
pub fn unary(
    alloc: Global,
    tokens: &[Spanned],
    at: u32,
    room: Room,
) -> Result<(Expr, u32), ParseFault>
    requires short { length tokens.now < 2 ^ 32 }
    requires inside { at ≤ length tokens.now }
    ensures { Reads grammar table tokens.now expr_of room (part s.Unary) at result }
{
    if is_next(tokens, at, &PREFIX_SIGNS) {
        return prefixed(alloc, tokens, at, room);
    }
    power(alloc, tokens, at, room)
}

#[cycle(expr)]
fn prefixed(
    alloc: Global,
    tokens: &[Spanned],
    at: u32,
    room: Room,
) -> Result<(Expr, u32), ParseFault>
    requires short { length tokens.now < 2 ^ 32 }
    requires inside { at ≤ length tokens.now }
    ensures { Reads grammar table tokens.now expr_of room (nested (part s.Prefixed)) at result }
{
    let inner = enter(tokens, at, room, Nesting::Expression, &PREFIX_SIGNS)?;
    let (word, start) = take_one_of(tokens, at, &PREFIX_SIGNS)?;
    let (operand, end) = boxed(alloc, unary(alloc, tokens, start, inner))?;
    Ok((
        Expr::Prefix {
            sign: prefix_of(&word.token),
            place: word.place,
            operand,
        },
        end,
    ))
}

#[cycle(expr)]
fn power(alloc: Global, tokens: &[Spanned], at: u32, room: Room) -> Result<(Expr, u32), ParseFault>
    requires short { length tokens.now < 2 ^ 32 }
    requires inside { at ≤ length tokens.now }
    ensures { Reads grammar table tokens.now expr_of room (part s.Power) at result }
{
    let (base, middle) = post(alloc, tokens, at, room)?;
    if is_next(tokens, middle, &[CARET]) {
        let boxed = Boxed::new(alloc, base)?;
        return power_link(alloc, tokens, middle, room, boxed);
    }
    Ok((base, middle))
}

#[cycle(expr)]
fn power_link(
    alloc: Global,
    tokens: &[Spanned],
    at: u32,
    room: Room,
    base: Boxed<Expr>,
) -> Result<(Expr, u32), ParseFault>
    requires short { length tokens.now < 2 ^ 32 }
    requires inside { at ≤ length tokens.now }
    ensures { Reads grammar table tokens.now (powered base) room (part s.PowerLink) at result }
{
    let (word, start) = take(tokens, at, CARET)?;
    let inner = enter(tokens, start, room, Nesting::Expression, &FIRST_OF_UNARY)?;
    let (exponent, end) = boxed(alloc, unary(alloc, tokens, start, inner))?;
    Ok((
        Expr::Power {
            base,
            place: word.place,
            exponent,
        },
        end,
    ))
}
