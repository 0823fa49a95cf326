//! Expressions of one token or in brackets.
ghost use Rattle.std.specs.Prelude.{◌^◌, ◌<◌, ◌≤◌, length};
ghost use Rattle.chi_grammar.specs.Rules.{part, maybe};
ghost use Rattle.chi_grammar.specs.Reads.{Reads};
ghost use Rattle.chi_tree.specs.Tables.{table};
ghost use Rattle.chi_tree.specs.Rules.{grammar, nested};
ghost use Rattle.chi_tree.specs.View.{expr_of, bracketed};
ghost use Rattle.chi_grammar.specs.declared.room.Room.{Room};
ghost use Rattle.chi_tree.specs.Parts as s;

use crate::blanks::blank;
use crate::braces::curly;
use crate::levels::expr;
use crate::nodes::{cast_of, literal_of};
use crate::sequences::{arguments, exprs, exprs_after};
use chi_base::Boxed;
use chi_grammar::{Nesting, ParseFault, Room};
use chi_parse_look::classes::{
    CAST_WORDS, COMMA, LEFT_BRACE, LEFT_BRACKET, LEFT_PAREN, LITERALS, NAME, RIGHT_BRACKET,
    RIGHT_PAREN,
};
use chi_parse_look::{boxed, enter, followed, is_next, take, take_name, take_one_of};
use chi_token::{Place, Spanned};
use chi_tree::Expr;
use std::alloc::Global;

#[cycle(expr)]
pub fn primary(
    alloc: Global,
    tokens: &[Spanned],
    at: u32,
    room: Room,
) -> Result<(Expr, u32), ParseFault>
    requires short { length tokens.now < 2 ^ 32 }
    requires inside { at ≤ length tokens.now }
    ensures { Reads grammar table tokens.now expr_of room (part s.Primary) at result }
{
    if is_next(tokens, at, &LITERALS) {
        return literal(tokens, at);
    }
    if is_next(tokens, at, &[NAME]) {
        return named(alloc, tokens, at, room);
    }
    if is_next(tokens, at, &CAST_WORDS) {
        return cast(alloc, tokens, at, room);
    }
    if is_next(tokens, at, &[LEFT_PAREN]) {
        return round(alloc, tokens, at, room);
    }
    if is_next(tokens, at, &[LEFT_BRACKET]) {
        return square(alloc, tokens, at, room);
    }
    if is_next(tokens, at, &[LEFT_BRACE]) {
        return curly(alloc, tokens, at, room);
    }
    blank(alloc, tokens, at, room)
}

fn literal(tokens: &[Spanned], at: u32) -> Result<(Expr, u32), ParseFault>
    requires short { length tokens.now < 2 ^ 32 }
    requires inside { at ≤ length tokens.now }
    ensures { (room : Room) → Reads grammar table tokens.now expr_of room (part s.Literal) at result }
{
    let (word, end) = take_one_of(tokens, at, &LITERALS)?;
    let value = literal_of(word)?;
    Ok((value, end))
}

#[cycle(expr)]
fn named(alloc: Global, tokens: &[Spanned], at: u32, room: Room) -> Result<(Expr, u32), ParseFault>
    requires short { length tokens.now < 2 ^ 32 }
    requires inside { at ≤ length tokens.now }
    ensures { Reads grammar table tokens.now expr_of room (part s.Named) at result }
{
    let (name, middle) = take_name(alloc, tokens, at)?;
    if is_next(tokens, middle, &[LEFT_PAREN]) {
        let (values, end) = arguments(alloc, tokens, middle, room)?;
        return Ok((
            Expr::Call {
                name,
                arguments: values,
            },
            end,
        ));
    }
    Ok((Expr::Named(name), middle))
}

#[cycle(expr)]
fn cast(alloc: Global, tokens: &[Spanned], at: u32, room: Room) -> Result<(Expr, u32), ParseFault>
    requires short { length tokens.now < 2 ^ 32 }
    requires inside { at ≤ length tokens.now }
    ensures { Reads grammar table tokens.now expr_of room (part s.Cast) at result }
{
    let (word, start) = take_one_of(tokens, at, &CAST_WORDS)?;
    let inner = enter(tokens, start, room, Nesting::Expression, &[LEFT_PAREN])?;
    let (_, left) = take(tokens, start, LEFT_PAREN)?;
    let (operand, right) = boxed(alloc, expr(alloc, tokens, left, inner))?;
    let (_, end) = take(tokens, right, RIGHT_PAREN)?;
    Ok((
        Expr::Cast {
            word: cast_of(&word.token),
            place: word.place,
            operand,
        },
        end,
    ))
}

#[cycle(expr)]
fn round(alloc: Global, tokens: &[Spanned], at: u32, room: Room) -> Result<(Expr, u32), ParseFault>
    requires short { length tokens.now < 2 ^ 32 }
    requires inside { at ≤ length tokens.now }
    ensures { Reads grammar table tokens.now expr_of room (nested (part s.Round)) at result }
{
    let inner = enter(tokens, at, room, Nesting::Expression, &[LEFT_PAREN])?;
    let (word, start) = take(tokens, at, LEFT_PAREN)?;
    let (first, middle) = expr(alloc, tokens, start, inner)?;
    let (value, last) = tuple_or_round(alloc, tokens, middle, inner, word.place, first)?;
    let (value, end) = followed(value, tokens, last, RIGHT_PAREN)?;
    Ok((value, end))
}

#[cycle(expr)]
fn tuple_or_round(
    alloc: Global,
    tokens: &[Spanned],
    at: u32,
    room: Room,
    place: Place,
    first: Expr,
) -> Result<(Expr, u32), ParseFault>
    requires short { length tokens.now < 2 ^ 32 }
    requires inside { at ≤ length tokens.now }
    ensures { Reads grammar table tokens.now (bracketed place first) room (maybe (part s.Others)) at result }
{
    if is_next(tokens, at, &[COMMA]) {
        let (first, start) = followed(first, tokens, at, COMMA)?;
        let found = vec![in alloc; first]?;
        let (values, end) = exprs_after(alloc, tokens, start, room, found)?;
        return Ok((
            Expr::TupleOf {
                place,
                parts: values,
            },
            end,
        ));
    }
    let boxed = Boxed::new(alloc, first)?;
    Ok((
        Expr::Round {
            place,
            inner: boxed,
        },
        at,
    ))
}

#[cycle(expr)]
fn square(alloc: Global, tokens: &[Spanned], at: u32, room: Room) -> Result<(Expr, u32), ParseFault>
    requires short { length tokens.now < 2 ^ 32 }
    requires inside { at ≤ length tokens.now }
    ensures { Reads grammar table tokens.now expr_of room (nested (part s.Square)) at result }
{
    let inner = enter(tokens, at, room, Nesting::Expression, &[LEFT_BRACKET])?;
    let (word, start) = take(tokens, at, LEFT_BRACKET)?;
    let (values, last) = exprs(alloc, tokens, start, inner)?;
    let (_, end) = take(tokens, last, RIGHT_BRACKET)?;
    Ok((
        Expr::ListOf {
            place: word.place,
            elements: values,
        },
        end,
    ))
}
