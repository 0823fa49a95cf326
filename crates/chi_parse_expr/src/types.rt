//! Types.
ghost use Rattle.std.specs.Prelude.{◌^◌, ◌<◌, ◌≤◌, length};
ghost use Rattle.chi_grammar.specs.Rules.{part, maybe, ◌▸◌};
ghost use Rattle.chi_grammar.specs.Reads.{Reads};
ghost use Rattle.chi_tree.specs.Tables.{table};
ghost use Rattle.chi_tree.specs.Rules.{grammar, nested, sign};
ghost use Rattle.chi_tree.specs.View.{type_of, size_of};
ghost use Rattle.chi_token.specs.declared.sign.Sign.TheVariants.{LeftParen, RightParen};
ghost use Rattle.chi_grammar.specs.declared.room.Room.{Room};
ghost use Rattle.chi_tree.specs.Parts as s;

use crate::compounds::{chan_type, dict_type, tuple_type};
use crate::levels::expr;
use crate::nodes::type_word_of;
use chi_base::Boxed;
use chi_grammar::{Nesting, ParseFault, Room};
use chi_parse_look::classes::{
    DICT, DIST, FIRST_OF_BUILT_TYPE, FIRST_OF_TYPE, LEFT_PAREN, LIST, RIGHT_PAREN, SET, TUPLE,
    TYPE_WORDS,
};
use chi_parse_look::{boxed, enter, is_next, take, take_name, take_one_of};
use chi_token::Spanned;
use chi_tree::{Expr, TypeTree};
use std::alloc::Global;

/// A type.
#[cycle(expr)]
pub fn any_type(
    alloc: Global,
    tokens: &[Spanned],
    at: u32,
    room: Room,
) -> Result<(TypeTree, u32), ParseFault>
    requires short { length tokens.now < 2 ^ 32 }
    requires inside { at ≤ length tokens.now }
    ensures { Reads grammar table tokens.now type_of room (part s.AnyType) at result }
{
    if is_next(tokens, at, &FIRST_OF_BUILT_TYPE) {
        return built_type(alloc, tokens, at, room);
    }
    named_type(alloc, tokens, at)
}

/// A type, in a box of its own.
pub fn boxed_type(
    alloc: Global,
    tokens: &[Spanned],
    at: u32,
    room: Room,
) -> Result<(Boxed<TypeTree>, u32), ParseFault>
    requires short { length tokens.now < 2 ^ 32 }
    requires inside { at ≤ length tokens.now }
    ensures { Reads grammar table tokens.now type_of room (part s.AnyType) at result }
{
    boxed(alloc, any_type(alloc, tokens, at, room))
}

#[cycle(expr)]
pub fn nested_type(
    alloc: Global,
    tokens: &[Spanned],
    at: u32,
    room: Room,
) -> Result<(Boxed<TypeTree>, u32), ParseFault>
    requires short { length tokens.now < 2 ^ 32 }
    requires inside { at ≤ length tokens.now }
    ensures { Reads grammar table tokens.now type_of room (nested (part s.AnyType)) at result }
{
    let inner = enter(tokens, at, room, Nesting::Expression, &FIRST_OF_TYPE)?;
    boxed(alloc, any_type(alloc, tokens, at, inner))
}

fn named_type(alloc: Global, tokens: &[Spanned], at: u32) -> Result<(TypeTree, u32), ParseFault>
    requires short { length tokens.now < 2 ^ 32 }
    requires inside { at ≤ length tokens.now }
    ensures { (room : Room) → Reads grammar table tokens.now type_of room (part s.NamedType) at result }
{
    let (name, end) = take_name(alloc, tokens, at)?;
    Ok((TypeTree::Defined(name), end))
}

/// A type that is no name.
#[cycle(expr)]
pub fn built_type(
    alloc: Global,
    tokens: &[Spanned],
    at: u32,
    room: Room,
) -> Result<(TypeTree, u32), ParseFault>
    requires short { length tokens.now < 2 ^ 32 }
    requires inside { at ≤ length tokens.now }
    ensures { Reads grammar table tokens.now type_of room (part s.BuiltType) at result }
{
    if is_next(tokens, at, &TYPE_WORDS) {
        return word_type(tokens, at);
    }
    if is_next(tokens, at, &[LIST]) {
        return list_type(alloc, tokens, at, room);
    }
    if is_next(tokens, at, &[SET]) {
        return set_type(alloc, tokens, at, room);
    }
    if is_next(tokens, at, &[DIST]) {
        return dist_type(alloc, tokens, at, room);
    }
    if is_next(tokens, at, &[DICT]) {
        return dict_type(alloc, tokens, at, room);
    }
    if is_next(tokens, at, &[TUPLE]) {
        return tuple_type(alloc, tokens, at, room);
    }
    chan_type(alloc, tokens, at, room)
}

fn word_type(tokens: &[Spanned], at: u32) -> Result<(TypeTree, u32), ParseFault>
    requires short { length tokens.now < 2 ^ 32 }
    requires inside { at ≤ length tokens.now }
    ensures { (room : Room) → Reads grammar table tokens.now type_of room (part s.WordType) at result }
{
    let (word, end) = take_one_of(tokens, at, &TYPE_WORDS)?;
    Ok((
        TypeTree::Word {
            word: type_word_of(&word.token),
            place: word.place,
        },
        end,
    ))
}

#[cycle(expr)]
fn list_type(
    alloc: Global,
    tokens: &[Spanned],
    at: u32,
    room: Room,
) -> Result<(TypeTree, u32), ParseFault>
    requires short { length tokens.now < 2 ^ 32 }
    requires inside { at ≤ length tokens.now }
    ensures { Reads grammar table tokens.now type_of room (part s.ListType) at result }
{
    let (word, start) = take(tokens, at, LIST)?;
    let (size, middle) = list_size(alloc, tokens, start, room)?;
    let (of, end) = nested_type(alloc, tokens, middle, room)?;
    Ok((
        TypeTree::List {
            place: word.place,
            size,
            element: of,
        },
        end,
    ))
}

#[cycle(expr)]
fn list_size(
    alloc: Global,
    tokens: &[Spanned],
    at: u32,
    room: Room,
) -> Result<(Option<Boxed<Expr>>, u32), ParseFault>
    requires short { length tokens.now < 2 ^ 32 }
    requires inside { at ≤ length tokens.now }
    ensures { Reads grammar table tokens.now size_of room (maybe (nested (sign LeftParen ▸ part s.Expr ▸ sign RightParen))) at result }
{
    if is_next(tokens, at, &[LEFT_PAREN]) {
        let inner = enter(tokens, at, room, Nesting::Expression, &[LEFT_PAREN])?;
        let (_, start) = take(tokens, at, LEFT_PAREN)?;
        let (size, last) = boxed(alloc, expr(alloc, tokens, start, inner))?;
        let (_, end) = take(tokens, last, RIGHT_PAREN)?;
        return Ok((Some(size), end));
    }
    Ok((None, at))
}

#[cycle(expr)]
fn set_type(
    alloc: Global,
    tokens: &[Spanned],
    at: u32,
    room: Room,
) -> Result<(TypeTree, u32), ParseFault>
    requires short { length tokens.now < 2 ^ 32 }
    requires inside { at ≤ length tokens.now }
    ensures { Reads grammar table tokens.now type_of room (part s.SetType) at result }
{
    let (word, start) = take(tokens, at, SET)?;
    let (of, end) = nested_type(alloc, tokens, start, room)?;
    Ok((
        TypeTree::Set {
            place: word.place,
            element: of,
        },
        end,
    ))
}

#[cycle(expr)]
fn dist_type(
    alloc: Global,
    tokens: &[Spanned],
    at: u32,
    room: Room,
) -> Result<(TypeTree, u32), ParseFault>
    requires short { length tokens.now < 2 ^ 32 }
    requires inside { at ≤ length tokens.now }
    ensures { Reads grammar table tokens.now type_of room (part s.DistType) at result }
{
    let (word, start) = take(tokens, at, DIST)?;
    let (of, end) = nested_type(alloc, tokens, start, room)?;
    Ok((
        TypeTree::Dist {
            place: word.place,
            drawn: of,
        },
        end,
    ))
}
