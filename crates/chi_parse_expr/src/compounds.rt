//! Types of several types.
ghost use Rattle.std.specs.Prelude.{◌^◌, ◌<◌, ◌≤◌, length, ◌++◌};
ghost use Rattle.chi_grammar.specs.Rules.{part, many, maybe, ◌∣◌};
ghost use Rattle.chi_grammar.specs.Reads.{Reads};
ghost use Rattle.chi_tree.specs.Tables.{table};
ghost use Rattle.chi_tree.specs.Rules.{grammar, sign};
ghost use Rattle.chi_tree.specs.View.{type_of, carried_of, formals_of, more_formals_of, formal_of, way_in};
ghost use Rattle.chi_token.specs.declared.sign.Sign.TheVariants.{Bang, Question};
ghost use Rattle.chi_grammar.specs.declared.room.Room.{Room};
ghost use Rattle.chi_tree.specs.Parts as s;

use crate::nodes::way_of;
use crate::types::nested_type;
use chi_base::{Boxed, Items};
use chi_grammar::{Nesting, ParseFault, Room};
use chi_parse_look::classes::{
    CHAN, COLON, COMMA, DICT, LEFT_PAREN, RIGHT_PAREN, SEMICOLON, TUPLE, VOID, WAY_SIGNS,
};
use chi_parse_look::{enter, is_next, take, take_name, take_one_of};
use chi_token::Spanned;
use chi_tree::{Formal, TypeTree, Way};
use std::alloc::Global;

#[cycle(expr)]
pub fn dict_type(
    alloc: Global,
    tokens: &[Spanned],
    at: u32,
    room: Room,
) -> Result<(TypeTree, u32), ParseFault>
    requires short { length tokens.now < 2 ^ 32 }
    requires inside { at ≤ length tokens.now }
    ensures { Reads grammar table tokens.now type_of room (part s.DictType) at result }
{
    let (word, start) = take(tokens, at, DICT)?;
    let inner = enter(tokens, start, room, Nesting::Expression, &[LEFT_PAREN])?;
    let (_, left) = take(tokens, start, LEFT_PAREN)?;
    let (key, middle) = nested_type(alloc, tokens, left, inner)?;
    let (_, next) = take(tokens, middle, COLON)?;
    let (value, right) = nested_type(alloc, tokens, next, inner)?;
    let (_, end) = take(tokens, right, RIGHT_PAREN)?;
    Ok((
        TypeTree::Dict {
            place: word.place,
            key,
            value,
        },
        end,
    ))
}

#[cycle(expr)]
pub fn tuple_type(
    alloc: Global,
    tokens: &[Spanned],
    at: u32,
    room: Room,
) -> Result<(TypeTree, u32), ParseFault>
    requires short { length tokens.now < 2 ^ 32 }
    requires inside { at ≤ length tokens.now }
    ensures { Reads grammar table tokens.now type_of room (part s.TupleType) at result }
{
    let (word, start) = take(tokens, at, TUPLE)?;
    let inner = enter(tokens, start, room, Nesting::Expression, &[LEFT_PAREN])?;
    let (_, left) = take(tokens, start, LEFT_PAREN)?;
    let (formals, right) = fields(alloc, tokens, left, inner)?;
    let (_, end) = take(tokens, right, RIGHT_PAREN)?;
    Ok((
        TypeTree::Tuple {
            place: word.place,
            fields: formals,
        },
        end,
    ))
}

#[cycle(expr)]
fn fields(
    alloc: Global,
    tokens: &[Spanned],
    at: u32,
    room: Room,
) -> Result<(Items<Formal>, u32), ParseFault>
    requires short { length tokens.now < 2 ^ 32 }
    requires inside { at ≤ length tokens.now }
    ensures { Reads grammar table tokens.now formals_of room (part s.Fields) at result }
{
    let (ty, middle) = nested_type(alloc, tokens, at, room)?;
    let (name, next) = take_name(alloc, tokens, middle)?;
    let (second, last) = more_field(alloc, tokens, next, room)?;
    let first = Formal { ty: Some(ty), name };
    let found = vec![in alloc; first, second]?;
    more_fields(alloc, tokens, last, room, found)
}

#[cycle(expr)]
fn more_fields(
    alloc: Global,
    tokens: &[Spanned],
    at: u32,
    room: Room,
    mut found: Vec<Formal>,
) -> Result<(Items<Formal>, u32), ParseFault>
    requires short { length tokens.now < 2 ^ 32 }
    requires inside { at ≤ length tokens.now }
    ensures { Reads grammar table tokens.now (λ t. found.items ++ more_formals_of t) room (many (part s.MoreField)) at result }
{
    let mut end = at;
    'turn: while is_next(tokens, end, &[COMMA, SEMICOLON]) {
        let (one, after) = more_field(alloc, tokens, end, room)?;
        found.push(one)?;
        end = after;
    }
    let items = Items::of(alloc, found)?;
    Ok((items, end))
}

#[cycle(expr)]
fn more_field(
    alloc: Global,
    tokens: &[Spanned],
    at: u32,
    room: Room,
) -> Result<(Formal, u32), ParseFault>
    requires short { length tokens.now < 2 ^ 32 }
    requires inside { at ≤ length tokens.now }
    ensures { Reads grammar table tokens.now formal_of room (part s.MoreField) at result }
{
    if is_next(tokens, at, &[COMMA]) {
        let (_, start) = take(tokens, at, COMMA)?;
        let (name, end) = take_name(alloc, tokens, start)?;
        return Ok((Formal { ty: None, name }, end));
    }
    let (_, next) = take(tokens, at, SEMICOLON)?;
    let (ty, middle) = nested_type(alloc, tokens, next, room)?;
    let (name, end) = take_name(alloc, tokens, middle)?;
    Ok((Formal { ty: Some(ty), name }, end))
}

#[cycle(expr)]
pub fn chan_type(
    alloc: Global,
    tokens: &[Spanned],
    at: u32,
    room: Room,
) -> Result<(TypeTree, u32), ParseFault>
    requires short { length tokens.now < 2 ^ 32 }
    requires inside { at ≤ length tokens.now }
    ensures { Reads grammar table tokens.now type_of room (part s.ChanType) at result }
{
    let (word, start) = take(tokens, at, CHAN)?;
    let (way, middle) = channel_way(tokens, start)?;
    let (sent, end) = carried(alloc, tokens, middle, room)?;
    Ok((
        TypeTree::Chan {
            place: word.place,
            way,
            carried: sent,
        },
        end,
    ))
}

fn channel_way(tokens: &[Spanned], at: u32) -> Result<(Way, u32), ParseFault>
    requires short { length tokens.now < 2 ^ 32 }
    requires inside { at ≤ length tokens.now }
    ensures { (room : Room) → Reads grammar table tokens.now way_in room (maybe (sign Bang ∣ sign Question)) at result }
{
    if is_next(tokens, at, &WAY_SIGNS) {
        let (word, end) = take_one_of(tokens, at, &WAY_SIGNS)?;
        return Ok((way_of(&word.token), end));
    }
    Ok((Way::Both, at))
}

#[cycle(expr)]
fn carried(
    alloc: Global,
    tokens: &[Spanned],
    at: u32,
    room: Room,
) -> Result<(Option<Boxed<TypeTree>>, u32), ParseFault>
    requires short { length tokens.now < 2 ^ 32 }
    requires inside { at ≤ length tokens.now }
    ensures { Reads grammar table tokens.now carried_of room (part s.Carried) at result }
{
    if is_next(tokens, at, &[VOID]) {
        let (_, end) = take(tokens, at, VOID)?;
        return Ok((None, end));
    }
    let (sent, end) = nested_type(alloc, tokens, at, room)?;
    Ok((Some(sent), end))
}
