ghost use Rattle.std.specs.Prelude.{◌^◌, ◌<◌, ◌≤◌, ◌∷◌, length};
ghost use Rattle.chi_grammar.specs.Rules.{many, maybe, part};
ghost use Rattle.chi_grammar.specs.Reads.{Reads};
ghost use Rattle.chi_tree.specs.Parts as s;
ghost use Rattle.chi_tree.specs.Rules.{grammar};
ghost use Rattle.chi_tree.specs.Tables.{table};
ghost use Rattle.chi_tree.specs.View.{formal_of, formals_of, more_formals_of};
ghost use Rattle.chi_tree.specs.Statements.{head_of, parameters_of};

use chi_base::Items;
use chi_grammar::{Nesting, ParseFault, Room};
use chi_parse_expr::{boxed_type, built_type};
use chi_parse_look::classes::{FIRST_OF_BUILT_TYPE, FIRST_OF_MORE_FORMAL, FIRST_OF_TYPE};
use chi_parse_look::{enter, is_next, joined, take, take_name};
use chi_token::{Sign, Spanned};
use chi_tree::{Class, Formal, Name, TypeTree};
use std::alloc::Global;

/// A formal after a first one: it has a type of its own after `;`, and that of the one before it after `,`.
fn more_formal(
    alloc: Global,
    tokens: &[Spanned],
    at: u32,
    room: Room,
) -> Result<(Formal, u32), ParseFault>
    requires short { length tokens.now < 2 ^ 32 }
    requires inside { at ≤ length tokens.now }
    ensures { Reads grammar table tokens.now formal_of room (part s.MoreFormal) at result }
{
    if is_next(tokens, at, &[Class::Sign(Sign::Comma)]) {
        let (_, start) = take(tokens, at, Class::Sign(Sign::Comma))?;
        let (name, end) = take_name(alloc, tokens, start)?;
        return Ok((Formal { ty: None, name }, end));
    }
    let (_, from) = take(tokens, at, Class::Sign(Sign::Semicolon))?;
    let (own, middle) = boxed_type(alloc, tokens, from, room)?;
    let (called, last) = take_name(alloc, tokens, middle)?;
    let formal = Formal {
        ty: Some(own),
        name: called,
    };
    Ok((formal, last))
}

/// The formals after a first one.
fn more_formals(
    alloc: Global,
    tokens: &[Spanned],
    at: u32,
    room: Room,
    first: Formal,
) -> Result<(Items<Formal>, u32), ParseFault>
    requires short { length tokens.now < 2 ^ 32 }
    requires inside { at ≤ length tokens.now }
    ensures { Reads grammar table tokens.now (λ fs. first ∷ more_formals_of fs) room (many (part s.MoreFormal)) at result }
{
    let mut formals = Vec::new(alloc);
    formals.push(first)?;
    let mut end = at;
    'turn: while is_next(tokens, end, &FIRST_OF_MORE_FORMAL) {
        let (next, stop) = more_formal(alloc, tokens, end, room)?;
        formals.push(next)?;
        end = stop;
    }
    Ok((Items::of(alloc, formals)?, end))
}

/// The formals between brackets, none where there are none.
fn formals(
    alloc: Global,
    tokens: &[Spanned],
    at: u32,
    room: Room,
) -> Result<(Items<Formal>, u32), ParseFault>
    requires short { length tokens.now < 2 ^ 32 }
    requires inside { at ≤ length tokens.now }
    ensures { Reads grammar table tokens.now formals_of room (maybe (part s.Formals)) at result }
{
    if !is_next(tokens, at, &FIRST_OF_TYPE) {
        return Ok((Items::of(alloc, Vec::new(alloc))?, at));
    }
    let (own, middle) = boxed_type(alloc, tokens, at, room)?;
    let (name, start) = take_name(alloc, tokens, middle)?;
    let first = Formal {
        ty: Some(own),
        name,
    };
    more_formals(alloc, tokens, start, room, first)
}

/// The formals with their brackets.
pub fn parameters(
    alloc: Global,
    tokens: &[Spanned],
    at: u32,
    room: Room,
) -> Result<(Items<Formal>, u32), ParseFault>
    requires short { length tokens.now < 2 ^ 32 }
    requires inside { at ≤ length tokens.now }
    ensures { Reads grammar table tokens.now parameters_of room (part s.Parameters) at result }
{
    let inner = enter(
        tokens,
        at,
        room,
        Nesting::Expression,
        &[Class::Sign(Sign::LeftParen)],
    )?;
    let (_, start) = take(tokens, at, Class::Sign(Sign::LeftParen))?;
    let (formals, middle) = formals(alloc, tokens, start, inner)?;
    let (_, end) = take(tokens, middle, Class::Sign(Sign::RightParen))?;
    Ok((formals, end))
}

/// A name, with the type before it where there is one.
pub type Head = (Option<TypeTree>, Name);

/// A name, with the type before it where there is one: of two names the first is a type.
pub fn head(
    alloc: Global,
    tokens: &[Spanned],
    at: u32,
    room: Room,
) -> Result<(Head, u32), ParseFault>
    requires short { length tokens.now < 2 ^ 32 }
    requires inside { at ≤ length tokens.now }
    ensures { Reads grammar table tokens.now head_of room (part s.Head) at result }
{
    if is_next(tokens, at, &FIRST_OF_BUILT_TYPE) {
        let (ty, middle) = built_type(alloc, tokens, at, room)?;
        let ((ty, name), end) = joined(ty, take_name(alloc, tokens, middle))?;
        return Ok(((Some(ty), name), end));
    }
    let (first, next) = take_name(alloc, tokens, at)?;
    if !is_next(tokens, next, &[Class::Name]) {
        return Ok(((None, first), next));
    }
    let (second, last) = take_name(alloc, tokens, next)?;
    Ok(((Some(TypeTree::Defined(first)), second), last))
}
