ghost use Rattle.std.specs.Prelude.{◌^◌, ◌<◌, ◌≤◌, length};
ghost use Rattle.chi_grammar.specs.Rules.{part, ◌▸◌};
ghost use Rattle.chi_grammar.specs.Reads.{Reads};
ghost use Rattle.chi_tree.specs.Parts as s;
ghost use Rattle.chi_token.specs.declared.sign.Sign.TheVariants.{Assign, LeftBrace, RightBrace};
ghost use Rattle.chi_tree.specs.Rules.{grammar, nested, sign};
ghost use Rattle.chi_tree.specs.Tables.{table};
ghost use Rattle.chi_tree.specs.Statements.{definition_of, item_of};
ghost use Rattle.chi_parse.specs.Rests.{callable_of, headed_of, values_of};

use crate::blocks::body;
use crate::declared::assigned;
use crate::formal::{Head, head, parameters};
use crate::semicolon::optional_semicolon;
use crate::walks::names;
use chi_base::Items;
use chi_grammar::{Nesting, ParseFault, Room};
use chi_parse_expr::any_type;
use chi_parse_look::{enter, is_next, joined, take, take_name};
use chi_token::{Keyword, Sign, Spanned};
use chi_tree::{Block, Class, Definition, Formal, Initial, Item, Name};
use std::alloc::Global;

/// Formals, and the block in which they are known.
type Callable = (Items<Formal>, Block);

fn enumeration(
    alloc: Global,
    tokens: &[Spanned],
    at: u32,
    room: Room,
) -> Result<(Definition, u32), ParseFault>
    requires short { length tokens.now < 2 ^ 32 }
    requires inside { at ≤ length tokens.now }
    ensures { Reads grammar table tokens.now definition_of room (part s.EnumDef) at result }
{
    let (word, start) = take(tokens, at, Class::Word(Keyword::EnumWord))?;
    let (name, middle) = take_name(alloc, tokens, start)?;
    let (values, end) = values(alloc, tokens, middle, room)?;
    Ok((
        Definition::Enum {
            place: word.place,
            name,
            values,
        },
        end,
    ))
}

/// The values of an enumeration, after `=` and in brackets.
fn values(
    alloc: Global,
    tokens: &[Spanned],
    at: u32,
    room: Room,
) -> Result<(Items<Name>, u32), ParseFault>
    requires short { length tokens.now < 2 ^ 32 }
    requires inside { at ≤ length tokens.now }
    ensures { Reads grammar table tokens.now values_of room (sign Assign ▸ nested (sign LeftBrace ▸ part s.Names ▸ sign RightBrace)) at result }
{
    let (_, from) = take(tokens, at, Class::Sign(Sign::Assign))?;
    let inner = enter(
        tokens,
        from,
        room,
        Nesting::Expression,
        &[Class::Sign(Sign::LeftBrace)],
    )?;
    let (_, next) = take(tokens, from, Class::Sign(Sign::LeftBrace))?;
    let (names, last) = names(alloc, tokens, next)?;
    let (_, end) = take(tokens, last, Class::Sign(Sign::RightBrace))?;
    Ok((names, end))
}

fn constant(
    alloc: Global,
    tokens: &[Spanned],
    at: u32,
    room: Room,
) -> Result<(Definition, u32), ParseFault>
    requires short { length tokens.now < 2 ^ 32 }
    requires inside { at ≤ length tokens.now }
    ensures { Reads grammar table tokens.now definition_of room (part s.ConstDef) at result }
{
    let (word, start) = take(tokens, at, Class::Word(Keyword::ConstWord))?;
    let (ty, middle) = any_type(alloc, tokens, start, room)?;
    let (named, next) = joined(ty, take_name(alloc, tokens, middle))?;
    let (((ty, name), Initial { equals, value }), end) = joined(
        named,
        assigned(alloc, tokens, next, room),
    )?;
    Ok((
        Definition::Const {
            place: word.place,
            ty,
            name,
            equals,
            value,
        },
        end,
    ))
}

fn type_name(
    alloc: Global,
    tokens: &[Spanned],
    at: u32,
    room: Room,
) -> Result<(Definition, u32), ParseFault>
    requires short { length tokens.now < 2 ^ 32 }
    requires inside { at ≤ length tokens.now }
    ensures { Reads grammar table tokens.now definition_of room (part s.TypeDef) at result }
{
    let (word, start) = take(tokens, at, Class::Word(Keyword::TypeWord))?;
    let (name, middle) = take_name(alloc, tokens, start)?;
    let (_, from) = take(tokens, middle, Class::Sign(Sign::Assign))?;
    let (ty, end) = any_type(alloc, tokens, from, room)?;
    Ok((
        Definition::TypeWord {
            place: word.place,
            name,
            ty,
        },
        end,
    ))
}

/// The formals of a definition and its block.
fn callable(
    alloc: Global,
    tokens: &[Spanned],
    at: u32,
    room: Room,
) -> Result<(Callable, u32), ParseFault>
    requires short { length tokens.now < 2 ^ 32 }
    requires inside { at ≤ length tokens.now }
    ensures { Reads grammar table tokens.now callable_of room (part s.Parameters ▸ part s.Body) at result }
{
    let (formals, middle) = parameters(alloc, tokens, at, room)?;
    let (block, end) = body(alloc, tokens, middle, room)?;
    Ok(((formals, block), end))
}

fn function(
    alloc: Global,
    tokens: &[Spanned],
    at: u32,
    room: Room,
) -> Result<(Definition, u32), ParseFault>
    requires short { length tokens.now < 2 ^ 32 }
    requires inside { at ≤ length tokens.now }
    ensures { Reads grammar table tokens.now definition_of room (part s.FuncDef) at result }
{
    let (word, start) = take(tokens, at, Class::Word(Keyword::FuncWord))?;
    let (ty, middle) = any_type(alloc, tokens, start, room)?;
    let (named, next) = joined(ty, take_name(alloc, tokens, middle))?;
    let (((ty, name), (formals, block)), end) = joined(named, callable(alloc, tokens, next, room))?;
    Ok((
        Definition::Func {
            place: word.place,
            result_type: ty,
            name,
            formals,
            block,
        },
        end,
    ))
}

/// The head of a process or a model, its formals and its block.
fn headed(
    alloc: Global,
    tokens: &[Spanned],
    at: u32,
    room: Room,
) -> Result<((Head, Callable), u32), ParseFault>
    requires short { length tokens.now < 2 ^ 32 }
    requires inside { at ≤ length tokens.now }
    ensures { Reads grammar table tokens.now headed_of room (part s.Head ▸ part s.Parameters ▸ part s.Body) at result }
{
    let (head, middle) = head(alloc, tokens, at, room)?;
    joined(head, callable(alloc, tokens, middle, room))
}

fn process(
    alloc: Global,
    tokens: &[Spanned],
    at: u32,
    room: Room,
) -> Result<(Definition, u32), ParseFault>
    requires short { length tokens.now < 2 ^ 32 }
    requires inside { at ≤ length tokens.now }
    ensures { Reads grammar table tokens.now definition_of room (part s.ProcDef) at result }
{
    let (word, start) = take(tokens, at, Class::Word(Keyword::ProcWord))?;
    let (((ty, name), (formals, block)), end) = headed(alloc, tokens, start, room)?;
    Ok((
        Definition::Proc {
            place: word.place,
            exit_type: ty,
            name,
            formals,
            block,
        },
        end,
    ))
}

fn model(
    alloc: Global,
    tokens: &[Spanned],
    at: u32,
    room: Room,
) -> Result<(Definition, u32), ParseFault>
    requires short { length tokens.now < 2 ^ 32 }
    requires inside { at ≤ length tokens.now }
    ensures { Reads grammar table tokens.now definition_of room (part s.ModelDef) at result }
{
    let (word, start) = take(tokens, at, Class::Word(Keyword::ModelWord))?;
    let (((ty, name), (formals, block)), end) = headed(alloc, tokens, start, room)?;
    Ok((
        Definition::Model {
            place: word.place,
            exit_type: ty,
            name,
            formals,
            block,
        },
        end,
    ))
}

fn experiment(
    alloc: Global,
    tokens: &[Spanned],
    at: u32,
    room: Room,
) -> Result<(Definition, u32), ParseFault>
    requires short { length tokens.now < 2 ^ 32 }
    requires inside { at ≤ length tokens.now }
    ensures { Reads grammar table tokens.now definition_of room (part s.XperDef) at result }
{
    let (word, start) = take(tokens, at, Class::Word(Keyword::XperWord))?;
    let (name, middle) = take_name(alloc, tokens, start)?;
    let _inner = enter(
        tokens,
        middle,
        room,
        Nesting::Expression,
        &[Class::Sign(Sign::LeftParen)],
    )?;
    let (_, next) = take(tokens, middle, Class::Sign(Sign::LeftParen))?;
    let (_, last) = take(tokens, next, Class::Sign(Sign::RightParen))?;
    let (block, end) = body(alloc, tokens, last, room)?;
    Ok((
        Definition::Xper {
            place: word.place,
            name,
            block,
        },
        end,
    ))
}

fn defined(
    alloc: Global,
    tokens: &[Spanned],
    at: u32,
    room: Room,
) -> Result<(Definition, u32), ParseFault>
    requires short { length tokens.now < 2 ^ 32 }
    requires inside { at ≤ length tokens.now }
    ensures { Reads grammar table tokens.now definition_of room (part s.Defined) at result }
{
    if is_next(tokens, at, &[Class::Word(Keyword::EnumWord)]) {
        return enumeration(alloc, tokens, at, room);
    }
    if is_next(tokens, at, &[Class::Word(Keyword::ConstWord)]) {
        return constant(alloc, tokens, at, room);
    }
    if is_next(tokens, at, &[Class::Word(Keyword::TypeWord)]) {
        return type_name(alloc, tokens, at, room);
    }
    if is_next(tokens, at, &[Class::Word(Keyword::FuncWord)]) {
        return function(alloc, tokens, at, room);
    }
    if is_next(tokens, at, &[Class::Word(Keyword::ProcWord)]) {
        return process(alloc, tokens, at, room);
    }
    if is_next(tokens, at, &[Class::Word(Keyword::ModelWord)]) {
        return model(alloc, tokens, at, room);
    }
    experiment(alloc, tokens, at, room)
}

/// A definition, and whether a `;` stands after it.
pub fn definition(
    alloc: Global,
    tokens: &[Spanned],
    at: u32,
    room: Room,
) -> Result<(Item, u32), ParseFault>
    requires short { length tokens.now < 2 ^ 32 }
    requires inside { at ≤ length tokens.now }
    ensures { Reads grammar table tokens.now item_of room (part s.Definition) at result }
{
    let (definition, middle) = defined(alloc, tokens, at, room)?;
    let (semicolon, end) = optional_semicolon(tokens, middle);
    Ok((
        Item {
            definition,
            semicolon,
        },
        end,
    ))
}
