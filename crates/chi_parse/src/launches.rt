ghost use Rattle.std.specs.Prelude.{◌≡◌, ◌^◌, ◌<◌, ◌≤◌, ◌∷◌, true, length, Some};
ghost use Rattle.chi_grammar.specs.Rules.{leaf, many, part, ◌▸◌};
ghost use Rattle.chi_grammar.specs.Reads.{Reads};
ghost use Rattle.chi_token.specs.declared.sign.Sign.TheVariants.{Colon, Comma};
ghost use Rattle.chi_token.specs.declared.keyword.Keyword.TheVariants.{EndWord};
ghost use Rattle.chi_tree.specs.Parts as s;
ghost use Rattle.chi_tree.specs.Rules.{grammar, inner_block, keyword, sign};
ghost use Rattle.chi_tree.specs.Tables.{table};
ghost use Rattle.chi_tree.specs.Tokens.{is_run};
ghost use Rattle.chi_tree.specs.declared.statement.Element.{out-Element};
ghost use Rattle.chi_parse.specs.Heads.{shown};
ghost use Rattle.chi_parse.specs.Rests.{repeated_elements_of};
ghost use Rattle.chi_tree.specs.Statements.{element_of, elements_of, ends_element, is_some, last_ends, launched, made, more_elements_of};

use crate::targets::{is_bare, target};
use crate::walks::walk;
use chi_base::Items;
use chi_grammar::{Nesting, ParseFault, Room};
use chi_parse_expr::arguments;
use chi_parse_look::classes::{FIRST_OF_ELEMENTS, FIRST_OF_LAUNCH};
use chi_parse_look::{enter, is_next, joined, take, take_name, take_one_of};
use chi_token::{Keyword, Sign, Spanned, Token};
use chi_tree::{Class, Element, Statement, Target};
use std::alloc::Global;

#[cycle(elements)]
pub fn elements(
    alloc: Global,
    tokens: &[Spanned],
    at: u32,
    room: Room,
) -> Result<(Items<Element>, u32), ParseFault>
    requires short { length tokens.now < 2 ^ 32 }
    requires inside { at ≤ length tokens.now }
    ensures { Reads grammar table tokens.now elements_of room (part s.Elements) at result }
{
    let (first, middle) = element(alloc, tokens, at, room)?;
    more_elements(alloc, tokens, middle, room, first)
}

/// The elements after a first one.
#[cycle(elements)]
fn more_elements(
    alloc: Global,
    tokens: &[Spanned],
    at: u32,
    room: Room,
    first: Element,
) -> Result<(Items<Element>, u32), ParseFault>
    requires short { length tokens.now < 2 ^ 32 }
    requires inside { at ≤ length tokens.now }
    ensures { Reads grammar table tokens.now (λ es. first ∷ more_elements_of es) room (many (sign Comma ▸ part s.Element)) at result }
{
    let mut elements = Vec::new(alloc);
    elements.push(first)?;
    let mut end = at;
    'turn: while is_next(tokens, end, &[Class::Sign(Sign::Comma)]) {
        let (_, after) = take(tokens, end, Class::Sign(Sign::Comma))?;
        let (next, stop) = element(alloc, tokens, after, room)?;
        elements.push(next)?;
        end = stop;
    }
    Ok((Items::of(alloc, elements)?, end))
}

#[cycle(elements)]
fn element(
    alloc: Global,
    tokens: &[Spanned],
    at: u32,
    room: Room,
) -> Result<(Element, u32), ParseFault>
    requires short { length tokens.now < 2 ^ 32 }
    requires inside { at ≤ length tokens.now }
    ensures { Reads grammar table tokens.now element_of room (part s.Element) at result }
{
    if is_next(tokens, at, &[Class::Word(Keyword::UnwindWord)]) {
        return unwound_elements(alloc, tokens, at, room);
    }
    make(alloc, tokens, at, room)
}

#[cycle(elements)]
fn unwound_elements(
    alloc: Global,
    tokens: &[Spanned],
    at: u32,
    room: Room,
) -> Result<(Element, u32), ParseFault>
    requires short { length tokens.now < 2 ^ 32 }
    requires inside { at ≤ length tokens.now }
    ensures { Reads grammar table tokens.now element_of room (part s.UnwoundElements) at result }
{
    let (word, start) = take(tokens, at, Class::Word(Keyword::UnwindWord))?;
    let (walk, middle) = walk(alloc, tokens, start, room)?;
    let ((walk, elements), end) = joined(walk, repeated_elements(alloc, tokens, middle, room))?;
    Ok((
        Element::Unwind {
            place: word.place,
            walk,
            elements,
        },
        end,
    ))
}

/// The elements that an unwind repeats, between `:` and `end`.
#[cycle(elements)]
fn repeated_elements(
    alloc: Global,
    tokens: &[Spanned],
    at: u32,
    room: Room,
) -> Result<(Items<Element>, u32), ParseFault>
    requires short { length tokens.now < 2 ^ 32 }
    requires inside { at ≤ length tokens.now }
    ensures { Reads grammar table tokens.now repeated_elements_of room (sign Colon ▸ inner_block (part s.Elements) ▸ keyword EndWord) at result }
{
    let (_, from) = take(tokens, at, Class::Sign(Sign::Colon))?;
    let inner = enter(tokens, from, room, Nesting::Block, &FIRST_OF_ELEMENTS)?;
    let (elements, last) = elements(alloc, tokens, from, inner)?;
    let (_, end) = take(tokens, last, Class::Word(Keyword::EndWord))?;
    Ok((elements, end))
}

fn make(
    alloc: Global,
    tokens: &[Spanned],
    at: u32,
    room: Room,
) -> Result<(Element, u32), ParseFault>
    requires short { length tokens.now < 2 ^ 32 }
    requires inside { at ≤ length tokens.now }
    ensures { Reads grammar table tokens.now element_of room (part s.Make) at result }
{
    let (target, middle) = target(alloc, tokens, at, room)?;
    if is_bare(&target) {
        return made(alloc, tokens, middle, room, target);
    }
    assigned_make(alloc, tokens, middle, room, target)
}

/// What stands after a name with which an element begins.
fn made(
    alloc: Global,
    tokens: &[Spanned],
    at: u32,
    room: Room,
    target: Target,
) -> Result<(Element, u32), ParseFault>
    requires short { length tokens.now < 2 ^ 32 }
    requires inside { at ≤ length tokens.now }
    ensures { Reads grammar table tokens.now (made target) room (part s.Made) at result }
{
    if !is_next(tokens, at, &[Class::Sign(Sign::LeftParen)]) {
        return assigned_make(alloc, tokens, at, room, target);
    }
    let (arguments, end) = arguments(alloc, tokens, at, room)?;
    let Target { name, steps: _ } = target;
    Ok((
        Element::Make {
            target: None,
            name,
            arguments,
        },
        end,
    ))
}

/// What stands after the target with which an element begins.
fn assigned_make(
    alloc: Global,
    tokens: &[Spanned],
    at: u32,
    room: Room,
    target: Target,
) -> Result<(Element, u32), ParseFault>
    requires short { length tokens.now < 2 ^ 32 }
    requires inside { at ≤ length tokens.now }
    ensures { Reads grammar table tokens.now (made target) room (part s.AssignedMake) at result }
{
    let (_, start) = take(tokens, at, Class::Sign(Sign::Assign))?;
    let (name, middle) = take_name(alloc, tokens, start)?;
    let (arguments, end) = arguments(alloc, tokens, middle, room)?;
    Ok((
        Element::Make {
            target: Some(target),
            name,
            arguments,
        },
        end,
    ))
}

/// Whether the last token of an element is `end`.
fn ends(element: &Element) -> bool
    ensures { result ≡ ends_element (out-Element element.now) }
{
    matches!(element, Element::Unwind { .. })
}

/// Whether the last token of some elements is `end`.
pub fn last_ends(elements: &[Element]) -> bool
    ensures { result ≡ last_ends elements.now }
{
    match elements.last() {
        Some(element) => ends(element),
        None => false,
    }
}

/// Whether what is made is run, and not started.
fn is_run(token: &Token) -> bool
    requires { is_some (is_run token.now) ≡ true }
    ensures { is_run token.now ≡ Some result }
{
    match token {
        Token::Word(Keyword::RunWord) => true,
        Token::Word(Keyword::StartWord) => false,
        _ => unreachable!(),
    }
}

fn launched(word: &Spanned, elements: Items<Element>) -> Statement
    requires { is_some (is_run word.now.token) ≡ true }
    ensures { result ≡ launched (leaf word.now) elements }
{
    if is_run(&word.token) {
        Statement::Run {
            place: word.place,
            elements,
        }
    } else {
        Statement::Start {
            place: word.place,
            elements,
        }
    }
}

/// What is run or started, and whether its last token is `end`.
pub fn launch(
    alloc: Global,
    tokens: &[Spanned],
    at: u32,
    room: Room,
) -> Result<((Statement, bool), u32), ParseFault>
    requires short { length tokens.now < 2 ^ 32 }
    requires inside { at ≤ length tokens.now }
    ensures { Reads grammar table tokens.now shown room (part s.Launch) at result }
{
    let (word, start) = take_one_of(tokens, at, &FIRST_OF_LAUNCH)?;
    let (elements, end) = elements(alloc, tokens, start, room)?;
    let ends = last_ends(elements.as_slice());
    Ok(((launched(word, elements), ends), end))
}
