ghost use Rattle.std.specs.Prelude.{◌≡◌, ◌^◌, ◌<◌, ◌≤◌, [], ◌∷◌, length, map, MatchResult};
ghost use Rattle.chi_grammar.specs.declared.room.Room.{Room};
ghost use Rattle.chi_grammar.specs.Rooms.{IsInside, IsFull};
ghost use Rattle.chi_grammar.specs.Lookahead.{Next, holds};
ghost use Rattle.chi_grammar.specs.Reads.{Reads, Refuses, TokenAt};
ghost use Rattle.chi_tree.specs.Classes.{class_of, number_of};
ghost use Rattle.chi_tree.specs.Rules.{grammar, name};
ghost use Rattle.chi_tree.specs.Tables.{table};
ghost use Rattle.chi_tree.specs.Tokens.{bytes_of};
ghost use Rattle.chi_tree.specs.View.{name_in};
ghost use Rattle.chi_parse_look.specs.Taking.{OneAt, NoneAt};

use chi_grammar::{Nesting, ParseFault, Room};
use chi_token::{Bytes, Spanned, Token};
use chi_tree::{Class, Name};
use std::alloc::Global;

/// Whether a token is of one of the classes.
fn is_one_of(token: &Token, classes: &[Class]) -> bool
    ensures { result ≡ holds (map number_of classes.now) (number_of (class_of token.now)) }
{
    let number = Class::of(token).number();
    classes.iter().any(|class| class.number() == number)
}

/// Whether a token of one of the classes stands at an index.
pub fn is_next(tokens: &[Spanned], at: u32, classes: &[Class]) -> bool
    ensures { Next grammar tokens.now at (map number_of classes.now) result }
{
    match tokens.get(at as usize) {
        Some(spanned) => is_one_of(&spanned.token, classes),
        None => false,
    }
}

/// A token of one of the classes, which must stand at the index, with the index after it.
pub fn take_one_of<'a>(
    tokens: &'a [Spanned],
    at: u32,
    classes: &[Class],
) -> Result<(&'a Spanned, u32), ParseFault>
    requires short { length tokens.now < 2 ^ 32 }
    ensures { MatchResult result (λ p. OneAt tokens.now classes.now at p.0.now p.1) (NoneAt tokens.now classes.now at) }
{
    match tokens.get(at as usize) {
        Some(spanned) => {
            if is_one_of(&spanned.token, classes) {
                Ok((spanned, at + 1))
            } else {
                Err(ParseFault::Syntax(at))
            }
        }
        None => Err(ParseFault::Syntax(at)),
    }
}

/// A token of the class, which must stand at the index, with the index after it.
pub fn take(tokens: &[Spanned], at: u32, class: Class) -> Result<(&Spanned, u32), ParseFault>
    requires short { length tokens.now < 2 ^ 32 }
    ensures { MatchResult result (λ p. TokenAt grammar tokens.now (number_of class) at p.0.now p.1) (NoneAt tokens.now (class ∷ []) at) }
{
    take_one_of(tokens, at, &[class])
}

/// The bytes of a name, a number or a text.
pub fn bytes_of(token: &Token) -> &[u8]
    ensures { result.now ≡ bytes_of token.now }
{
    match token {
        Token::Name(bytes) | Token::Int(bytes) | Token::Real(bytes) | Token::Text(bytes) =>
            bytes.as_slice(),
        Token::Word(_) | Token::Sign(_) => &[],
    }
}

/// A name, which must stand at the index, with the index after it.
pub fn take_name(alloc: Global, tokens: &[Spanned], at: u32) -> Result<(Name, u32), ParseFault>
    requires short { length tokens.now < 2 ^ 32 }
    requires inside { at ≤ length tokens.now }
    ensures { (room : Room) → Reads grammar table tokens.now name_in room name at result }
{
    let (spanned, end) = take(tokens, at, Class::Name)?;
    let text = Bytes::copy_of(alloc, bytes_of(&spanned.token))?;
    let name = Name {
        text,
        place: spanned.place,
    };
    Ok((name, end))
}

/// Why nothing is read where no level is left: a token of one of the classes would go too deep.
pub fn refuse(tokens: &[Spanned], at: u32, classes: &[Class]) -> ParseFault
    ensures { Refuses grammar tokens.now (map number_of classes.now) at result }
{
    if is_next(tokens, at, classes) {
        ParseFault::TooDeep(at)
    } else {
        ParseFault::Syntax(at)
    }
}

/// The room one level further in, where a level is free; else why nothing is read that begins with the classes.
pub fn enter(
    tokens: &[Spanned],
    at: u32,
    room: Room,
    nesting: Nesting,
    classes: &[Class],
) -> Result<Room, ParseFault>
    ensures { MatchResult result
        (λ inner. IsInside nesting room inner)
        (λ fault. IsFull nesting room × Refuses grammar tokens.now (map number_of classes.now) at fault) }
{
    match room.inside(nesting) {
        Some(inner) => Ok(inner),
        None => Err(refuse(tokens, at, classes)),
    }
}
