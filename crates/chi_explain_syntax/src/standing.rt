ghost use Rattle.std.specs.Prelude.{◌≡◌, ◌≤◌, ◌++◌, length, slice_get, option_map, OnOk};
ghost use Rattle.chi_explain_syntax.specs.Standing.{earlier_line, is_word, kind_words, place_at, standing_words, token_before, token_words};

use chi_base::NoMemory;
use chi_lex::{MOST_BYTES, end_place};
use chi_token::{Place, Spanned, Token, spelling};
use std::alloc::Global;

/// The place of the token of this index, or of the source's end where there is none.
pub fn place_at(source: &[u8], tokens: &[Spanned], at: u32) -> Place
    requires { length source.now ≤ MOST_BYTES }
    ensures { result ≡ place_at source.now (slice_get tokens.now at) }
{
    match tokens.get(at as usize) {
        Some(token) => token.place,
        None => end_place(source),
    }
}

/// What kind of token it is.
fn kind_words(token: &Token) -> &'static str
    ensures { result.now ≡ kind_words token.now }
{
    match token {
        Token::Word(_) => "the word ",
        Token::Name(_) => "the name ",
        Token::Int(_) | Token::Real(_) => "the number ",
        Token::Text(_) => "the text ",
        Token::Sign(_) => "the sign ",
    }
}

/// Appends a token as it is spelled, after its kind.
fn put_token(alloc: Global, token: &Token, words: &mut Vec<u8>) -> Result<(), NoMemory>
    ensures { OnOk result (words.new.items ≡ words.old.items ++ token_words token.now) }
{
    words.extend_from_slice(kind_words(token).as_bytes())?;
    words.push(b'`')?;
    spelling(alloc, token, words)?;
    words.push(b'`')?;
    Ok(())
}

/// Appends the token of this index as it is spelled, or that there is none.
pub fn put_standing(
    alloc: Global,
    tokens: &[Spanned],
    at: u32,
    words: &mut Vec<u8>,
) -> Result<(), NoMemory>
    ensures { OnOk result (words.new.items ≡ words.old.items ++ standing_words (slice_get tokens.now at)) }
{
    match tokens.get(at as usize) {
        Some(there) => put_token(alloc, &there.token, words)?,
        None => words.extend_from_slice(b"the end of the file")?,
    }
    Ok(())
}

/// Whether a word of the language stands at this index.
pub fn is_word(tokens: &[Spanned], at: u32) -> bool
    ensures { result ≡ is_word (slice_get tokens.now at) }
{
    match tokens.get(at as usize) {
        Some(there) => matches!(there.token, Token::Word(_)),
        None => false,
    }
}

/// The token before the one of this index.
fn token_before(tokens: &[Spanned], at: u32) -> Option<&Spanned>
    ensures { option_map (λ before. before.now) result ≡ token_before tokens.now at }
{
    if at == 0 {
        None
    } else {
        tokens.get(at as usize - 1)
    }
}

/// The line of the token before the one of this index, where it is an earlier one than that of a place.
pub fn earlier_line(tokens: &[Spanned], at: u32, place: Place) -> Option<u32>
    ensures { result ≡ earlier_line (token_before tokens.now at) place }
{
    match token_before(tokens, at) {
        Some(before) if before.place.line < place.line => Some(before.place.line),
        _ => None,
    }
}
