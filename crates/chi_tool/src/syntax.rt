ghost use Rattle.std.specs.Prelude.{◌≡◌, ◌≤◌, IfOk, length, slice_get};
ghost use Rattle.chi_tool.specs.Syntax.{place_of_token, token_text};
ghost use Rattle.chi_tool.specs.Reported.{report_in};
ghost use Rattle.chi_tool.specs.Refusals.{refused};

use crate::refusal::refused_at;
use crate::report::Reported;
use crate::status::SYNTAX;
use chi_base::NoMemory;
use chi_lex::{MOST_BYTES, end_place};
use chi_token::{Place, Spanned};
use std::alloc::Global;

/// The place of the token of this index, or of the source's end where there is none.
fn place_of_token(source: &[u8], tokens: &[Spanned], index: u32) -> Place
    requires { length source.now ≤ MOST_BYTES }
    ensures { result ≡ place_of_token source.now (slice_get tokens.now index) }
{
    match tokens.get(index as usize) {
        Some(token) => token.place,
        None => end_place(source),
    }
}

/// The refusal of a source at the token of this index.
pub fn refused_token(
    alloc: Global,
    source: &[u8],
    tokens: &[Spanned],
    what: &str,
    index: u32,
) -> Result<Reported, NoMemory>
    requires { length source.now ≤ MOST_BYTES }
    ensures { IfOk result (λ r. report_in r ≡ refused SYNTAX (token_text source.now tokens.now what.now index)) }
{
    let mut text = Vec::from_slice(alloc, what.as_bytes())?;
    text.extend_from_slice(b" at token ")?;
    let number = format!(in alloc; "{index}")?;
    text.extend_from_slice(number.as_bytes())?;
    let place = place_of_token(source, tokens, index);
    refused_at(alloc, SYNTAX, place, &text)
}
