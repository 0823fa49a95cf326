//! The tokens of the sources of tests.

ghost use Rattle.std.specs.Prelude.{◌≤◌, length, IfOk};
ghost use Rattle.chi_lex.specs.Reading.{Reads};

use chi_lex::{MOST_BYTES, lex};
use chi_token::Spanned;
use std::alloc::Global;
use std::test::Fail;

/// The tokens of a source that has no more bytes than a source may have.
pub fn tokens_of(alloc: Global, source: &[u8]) -> Result<Vec<Spanned>, Fail>
    ensures short { IfOk result (λ _. length source.now ≤ MOST_BYTES) }
    ensures few { IfOk result (λ tokens. length tokens.items ≤ MOST_BYTES) }
    ensures read { IfOk result (λ tokens. Reads source.now tokens.items) }
{
    if source.len() > MOST_BYTES {
        return Err(Fail::from("too long"));
    }
    let tokens = lex(alloc, source)?;
    if tokens.len() > MOST_BYTES {
        return Err(Fail::from("too many tokens"));
    }
    Ok(tokens)
}
