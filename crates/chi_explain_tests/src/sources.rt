//! Sources of tests, and their tokens.

ghost use Rattle.std.specs.Prelude.{◌≤◌, length, IfOk};

use chi_lex::{MOST_BYTES, lex};
use chi_token::Spanned;
use std::alloc::Global;
use std::test::Fail;

/// The tokens of a source that has no more bytes than a source may have.
pub fn tokens_of(alloc: Global, source: &[u8]) -> Result<Vec<Spanned>, Fail>
    ensures { IfOk result (λ tokens. length tokens.items ≤ MOST_BYTES) }
{
    if source.len() > MOST_BYTES {
        return Err(Fail::from("too long"));
    }
    let tokens = lex(alloc, source)?;
    if tokens.len() > MOST_BYTES {
        return Err(Fail::from("too many tokens"));
    }
    Ok(tokens)
}

/// A source with a line so many times, between two others.
pub fn repeated(
    alloc: Global,
    first: &str,
    line: &str,
    count: u32,
    last: &str,
) -> Result<Vec<u8>, Fail> {
    let mut source = Vec::from_slice(alloc, first.as_bytes())?;
    for _ in 0..count {
        source.extend_from_slice(line.as_bytes())?;
    }
    source.extend_from_slice(last.as_bytes())?;
    Ok(source)
}
