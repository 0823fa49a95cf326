ghost use Rattle.std.specs.Prelude.{◌≡◌, ◌++◌, OnOk, OnErr};
ghost use Rattle.chi_token.specs.Spelling.{canonical_spelling};

use crate::escape::quoted;
use crate::token::Token;
use chi_base::NoMemory;
use std::alloc::Global;

/// Appends the canonical spelling of a token: the word, name, digits or mark as it is, and a text
/// in quotes with its escapes.
pub fn spelling(alloc: Global, token: &Token, out: &mut Vec<u8>) -> Result<(), NoMemory>
    ensures ok { OnOk result (out.new.items ≡ out.old.items ++ canonical_spelling token.now) }
    ensures err { OnErr result (out.new.items ≡ out.old.items) }
{
    match token {
        Token::Word(keyword) => out.extend_from_slice(keyword.word().as_bytes())?,
        Token::Name(bytes) | Token::Int(bytes) | Token::Real(bytes) => {
            out.extend_from_slice(bytes.as_slice())?
        }
        Token::Text(bytes) => {
            let text = quoted(alloc, bytes.as_slice())?;
            out.extend_from_slice(text.as_slice())?
        }
        Token::Sign(sign) => out.extend_from_slice(sign.mark().as_bytes())?,
    }
    Ok(())
}
