ghost use Rattle.std.specs.Prelude.{◌≡◌, ◌<◌, ◌++◌, ℕ, List, length, OnOk, IfOk};
ghost use Rattle.chi_lex.specs.declared.fault.LexFault.{LexFault};
ghost use Rattle.chi_lex.specs.Reading.{HasFault, IsFaultOf};
ghost use Rattle.chi_explain.specs.Excerpts.{from_place};
ghost use Rattle.chi_explain.specs.Lexical.{bad_byte_words, byte_words, hex_digit, IsExplanation};

use crate::excerpts::from_place;
use crate::explanations::explained;
use chi_base::NoMemory;
use chi_lex::LexFault;
use std::alloc::Global;

/// The byte order mark of UTF-8, which some editors write before a text.
const BYTE_ORDER_MARK: [u8; 3] = [0xEF, 0xBB, 0xBF];

/// A digit of a hexadecimal number.
fn hex_digit(number: u8) -> u8
    requires { number < 16 }
    ensures { result ≡ hex_digit number }
{
    if number < 10 {
        b'0' + number
    } else {
        b'A' - 10 + number
    }
}

/// What is said of a byte that can't stand where it does.
fn byte_words(alloc: Global, byte: u8) -> Result<Vec<u8>, NoMemory>
    ensures { IfOk result (λ words. words.items ≡ byte_words byte) }
{
    let mut words = Vec::new(alloc);
    if byte == b'\r' {
        words.extend_from_slice(
            b"this text isn't closed before a carriage return, which can't stand in it: a text ends on its line, with a quote",
        )?;
    } else if 32 <= byte && byte <= 126 {
        words.extend_from_slice(b"no token begins with `")?;
        words.push(byte)?;
        words.push(b'`')?;
    } else {
        words.extend_from_slice(b"the byte 0x")?;
        words.push(hex_digit(byte / 16))?;
        words.push(hex_digit(byte % 16))?;
        words.extend_from_slice(
            b" can't stand here: outside of comments there are tabs, line ends and the bytes 0x20 to 0x7E",
        )?;
    }
    Ok(words)
}

/// What is said of the first of some bytes, which can't stand where it does.
fn bad_byte_words(alloc: Global, bytes: &[u8]) -> Result<Vec<u8>, NoMemory>
    requires { 0 < length bytes.now }
    ensures { IfOk result (λ words. words.items ≡ bad_byte_words bytes.now) }
{
    if bytes.starts_with(&BYTE_ORDER_MARK) {
        Ok(Vec::from_slice(
            alloc,
            b"a byte order mark (0xEF 0xBB 0xBF) can't stand here: save the file without one",
        )?)
    } else {
        byte_words(alloc, bytes[0])
    }
}

/// The text that explains the first fault of a source where no token can be read.
pub fn explain_lexical(
    alloc: Global,
    file: &[u8],
    source: &[u8],
    fault: LexFault,
) -> Result<Vec<u8>, NoMemory>
    requires { IsFaultOf source.now fault }
    ensures { IfOk result (λ text. IsExplanation file.now source.now fault text.items) }
{
    match fault {
        LexFault::BadByte(place) => {
            let words = bad_byte_words(alloc, from_place(source, place))?;
            explained(alloc, file, source, place, &words)
        }
        LexFault::OpenString(place) => explained(
            alloc,
            file,
            source,
            place,
            b"this text isn't closed: a text ends on its line, with a quote",
        ),
        LexFault::BadEscape(place) => explained(
            alloc,
            file,
            source,
            place,
            b"this is no escape: those of a text are `\\n`, `\\t`, `\\\"` and `\\\\`",
        ),
        LexFault::NoMemory => Err(NoMemory),
    }
}

/// The first fault of a source where no token can be read has exactly one explanation.
pub fn lexical_explanation_law()
    ensures some { (file source : List ℕ) (fault : LexFault) → HasFault source fault → (text : List ℕ) × IsExplanation file source fault text }
    ensures one { (file source : List ℕ) (fault : LexFault) (text other : List ℕ)
        → IsExplanation file source fault text → IsExplanation file source fault other → text ≡ other }
{}
