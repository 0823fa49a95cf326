ghost use Rattle.std.specs.Prelude.{◌≡◌, ◌≤◌, ◌<◌, ◌+◌, ◌^◌, ◌++◌, length, slice_get, IfOk, OnOk};
ghost use Rattle.chi_explain_syntax.specs.Syntax.{block_words, cannot_stand, expression_words, fault_words, limit_words, unlisted_words, word_for_name, TellDepth, TellFault};

use crate::listing::{has_name, put_expected};
use crate::standing::{earlier_line, is_word, place_at, put_standing};
use chi_base::NoMemory;
use chi_explain::put_number;
use chi_explain_expected::{expected, is_block_too_deep};
use chi_lex::MOST_BYTES;
use chi_token::Spanned;
use chi_tree::{Class, MOST_BLOCKS, MOST_EXPRESSIONS};
use std::alloc::Global;

/// The most tokens before one of which it is told what could stand there.
pub const MOST_TOKENS: u32 = 20_000;

/// That what stands at this index can't.
fn cannot_stand(alloc: Global, tokens: &[Spanned], at: u32) -> Result<Vec<u8>, NoMemory>
    ensures { IfOk result (λ words. words.items ≡ cannot_stand (slice_get tokens.now at)) }
{
    let mut words = Vec::new(alloc);
    put_standing(alloc, tokens, at, &mut words)?;
    words.extend_from_slice(b" can't stand here")?;
    Ok(words)
}

/// Appends that a word of the language is no name, where it stands for one.
fn put_word_for_name(
    tokens: &[Spanned],
    at: u32,
    classes: &[Class],
    words: &mut Vec<u8>,
) -> Result<(), NoMemory>
    ensures { OnOk result (words.new.items ≡ words.old.items ++ word_for_name (slice_get tokens.now at) classes.now) }
{
    if is_word(tokens, at) && has_name(classes) {
        words.extend_from_slice(b", and a word of the language is no name")?;
    }
    Ok(())
}

/// What is said of this index, where these classes could stand there.
fn listed_words(
    alloc: Global,
    source: &[u8],
    tokens: &[Spanned],
    at: u32,
    classes: &[Class],
) -> Result<Vec<u8>, NoMemory>
    requires { length source.now ≤ MOST_BYTES }
    ensures { IfOk result (λ words. words.items ≡ fault_words source.now tokens.now at classes.now) }
{
    let mut words = cannot_stand(alloc, tokens, at)?;
    put_word_for_name(tokens, at, classes, &mut words)?;
    let line = earlier_line(tokens, at, place_at(source, tokens, at));
    put_expected(alloc, classes, line, &mut words)?;
    Ok(words)
}

/// What is said of this index, where too many tokens stand before it.
fn unlisted_words(alloc: Global, tokens: &[Spanned], at: u32) -> Result<Vec<u8>, NoMemory>
    ensures { IfOk result (λ words. words.items ≡ unlisted_words tokens.now at) }
{
    let mut words = cannot_stand(alloc, tokens, at)?;
    words.extend_from_slice(b"; what could isn't listed after the first ")?;
    put_number(alloc, MOST_TOKENS, &mut words)?;
    words.extend_from_slice(b" tokens")?;
    Ok(words)
}

/// What can't stand at this index, and what could.
#[tactic(auto, using(crate::proofs::Telling::faults))]
pub fn fault_words(
    alloc: Global,
    source: &[u8],
    tokens: &[Spanned],
    at: u32,
) -> Result<Vec<u8>, NoMemory>
    requires { length source.now ≤ MOST_BYTES }
    ensures { IfOk result (λ words. TellFault source.now tokens.now at words.items) }
{
    if at <= MOST_TOKENS {
        let classes = expected(alloc, tokens, at)?;
        listed_words(alloc, source, tokens, at, &classes)
    } else {
        unlisted_words(alloc, tokens, at)
    }
}

/// Appends that what stands there is too deep in blocks.
fn put_block_limit(alloc: Global, words: &mut Vec<u8>) -> Result<(), NoMemory>
    ensures { OnOk result (words.new.items ≡ words.old.items ++ block_words) }
{
    words.extend_from_slice(b" stands too deep: blocks stand at most ")?;
    put_number(alloc, MOST_BLOCKS, words)?;
    words.extend_from_slice(b" within one another")?;
    Ok(())
}

/// Appends that what stands there is too deep in expressions and types.
fn put_expression_limit(alloc: Global, words: &mut Vec<u8>) -> Result<(), NoMemory>
    ensures { OnOk result (words.new.items ≡ words.old.items ++ expression_words) }
{
    words.extend_from_slice(b" stands too deep: expressions and types stand at most ")?;
    put_number(alloc, MOST_EXPRESSIONS, words)?;
    words.extend_from_slice(b" within one another")?;
    Ok(())
}

/// Appends that what stands there is too deep, in blocks or in expressions and types.
fn put_limit(alloc: Global, of_blocks: bool, words: &mut Vec<u8>) -> Result<(), NoMemory>
    ensures { OnOk result (words.new.items ≡ words.old.items ++ limit_words of_blocks) }
{
    if of_blocks {
        put_block_limit(alloc, words)
    } else {
        put_expression_limit(alloc, words)
    }
}

/// Which limit the token of this index passes.
#[tactic(auto, using(crate::proofs::Telling::depths))]
pub fn depth_words(alloc: Global, tokens: &[Spanned], at: u32) -> Result<Vec<u8>, NoMemory>
    requires { at + 1 < 2 ^ 32 }
    ensures { IfOk result (λ words. TellDepth tokens.now at words.items) }
{
    let of_blocks = is_block_too_deep(alloc, tokens, at)?;
    let mut words = Vec::new(alloc);
    put_standing(alloc, tokens, at, &mut words)?;
    put_limit(alloc, of_blocks, &mut words)?;
    Ok(words)
}
