use crate::sources::{repeated, tokens_of};
use chi_explain_expected::{expected, is_block_too_deep};
use chi_token::{Keyword, Sign};
use chi_tree::Class;
use std::alloc::Global;
use std::process::Abort;
use std::test::Fail;

/// What begins a definition.
const DEFINITIONS: [Class; 7] = [
    Class::Word(Keyword::ConstWord),
    Class::Word(Keyword::EnumWord),
    Class::Word(Keyword::FuncWord),
    Class::Word(Keyword::ModelWord),
    Class::Word(Keyword::ProcWord),
    Class::Word(Keyword::TypeWord),
    Class::Word(Keyword::XperWord),
];

/// What begins an expression without a bracket and without a prefix operator, each of which would be deeper.
const SHALLOW: [Class; 13] = [
    Class::Name,
    Class::Int,
    Class::Real,
    Class::Text,
    Class::Sign(Sign::Less),
    Class::Word(Keyword::BoolWord),
    Class::Word(Keyword::FalseWord),
    Class::Word(Keyword::IntWord),
    Class::Word(Keyword::RealWord),
    Class::Word(Keyword::StringWord),
    Class::Word(Keyword::TimeWord),
    Class::Word(Keyword::TimerWord),
    Class::Word(Keyword::TrueWord),
];

/// Asserts which classes can stand after all tokens of a source.
fn check(rt: &impl Abort, alloc: Global, source: &[u8], want: &[Class]) -> Result<(), Fail> {
    let tokens = tokens_of(alloc, source)?;
    let end = tokens.len() as u32;
    let classes = expected(alloc, tokens.as_slice(), end)?;
    assert_eq!(rt; classes.as_slice(), want);
    Ok(())
}

#[test]
fn what_can_stand_is_listed(rt: HostRuntime) -> Result<(), Fail> {
    let more = [Class::Sign(Sign::RightBrace), Class::Sign(Sign::Comma)];
    let ends = [Class::Sign(Sign::Semicolon), Class::Word(Keyword::EndWord)];
    let rows: [(&[u8], &[Class]); 5] = [
        (b"", &DEFINITIONS),
        (b"enum colour = {", &[Class::Name]),
        (b"enum colour = { red", &more),
        (b"model M(): write(", &[Class::Text]),
        (b"model M(): pass", &ends),
    ];
    for (source, want) in rows {
        check(&rt, rt.alloc(), source, want)?;
    }
    Ok(())
}

#[test]
fn what_stands_too_deep_is_not_listed(rt: HostRuntime) -> Result<(), Fail> {
    let alloc = rt.alloc();
    let blocks = repeated(alloc, "model M():", " if x:", 64, "")?;
    check(&rt, alloc, blocks.as_slice(), &[])?;
    let brackets = repeated(alloc, "model M(): x =", " (", 200, "")?;
    check(&rt, alloc, brackets.as_slice(), &SHALLOW)
}

#[test]
fn blocks_are_told_from_brackets(rt: HostRuntime) -> Result<(), Fail> {
    let alloc = rt.alloc();
    let blocks = repeated(alloc, "model M():", " if x:", 64, "")?;
    let tokens = tokens_of(alloc, blocks.as_slice())?;
    assert!(rt; is_block_too_deep(alloc, tokens.as_slice(), 197)?);
    assert!(rt; !is_block_too_deep(alloc, tokens.as_slice(), 194)?);
    let brackets = repeated(alloc, "model M(): x =", " (", 201, "")?;
    let tokens = tokens_of(alloc, brackets.as_slice())?;
    assert!(rt; !is_block_too_deep(alloc, tokens.as_slice(), 207)?);
    Ok(())
}
