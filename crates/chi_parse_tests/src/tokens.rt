use chi_token::{Bytes, Keyword, Sign, Token, escaped, quoted, spelling};
use std::test::Fail;

#[test]
fn each_kind_of_token_is_spelled(rt: HostRuntime) -> Result<(), Fail> {
    let alloc = rt.alloc();
    let mut out = Vec::new(alloc);
    spelling(alloc, &Token::Word(Keyword::XperWord), &mut out)?;
    spelling(alloc, &Token::Sign(Sign::LessEqual), &mut out)?;
    spelling(
        alloc,
        &Token::Name(Bytes::copy_of(alloc, b"ending")?),
        &mut out,
    )?;
    spelling(alloc, &Token::Sign(Sign::Dot), &mut out)?;
    spelling(alloc, &Token::Int(Bytes::copy_of(alloc, b"007")?), &mut out)?;
    spelling(alloc, &Token::Word(Keyword::AltWord), &mut out)?;
    spelling(
        alloc,
        &Token::Real(Bytes::copy_of(alloc, b"1.50")?),
        &mut out,
    )?;
    spelling(
        alloc,
        &Token::Text(Bytes::copy_of(alloc, b"a\t\"\n\\")?),
        &mut out,
    )?;
    assert_eq!(rt;
        out.as_slice(),
        b"xper<=ending.007alt1.50\"a\\t\\\"\\n\\\\\"".as_slice()
    );
    Ok(())
}

#[test]
fn words_signs_and_escapes_are_told(rt: HostRuntime) -> Result<(), Fail> {
    assert_eq!(rt; Keyword::of(b"write"), Some(Keyword::WriteWord));
    assert_eq!(rt; Keyword::of(b"write_"), None);
    assert_eq!(rt; Keyword::UnwindWord.word(), "unwind");
    assert_eq!(rt; Sign::of(b"!="), Some(Sign::NotEqual));
    assert_eq!(rt; Sign::of(b"&"), None);
    assert_eq!(rt; Sign::Caret.mark(), "^");
    assert_eq!(rt; escaped(b'n'), Some(b'\n'));
    assert_eq!(rt; escaped(b'q'), None);
    assert_eq!(rt; quoted(rt.alloc(), b"")?.as_slice(), b"\"\"".as_slice());
    Ok(())
}
