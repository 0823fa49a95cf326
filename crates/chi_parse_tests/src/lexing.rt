use chi_lex::{LexFault, MOST_BYTES, end_place, lex};
use chi_token::{Place, Spanned, Token, spelling};
use std::alloc::Global;
use std::process::Abort;
use std::test::Fail;

/// The kind of a token, its canonical spelling and its place.
fn shown_token(alloc: Global, spanned: &Spanned) -> Result<String, Fail> {
    let kind = match spanned.token {
        Token::Word(_) => "word",
        Token::Name(_) => "name",
        Token::Int(_) => "int",
        Token::Real(_) => "real",
        Token::Text(_) => "text",
        Token::Sign(_) => "sign",
    };
    let mut bytes = Vec::new(alloc);
    spelling(alloc, &spanned.token, &mut bytes)?;
    let text = std::str::from_utf8(bytes.as_slice())?;
    let (line, column) = (spanned.place.line, spanned.place.column);
    Ok(format!(in alloc; "{kind} {text} {line}:{column}; ")?)
}

/// What a source is read as: each token, or the fault with its place.
fn shown(rt: &impl Abort, alloc: Global, source: &[u8]) -> Result<String, Fail> {
    assert!(rt; source.len() <= MOST_BYTES);
    let fault = match lex(alloc, source) {
        Ok(tokens) => {
            let mut all = String::new(alloc);
            for spanned in &tokens {
                all.push_str(shown_token(alloc, spanned)?.as_str())?;
            }
            return Ok(all);
        }
        Err(fault) => fault,
    };
    match fault {
        LexFault::BadByte(place) | LexFault::OpenString(place) | LexFault::BadEscape(place) => {
            Ok(format!(in alloc; "{fault} {}:{}", place.line, place.column)?)
        }
        LexFault::NoMemory => Ok(format!(in alloc; "{fault}")?),
    }
}

/// Asserts that each source is read as its row says.
fn check(rt: &impl Abort, alloc: Global, rows: &[(&[u8], &str)]) -> Result<(), Fail> {
    for (source, want) in rows {
        let got = shown(rt, alloc, source)?;
        assert_eq!(rt; got.as_str(), *want, "for {source:?}");
    }
    Ok(())
}

#[test]
fn signs_and_numbers_are_the_longest(rt: HostRuntime) -> Result<(), Fail> {
    check(
        &rt,
        rt.alloc(),
        &[
            (
                b"<= == != <",
                "sign <= 1:1; sign == 1:4; sign != 1:7; sign < 1:10; ",
            ),
            (
                b"a<==b",
                "name a 1:1; sign <= 1:2; sign = 1:4; name b 1:5; ",
            ),
            (b"!==", "sign != 1:1; sign = 1:3; "),
            (b"1.", "int 1 1:1; sign . 1:2; "),
            (b"1.5.2", "real 1.5 1:1; sign . 1:4; int 2 1:5; "),
            (b"1.e", "int 1 1:1; sign . 1:2; name e 1:3; "),
            (b"00.50 .5", "real 00.50 1:1; sign . 1:7; int 5 1:8; "),
            (b"1_a", "int 1 1:1; name _a 1:2; "),
        ],
    )
}

#[test]
fn words_end_where_names_do(rt: HostRuntime) -> Result<(), Fail> {
    check(
        &rt,
        rt.alloc(),
        &[
            (
                b"end ending end_",
                "word end 1:1; name ending 1:5; name end_ 1:12; ",
            ),
            (
                b"forx _if if If",
                "name forx 1:1; name _if 1:6; word if 1:10; name If 1:13; ",
            ),
            (
                b"write writeln(",
                "word write 1:1; word writeln 1:7; sign ( 1:14; ",
            ),
        ],
    )
}

#[test]
fn gaps_are_passed(rt: HostRuntime) -> Result<(), Fail> {
    check(
        &rt,
        rt.alloc(),
        &[
            (b"", ""),
            (b"# any \x00\x7f\x80\xff byte", ""),
            (b"a#b\nc", "name a 1:1; name c 2:1; "),
            (b"\ta\r\n b\n\n c", "name a 1:2; name b 2:2; name c 4:2; "),
            (b"#\n#\x01", ""),
        ],
    )
}

#[test]
fn texts_mean_their_bytes(rt: HostRuntime) -> Result<(), Fail> {
    check(
        &rt,
        rt.alloc(),
        &[
            (b"\"a\\n\\t\\\"\\\\\"", "text \"a\\n\\t\\\"\\\\\" 1:1; "),
            (b"\"a\tb\"", "text \"a\\tb\" 1:1; "),
            (b"\"\"\"~ \"", "text \"\" 1:1; text \"~ \" 1:3; "),
            (b"\"# no gap\"x", "text \"# no gap\" 1:1; name x 1:11; "),
        ],
    )
}

#[test]
fn the_first_fault_is_told(rt: HostRuntime) -> Result<(), Fail> {
    check(
        &rt,
        rt.alloc(),
        &[
            (b"model M(): write(\"a) end", "open string 1:18"),
            (b"model M(): @ end", "bad byte 1:12"),
            (b"model M(): write(\"\\q\") end", "bad escape 1:19"),
            (b"x \"ab\n\x01", "open string 1:3"),
            (b"\"ab\x01\n", "bad byte 1:4"),
            (b"\"a\\", "bad escape 1:3"),
            (b"\"\\\n\"", "bad escape 1:2"),
            (b"\"a\r\"", "bad byte 1:3"),
            (b"a\n\"b", "open string 2:1"),
        ],
    )
}

#[test]
fn no_other_byte_stands(rt: HostRuntime) -> Result<(), Fail> {
    check(
        &rt,
        rt.alloc(),
        &[
            (b"\x00", "bad byte 1:1"),
            (b"a\x7f", "bad byte 1:2"),
            (b"\n \x80", "bad byte 2:2"),
            (b"#\xff\n\xff", "bad byte 2:1"),
            (b"\"\x00\"", "bad byte 1:2"),
            (b"\"a\x7f", "bad byte 1:3"),
            (b"\"\x80", "bad byte 1:2"),
            (b"\"\xff", "bad byte 1:2"),
        ],
    )
}

#[test]
fn the_end_has_a_place(rt: HostRuntime) {
    assert_eq!(rt; end_place(b""), Place { line: 1, column: 1 });
    assert_eq!(rt; end_place(b"a\nbc"), Place { line: 2, column: 3 });
}

#[test]
fn the_largest_sources_are_read(rt: HostRuntime) -> Result<(), Fail> {
    let signs = vec![in rt.alloc(); b'('; MOST_BYTES]?;
    match lex(rt.alloc(), signs.as_slice()) {
        Ok(tokens) => assert_eq!(rt; tokens.len(), MOST_BYTES),
        Err(fault) => panic!(rt; "{fault}"),
    }
    let mut text = vec![in rt.alloc(); b'a'; MOST_BYTES]?;
    text[0] = b'"';
    text[MOST_BYTES - 1] = b'"';
    match lex(rt.alloc(), text.as_slice()) {
        Ok(tokens) => assert_eq!(rt; tokens.len(), 1),
        Err(fault) => panic!(rt; "{fault}"),
    }
    Ok(())
}

#[test]
fn faults_have_numbers(rt: HostRuntime) {
    let place = Place { line: 1, column: 1 };
    for (fault, number) in [
        (LexFault::BadByte(place), Some(1)),
        (LexFault::OpenString(place), Some(2)),
        (LexFault::BadEscape(place), Some(3)),
        (LexFault::NoMemory, None),
    ] {
        assert_eq!(&rt; fault.number(), number, "{fault}");
    }
}
