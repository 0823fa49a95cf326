use chi_explain::explain_lexical;
use chi_lex::{MOST_BYTES, lex};
use std::alloc::Global;
use std::process::Abort;
use std::test::Fail;

/// What is printed for a source whose bytes are refused.
fn printed(alloc: Global, source: &[u8]) -> Result<Vec<u8>, Fail> {
    if source.len() > MOST_BYTES {
        return Err(Fail::from("too long"));
    }
    match lex(alloc, source) {
        Ok(_) => Err(Fail::from("not refused")),
        Err(fault) => Ok(explain_lexical(alloc, b"m.chi", source, fault)?),
    }
}

/// Asserts that each source has the text of its row.
fn check(rt: &impl Abort, alloc: Global, rows: &[(&[u8], &[u8])]) -> Result<(), Fail> {
    for (source, want) in rows {
        let text = printed(alloc, source)?;
        let shown = std::str::from_utf8(text.as_slice()).unwrap_or("no text");
        assert!(rt; text.as_slice() == *want, "{shown}");
    }
    Ok(())
}

#[test]
fn bytes_and_texts_are_explained(rt: HostRuntime) -> Result<(), Fail> {
    check(
        &rt,
        rt.alloc(),
        &[
            (
                b"model M(): write(\"a)\n",
                b"m.chi:1:18: this text isn't closed: a text ends on its line, with a quote\n    model M(): write(\"a)\n                     ^\n",
            ),
            (
                b"\xEF\xBB\xBFmodel M(): pass end\n",
                b"m.chi:1:1: a byte order mark (0xEF 0xBB 0xBF) can't stand here: save the file without one\n    ???model M(): pass end\n    ^\n",
            ),
            (
                b"model M():\n  x \x80 1\nend\n",
                b"m.chi:2:5: the byte 0x80 can't stand here: outside of comments there are tabs, line ends and the bytes 0x20 to 0x7E\n      x ? 1\n        ^\n",
            ),
            (
                b"model M():\n\tx\t$ 1\nend",
                b"m.chi:2:4: no token begins with `$`\n    \tx\t$ 1\n    \t \t^\n",
            ),
            (
                b"model M(): write(\"a\\q\") end",
                b"m.chi:1:20: this is no escape: those of a text are `\\n`, `\\t`, `\\\"` and `\\\\`\n    model M(): write(\"a\\q\") end\n                       ^\n",
            ),
        ],
    )
}
