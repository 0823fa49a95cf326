use chi_format::{Field, FormatFault, Piece, read_format};
use chi_num::Real;
use std::alloc::Global;
use std::test::Fail;

/// The pieces of a text as its table has it, which is short.
pub(crate) fn pieces_of(
    alloc: Global,
    text: &[u8],
) -> Result<Result<Vec<Piece>, FormatFault>, Fail> {
    if text.len() > 1000 {
        return Err(Fail::new("a long format"));
    }
    Ok(read_format(alloc, text))
}

/// A format, and the offset of its first bad code.
const BAD: [(&[u8], u32); 30] = [
    (b"%", 0),
    (b"a%", 1),
    (b"%x", 0),
    (b"%D", 0),
    (b"%5", 0),
    (b"%-", 0),
    (b"%-5", 0),
    (b"%0d", 0),
    (b"%05d", 0),
    (b"%-05d", 0),
    (b"%256d", 0),
    (b"%1000d", 0),
    (b"%99999999999999999999d", 0),
    (b"%.f", 0),
    (b"%.", 0),
    (b"%.2", 0),
    (b"%.2d", 0),
    (b"%.2s", 0),
    (b"%.10f", 0),
    (b"%.xf", 0),
    (b"%5.2d", 0),
    (b"%+d", 0),
    (b"% d", 0),
    (b"%--5d", 0),
    (b"%5%", 0),
    (b"%-%", 0),
    (b"%%%", 2),
    (b"%d%q", 2),
    (b"ab%%%dc%z", 7),
    (b"%-255s%.0f%256d%%", 10),
];

#[test]
fn the_first_bad_code_is_told(rt: HostRuntime) -> Result<(), Fail> {
    for (text, offset) in BAD {
        let read = pieces_of(rt.alloc(), text)?;
        assert!(rt; matches!(&read, Err(FormatFault::BadCode(_))), "{text:?}");
        if let Err(fault) = read {
            assert_eq!(rt; fault, FormatFault::BadCode(offset), "{text:?}");
        }
    }
    Ok(())
}
