use chi_picks::{PicksFault, picks_text, read_picks};
use std::test::Fail;

#[test]
fn picks_are_read(rt: HostRuntime) -> Result<(), Fail> {
    let picks = read_picks(rt.alloc(), b"0\n007\n18446744073709551615\n").map_err(|_| "refused")?;
    let wanted = [0, 7, 18_446_744_073_709_551_615];
    assert_eq!(rt; picks.as_slice(), wanted.as_slice());
    let none = read_picks(rt.alloc(), b"").map_err(|_| "refused")?;
    assert!(rt; none.is_empty());
    Ok(())
}

#[test]
fn the_first_line_that_does_not_fit_is_told(rt: HostRuntime) {
    for (text, line) in [
        (b"1".as_slice(), 1),
        (b"\n".as_slice(), 1),
        (b"1\n2\n3 \n4".as_slice(), 3),
        (b"1\n-1\n".as_slice(), 2),
        (b"1\r\n".as_slice(), 1),
        (b"000000000000000000001\n".as_slice(), 1),
        (b"18446744073709551616\n".as_slice(), 1),
    ] {
        let read = read_picks(rt.alloc(), text);
        assert!(&rt; matches!(read, Err(PicksFault::Line(k)) if k == line));
    }
}

#[test]
fn picks_are_written(rt: HostRuntime) -> Result<(), Fail> {
    let text = picks_text(rt.alloc(), &[0, 18_446_744_073_709_551_615, 10])?;
    let wanted = b"0\n18446744073709551615\n10\n".as_slice();
    assert_eq!(rt; text.as_slice(), wanted);
    Ok(())
}
