use chi_core::Label;
use chi_trace::{
    Detail, Event, LogFault, TraceFault, line_of, line_up, log_up, read_line, read_line_1,
};
use std::alloc::Global;
use std::test::Fail;

/// Lines of version 2, each of which is one of an event.
const LINES: [&str; 17] = [
    "0 local 0 M 1",
    "1 advance 0.000000001",
    "2 wake 0 0 M",
    "4 local 1 S 1",
    "5 pair 1 0 0 0 0 7",
    "18446744073709551615 local 4294967295 _x9 4294967295",
    "0 local 0 - -",
    "7 pair 1 2 3 4 - -",
    "7 pair 1 2 3 4 5 void",
    "7 pair 1 2 3 4 5 *",
    "7 pair 1 2 3 4 5 \"a b \"",
    "7 pair 1 2 3 4 5  -",
    "2 wake 0 0 -",
    "2 join 0 -",
    "2 join 0 model_",
    "3 advance -9223372036.854775808",
    "3 advance 10.05",
];

/// Lines that are none of an event in version 2.
const OTHER_LINES: [&str; 44] = [
    "",
    " ",
    "0",
    "0 local",
    "0 local 0",
    "0 local 0 M",
    "0 local 0 M 1 ",
    "0 local 0 M  1",
    "0  local 0 M 1",
    " 0 local 0 M 1",
    "0 local 00 M 1",
    "00 local 0 M 1",
    "01 local 0 M 1",
    "+1 local 0 M 1",
    "-1 local 0 M 1",
    "0 local 0 M 01",
    "0 local 0 1M 1",
    "0 local 0 M- 1",
    "0 local 0 model 1",
    "0 local 0 M -",
    "0 local 0 - 1",
    "0 Local 0 M 1",
    "18446744073709551616 local 0 M 1",
    "0 local 4294967296 M 1",
    "0 local 0 M 4294967296",
    "2 wake 0 M",
    "2 wake 0 0",
    "2 wake 0 0 M ",
    "2 wake 0 0 while",
    "2 join 0",
    "2 join 0 0 M",
    "7 pair 1 2 3 4",
    "7 pair 1 2 3 4 5",
    "7 pair 1 2 3 4 5 ",
    "7 pair 1 2 3 4 5 -",
    "7 pair 1 2 3 4 - 7",
    "7 pair 1 2 3 4 5 a\nb",
    "3 advance",
    "3 advance 1",
    "3 advance 1.",
    "3 advance 1.50",
    "3 advance 01.5",
    "3 advance -0.0",
    "3 advance 9223372036.854775808",
];

/// Lines that are none of an event in version 1.
const OTHER_LINES_1: [&str; 6] = [
    "0 local 0 - -",
    "0 local 0 ",
    "1 advance 1.0 ",
    "2 wake 0",
    "5 pair 1 0 0 0 0 7",
    "5 pair 1 0 0",
];

/// The line of the event that a line tells, with its line feed.
fn again(alloc: Global, line: &[u8]) -> Result<Vec<u8>, TraceFault> {
    let event = read_line(alloc, line)?;
    let mut out = Vec::new(alloc);
    line_of(alloc, &event, &mut out)?;
    Ok(out)
}

#[test]
fn a_line_is_read_and_written_again(rt: HostRuntime) -> Result<(), Fail> {
    for line in LINES {
        let out = again(rt.alloc(), line.as_bytes())?;
        let wanted = format!(in rt.alloc(); "{line}\n")?;
        assert_eq!(rt; out.as_slice(), wanted.as_bytes());
    }
    Ok(())
}

#[test]
fn other_lines_are_refused(rt: HostRuntime) -> Result<(), Fail> {
    for line in OTHER_LINES {
        let refused = matches!(
            read_line(rt.alloc(), line.as_bytes()),
            Err(TraceFault::Form)
        );
        assert!(rt; refused, "{line}");
    }
    for line in OTHER_LINES_1 {
        let refused = matches!(read_line_1(line.as_bytes()), Err(TraceFault::Form));
        assert!(rt; refused, "{line}");
    }
    Ok(())
}

#[test]
fn the_parts_of_a_pair_stand_in_their_order(rt: HostRuntime) -> Result<(), Fail> {
    let event = read_line(rt.alloc(), b"7 pair 1 2 3 4 5 [6, 7]")?;
    assert_eq!(rt; event.turn, 7);
    assert_eq!(rt; event.label, Label::Pair(1, 2, 3, 4));
    assert_eq!(rt; event.clock, 0);
    let sent = match &event.detail {
        Detail::Sent(channel, value) => *channel == 5 && value.as_slice() == b"[6, 7]".as_slice(),
        _ => false,
    };
    assert!(rt; sent);
    Ok(())
}

#[test]
fn only_an_advance_tells_the_clock(rt: HostRuntime) -> Result<(), Fail> {
    let advance = read_line_1(b"3 advance -10.05")?;
    assert_eq!(rt; advance.clock, -10_050_000_000);
    assert!(rt; matches!(&advance.detail, Detail::Bare));
    let wake = Event {
        turn: 2,
        label: Label::Wake(0, 1),
        clock: 5,
        detail: Detail::Unknown,
    };
    let mut out = Vec::new(rt.alloc());
    line_of(rt.alloc(), &wake, &mut out)?;
    assert_eq!(rt; out.as_slice(), b"2 wake 0 1 -\n".as_slice());
    Ok(())
}

/// Of the logs that are brought up most are in rows/.
#[test]
fn a_log_is_brought_up(rt: HostRuntime) -> Result<(), Fail> {
    let alloc = rt.alloc();
    let mut line = Vec::new(alloc);
    line_up(alloc, b"2 wake 0 0", &mut line)?;
    assert_eq!(rt; line.as_slice(), b"2 wake 0 0 -\n".as_slice());
    let log = log_up(alloc, b"trace 1\n2 wake 0 0\ndone\n")?;
    assert_eq!(rt; log.as_slice(), b"trace 2\n2 wake 0 0 -\ndone\n".as_slice());
    match log_up(alloc, b"trace 1\n0 local 0\n0 local 0 M 1\n") {
        Ok(_) => assert!(rt; false, "it is brought up"),
        Err(fault) => assert_eq!(rt; fault, LogFault::Form(3)),
    }
    Ok(())
}
