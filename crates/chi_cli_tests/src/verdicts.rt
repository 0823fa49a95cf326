use chi_base::Items;
use chi_core::{FaultKind, OpName, Verdict, verdict_line};
use chi_token::Bytes;
use chi_value::{Names, Value};
use std::test::Fail;

#[test]
fn verdicts_have_their_lines(rt: HostRuntime) -> Result<(), Fail> {
    let alloc = rt.alloc();
    let names = Names {
        kinds: Items::of(alloc, Vec::new(alloc))?,
    };
    let fault = Verdict::Fault(FaultKind::RealRange, Bytes::copy_of(alloc, b"M")?, 7);
    let quoted = Verdict::Exit(Some(Value::Text(Bytes::copy_of(alloc, b"a\n")?)));
    for (verdict, clock, wanted) in [
        (&Verdict::Completed, 0, "completed at time 0.0\n"),
        (&Verdict::Exit(None), 0, "exit at time 0.0\n"),
        (&quoted, 0, "exit \"a\\n\" at time 0.0\n"),
        (&Verdict::Deadlock, 1, "deadlock at time 0.000000001\n"),
        (
            &fault,
            9_000_000_000,
            "fault RealRange in M line 7 at time 9.0\n",
        ),
        (
            &Verdict::OutOfSteps,
            2_500_000_000,
            "out of steps at time 2.5\n",
        ),
        (&Verdict::Stopped, 5_000_000_000, "stopped at time 5.0\n"),
    ] {
        let mut line = Vec::from_slice(alloc, b"> ")?;
        verdict_line(alloc, verdict, clock, &names, &mut line)?;
        let line = line.as_slice();
        assert!(rt; line.starts_with(b"> "));
        assert_eq!(rt; &line[2..], wanted.as_bytes(), "{verdict:?}");
    }
    Ok(())
}

#[test]
fn operators_have_their_spelling(rt: HostRuntime) -> Result<(), Fail> {
    for (name, wanted) in [
        (OpName::Add, "+"),
        (OpName::Sub, "-"),
        (OpName::Subset, "sub"),
        (OpName::AtMost, "<="),
        (OpName::Power, "^"),
        (OpName::Slice(true, false, true), "slice"),
        (OpName::DictKeys, "dict_keys"),
        (OpName::ToText, "string"),
    ] {
        assert_eq!(rt; name.spelling(), wanted);
    }
    Ok(())
}
