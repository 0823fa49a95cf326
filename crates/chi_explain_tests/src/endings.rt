ghost use Rattle.std.specs.Prelude.{[], ◌≤◌, IsTrue};
ghost use Rattle.chi_core.specs.VerdictLine.{may_tell, told_length};

use chi_base::Items;
use chi_core::{FaultKind, Verdict};
use chi_explain_endings::{explain_ending, fault_words};
use chi_token::Bytes;
use chi_value::{MOST_TEXT, Names};
use std::alloc::Global;
use std::process::Abort;
use std::test::Fail;

const SOURCE: &[u8] = b"model M():\n  int n = -1; int x;\n  x = 2 ^ n\nend\n";

/// Asserts what is told of an ending of a run of the source, at the time 1.5.
fn check(rt: &impl Abort, alloc: Global, verdict: &Verdict, want: &str) -> Result<(), Fail>
    requires may { IsTrue (may_tell [] verdict.now) }
    requires short { told_length [] verdict.now ≤ MOST_TEXT }
{
    let names = Names {
        kinds: Items::of(alloc, Vec::new(alloc))?,
    };
    let text = explain_ending(alloc, SOURCE, verdict, 1_500_000_000, &names)?;
    let shown = std::str::from_utf8(text.as_slice()).unwrap_or("no text");
    assert!(rt; shown == want, "{shown}");
    Ok(())
}

#[test]
fn endings_are_explained(rt: HostRuntime) -> Result<(), Fail> {
    let alloc = rt.alloc();
    check(&rt, alloc, &Verdict::Deadlock, "deadlock at time 1.5\n")?;
    check(
        &rt,
        alloc,
        &Verdict::OutOfSteps,
        "out of steps at time 1.5\n",
    )?;
    let fault = Verdict::Fault(FaultKind::BadPower, Bytes::copy_of(alloc, b"M")?, 3);
    check(
        &rt,
        alloc,
        &fault,
        "fault BadPower in M line 3 at time 1.5\n      x = 2 ^ n\nthe right operand of `^` is below 0\n",
    )
}

#[test]
fn a_fault_has_the_words_of_its_kind(rt: HostRuntime) -> Result<(), Fail> {
    for (kind, want) in [
        (
            FaultKind::DivideByZero,
            "the right operand of `/`, `div` or `mod` is 0",
        ),
        (
            FaultKind::IndexRange,
            "an index of a list or a string is below -size or above size - 1",
        ),
        (
            FaultKind::EmptyPop,
            "`pop` is called on an empty list, set or dictionary",
        ),
        (FaultKind::NegativeDelay, "the length of a delay is below 0"),
    ] {
        assert_eq!(rt; fault_words(kind), want);
    }
    Ok(())
}
