//! The library calls: a source is simulated by a policy, and by a list of picks.

ghost use Rattle.std.specs.Prelude.{◌≡◌, ◌<◌};
ghost use Rattle.chi_sched.specs.Policies.{listed};

use crate::tests::calls::Wanted;
use chi_io::MemSink;
use chi_sched::{Chooser, First, Last, Listed, Policy, Spread, listed_of};
use chi_tool::{replay, simulate};
use std::alloc::Global;
use std::process::Abort;
use std::test::Fail;

pub const STARTED: &str = "proc S(chan! int a; int n): a!n end \
     proc R(chan? int a): int x; a?x; writeln(\"%d\", x); a?x; writeln(\"%d\", x) end \
     model M(): chan int a; start S(a, 1), S(a, 2), R(a) end";

/// Simulates the source by a policy, and compares what is written and the status.
fn expect_by<P: Chooser + Drop>(
    rt: &impl Abort,
    alloc: Global,
    policy: P,
    bound: u16,
    trace: bool,
    wanted: Wanted,
) -> Result<(), Fail> {
    let mut out = MemSink::new(alloc, 65_536, 65_536, Vec::new(alloc))?;
    let mut log = MemSink::new(alloc, 65_536, 65_536, Vec::new(alloc))?;
    let source = STARTED.as_bytes();
    let status = simulate(
        alloc,
        source,
        &[],
        0,
        u64::from(bound),
        None,
        policy,
        trace,
        &mut out,
        &mut log,
    );
    assert_eq!(rt; log.bytes(), wanted.log.as_bytes());
    assert_eq!(rt; out.bytes(), wanted.out.as_bytes());
    assert_eq!(rt; status, wanted.status);
    Ok(())
}

#[test]
fn a_source_is_simulated_by_a_policy(rt: HostRuntime) -> Result<(), Fail> {
    let first = Wanted {
        out: "1\n2\n",
        log: "completed at time 0.0\n",
        status: 0,
    };
    let last = Wanted {
        out: "2\n1\n",
        ..first
    };
    let traced = Wanted {
        log: "trace 2\n0 local 0 M 1\n1 local 0 M 1\n2 local 1 S 1\n3 local 2 S 1\n4 local 3 R 1\n5 local 3 R 1\n\
             6 pair 1 0 3 0 0 1\n7 local 3 R 1\n8 local 3 R 1\n9 pair 2 0 3 0 0 2\n10 local 3 R 1\ncompleted at time 0.0\n",
        ..first
    };
    let spent = Wanted {
        out: "",
        log: "out of steps at time 0.0\n",
        status: 13,
    };
    expect_by(&rt, rt.alloc(), First, 1_000, false, first)?;
    expect_by(&rt, rt.alloc(), Last, 1_000, false, last)?;
    expect_by(&rt, rt.alloc(), Spread { salt: 0 }, 1_000, false, first)?;
    expect_by(&rt, rt.alloc(), First, 0, false, spent)?;
    expect_by(&rt, rt.alloc(), First, 1_000, true, traced)
}

#[test]
fn a_list_of_picks_is_replayed(rt: HostRuntime) -> Result<(), Fail> {
    // at turn 6 both senders may meet the receiver, and the second of them is picked
    let picks = Vec::from_slice(rt.alloc(), &[0, 0, 0, 0, 0, 0, 0, 0, 0, 0, 0, 0, 1])?;
    let second = Wanted {
        out: "2\n1\n",
        log: "completed at time 0.0\n",
        status: 0,
    };
    expect_by(&rt, rt.alloc(), Listed { picks }, 1_000, false, second)
}

/// Simulates the source by a stored closure that has the list.
fn expect_replayed(
    rt: &impl Abort,
    alloc: Global,
    picks: Vec<u64>,
    wanted: Wanted,
) -> Result<(), Fail> {
    let pick = Box::new(
        alloc,
        move |question: u64, count: u64| -> u64
            requires { 0 < count }
            ensures { result ≡ listed picks.items question count }
        { listed_of(&picks, question, count) },
    )?;
    let policy = Policy::new(pick);
    expect_by(rt, alloc, policy, 1_000, true, wanted)
}

/// The picks of the policy `last`; where there are none, the first choice is taken.
const LAST_PICKS: [u64; 15] = [0, 0, 0, 0, 2, 0, 2, 0, 1, 0, 1, 0, 1, 0, 1];

const BY_LAST: Wanted = Wanted {
    out: "2\n1\n",
    log: "trace 2\n0 local 0 M 1\n1 local 0 M 1\n2 local 3 R 1\n3 local 3 R 1\n4 local 2 S 1\n5 pair 2 0 3 0 0 2\n\
         6 local 3 R 1\n7 local 3 R 1\n8 local 1 S 1\n9 pair 1 0 3 0 0 1\n10 local 3 R 1\ncompleted at time 0.0\n",
    status: 0,
};

#[test]
fn a_stored_closure_replays_a_run(rt: HostRuntime) -> Result<(), Fail> {
    let picks = Vec::from_slice(rt.alloc(), &LAST_PICKS)?;
    expect_by(&rt, rt.alloc(), Last, 1_000, true, BY_LAST)?;
    expect_replayed(&rt, rt.alloc(), picks, BY_LAST)
}

#[test]
fn a_run_is_replayed_by_its_picks(rt: HostRuntime) -> Result<(), Fail> {
    let mut out = MemSink::new(rt.alloc(), 65_536, 65_536, Vec::new(rt.alloc()))?;
    let mut log = MemSink::new(rt.alloc(), 65_536, 65_536, Vec::new(rt.alloc()))?;
    let source = STARTED.as_bytes();
    let status = replay(
        rt.alloc(),
        source,
        &[],
        0,
        1_000,
        None,
        &LAST_PICKS,
        true,
        &mut out,
        &mut log,
    );
    assert_eq!(rt; log.bytes(), BY_LAST.log.as_bytes());
    assert_eq!(rt; out.bytes(), BY_LAST.out.as_bytes());
    assert_eq!(rt; status, BY_LAST.status);
    Ok(())
}
