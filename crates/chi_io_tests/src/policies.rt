ghost use Rattle.std.specs.Prelude.{◌≡◌, ◌<◌, IfOk};
ghost use Rattle.chi_sched.specs.Policies.{listed};

use chi_sched::{Chooser, First, Last, Listed, Policy, Spread, listed_of};
use std::alloc::{AllocError, Global};
use std::test::Fail;

#[test]
fn formulas_are_policies(rt: HostRuntime) -> Result<(), Fail> {
    assert_eq!(rt; First.choose(7, 3), 0);
    assert_eq!(rt; Last.choose(7, 3), 2);
    // (12345 + 2654435761 * 7) div 65536 is 283,524
    assert_eq!(rt; Spread { salt: 0 }.choose(7, 1000), 524);
    Ok(())
}

/// What a stored closure that has the list answers to a question, as a policy.
fn replayed(alloc: Global, picks: Vec<u64>, question: u64, count: u64) -> Result<u64, AllocError>
    requires { 0 < count }
    ensures { IfOk result (λ answer. answer ≡ listed picks.items question count) }
{
    let pick = Box::new(
        alloc,
        move |question: u64, count: u64| -> u64
            requires { 0 < count }
            ensures { result ≡ listed picks.items question count }
        { listed_of(&picks, question, count) },
    )?;
    let policy = Policy::new(pick);
    Ok(policy.choose(question, count))
}

#[test]
fn a_stored_closure_replays_a_list(rt: HostRuntime) -> Result<(), Fail> {
    for (question, answer) in [2u64, 0, 0, 0].iter().enumerate() {
        let picks = Vec::from_slice(rt.alloc(), &[2, 0, 5])?;
        assert_eq!(rt; replayed(rt.alloc(), picks, question as u64, 3)?, *answer);
    }
    let picks = Vec::from_slice(rt.alloc(), &[2, 0, 5])?;
    assert_eq!(rt; replayed(rt.alloc(), picks, 2, 6)?, 5);
    Ok(())
}

#[test]
fn a_list_is_a_policy(rt: HostRuntime) -> Result<(), Fail> {
    let listed = Listed {
        picks: Vec::from_slice(rt.alloc(), &[2, 0, 5])?,
    };
    assert_eq!(rt; listed.choose(0, 3), 2);
    assert_eq!(rt; listed.choose(2, 3), 0);
    assert_eq!(rt; listed.choose(2, 6), 5);
    assert_eq!(rt; listed.choose(3, 6), 0);
    Ok(())
}
