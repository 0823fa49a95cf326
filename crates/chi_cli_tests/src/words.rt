use chi_cli::{ArgFault, CliFault, Pick, Request, read_args, read_words};
use chi_token::Bytes;
use chi_trace::{EventKind, Filter};
use chi_types::Ty;
use chi_value::Value;
use std::alloc::Global;
use std::test::Fail;

/// Of a run that words ask for: how many arguments it has, its seed, its policy with the salt, and its probe.
type Asked = (usize, u64, (&'static str, u64), Filter);

fn policy(pick: Pick) -> (&'static str, u64) {
    match pick {
        Pick::First => ("first", 0),
        Pick::Last => ("last", 0),
        Pick::Spread(salt) => ("spread", salt),
    }
}

fn told(request: &Request) -> Option<Asked> {
    match request {
        Request::Sim {
            args,
            seed,
            pick,
            probe,
            ..
        } => Some((args.as_slice().len(), *seed, policy(*pick), *probe)),
        Request::Explain {
            args,
            seed,
            pick,
            ..
        } => { Some((args.as_slice().len(), *seed, policy(*pick), Filter::All)) }
        Request::Xper { seed, pick, .. } => Some((0, *seed, policy(*pick), Filter::All)),
        _ => None,
    }
}

/// What words ask for, if that is a run.
fn asked(alloc: Global, words: &[&str]) -> Result<Asked, CliFault> {
    let request = read_words(alloc, words)?;
    let told = told(&request);
    drop(request);
    told.ok_or(CliFault::Command)
}

/// Words, and what they ask for.
const WORDS: [(&[&str], Result<Asked, CliFault>); 8] = [
    (
        &["sim", "--seed=5", "--policy", "last", "f", "--", "-3"],
        Ok((1, 5, ("last", 0), Filter::All)),
    ),
    (&["sim", "--seed", "x", "f"], Err(CliFault::BadNumber)),
    (
        &["explain", "--policy=spread", "--salt", "3", "f", "5"],
        Ok((1, 0, ("spread", 3), Filter::All)),
    ),
    (&["explain", "--trace", "f"], Err(CliFault::Usage)),
    (
        &[
            "xper",
            "--seed=18446744073709551615",
            "f",
            "--policy",
            "spread",
            "--salt",
            "3",
        ],
        Ok((0, u64::MAX, ("spread", 3), Filter::All)),
    ),
    (&["xper", "f", "5"], Err(CliFault::Usage)),
    (&["xper", "--until", "1.0", "f"], Err(CliFault::Usage)),
    (
        &["xper", "--salt", "18446744073709551616", "f"],
        Err(CliFault::BadNumber),
    ),
];

/// More words are in rows/.
#[test]
fn words_are_read(rt: HostRuntime) {
    for (words, want) in &WORDS {
        assert_eq!(rt; asked(rt.alloc(), words), *want, "{words:?}");
    }
}

/// Values of `--probe`, and what they look for.
const PROBES: [(&str, Result<Filter, CliFault>); 10] = [
    ("instance=0000000007", Ok(Filter::Instance(7))),
    ("channel=4294967295", Ok(Filter::Channel(4_294_967_295))),
    ("kind=join", Ok(Filter::Kind(EventKind::Join))),
    ("instance=", Err(CliFault::BadNumber)),
    ("instance=4294967296", Err(CliFault::BadNumber)),
    ("channel=00000000001", Err(CliFault::BadNumber)),
    ("instance=1=2", Err(CliFault::BadNumber)),
    ("instance", Err(CliFault::Usage)),
    ("kind=joins", Err(CliFault::Usage)),
    ("process=1", Err(CliFault::Usage)),
];

/// More probes are in rows/, which don't tell a word of another form from a bad number.
#[test]
fn a_probe_is_read(rt: HostRuntime) {
    for (value, want) in &PROBES {
        let probe = asked(rt.alloc(), &["sim", "--probe", value, "f"]).map(|told| told.3);
        assert_eq!(rt; probe, *want, "{value}");
    }
}

/// What an argument is read as where an int is wanted.
fn int_of(alloc: Global, text: &[u8]) -> Result<Result<Vec<Value>, ArgFault>, Fail> {
    let mut params = Vec::new(alloc);
    params.push(Ty::Int)?;
    let mut args = Vec::new(alloc);
    args.push(Bytes::copy_of(alloc, text)?)?;
    Ok(read_args(alloc, &params, &args))
}

/// More arguments are in rows/.
#[test]
fn an_argument_is_read(rt: HostRuntime) -> Result<(), Fail> {
    let values = int_of(rt.alloc(), b"5")?.map_err(|_| "refused")?;
    assert!(rt; matches!(values.as_slice(), [Value::Int(5)]));
    assert!(rt; matches!(int_of(rt.alloc(), b"x")?, Err(ArgFault::Text(1))));
    Ok(())
}

#[test]
fn faults_of_arguments_have_numbers(rt: HostRuntime) {
    for (fault, number) in [
        (ArgFault::Count, Some(4)),
        (ArgFault::Kind(1), Some(5)),
        (ArgFault::Text(1), Some(6)),
        (ArgFault::NoMemory, None),
    ] {
        assert_eq!(&rt; fault.number(), number, "{fault}");
    }
}
