//! Worked rows: sources and words, and what the top call writes and answers.

use crate::tests::calls::{DONE, TWO_SENDERS, WORKS, Wanted, expect};
use std::alloc::Global;
use std::process::Abort;
use std::test::Fail;

/// A source, the words, the output, the log and the status.
pub(crate) type Row = (
    &'static str,
    &'static [&'static str],
    &'static str,
    &'static str,
    u8,
);

pub(crate) const SIM: &[&str] = &["sim", "m.chi"];

pub(crate) const ALONE: &str = "proc S(chan! int a): a!1 end model M(): chan int a; run S(a) end";

const WAITS: &str = "model M(): delay 0.000000001 end";

const LATE: &str =
    "proc R(chan? int a): int x; select a?x: writeln(\"got\") alt delay 2.0: writeln(\"late\") end end proc S(chan! int a): delay 2.0; a!1 end model M(): chan int a; run R(a), S(a) end";

/// A generator, a buffer, three machines in parallel, and an exit that counts.
const LINE: &str = "\
# generator, buffer, three machines, exit
type lot = tuple(int id; real born);
proc G(chan! lot a; int n):
  for i in range(n): a!(i, time); delay 2.0 end
end
proc B(chan? lot a; chan! lot b):
  list lot xs; lot x;
  while true:
    select a?x: xs = xs + [x]
    alt not empty(xs), b!xs[0]: xs = xs[1:]
    end
  end
end
proc W(chan? lot a; chan! lot b; dist int d):
  lot x;
  while true: a?x; delay sample d; b!x end
end
proc int E(chan? lot a; int n):
  lot x; real total;
  for i in range(n): a?x; total = total + (time - x.born) end;
  writeln(\"%d lots, mean %.3f\", n, total / n);
  exit n
end
model int M():
  chan lot a, b, c;
  run G(a, 100), B(a, b),
      unwind i in range(3): W(b, c, uniform(5, 6)) end, E(c, 100)
end
";

/// One instance.
const INSTANCES: [Row; 8] = [
    (WORKS, SIM, "It works!\n", DONE, 0),
    ("", SIM, "", "line 1 column 1: syntax at token 0\n", 21),
    (
        "model M(): end",
        SIM,
        "",
        "line 1 column 12: syntax at token 5\n",
        21,
    ),
    (WAITS, SIM, "", "completed at time 0.000000001\n", 0),
    (
        WAITS,
        &["sim", "--trace", "m.chi"],
        "",
        "trace 2\n0 local 0 M 1\n1 advance 0.000000001\n2 wake 0 0 M\ncompleted at time 0.000000001\n",
        0,
    ),
    (
        "model M(): while true: delay 0.0 end end",
        &["sim", "--steps", "50", "m.chi"],
        "",
        "out of steps at time 0.0\n",
        13,
    ),
    (
        WORKS,
        &["sim", "--steps", "1", "m.chi"],
        "It works!\n",
        DONE,
        0,
    ),
    (
        WORKS,
        &["sim", "--steps", "0", "m.chi"],
        "",
        "out of steps at time 0.0\n",
        13,
    ),
];

/// Instances that meet.
const MEETINGS: [Row; 14] = [
    (
        "proc S(chan! int a): for i in range(3): a!i end end proc R(chan? int a): int x; for i in range(3): a?x; writeln(\"%d\", x) end end model M(): chan int a; run S(a), R(a) end",
        SIM,
        "0\n1\n2\n",
        DONE,
        0,
    ),
    (
        "proc S(chan! int a): for i in range(3): a!i end end proc R(chan? int a): int x; for i in range(3): a?x; writeln(\"%d\", x) end end model M(): chan int a; run R(a), S(a) end",
        SIM,
        "0\n1\n2\n",
        DONE,
        0,
    ),
    (
        "proc S(chan! int a): a!1; a!2 end proc R(chan? int a): int x; a?x; writeln(\"%d\", x); a?x; writeln(\"%d\", x) end model M(): chan int a; start S(a), R(a) end",
        SIM,
        "1\n2\n",
        DONE,
        0,
    ),
    (
        "proc S(chan! int a): a!1 end model M(): chan int a; start S(a) end",
        SIM,
        "",
        "deadlock at time 0.0\n",
        11,
    ),
    (ALONE, SIM, "", "deadlock at time 0.0\n", 11),
    (TWO_SENDERS, SIM, "1\n2\n", DONE, 0),
    (
        TWO_SENDERS,
        &["sim", "--policy", "last", "m.chi"],
        "2\n1\n",
        DONE,
        0,
    ),
    (
        TWO_SENDERS,
        &["sim", "--policy", "spread", "--salt", "0", "m.chi"],
        "1\n2\n",
        DONE,
        0,
    ),
    (
        "model M(): chan int a; int x; select a!1 alt a?x end end",
        SIM,
        "",
        "deadlock at time 0.0\n",
        11,
    ),
    (LATE, SIM, "late\n", "deadlock at time 2.0\n", 11),
    (
        LATE,
        &["sim", "--policy", "last", "m.chi"],
        "got\n",
        "completed at time 2.0\n",
        0,
    ),
    (
        "proc R(chan? int a): int x; select time < 1.0, a?x: writeln(\"%s\", time) end end proc S(chan! int a): delay 5.0; a!1 end model M(): chan int a; run R(a), S(a) end",
        SIM,
        "5.0\n",
        "completed at time 5.0\n",
        0,
    ),
    (
        "proc S(chan! int a): a!7 end model M(): chan int a; int x; start S(a); a?x; exit end",
        &["sim", "--trace", "m.chi"],
        "",
        "trace 2\n0 local 0 M 1\n1 local 0 M 1\n2 local 0 M 1\n3 local 0 M 1\n4 local 1 S 1\n5 pair 1 0 0 0 0 7\n6 local 0 M 1\nexit at time 0.0\n",
        10,
    ),
    (
        "proc S(chan! int a): while true: a!1 end end model M(): chan int a; run S(a) end",
        &["check", "m.chi"],
        "",
        "accepted\n",
        0,
    ),
];

/// Runs that take longer.
const LONG: [Row; 6] = [
    (
        "proc P(): delay 1.0 end model M(): start unwind i in range(100000): P() end end",
        SIM,
        "",
        "fault TooManyInstances in M line 1 at time 0.0\n",
        12,
    ),
    (
        "",
        &["load", "20"],
        "100 lots\n",
        "exit 100 at time 119.0\n",
        10,
    ),
    (
        "",
        &["load", "1000"],
        "100 lots\n",
        "exit 100 at time 1099.0\n",
        10,
    ),
    (
        LINE,
        SIM,
        "100 lots, mean 5.000\n",
        "exit 100 at time 203.0\n",
        10,
    ),
    (
        LINE,
        &["sim", "--policy", "last", "--seed", "7", "m.chi"],
        "100 lots, mean 5.000\n",
        "exit 100 at time 203.0\n",
        10,
    ),
    (
        LINE,
        &[
            "sim", "--policy", "spread", "--salt", "9", "--seed", "8", "m.chi",
        ],
        "100 lots, mean 5.000\n",
        "exit 100 at time 203.0\n",
        10,
    ),
];

pub(crate) fn expect_rows(rt: &impl Abort, alloc: Global, rows: &[Row]) -> Result<(), Fail> {
    for (source, words, out, log, status) in rows {
        let wanted = Wanted {
            out,
            log,
            status: *status,
        };
        expect(rt, alloc, words, source.as_bytes(), source, wanted)?;
    }
    Ok(())
}

#[test]
fn meetings_are_answered(rt: HostRuntime) -> Result<(), Fail> {
    expect_rows(&rt, rt.alloc(), &INSTANCES)?;
    expect_rows(&rt, rt.alloc(), &MEETINGS)
}

#[test]
fn long_runs_end(rt: HostRuntime) -> Result<(), Fail> {
    expect_rows(&rt, rt.alloc(), &LONG)
}
