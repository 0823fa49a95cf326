//! What words ask for: stopping times, arguments, logs of old; and sources that are refused.

use crate::tests::calls::{DONE, Wanted, expect, written};
use crate::tests::worked::{ALONE, Row, SIM, expect_rows};
use std::test::Fail;

const USAGE: &str = "usage: chi COMMAND [OPTIONS] FILE [ARGS]\n";

const TICKS: &str = "model M(): while true: writeln(\"%s\", time); delay 2.0 end end";

const SENDS_ON: &str =
    "proc S(chan! int a): while true: a!1 end end model M(): chan int a; run S(a) end";

const ARGUMENTS: &str = "model M(int n; real x): writeln(\"%d %s\", n, x) end";

/// Time.
const TIMES: [Row; 8] = [
    (
        "model M(): delay 9000000000.0; delay 9000000000.0 end",
        SIM,
        "",
        "fault RealRange in M line 1 at time 9000000000.0\n",
        12,
    ),
    (
        "model M(): timer t = timer(3.0); delay 1.0; writeln(\"%s %s\", real(t), ready(t)); delay t; writeln(\"%s\", time) end",
        SIM,
        "2.0 false\n3.0\n",
        "completed at time 3.0\n",
        0,
    ),
    (
        "proc P(): delay 2.0 end model M(): inst p; start p = P(); writeln(\"%s\", finished(p)); finish p; writeln(\"%s %s\", finished(p), time) end",
        SIM,
        "false\ntrue 2.0\n",
        "completed at time 2.0\n",
        0,
    ),
    (
        TICKS,
        &["sim", "--until", "5.0", "m.chi"],
        "0.0\n2.0\n4.0\n",
        "stopped at time 5.0\n",
        14,
    ),
    (
        TICKS,
        &["sim", "--until", "4.0", "m.chi"],
        "0.0\n2.0\n4.0\n",
        "stopped at time 4.0\n",
        14,
    ),
    (
        TICKS,
        &["sim", "--until", "5.0", "--steps", "13", "m.chi"],
        "0.0\n2.0\n4.0\n",
        "stopped at time 5.0\n",
        14,
    ),
    (
        TICKS,
        &["sim", "--until", "5.0", "--steps", "12", "m.chi"],
        "0.0\n2.0\n4.0\n",
        "out of steps at time 4.0\n",
        13,
    ),
    (
        ALONE,
        &["sim", "--until", "5.0", "m.chi"],
        "",
        "deadlock at time 0.0\n",
        11,
    ),
];

/// Words, files and logs.
const WORDS: [Row; 14] = [
    (
        "",
        &["load", "3"],
        "100 lots\n",
        "exit 100 at time 102.0\n",
        10,
    ),
    ("", &["load", "0"], "", USAGE, 3),
    ("", &[], "", USAGE, 3),
    ("", &["sim"], "", USAGE, 3),
    ("", &["sim", "--steps", "x", "m.chi"], "", USAGE, 3),
    ("", &["sim", "f"], "", "no such file\n", 4),
    (
        ARGUMENTS,
        &["sim", "m.chi", "--", "-3", "2"],
        "-3 2.0\n",
        DONE,
        0,
    ),
    (
        ARGUMENTS,
        &["sim", "m.chi", "x", "2"],
        "",
        "argument 1: text\n",
        23,
    ),
    (
        ARGUMENTS,
        &["sim", "m.chi", "1"],
        "",
        "arguments: wanted 2, given 1\n",
        23,
    ),
    (
        "model M(list int xs): pass end",
        &["sim", "m.chi", "1"],
        "",
        "argument 1: type\n",
        23,
    ),
    (
        SENDS_ON,
        &["code", "m.chi"],
        "proc S 1 1 1\nproc M 0 1 12\n0 done\n1 mark 1\n2 push true\n3 iffalse 11\n4 mark 1\n5 load 0\n6 push 1\n7 send 9\n8 wait\n9 jump 10\n10 jump 1\n11 done\n12 mark 1\n13 default chan\n14 store 0\n15 mark 1\n16 load 0\n17 make 0\n18 join\n19 done\n",
        "",
        0,
    ),
    (SENDS_ON, &["check", "m.chi"], "", "accepted\n", 0),
    (
        "trace 1\n0 local 0\n1 advance 0.000000001\n2 wake 0 0\ncompleted at time 0.000000001\n",
        &["trace-up", "m.chi"],
        "trace 2\n0 local 0 - -\n1 advance 0.000000001\n2 wake 0 0 -\ncompleted at time 0.000000001\n",
        "",
        0,
    ),
    (
        "trace 2\n",
        &["trace-up", "m.chi"],
        "",
        "line 1: trace form\n",
        24,
    ),
];

/// Sources that are refused.
const REFUSALS: [Row; 9] = [
    (
        "model M(): chan int a; int x; select a?x alt",
        SIM,
        "",
        "line 1 column 45: syntax at token 17\n",
        21,
    ),
    (
        "proc S(chan? int a): a!1 end model M(): pass end",
        SIM,
        "",
        "line 1 column 23: rule 23\n",
        22,
    ),
    (
        "model M(): write(\"a) end",
        SIM,
        "",
        "line 1 column 18: open string\n",
        20,
    ),
    (
        "model M(): @ end",
        SIM,
        "",
        "line 1 column 12: bad byte\n",
        20,
    ),
    (
        "model M(): write(\"\\q\") end",
        SIM,
        "",
        "line 1 column 19: bad escape\n",
        20,
    ),
    (
        "model M(): int x =",
        SIM,
        "",
        "line 1 column 19: syntax at token 8\n",
        21,
    ),
    (
        "model M(): a!1 a!2 end",
        SIM,
        "",
        "line 1 column 16: syntax at token 8\n",
        21,
    ),
    (
        "model M(): x = 1 < 2 < 3 end",
        SIM,
        "",
        "line 1 column 22: syntax at token 10\n",
        21,
    ),
    (
        "model M(): pass end end",
        SIM,
        "",
        "line 1 column 21: syntax at token 7\n",
        21,
    ),
];

/// Sources of repeated texts, deep or long, and what is logged.
const REPEATED: [(&[(&str, usize)], &str, u8); 8] = [
    (
        &[
            ("model M(): int x = ", 1),
            ("(", 201),
            ("1", 1),
            (")", 201),
            (" end", 1),
        ],
        "line 1 column 220: too deep at token 208\n",
        21,
    ),
    (
        &[
            ("model M(): int x = ", 1),
            ("(", 200),
            ("1", 1),
            (")", 200),
            (" end", 1),
        ],
        DONE,
        0,
    ),
    (
        &[("model M(): int x = ", 1), ("-", 201), ("1 end", 1)],
        "line 1 column 220: too deep at token 208\n",
        21,
    ),
    (
        &[
            ("model M(): ", 1),
            ("if true: ", 64),
            ("pass", 1),
            (" end", 65),
        ],
        "line 1 column 588: too deep at token 197\n",
        21,
    ),
    (
        &[
            ("model M(): ", 1),
            ("if true: ", 63),
            ("pass", 1),
            (" end", 64),
        ],
        DONE,
        0,
    ),
    (
        &[("model M(): ", 1), ("list ", 32), ("int x end", 1)],
        "line 1 column 12: rule 4\n",
        22,
    ),
    (
        &[("(", 1_048_576)],
        "line 1 column 1: syntax at token 0\n",
        21,
    ),
    (&[(" ", 1_048_577)], "file too long\n", 4),
];

#[test]
fn requests_are_answered(rt: HostRuntime) -> Result<(), Fail> {
    expect_rows(&rt, rt.alloc(), &TIMES)?;
    expect_rows(&rt, rt.alloc(), &WORDS)?;
    expect_rows(&rt, rt.alloc(), &REFUSALS)
}

#[test]
fn deep_and_long_sources_are_answered(rt: HostRuntime) -> Result<(), Fail> {
    for (texts, log, status) in REPEATED {
        let source = written(rt.alloc(), texts)?;
        let wanted = Wanted {
            out: "",
            log,
            status,
        };
        expect(&rt, rt.alloc(), SIM, &source, log, wanted)?;
    }
    Ok(())
}
