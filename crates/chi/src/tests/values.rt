//! Values, functions and their faults.

use crate::tests::calls::{DONE, Wanted, expect, written};
use crate::tests::worked::{Row, SIM, expect_rows};
use std::test::Fail;

const SUMS: &str =
    "func int f(int n): int s; while n > 0: s = s + n; n = n - 1 end return s end model M(): writeln(\"%d\", f(3)) end";

const CERTAIN: &str =
    "model M(): writeln(\"%s %s %d\", sample bernoulli(1.0), sample bernoulli(0.0), sample binomial(4, 1.0)) end";

/// Values and functions.
const VALUES: [Row; 19] = [
    (
        "model M():\nlist int xs = [7];\nwriteln(\"%d\", xs[-1]);\nxs = <int>[];\nwriteln(\"%d\", xs[-1]) end",
        SIM,
        "7\n",
        "fault IndexRange in M line 5 at time 0.0\n",
        12,
    ),
    (
        "model M(): write(\"%d %d\\n\", 1, 1 div 0) end",
        SIM,
        "",
        "fault DivideByZero in M line 1 at time 0.0\n",
        12,
    ),
    (
        "model M(): list int xs = [1, 2], ys; ys = xs; xs[0] = 9; writeln(\"%s %s\", xs, ys) end",
        SIM,
        "[9, 2] [1, 2]\n",
        DONE,
        0,
    ),
    (
        "model M(): writeln(\"%s %s\", 0.5 * 0.000000001, -0.5 * 0.000000001) end",
        SIM,
        "0.000000001 -0.000000001\n",
        DONE,
        0,
    ),
    (
        "model M(): int x = 9223372036854775807; x = x + 1 end",
        SIM,
        "",
        "fault IntRange in M line 1 at time 0.0\n",
        12,
    ),
    (
        "model M(): real r = 9223372036.854775807 end",
        SIM,
        "",
        DONE,
        0,
    ),
    (
        "model M(): real r = 9223372036.854775808 end",
        SIM,
        "",
        "line 1 column 21: rule 5\n",
        22,
    ),
    (
        "model M(): set int s = {3, 1, 3}; dict(string : int) d = {\"b\": 2, \"a\": 1}; d[\"c\"] = 3; writeln(\"%s %s %s\", s + {2}, s - {1}, d) end",
        SIM,
        "{1, 2, 3} {3} {\"a\": 1, \"b\": 2, \"c\": 3}\n",
        DONE,
        0,
    ),
    (
        "model M(): writeln(\"%d %d %d %d %s\", -7 div 2, -7 mod 2, 7 mod -2, 2 ^ 62, 7 / 2); writeln(\"%s %s\", range(10)[8:2:-3], [1, 2, 3][-2:]) end",
        SIM,
        "-4 1 -1 4611686018427387904 3.5\n[8, 5] [2, 3]\n",
        DONE,
        0,
    ),
    (
        "model M(): writeln(\"[%5d][%-5s][%.2f][%f]\", 42, \"ab\", 2.005, 1) end",
        SIM,
        "[   42][ab   ][2.01][1.000000]\n",
        DONE,
        0,
    ),
    (SUMS, &["sim", "--steps", "13", "m.chi"], "6\n", DONE, 0),
    (
        SUMS,
        &["sim", "--steps", "12", "m.chi"],
        "",
        "out of steps at time 0.0\n",
        13,
    ),
    (
        "enum C = {red, blue} model M(): C c; writeln(\"%s %s\", c, c < blue) end",
        SIM,
        "red true\n",
        DONE,
        0,
    ),
    (
        "func int f(int n): return f(n + 1) end model M(): writeln(\"%d\", f(0)) end",
        SIM,
        "",
        "fault CallDepth in M line 1 at time 0.0\n",
        12,
    ),
    (
        "func int f(): pass end model M(): int x = f() end",
        SIM,
        "",
        "fault NoReturn in M line 1 at time 0.0\n",
        12,
    ),
    (CERTAIN, SIM, "true false 4\n", DONE, 0),
    (
        CERTAIN,
        &["sim", "--seed", "18446744073709551615", "m.chi"],
        "true false 4\n",
        DONE,
        0,
    ),
    (
        "const int n = 1 div 0; model M(): pass end",
        &["sim", "--steps", "0", "m.chi"],
        "",
        "fault DivideByZero in const line 1 at time 0.0\n",
        12,
    ),
    (
        "func bool before(int x, y): return x < y end model M(): list int xs = insert([1, 4], 3, before); writeln(\"%s %s %s %s\", xs, enumerate(del(xs, -1)), {1, 2} * {2, 3}, {1: 2, 3: 4} - {1}); writeln(\"%s %s\", dict_keys({2: 5}), dict_values({2: 5})) end",
        SIM,
        "[1, 3, 4] [(0, 1), (1, 3)] {2} {3: 4}\n[2] [5]\n",
        DONE,
        0,
    ),
];

/// Statements of a model, and the kind of their fault.
const BODIES: [(&str, &str); 10] = [
    ("dict(int : int) d; d[1] = d[2]", "KeyMissing"),
    ("list int xs; int x; x, xs = pop(xs)", "EmptyPop"),
    ("int x = 2 ^ -1", "BadPower"),
    ("list int xs = range(0, 9, 0)", "SliceStep"),
    ("int x = int(\"1x\")", "BadText"),
    ("delay 0.0 - 1.0", "NegativeDelay"),
    ("int x = sample uniform(3, 3)", "BadDistribution"),
    ("list(1048577) int xs", "TooLarge"),
    ("real r = 9999999999", "RealRange"),
    ("list(1000001) chan int c", "TooManyChannels"),
];

#[test]
fn values_are_answered(rt: HostRuntime) -> Result<(), Fail> {
    expect_rows(&rt, rt.alloc(), &VALUES)
}

#[test]
fn bodies_have_their_faults(rt: HostRuntime) -> Result<(), Fail> {
    for (body, kind) in BODIES {
        let source = written(rt.alloc(), &[("model M(): ", 1), (body, 1), (" end", 1)])?;
        let log = format!(in rt.alloc(); "fault {kind} in M line 1 at time 0.0\n")?;
        let wanted = Wanted {
            out: "",
            log: log.as_str(),
            status: 12,
        };
        expect(&rt, rt.alloc(), SIM, &source, body, wanted)?;
    }
    Ok(())
}
