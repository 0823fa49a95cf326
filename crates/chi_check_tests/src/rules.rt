//! One source for each rule, which it breaks first. More programs that break rules are in rows/.

use crate::sources::expect_broken;
use std::test::Fail;

/// A rule, the line and the column where a source breaks it, and the source.
const BROKEN: [(u8, u32, u32, &str); 42] = [
    (1, 1, 19, "model M(): int x, x end"),
    (2, 1, 20, "model M(): int x = y end"),
    (3, 1, 18, "model M(): start M() end"),
    (
        4,
        1,
        12,
        "model M(): list list list list list list list list list list list list list list list list list list list list list list list list list list list list list list list list int x end",
    ),
    (5, 1, 20, "model M(): int x = 9223372036854775808 end"),
    (6, 1, 12, "model M(): set timer x end"),
    (
        7,
        1,
        8,
        "proc P(list(3) int x): pass end model M(): pass end",
    ),
    (8, 1, 30, "model M(): tuple(int a; real a) x end"),
    (9, 1, 12, "model M(): dist string x end"),
    (10, 1, 18, "model M(): int x = true end"),
    (11, 1, 16, "const real n = time; model M(): pass end"),
    (
        12,
        1,
        15,
        "func int f(): write(\"a\"); return 1 end model M(): pass end",
    ),
    (
        13,
        1,
        15,
        "func int f(): chan int a; return 1 end model M(): pass end",
    ),
    (14, 1, 12, "model M(): return 1 end"),
    (15, 1, 12, "model M(): exit 1 end"),
    (16, 1, 12, "model M(): break end"),
    (17, 1, 15, "model M(): if 1: pass end end"),
    (18, 1, 21, "model M(): for i in 3: pass end end"),
    (19, 1, 16, "model M(): for i, j in range(3): pass end end"),
    (20, 1, 27, "model M(): int x, y; x, y = 1 end"),
    (21, 1, 29, "const int n = 1; model M(): n = 1 end"),
    (22, 1, 21, "model M(): int x; x = 1.0 end"),
    (
        23,
        1,
        23,
        "proc S(chan? int a): a!1 end model M(): pass end",
    ),
    (
        24,
        1,
        30,
        "proc R(chan! int a): int x; a?x end model M(): pass end",
    ),
    (25, 1, 25, "model M(): chan int a; a!\"b\" end"),
    (26, 1, 33, "model M(): chan int a; real r; a?r end"),
    (27, 1, 12, "model M(): delay \"a\" end"),
    (
        28,
        1,
        42,
        "proc P(int n): pass end model M(): start P() end",
    ),
    (
        29,
        1,
        44,
        "proc P(): pass end model M(): int x; start x = P() end",
    ),
    (
        30,
        1,
        43,
        "proc int P(): exit 1 end model M(): start P() end",
    ),
    (31, 1, 19, "model M(): finish 1 end"),
    (32, 1, 18, "model M(): write(\"%q\") end"),
    (33, 1, 24, "model M(): write(\"%d\", 1.0) end"),
    (34, 1, 22, "model M(): int x = 1 + \"a\" end"),
    (
        35,
        1,
        52,
        "func int f(int n): return n end model M(): int x = f() end",
    ),
    (36, 1, 20, "model M(): int x = size(1) end"),
    (37, 1, 24, "model M(): int x; x = x[0] end"),
    (38, 1, 41, "model M(): tuple(int a, b) t; int x = t.c end"),
    (39, 1, 26, "model M(): list int xs = [1, \"a\"] end"),
    (40, 1, 16, "xper X(): pass end"),
    (41, 1, 11, "xper X(): delay 1 end model M(): pass end"),
    (42, 1, 39, "model M(): pass end xper X(): int v = M() end"),
];

#[test]
fn each_rule_is_broken_by_a_source(rt: HostRuntime) -> Result<(), Fail> {
    expect_broken(&rt, rt.alloc(), &BROKEN)
}
