//! Sources with experiments: those that break a rule, and those that break none.

use crate::sources::{checked, expect_accepted, expect_broken};
use chi_core::{Core, XStat};
use std::test::Fail;

/// A rule, the line and the column where a source breaks it, and the source.
const BROKEN: [(u8, u32, u32, &str); 58] = [
    // What no experiment has.
    (
        41,
        1,
        20,
        "xper X(): bool b = sample bernoulli(0.5) end model N(): pass end",
    ),
    (41, 1, 20, "xper X(): real r = time end model N(): pass end"),
    (
        41,
        1,
        20,
        "xper X(): bool b = ready(timer(1.0)) end model N(): pass end",
    ),
    (
        41,
        1,
        20,
        "xper X(): bool b = finished(i) end model N(): pass end",
    ),
    (
        41,
        1,
        20,
        "xper X(): bool b = timer(1.0) == timer(2.0) end model N(): pass end",
    ),
    (
        41,
        1,
        25,
        "xper X(): real r = real(timer(1.0)) end model N(): pass end",
    ),
    (41, 1, 18, "xper X(): int a; a!1 end model N(): pass end"),
    (41, 1, 18, "xper X(): int a; a? end model N(): pass end"),
    (41, 1, 11, "xper X(): delay 1 end model N(): pass end"),
    (
        41,
        1,
        11,
        "xper X(): select delay 1: pass end end model N(): pass end",
    ),
    (41, 1, 11, "xper X(): run N() end model N(): pass end"),
    (41, 1, 11, "xper X(): start N() end model N(): pass end"),
    (41, 1, 11, "xper X(): finish 1 end model N(): pass end"),
    (41, 1, 11, "xper X(): exit end model N(): pass end"),
    (41, 1, 11, "xper X(): exit 1 end model N(): pass end"),
    (41, 1, 11, "xper X(): timer t end model N(): pass end"),
    (41, 1, 11, "xper X(): inst i end model N(): pass end"),
    (41, 1, 11, "xper X(): chan int a end model N(): pass end"),
    (41, 1, 11, "xper X(): dist int d end model N(): pass end"),
    (
        41,
        1,
        11,
        "xper X(): list chan int cs end model N(): pass end",
    ),
    (
        41,
        1,
        11,
        "xper X(): tuple(int a; timer t) p end model N(): pass end",
    ),
    (
        41,
        1,
        43,
        "xper X(): if true: pass else: while true: delay 1 end end end model N(): pass end",
    ),
    // Calls of models that aren't whole values.
    (
        42,
        1,
        54,
        "model int M(int n): exit n end xper X(): int v = 1 + M(1) end",
    ),
    (
        42,
        1,
        51,
        "model int M(int n): exit n end xper X(): int v = (M(1)) end",
    ),
    (
        42,
        1,
        54,
        "model int M(int n): exit n end xper X(): int v; v = -M(1) end",
    ),
    (
        42,
        1,
        59,
        "model int M(int n): exit n end xper X(): int v, w; v, w = M(1) end",
    ),
    (
        42,
        1,
        59,
        "model int M(int n): exit n end xper X(): int v, w; v, w = M(1), 2 end",
    ),
    (
        42,
        1,
        45,
        "model int M(int n): exit n end xper X(): if M(1) > 0: pass end end",
    ),
    (
        42,
        1,
        48,
        "model int M(int n): exit n end xper X(): while M(1) > 0: pass end end",
    ),
    (
        42,
        1,
        57,
        "model int M(int n): exit n end xper X(): for i in range(M(1)): pass end end",
    ),
    (
        42,
        1,
        56,
        "model int M(int n): exit n end xper X(): writeln(\"%d\", M(1)) end",
    ),
    (
        42,
        1,
        52,
        "model int M(int n): exit n end xper X(): int v = M(M(1)) end",
    ),
    (
        42,
        1,
        61,
        "model int M(int n): exit n end xper X(): list(2) int xs; xs[M(1)] = 1 end",
    ),
    (
        42,
        1,
        47,
        "model int M(int n): exit n end xper X(): list(M(2)) int xs end",
    ),
    (
        42,
        1,
        84,
        "func int f(int n): return n end model int M(int n): exit n end xper X(): int v = f(M(1)) end",
    ),
    // Models that no experiment runs.
    (42, 1, 39, "model N(): pass end xper X(): int v = N() end"),
    (
        42,
        1,
        42,
        "model N(): pass end xper X(): int v; v = N() end",
    ),
    (
        42,
        1,
        62,
        "model int M(dist int d): exit sample d end xper X(): int v = M(uniform(0, 2)) end",
    ),
    (
        42,
        1,
        58,
        "model int M(chan int a): exit 1 end xper X(): int v; v = M(a) end",
    ),
    // Other rules, in experiments and of models.
    (14, 1, 11, "xper X(): return 1 end model N(): pass end"),
    (3, 1, 24, "model int M(): int v = M(); exit v end"),
    (
        3,
        1,
        22,
        "func int f(): return M() end model int M(): exit 1 end",
    ),
    (
        3,
        1,
        50,
        "model int M(int n): exit n end xper X(): int v = M end",
    ),
    (
        3,
        1,
        50,
        "model int M(int n): exit n end xper X(): int v = X() end",
    ),
    (
        3,
        1,
        48,
        "model int M(int n): exit n end proc P(): start X() end xper X(): pass end",
    ),
    (
        10,
        1,
        47,
        "model bool M(): exit true end xper X(): int v = M() end",
    ),
    (
        10,
        1,
        46,
        "model real M(): exit 1.0 end xper X(): int v = M() end",
    ),
    (
        22,
        1,
        50,
        "model bool M(): exit true end xper X(): int v; v = M() end",
    ),
    (
        22,
        1,
        62,
        "model real M(): exit 1.0 end xper X(): list(2) int xs; xs[0] = M() end",
    ),
    (
        35,
        1,
        50,
        "model int M(int n): exit n end xper X(): int v = M() end",
    ),
    (
        35,
        1,
        53,
        "model int M(int n): exit n end xper X(): int v; v = M(1, 2) end",
    ),
    (
        35,
        1,
        53,
        "model int M(int n): exit n end xper X(): int v; v = M(true) end",
    ),
    (
        1,
        1,
        46,
        "model int M(int n): exit n end xper X(): int M = M(1) end",
    ),
    (
        1,
        1,
        53,
        "model int M(int n): exit n end xper X(): int v = 1, v = M(1) end",
    ),
    (
        2,
        1,
        42,
        "model int M(int n): exit n end xper X(): w = M(1) end",
    ),
    (16, 1, 11, "xper X(): break end model N(): pass end"),
    (
        17,
        1,
        14,
        "xper X(): if 1: pass end end model N(): pass end",
    ),
    (
        1,
        1,
        25,
        "xper X(): pass end xper X(): pass end model N(): pass end",
    ),
];

const ACCEPTED: [&str; 12] = [
    "model int M(int n): exit n end xper X(): int v = M(1); v = M(v); writeln(\"%d\", v) end",
    "model int M(int n): exit n end xper X(): real r = M(1); r = M(2) end",
    "model real M(real a): exit a end xper X(): real r = M(1), s = M(r); s = M(r * 2.0) end",
    "model int M(int n): exit n end xper X(): list(3) int xs; for i in range(3): xs[i] = M(i) end; write(\"%s\", xs) end",
    "model int M(int n): exit n end xper X(): tuple(int a; real b) t; t.a = M(1); t.b = M(2) end",
    "model int M(int n): exit n end xper X(): int v, w; v, w = 1, 2; while v < w: v = M(v + 1); if v == 2: break elif v == 3: continue else: pass end end end",
    "func int f(int n): return n * 2 end model int M(int n): exit n end xper X(): int v = f(2); v = M(f(v)) end",
    "enum E = {a, b} model E M(E e): exit e end xper X(): E e = M(a); if e == b: writeln(\"b\") end end",
    "xper X(): int v = M() ; pass end xper Y(): pass end model int M(): exit 1 end model N(): pass end",
    "model int M(int n): exit n end xper X(): if true: int v = M(1) else: real v = M(2) end; int v end",
    "model int M(int n): exit n end xper X(): dict(int : int) d; d[1] = 2; for k, v in d: int w = M(k + v); write(\"%d\", w) end end",
    "model set int M(list int xs): exit {1} end xper X(): set int s = M([1, 2]); s = M(<int>[]) end",
];

#[test]
fn experiments_break_rules(rt: HostRuntime) -> Result<(), Fail> {
    expect_broken(&rt, rt.alloc(), &BROKEN)
}

#[test]
fn experiments_break_no_rule(rt: HostRuntime) -> Result<(), Fail> {
    expect_accepted(&rt, rt.alloc(), &ACCEPTED)
}

/// Whether a core has one experiment, whose only statement runs the process of this number and takes an int as a real.
fn widens(core: &Core, number: u32) -> bool {
    let [experiment] = core.xpers.as_slice() else {
        return false;
    };
    match experiment.body.as_slice() {
        [XStat::RunModel(1, _, model, _, true)] => *model == number,
        _ => false,
    }
}

#[test]
fn a_run_takes_an_int_as_a_real(rt: HostRuntime) -> Result<(), Fail> {
    let source = "proc P(): pass end model int M(): exit 1 end xper X(): real r = M() end";
    let core = checked(&rt, rt.alloc(), source.as_bytes())?;
    assert!(rt; core.is_ok_and(|core| widens(&core, 1)));
    Ok(())
}
