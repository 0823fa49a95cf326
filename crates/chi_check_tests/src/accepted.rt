//! Sources in which no rule is broken.

use crate::sources::expect_accepted;
use std::test::Fail;

const ACCEPTED: [&str; 28] = [
    "model M(): pass end",
    "model M(): real x = 1; x = 2 end",
    "model M(): real r = 9223372036.854775807 end",
    "model M(): list list int x; list(2) list(3) int y; x = y end",
    "model M(): tuple(int a; real b) t = (1, 2.0); int x; real y; x, y = t end",
    "model M(): for k, v in {1: \"a\"}: writeln(\"%d %s\", k, v) end; for e in {1: 2}: writeln(\"%s\", e) end end",
    "model M(): while true: if false: break else: continue end end end",
    "model M(): if true: int x end; int x; if false: real y else: bool y end end",
    "model M(): for i in range(2): pass end; for i in [true]: pass end; string i end",
    "model M(): select unwind i in range(2): delay i alt delay 1 end end; int i end",
    "proc int P(): exit 1 end proc Q(): pass end model int M(): start P(), Q(); exit 2 end",
    "enum E = {a, b} type t = list E; const t es = [a, b]; func bool f(E x): return x == a end model M(): write(\"%s\", f(b)) end",
    "type t = list E; const t es = [a]; enum E = {a, b} model M(): pass end",
    "proc P(inst i): finish i end model M(): inst i; i = i; run i = Q(), P(i) end proc Q(): pass end",
    "model M(): list(2) chan int cs; int x; select unwind i in range(2): cs[i]?x: pass end alt delay 1: pass alt delay timer(2.0) end end",
    "func int fac(int n): if n == 0: return 1 end; return n * fac(n - 1) end model M(): writeln(\"%d\", fac(5)) end",
    "func int f(int n): return g(n) end func int g(int n): return f(n) end model M(): pass end",
    "proc P(int n): start Q(n) end proc Q(int n): start P(n) end model M(): run P(1), Q(2) end",
    "proc P(int n): pass end proc Q(real n): pass end model M(int n): run unwind i in range(n): P(i), Q(i) end end",
    "model M(): pass end model N(): pass end proc P(): pass end",
    "model M(): chan void a; select a! alt a? end end",
    "model M(): for i in range(2): break end end",
    "model M(): for i in {1, 2}: pass end end",
    "model M(): dict(real : int) d; d[1] = 1 end",
    "model M(): chan int a; for i in range(2): a?i end end",
    "func int f(chan int a): for c in [a]: pass end; return 1 end model M(): pass end",
    "proc P(): exit end model int M(): run P() end",
    "model M(): write(\"%%\") end",
];

#[test]
fn sources_break_no_rule(rt: HostRuntime) -> Result<(), Fail> {
    expect_accepted(&rt, rt.alloc(), &ACCEPTED)
}
