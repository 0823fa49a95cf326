//! What constants and expressions come to by their code.

ghost use Rattle.std.specs.Prelude.{◌≡◌, ◌<◌, ◌+◌, [], IfOk, IfSome, OnOk, length};
ghost use Rattle.chi_core.specs.Beginning.{constant_view};
ghost use Rattle.chi_exec.specs.Hints.{AreRight};
ghost use Rattle.chi_machine_tests.specs.Programs.{AllKinded, HasCode, IsValueAt, StandAt};

use crate::programs::{Program, SEED, program_of};
use crate::shown::bare;
use chi_core::{CStat, View};
use chi_core_frame::Variables;
use chi_exec::{Exec, Outlook, Ran};
use std::alloc::Global;
use std::process::Abort;
use std::test::Fail;

/// Constants that stand on one another, functions, and a model.
const DEFINITIONS: &str = "const int n = 7
const list int xs = [n, n * n, -n]
const real r = n / 2
const string s = \"a\" + string(size(xs))
const int answer = xs[-1] + xs[1]
func int twice(int x): return x + x end
func int factorial(int k): if k == 0: return 1 end; return k * factorial(k - 1) end
func int total(list int ys): int t; for y in ys: t = t + y end; return t end
func int power_from(int k): int p = 1; while p < k: p = 2 * p end; return p end
func bool is_before(int a, b): return a < b end
func int deep(int k): return deep(k + 1) end
model M(): pass end
";

/// A type, an expression of it, a bound, and what that comes to: values with what is left of the bound, or none.
type Row<'a> = (&'a str, &'a str, u32, &'a str);

/// Each constant, and expressions. Each item that a called function does takes 1 of the bound.
const EXPRESSIONS: [Row; 21] = [
    ("int", "n", 0, "Val([Int(7)]), 0 left"),
    (
        "list int",
        "xs",
        0,
        "Val([ListOf([Int(7), Int(49), Int(-7)])]), 0 left",
    ),
    ("real", "r", 0, "Val([Real(3500000000)]), 0 left"),
    ("string", "s", 0, "Val([Text([97, 51])]), 0 left"),
    ("int", "answer", 0, "Val([Int(42)]), 0 left"),
    ("int", "twice(n) + xs[0]", 100, "Val([Int(21)]), 99 left"),
    // Six calls, each with its `if` and a `return`.
    ("int", "factorial(5)", 100, "Val([Int(120)]), 88 left"),
    ("int", "factorial(5)", 12, "Val([Int(120)]), 0 left"),
    ("int", "factorial(5)", 11, "Spent"),
    // A declaration, the `for`, five turns of its walk, four assignments and the `return`.
    ("int", "total(xs + [1])", 100, "Val([Int(50)]), 88 left"),
    // A declaration, six tests, five assignments and the `return`.
    (
        "int",
        "power_from(10 * size(xs))",
        100,
        "Val([Int(32)]), 87 left",
    ),
    ("int", "deep(0)", 1000, "Fault(CallDepth)"),
    (
        "real",
        "r * 2.0 - 0.5",
        0,
        "Val([Real(6500000000)]), 0 left",
    ),
    (
        "string",
        "s + \"b\"",
        0,
        "Val([Text([97, 51, 98])]), 0 left",
    ),
    (
        "bool",
        "n > 7 and 1 div 0 == 0",
        0,
        "Val([Bool(false)]), 0 left",
    ),
    (
        "bool",
        "n == 7 or 1 div 0 == 0",
        0,
        "Val([Bool(true)]), 0 left",
    ),
    (
        "bool",
        "n == 7 and is_before(n, 7)",
        1,
        "Val([Bool(false)]), 0 left",
    ),
    ("int", "1 div (n - 7)", 100, "Fault(DivideByZero)"),
    ("int", "xs[size(xs)]", 100, "Fault(IndexRange)"),
    (
        "list int",
        "xs[1:] + [answer]",
        0,
        "Val([ListOf([Int(49), Int(-7), Int(42)])]), 0 left",
    ),
    // The function is asked of 1, 4 and 9.
    (
        "list int",
        "insert([1, 4, 9], 5, is_before)",
        100,
        "Val([ListOf([Int(1), Int(4), Int(5), Int(9)])]), 97 left",
    ),
];

/// Sets the next constant, whose code begins at a place, and tells where that of the one after it would begin.
fn set_next(
    rt: &impl Abort,
    alloc: Global,
    exec: &mut Exec,
    p: &Program,
    at: u64,
) -> Result<u64, Fail>
    requires has { HasCode p.now.core p.now.code }
    requires right { AreRight exec.old.hints.items p.now.code.instrs }
    requires stand { StandAt p.now.core p.now.code exec.old.constants.items at }
    requires more { length exec.old.constants.items < length p.now.core.consts }
    ensures stand { IfOk result (λ next. StandAt p.now.core p.now.code exec.new.constants.items next) }
    ensures count { OnOk result (length exec.new.constants.items ≡ length exec.old.constants.items + 1) }
    ensures right { AreRight exec.new.hints.items p.now.code.instrs }
{
    exec.set_constant(alloc, &p.code, at, SEED)?;
    let place = exec.machine.at as u64;
    assert!(rt; place < u64::MAX);
    Ok(place + 1)
}

/// Sets all constants, in a machine in which none is set.
fn set_all(rt: &impl Abort, alloc: Global, exec: &mut Exec, p: &Program) -> Result<(), Fail>
    requires has { HasCode p.now.core p.now.code }
    requires right { AreRight exec.old.hints.items p.now.code.instrs }
    requires none { exec.old.constants.items ≡ [] }
    ensures kinded { OnOk result (AllKinded p.now.core exec.new.constants.items) }
    ensures right { OnOk result (AreRight exec.new.hints.items p.now.code.instrs) }
{
    let mut at = 0;
    for _constant in p.core.consts.as_slice() {
        at = set_next(rt, alloc, exec, p, at)?;
    }
    Ok(())
}

/// Where the code of the expression begins that the first function returns at once, where it has no variables.
fn value_at(p: &Program) -> Option<u64>
    requires has { HasCode p.now.core p.now.code }
    ensures { IfSome result (IsValueAt p.now.core p.now.code) }
{
    let Some(f) = p.core.funcs.as_slice().get(0) else {
        return None;
    };
    let Some(entry) = p.code.funcs.as_slice().get(0) else {
        return None;
    };
    if !f.slots.as_slice().is_empty() {
        return None;
    }
    match f.body.as_slice().get(0) {
        Some(CStat::Return(_, _)) => entry.entry.checked_add(1),
        _ => None,
    }
}

fn view_with(left: u64) -> View
    ensures { result ≡ record constant_view { left = left } }
{
    View {
        left,
        draws: [0; 64],
        channels: 0,
        instances: 0,
    }
}

fn told(alloc: Global, ran: &Ran, left: u64) -> Result<String, Fail> {
    let text = match ran {
        Ran::Val(_) => format!(in alloc; "{ran:?}, {left} left")?,
        _ => format!(in alloc; "{ran:?}")?,
    };
    bare(alloc, text.as_str())
}

/// What the expression comes to whose code begins at a place, and what is then left of the bound.
fn run(alloc: Global, exec: &mut Exec, p: &Program, at: u64, bound: u64) -> Result<String, Fail>
    requires has { HasCode p.now.core p.now.code }
    requires right { AreRight exec.old.hints.items p.now.code.instrs }
    requires kinded { AllKinded p.now.core exec.old.constants.items }
    requires value { IsValueAt p.now.core p.now.code at }
    ensures right { AreRight exec.new.hints.items p.now.code.instrs }
    ensures constants { OnOk result (exec.new.constants.items ≡ exec.old.constants.items) }
{
    let mut outlook = Outlook {
        variables: Variables::new(alloc, 0, Vec::new(alloc))?,
        view: view_with(bound),
        seed: SEED,
        clock: 0,
        finished: Vec::new(alloc),
    };
    let ran = exec.run_expr(alloc, &p.code, at, &mut outlook);
    let left = outlook.view.left;
    drop(outlook);
    let text = told(alloc, &ran, left);
    drop(ran);
    text
}

/// Asserts what an expression comes to, by a machine in which no constant is set, and then again by the same one.
fn expect_by(
    rt: &impl Abort,
    alloc: Global,
    exec: &mut Exec,
    p: &Program,
    row: &Row,
) -> Result<(), Fail>
    requires has { HasCode p.now.core p.now.code }
    requires right { AreRight exec.old.hints.items p.now.code.instrs }
    requires none { exec.old.constants.items ≡ [] }
{
    let (_, e, bound, wanted) = *row;
    set_all(rt, alloc, exec, p)?;
    let Some(at) = value_at(p) else {
        return Err(Fail::new("no value"));
    };
    let first = run(alloc, exec, p, at, bound as u64)?;
    assert_eq!(rt; first.as_str(), wanted, "for {e}");
    let again = run(alloc, exec, p, at, bound as u64)?;
    assert_eq!(rt; again.as_str(), wanted, "again for {e}");
    Ok(())
}

fn expect_in(rt: &impl Abort, alloc: Global, p: &Program, row: &Row) -> Result<(), Fail>
    requires has { HasCode p.now.core p.now.code }
{
    let mut exec = Exec::new(alloc, &p.code)?;
    let met = expect_by(rt, alloc, &mut exec, p, row);
    drop(exec);
    met
}

fn expect(rt: &impl Abort, alloc: Global, row: &Row) -> Result<(), Fail> {
    let (ty, e, _, _) = *row;
    let source = format!(in alloc; "func {ty} value(): return {e} end\n{DEFINITIONS}")?;
    let p = program_of(rt, alloc, source.as_bytes())?;
    let met = expect_in(rt, alloc, &p, row);
    drop(p);
    met
}

#[test]
fn expressions_come_to_their_values(rt: HostRuntime) -> Result<(), Fail> {
    for row in &EXPRESSIONS {
        expect(&rt, rt.alloc(), row)?;
    }
    Ok(())
}
