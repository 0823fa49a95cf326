//! The cores of expressions and types, which no command shows.

use crate::answers::{expr_answer, expr_call, type_call};
use crate::names::names;
use chi_check_expr::{Scope, Site};
use std::alloc::Global;
use std::process::Abort;
use std::test::Fail;

/// Expressions of a process, each with its core.
const CORES: [(&str, &str); 66] = [
    ("(i)", "Var(1)"),
    ("+r", "Var(2)"),
    ("-(+i)", "Op(Neg, [Var(1)])"),
    ("n", "Const(0)"),
    ("red", "Lit(Choice(0, 0))"),
    ("i + n", "Op(Add, [Var(1), Const(0)])"),
    ("i + r", "Op(Add, [Op(Widen, [Var(1)]), Var(2)])"),
    (
        "i - i + r",
        "Op(Add, [Op(Widen, [Op(Sub, [Var(1), Var(1)])]), Var(2)])",
    ),
    (
        "r + i * i",
        "Op(Add, [Var(2), Op(Widen, [Op(Mul, [Var(1), Var(1)])])])",
    ),
    ("real(i) + r", "Op(Add, [Op(ToReal, [Var(1)]), Var(2)])"),
    (
        "real(i) + i",
        "Op(Add, [Op(ToReal, [Var(1)]), Op(Widen, [Var(1)])])",
    ),
    (
        "i / i",
        "Op(Divide, [Op(Widen, [Var(1)]), Op(Widen, [Var(1)])])",
    ),
    (
        "i ^ i ^ i",
        "Op(Power, [Var(1), Op(Power, [Var(1), Var(1)])])",
    ),
    ("i < r", "Op(Less, [Op(Widen, [Var(1)]), Var(2)])"),
    (
        "i == i and b or b",
        "Or(And(Op(Equal, [Var(1), Var(1)]), Var(0)), Var(0))",
    ),
    ("i - i - i", "Op(Sub, [Op(Sub, [Var(1), Var(1)]), Var(1)])"),
    (
        "i - (i - i)",
        "Op(Sub, [Var(1), Op(Sub, [Var(1), Var(1)])])",
    ),
    (
        "r / i / i",
        "Op(Divide, [Op(Divide, [Var(2), Op(Widen, [Var(1)])]), Op(Widen, [Var(1)])])",
    ),
    ("b and b and b", "And(And(Var(0), Var(0)), Var(0))"),
    ("not b == b", "Op(Not, [Op(Equal, [Var(0), Var(0)])])"),
    ("-i ^ i", "Op(Neg, [Op(Power, [Var(1), Var(1)])])"),
    ("i ^ -i", "Op(Power, [Var(1), Op(Neg, [Var(1)])])"),
    (
        "i ^ i * r",
        "Op(Mul, [Op(Widen, [Op(Power, [Var(1), Var(1)])]), Var(2)])",
    ),
    (
        "sample g + r",
        "Op(Add, [Op(Widen, [Op(Sample, [Var(12)])]), Var(2)])",
    ),
    ("i in qs", "Op(In, [Op(Widen, [Var(1)]), Var(9)])"),
    ("[i, r]", "Build(ListOf, [Op(Widen, [Var(1)]), Var(2)])"),
    (
        "{i: i, r: r}",
        "Build(DictOf, [Op(Widen, [Var(1)]), Op(Widen, [Var(1)]), Var(2), Var(2)])",
    ),
    ("{i: s}", "Build(DictOf, [Var(1), Var(3)])"),
    ("{r, i}", "Build(SetOf, [Var(2), Op(Widen, [Var(1)])])"),
    (
        "{r: s}[i]",
        "Op(Lookup, [Build(DictOf, [Var(2), Var(3)]), Op(Widen, [Var(1)])])",
    ),
    ("(i, r)", "Build(TupleOf, [Var(1), Var(2)])"),
    ("<real>[]", "Build(ListOf, [])"),
    ("<int: real>{}", "Build(DictOf, [])"),
    ("is[i]", "Op(Index, [Var(6), Var(1)])"),
    ("d[i]", "Op(Lookup, [Var(10), Var(1)])"),
    ("is[i:]", "Op(Slice(true, false, false), [Var(6), Var(1)])"),
    ("is[::i]", "Op(Slice(false, false, true), [Var(6), Var(1)])"),
    ("w.a.y", "Part(Part(Var(15), 0), 1)"),
    ("f(i)", "Call(0, [Op(Widen, [Var(1)])])"),
    (
        "f(i + i)",
        "Call(0, [Op(Widen, [Op(Add, [Var(1), Var(1)])])])",
    ),
    ("count()", "Call(3, [])"),
    (
        "insert(rs, i, below)",
        "InsertBy(Var(7), Op(Widen, [Var(1)]), 2)",
    ),
    (
        "min(i, r, i)",
        "Op(Min, [Op(Widen, [Var(1)]), Var(2), Op(Widen, [Var(1)])])",
    ),
    ("floor(i)", "Op(Floor, [Op(Widen, [Var(1)])])"),
    (
        "uniform(i, r)",
        "Op(Uniform, [Op(Widen, [Var(1)]), Var(2)])",
    ),
    (
        "binomial(i, i)",
        "Op(Binomial, [Var(1), Op(Widen, [Var(1)])])",
    ),
    ("constant(i)", "Op(Constant, [Var(1)])"),
    ("bernoulli(i)", "Op(Bernoulli, [Op(Widen, [Var(1)])])"),
    ("exponential(i)", "Op(Exponential, [Op(Widen, [Var(1)])])"),
    ("int(i)", "Op(ToInt, [Var(1)])"),
    ("timer(i)", "Op(ToTimer, [Op(Widen, [Var(1)])])"),
    (
        "real(t) - time",
        "Op(Sub, [Op(ToReal, [Var(4)]), Op(Time, [])])",
    ),
    ("time", "Op(Time, [])"),
    ("sample g", "Op(Sample, [Var(12)])"),
    ("true", "Lit(Bool(true))"),
    ("17", "Lit(Int(17))"),
    ("i != i", "Op(NotEqual, [Var(1), Var(1)])"),
    ("i <= i", "Op(AtMost, [Var(1), Var(1)])"),
    ("i > i", "Op(Greater, [Var(1), Var(1)])"),
    ("i >= i", "Op(AtLeast, [Var(1), Var(1)])"),
    ("i != r", "Op(NotEqual, [Op(Widen, [Var(1)]), Var(2)])"),
    ("r > i", "Op(Greater, [Var(2), Op(Widen, [Var(1)])])"),
    ("i div n", "Op(Div, [Var(1), Const(0)])"),
    ("i mod n", "Op(Mod, [Var(1), Const(0)])"),
    ("ks sub ks", "Op(Subset, [Var(8), Var(8)])"),
    ("large", "Lit(Choice(1, 1))"),
];

/// Asserts what each expression comes to.
fn expect(
    rt: &impl Abort,
    alloc: Global,
    rows: &[(&str, &str)],
    scope: &Scope,
    site: Site,
) -> Result<(), Fail> {
    for (source, want) in rows {
        let told = expr_answer(alloc, source.as_bytes(), scope, site)?;
        assert_eq!(rt; told.as_str(), *want, "for {source}");
    }
    Ok(())
}

#[test]
fn what_expressions_become(rt: HostRuntime) -> Result<(), Fail> {
    let scope = names(rt.alloc())?;
    expect(&rt, rt.alloc(), &CORES, &scope, Site::Process)
}

/// Expressions with names that a constant can't see, each with the rule that it breaks in one.
const IN_CONSTANTS: [(&str, &str); 8] = [
    ("f(1)", "11 at 1:1"),
    ("i + count()", "11 at 1:5"),
    ("no_function(1)", "11 at 1:1"),
    ("insert(is, 1, less)", "11 at 1:1"),
    ("real(t)", "11 at 1:1"),
    ("s + f(1)", "11 at 1:5"),
    ("f(nobody)", "11 at 1:1"),
    ("insert(is, 1, nobody)", "11 at 1:1"),
];

#[test]
fn constants_call_no_functions(rt: HostRuntime) -> Result<(), Fail> {
    let scope = names(rt.alloc())?;
    expect(&rt, rt.alloc(), &IN_CONSTANTS, &scope, Site::Constant)
}

#[test]
fn the_call_for_an_expression(rt: HostRuntime) -> Result<(), Fail> {
    let core = expr_call(rt.alloc(), "1 + real(2)")?;
    assert_eq!(rt;
        core.as_str(),
        "Op(Add, [Op(Widen, [Lit(Int(1))]), Op(ToReal, [Lit(Int(2))])])"
    );
    let told = expr_call(rt.alloc(), "1 + true")?;
    assert_eq!(rt; told.as_str(), "34 at 1:3");
    Ok(())
}

#[test]
fn the_call_for_a_type(rt: HostRuntime) -> Result<(), Fail> {
    let default = type_call(rt.alloc(), "list(2) list(3) int")?;
    assert_eq!(rt;
        default.as_str(),
        "Repeat(Lit(Int(2)), Repeat(Lit(Int(3)), Default(Int)))"
    );
    let told = type_call(rt.alloc(), "list(2) list(true) int")?;
    assert_eq!(rt; told.as_str(), "7 at 1:9");
    Ok(())
}
