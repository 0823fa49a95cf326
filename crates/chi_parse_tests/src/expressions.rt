use crate::shapes::{shape, type_shape};
use crate::sources::tokens_of;
use chi_grammar::ParseFault;
use chi_parse_expr::{parse_expr, parse_type};
use chi_tree::{Expr, TypeTree};
use std::alloc::Global;
use std::process::Abort;
use std::test::Fail;

/// What the parser answers of a source, inside levels of expressions.
fn read(alloc: Global, source: &[u8], nest: u32) -> Result<Result<(Expr, u32), ParseFault>, Fail> {
    let tokens = tokens_of(alloc, source)?;
    if nest > 200 {
        return Err(Fail::from("too deep"));
    }
    Ok(parse_expr(alloc, tokens.as_slice(), 0, nest))
}

/// The same of a type.
fn read_type(alloc: Global, source: &[u8]) -> Result<Result<(TypeTree, u32), ParseFault>, Fail> {
    let tokens = tokens_of(alloc, source)?;
    Ok(parse_type(alloc, tokens.as_slice(), 0, 0))
}

/// How a source is grouped and how many of its tokens are read.
fn grouped(alloc: Global, source: &str) -> Result<String, Fail> {
    let (tree, end) = read(alloc, source.as_bytes(), 0)??;
    shape(alloc, &tree, end)
}

/// The same of a type.
fn grouped_type(alloc: Global, source: &str) -> Result<String, Fail> {
    let (tree, end) = read_type(alloc, source.as_bytes())??;
    type_shape(alloc, &tree, end)
}

fn check(rt: &impl Abort, alloc: Global, rows: &[(&str, &str)]) -> Result<(), Fail> {
    for (source, want) in rows {
        let got = grouped(alloc, source)?;
        assert_eq!(rt; got.as_str(), *want, "for {source}");
    }
    Ok(())
}

fn check_types(rt: &impl Abort, alloc: Global, rows: &[(&str, &str)]) -> Result<(), Fail> {
    for (source, want) in rows {
        let got = grouped_type(alloc, source)?;
        assert_eq!(rt; got.as_str(), *want, "for {source}");
    }
    Ok(())
}

/// The fault with which a source is refused, inside levels of expressions.
fn refused(alloc: Global, source: &[u8], nest: u32) -> Result<Option<ParseFault>, Fail> {
    Ok(read(alloc, source, nest)?.err())
}

#[test]
fn operators_group_by_their_levels(rt: HostRuntime) -> Result<(), Fail> {
    check(
        &rt,
        rt.alloc(),
        &[
            ("a or b or c", "(a Or b Or c) 5"),
            ("a or b and c or d", "(a Or (b And c) Or d) 7"),
            ("not a and b", "((Not a) And b) 4"),
            ("a and not not b", "(a And (Not (Not b))) 5"),
            ("not a < b", "(Not (a Less b)) 4"),
            ("a + b <= c - d", "((a Add b) LessEqual (c Subtract d)) 7"),
            ("a < b < c", "(a Less b) 3"),
            ("a in b sub c", "(a In b) 3"),
            ("a - b - c", "(a Subtract b Subtract c) 5"),
            (
                "a + b * c div d mod e / f",
                "(a Add (b Multiply c DivideWhole d Remainder e Divide f)) 11",
            ),
            ("a * -b + +c", "((a Multiply (Minus b)) Add (Plus c)) 7"),
            ("-a ^ b", "(Minus (a ^ b)) 4"),
            ("a ^ -b ^ c", "(a ^ (Minus (b ^ c))) 6"),
            ("a ^ b ^ c", "(a ^ (b ^ c)) 5"),
            ("sample f(a)", "(Sample f(a;)) 5"),
            (
                "a != b or c == d and e >= f",
                "((a NotEqual b) Or ((c Equal d) And (e GreaterEqual f))) 11",
            ),
            ("a not b", "a 1"),
        ],
    )
}

#[test]
fn parts_and_brackets_are_told_apart(rt: HostRuntime) -> Result<(), Fail> {
    check(
        &rt,
        rt.alloc(),
        &[
            ("a[b].c[d]", "a[b].c[d] 9"),
            ("f(a).b", "f(a;).b 6"),
            ("f()[a]", "f()[a] 6"),
            ("a[:]", "a[:] 4"),
            ("a[b:]", "a[b:] 5"),
            ("a[:b]", "a[:b] 5"),
            ("a[b:c]", "a[b:c] 6"),
            ("a[::]", "a[::] 5"),
            ("a[b::]", "a[b::] 6"),
            ("a[:b:]", "a[:b:] 6"),
            ("a[::b]", "a[::b] 6"),
            ("a[b:c:d]", "a[b:c:d] 8"),
            ("(a)", "round(a) 3"),
            ("(a, b).c", "tuple(a;b;).c 7"),
            ("[a, b + c]", "list(a;(b Add c);) 7"),
            ("{a}", "set(a;) 3"),
            ("{a, b}", "set(a;b;) 5"),
            ("{a: b, c: d}", "dict a: b; c: d; 9"),
            (
                "int(a) * real(\"1\")",
                "(cast Int(a) Multiply cast Real(1)) 9",
            ),
            ("true and time < 1.5", "(true And (time Less 1.5)) 5"),
            ("<int>[] < a", "(empty list Int Less a) 7"),
            ("<set t>{}", "empty set set t 6"),
            ("<int: list real>{}", "empty dict Int: list() Real 8"),
        ],
    )
}

#[test]
fn types_are_read(rt: HostRuntime) -> Result<(), Fail> {
    check_types(
        &rt,
        rt.alloc(),
        &[
            ("t", "t 1"),
            ("chan ! void", "chan Send void 3"),
            ("chan ? list int", "chan Receive list() Int 4"),
            ("chan bool", "chan Both Bool 2"),
            ("dict(int : list(3) real)", "dict(Int: list(3) Real) 10"),
            (
                "tuple(int a, b; dist string c)",
                "tuple(Int a;b;dist Text c;) 11",
            ),
            ("list(f(a)) inst x", "list(f(a;)) Inst 8"),
            ("set timer", "set Timer 2"),
        ],
    )
}

#[test]
fn the_first_token_that_is_wrong_is_named(rt: HostRuntime) -> Result<(), Fail> {
    let rows: [(&str, u32, Option<ParseFault>); 7] = [
        ("", 0, Some(ParseFault::Syntax(0))),
        ("a +", 0, Some(ParseFault::Syntax(2))),
        ("{a: b, c}", 0, Some(ParseFault::Syntax(6))),
        ("(a)", 199, None),
        ("(a)", 200, Some(ParseFault::TooDeep(0))),
        ("((a))", 199, Some(ParseFault::TooDeep(1))),
        ("a ^ b", 200, Some(ParseFault::TooDeep(2))),
    ];
    for (source, nest, want) in rows {
        assert_eq!(rt;
            refused(rt.alloc(), source.as_bytes(), nest)?,
            want,
            "for {source}"
        );
    }
    Ok(())
}
