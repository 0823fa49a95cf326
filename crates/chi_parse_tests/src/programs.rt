use crate::sources::tokens_of;
use chi_grammar::ParseFault;
use chi_parse::parse;
use chi_tree::Program;
use std::alloc::Global;
use std::test::Fail;

/// Programs that have each production of the grammar.
pub const PRODUCTIONS: [&str; 13] = [
    "enum e = { a }; enum f = { a, b, c } const int c = 1 + 2; type t = list int; type u = t;",
    "func int f(): return 1 end; func t f(int a, b; real c): return a; end",
    "proc P(): pass end proc t P(chan int a): pass end proc int P(chan? void a): pass end",
    "model M(int n): pass end model int M(): exit 1 end model t M(): exit end xper X(): pass; end;",
    "model M(): int x; list(3) real y = z, u; t v; t w = 1, q end",
    "model M(): x = 1; x, y[1], z.a[2].b = 1, 2, 3; a[1]!x; a!; b.c?x; b?; delay 1.0; pass; break; continue end",
    "model M(): if x: pass end if x: pass elif y: pass elif z: pass end; if x: pass; else: pass end end",
    "model M(): while x: pass end for i in x: pass end for i, j in x: pass end return 1; exit; finish a, b end",
    "model M(): write(\"a\"); writeln(\"%d %d\", 1, 2); end",
    "model M(): select a!1 end select a?x: pass end select delay 1 alt x > 1, a[1]!x: pass; alt x, b? alt x, delay 2 end end",
    "model M(): select unwind i, j in x: a!1 alt unwind k in y: b?: pass end end alt a! end end",
    "model M(): run P(), x = Q(1, 2), x.y[1] = R(); start P(1) end",
    "model M(): run unwind i in x: P(), unwind j in y: z[i] = Q() end end pass end",
];

fn parsed(alloc: Global, source: &[u8]) -> Result<Result<Program, ParseFault>, Fail> {
    let tokens = tokens_of(alloc, source)?;
    Ok(parse(alloc, tokens.as_slice()))
}

/// Sources with the first token that no tree has, and one with a token that stands too deep. More are in rows/.
const REFUSED: [(&str, ParseFault); 3] = [
    ("", ParseFault::Syntax(0)),
    ("model M(): end", ParseFault::Syntax(5)),
    (
        "model M(): if x: if x: if x: if x: if x: if x: if x: if x: if x: if x: if x: if x: if x: if x: if x: if x: if x: if x: if x: if x: if x: if x: if x: if x: if x: if x: if x: if x: if x: if x: if x: if x: if x: if x: if x: if x: if x: if x: if x: if x: if x: if x: if x: if x: if x: if x: if x: if x: if x: if x: if x: if x: if x: if x: if x: if x: if x: if x: if x: if x: if x: if x: if x: if x: pass",
        ParseFault::TooDeep(197),
    ),
];

#[test]
fn a_refusal_names_its_token(rt: HostRuntime) -> Result<(), Fail> {
    for (source, wanted) in REFUSED {
        let fault = parsed(rt.alloc(), source.as_bytes())?.err();
        assert_eq!(rt; fault, Some(wanted), "{source}");
    }
    Ok(())
}
