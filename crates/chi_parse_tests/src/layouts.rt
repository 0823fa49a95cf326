use crate::sources::tokens_of;
use chi_fmt::{FmtFault, canonical, comments};
use chi_lex::MOST_BYTES;
use chi_parse::parse;
use std::alloc::Global;
use std::process::Abort;
use std::test::Fail;

/// The canonical text of a source.
fn formatted(alloc: Global, source: &[u8]) -> Result<Vec<u8>, Fail> {
    let tokens = tokens_of(alloc, source)?;
    let tree = parse(alloc, tokens.as_slice()).map_err(|_| "refused")?;
    let comments = comments(alloc, source, tokens.as_slice())?;
    Ok(canonical(alloc, &tree, comments.as_slice())?)
}

/// Asserts that each source has the text of its row, and that text itself too.
fn check(rt: &impl Abort, alloc: Global, rows: &[(&[u8], &[u8])]) -> Result<(), Fail> {
    for (source, want) in rows {
        let text = formatted(alloc, source)?;
        let shown = std::str::from_utf8(text.as_slice()).unwrap_or("no text");
        assert!(rt; text.as_slice() == *want, "{shown}");
        let again = formatted(alloc, text.as_slice())?;
        assert!(rt; again.as_slice() == *want, "again {shown}");
    }
    Ok(())
}

#[test]
fn statements_have_lines(rt: HostRuntime) -> Result<(), Fail> {
    check(
        &rt,
        rt.alloc(),
        &[
            (
                b"model M(): if true: pass end # c\nwrite(\"a\");end",
                b"model M():\n  if true:\n    pass\n  end;\n  # c\n  write(\"a\")\nend\n",
            ),
            (
                b"proc B(chan? int a):int x;select a?x alt delay -(1)+2: pass end end",
                b"proc B(chan? int a):\n  int x;\n  select a?x\n  alt delay -(1) + 2:\n    pass\n  end\nend\n",
            ),
            (
                b"model M(): if a: pass; elif b: pass else: while c: break; end; for i,j in x:continue end end end;",
                b"model M():\n  if a:\n    pass\n  elif b:\n    pass\n  else:\n    while c:\n      break\n    end;\n    for i, j in x:\n      continue\n    end\n  end\nend\n",
            ),
            (
                b"model M(): select unwind i,j in x: a!1 alt unwind k in y: b?: pass; end end alt x>1,a!(1): pass end end",
                b"model M():\n  select unwind i, j in x:\n    a!1\n    alt unwind k in y:\n      b?:\n        pass\n    end\n  end\n  alt x > 1, a!(1):\n    pass\n  end\nend\n",
            ),
            (
                b"model M(): run unwind i in x: P(), unwind j in y: z[i]=Q(1,2) end end; start R(1) end",
                b"model M():\n  run unwind i in x: P(), unwind j in y: z[i] = Q(1, 2) end end;\n  start R(1)\nend\n",
            ),
        ],
    )
}

#[test]
fn definitions_have_lines(rt: HostRuntime) -> Result<(), Fail> {
    check(
        &rt,
        rt.alloc(),
        &[
            (
                b"enum e={a,b};const int c=1;type t=list(3)int;func t f(int a,b;real c):return(a)end xper X():pass;end;",
                b"enum e = {a, b}\n\nconst int c = 1\n\ntype t = list(3) int\n\nfunc t f(int a, b; real c):\n  return (a)\nend\n\nxper X():\n  pass\nend\n",
            ),
            (
                b"proc int P(chan!t a;chan?void b;chan dict(int:t)c;tuple(int a;real b,c)d): pass end",
                b"proc int P(chan! t a; chan? void b; chan dict(int: t) c; tuple(int a; real b, c) d):\n  pass\nend\n",
            ),
        ],
    )
}

#[test]
fn spaces_stand_where_they_do(rt: HostRuntime) -> Result<(), Fail> {
    check(
        &rt,
        rt.alloc(),
        &[
            (
                b"model M(): x=<int>[];y=<int:t>{};z=f(<set t>{},[1,2],{3},{4:5},(6,7));exit(1)end",
                b"model M():\n  x = <int>[];\n  y = <int: t>{};\n  z = f(<set t>{}, [1, 2], {3}, {4: 5}, (6, 7));\n  exit (1)\nend\n",
            ),
            (
                b"model M(): a!not x;a!true;a!-1;a![1];a!;a?;x.y[1].z=a[1:2],b[:],c[::3],d[1::],\"a\"[0],(1)[0];delay- - + 1;exit end",
                b"model M():\n  a! not x;\n  a! true;\n  a!-1;\n  a![1];\n  a!;\n  a?;\n  x.y[1].z = a[1: 2], b[:], c[:: 3], d[1::], \"a\"[0], (1)[0];\n  delay --+1;\n  exit\nend\n",
            ),
            (
                b"model M(): x=not(a<b)and sample(d)or-a^-b in{c};y=int(1)+real(a)-time[0];writeln(\"\\t\t%d\",a div b) end",
                b"model M():\n  x = not (a < b) and sample (d) or -a ^ -b in {c};\n  y = int(1) + real(a) - time[0];\n  writeln(\"\\t\\t%d\", a div b)\nend\n",
            ),
            (
                b"model M(): list int x; set real y; dist int z; timer w=timer(1); finish a,b;x= x<1;x=1>=2 ;x = true[0] end",
                b"model M():\n  list int x;\n  set real y;\n  dist int z;\n  timer w = timer(1);\n  finish a, b;\n  x = x < 1;\n  x = 1 >= 2;\n  x = true[0]\nend\n",
            ),
        ],
    )
}

#[test]
fn comments_stand_before_lines(rt: HostRuntime) -> Result<(), Fail> {
    check(
        &rt,
        rt.alloc(),
        &[
            (
                b"#1\r\nmodel#2\nM()#3\n:#4\n\n\npass#5 # x\n;#6\nend#7\n;#8",
                b"#1\r\n#2\n#3\nmodel M():\n  #4\n  pass\n#5 # x\n#6\nend\n#7\n#8\n",
            ),
            (
                b"enum e={a}#1\n;#2\nmodel M():if x:pass end#3\n;#4\npass;#5\nend#\xff\x00\t\n",
                b"enum e = {a}\n\n#1\n#2\nmodel M():\n  if x:\n    pass\n  #3\n  end;\n  #4\n  pass\n#5\nend\n#\xff\x00\t\n",
            ),
            (
                b"model M(): select #1\n a? #2\n: #3\n pass #4\n alt #5\n b? end #6\n x=1 end",
                b"model M():\n  #1\n  #2\n  select a?:\n    #3\n    pass\n  #4\n  #5\n  alt b?\n  end;\n  #6\n  x = 1\nend\n",
            ),
        ],
    )
}

#[test]
fn a_text_has_a_limit(rt: HostRuntime) -> Result<(), Fail> {
    let alloc = rt.alloc();
    let tokens = tokens_of(alloc, b"model M(): pass end")?;
    let tree = parse(alloc, tokens.as_slice()).map_err(|_| "refused")?;
    let text = canonical(alloc, &tree, &[])?;
    // A comment at the end has a line of its own.
    let Some(rest) = MOST_BYTES.checked_sub(text.len() + 1) else {
        return Err(Fail::from("no room"));
    };
    for (size, fits) in [(rest, true), (rest + 1, false)] {
        let bytes = vec![in alloc; b'#'; size]?;
        let comment = chi_fmt::Comment {
            before: 7,
            text: chi_token::Bytes::copy_of(alloc, bytes.as_slice())?,
        };
        match canonical(alloc, &tree, &[comment]) {
            Ok(text) => assert!(rt; fits && text.len() == MOST_BYTES),
            Err(fault) => assert!(rt; !fits && fault == FmtFault::TooLong),
        }
    }
    Ok(())
}
