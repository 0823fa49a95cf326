use crate::programs::PRODUCTIONS;
use crate::sources::tokens_of;
use chi_parse::parse;
use chi_token::{Spanned, Token, spelling};
use chi_tree::Program;
use chi_tree_spell::spell;
use std::alloc::Global;
use std::test::Fail;

/// A line of machines with a buffer.
const LINE: &str = "type lot = tuple(int id; real born);
proc G(chan! lot a; int n):
  for i in range(n): a!(i, time); delay 2.0 end
end
proc B(chan? lot a; chan! lot b):
  list lot xs; lot x;
  while true:
    select a?x: xs = xs + [x]
    alt not empty(xs), b!xs[0]: xs = xs[1:]
    end
  end
end
proc W(chan? lot a; chan! lot b; dist int d):
  lot x;
  while true: a?x; delay sample d; b!x end
end
proc int E(chan? lot a; int n):
  lot x; real total;
  for i in range(n): a?x; total = total + (time - x.born) end;
  writeln(\"%d lots, mean %.3f\", n, total / n);
  exit n
end
model int M():
  chan lot a, b, c;
  run G(a, 100), B(a, b),
      unwind i in range(3): W(b, c, uniform(5, 6)) end, E(c, 100)
end";

fn put(alloc: Global, token: &Token, text: &mut Vec<u8>) -> Result<(), Fail> {
    spelling(alloc, token, text)?;
    text.push(b' ')?;
    Ok(())
}

/// The text of the tokens of a source.
fn written(alloc: Global, tokens: &[Spanned]) -> Result<Vec<u8>, Fail> {
    let mut text = Vec::new(alloc);
    for spanned in tokens {
        put(alloc, &spanned.token, &mut text)?;
    }
    Ok(text)
}

/// The text of the tokens of a tree.
fn spelled(alloc: Global, program: &Program) -> Result<Vec<u8>, Fail> {
    let mut text = Vec::new(alloc);
    for token in spell(alloc, program)?.as_slice() {
        put(alloc, token, &mut text)?;
    }
    Ok(text)
}

/// Whether the tokens are those of the tree.
fn are_of(alloc: Global, tokens: &[Spanned], program: &Program) -> Result<bool, Fail> {
    let before = written(alloc, tokens)?;
    let after = spelled(alloc, program)?;
    Ok(before.as_slice() == after.as_slice())
}

/// Whether the tokens of a source are those of its tree.
fn is_spelled_back(alloc: Global, source: &str) -> Result<bool, Fail> {
    let tokens = tokens_of(alloc, source.as_bytes())?;
    let program = parse(alloc, tokens.as_slice()).map_err(|_| "refused")?;
    are_of(alloc, tokens.as_slice(), &program)
}

#[test]
fn a_tree_has_the_tokens_of_its_source(rt: HostRuntime) -> Result<(), Fail> {
    for source in PRODUCTIONS {
        assert!(rt; is_spelled_back(rt.alloc(), source)?, "{source}");
    }
    assert!(rt; is_spelled_back(rt.alloc(), LINE)?);
    Ok(())
}
