use chi_load::factory;
use std::test::Fail;

#[test]
fn a_factory_of_three_is_this_source(rt: HostRuntime) -> Result<(), Fail> {
    let wanted = "\
proc G(chan! int a; int n):
  for i in range(n): a!i end
end
proc W(chan? int a; chan! int b; real d):
  int x;
  while true: a?x; delay d; b!x end
end
proc int E(chan? int a; int n):
  int x;
  for i in range(n): a?x end;
  writeln(\"%d lots\", n);
  exit n
end
model int M():
  list(4) chan int c;
  run G(c[0], 100), unwind i in range(3): W(c[i], c[i + 1], 1.0) end, E(c[3], 100)
end
";
    assert_eq!(rt; factory(rt.alloc(), 3)?.as_slice(), wanted.as_bytes());
    Ok(())
}

#[test]
fn the_least_and_the_greatest_have_their_lengths(rt: HostRuntime) -> Result<(), Fail> {
    let least = factory(rt.alloc(), 1)?;
    let greatest = factory(rt.alloc(), 1_000)?;
    assert_eq!(rt; least.len(), 385);
    assert_eq!(rt; greatest.len(), 394);
    Ok(())
}
