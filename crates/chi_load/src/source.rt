ghost use Rattle.std.specs.Prelude.{◌≡◌, ◌≤◌, IfOk, length};
ghost use Rattle.chi_load.specs.Factory.{factory_source};

use chi_base::NoMemory;
use std::alloc::Global;

/// The most machines that a factory has.
pub const MOST_MACHINES: u32 = 1_000;

/// The most bytes that the source of a factory has.
pub const MOST_LENGTH: usize = 1_024;

/// The source of a factory of `n` machines in a row, through which a hundred lots go.
pub fn factory(alloc: Global, n: u32) -> Result<Vec<u8>, NoMemory>
    requires some { 1 ≤ n }
    requires most { n ≤ MOST_MACHINES }
    ensures source { IfOk result (λ source. source.items ≡ factory_source n) }
    ensures short { IfOk result (λ source. length source.items ≤ MOST_LENGTH) }
{
    let channels = n + 1;
    let source = format!(in alloc;
        "\
proc G(chan! int a; int n):
  for i in range(n): a!i end
end
proc W(chan? int a; chan! int b; real d):
  int x;
  while true: a?x; delay d; b!x end
end
proc int E(chan? int a; int n):
  int x;
  for i in range(n): a?x end;
  writeln(\"%d lots\", n);
  exit n
end
model int M():
  list({channels}) chan int c;
  run G(c[0], 100), unwind i in range({n}): W(c[i], c[i + 1], 1.0) end, E(c[{n}], 100)
end
"
    )?;
    Ok(source.into_bytes())
}
