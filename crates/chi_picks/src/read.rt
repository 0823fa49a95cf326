//! The picks of a text.

ghost use Rattle.std.specs.Prelude.{◌≡◌, ◌+◌, length, MatchResult};
ghost use Rattle.chi_picks.specs.declared.fault.PicksFault.TheVariants as fault;
ghost use Rattle.chi_picks.specs.Lists.{Has, IsRefused, pick_in};

use crate::PicksFault;
use chi_cli::number_in;
use chi_trace::next_line;
use std::alloc::Global;

/// Reads the picks of a text, a line for each, up to the first line that doesn't fit.
pub fn read_picks(alloc: Global, text: &[u8]) -> Result<Vec<u64>, PicksFault>
    ensures { MatchResult result (λ picks. Has text.now picks.items) (IsRefused text.now) }
{
    let mut picks = Vec::new(alloc);
    let mut rest = text;
    'line: while let Some((line, more)) = next_line(rest) {
        let Some(pick) = pick_in(line) else {
            return Err(misfit_after(&picks));
        };
        picks.push(pick)?;
        rest = more;
    }
    if rest.is_empty() {
        Ok(picks)
    } else {
        Err(misfit_after(&picks))
    }
}

/// That the line after those of these picks doesn't fit.
fn misfit_after(picks: &[u64]) -> PicksFault
    ensures { result ≡ fault.Line (length picks.now + 1) }
{
    PicksFault::Line(picks.len() as u64 + 1)
}

/// The number that a line is: 1 to 20 digits of a number below 2^64.
fn pick_in(line: &[u8]) -> Option<u64>
    ensures { result ≡ pick_in line.now }
{
    number_in(0, u64::MAX, line)
}
