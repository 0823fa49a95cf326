ghost use Rattle.std.specs.Prelude.{◌≡◌, ◌≤◌, replicate};
ghost use Rattle.chi_format.specs.Format.{filled};
ghost use Rattle.chi_value.specs.Limit.{Appends};

use chi_value::{Field, TextFault, append};

/// As many spaces as the widest field has.
const SPACES: [u8; 255] = [b' '; 255];

/// Appends a text in its field.
#[tactic(auto, using(crate::proofs::Fields::before_spaces, crate::proofs::Fields::after_spaces))]
pub(super) fn put_filled(field: &Field, shown: &[u8], out: &mut Vec<u8>) -> Result<(), TextFault>
    ensures grown { Appends result out.old.items out.new.items (filled field.now shown.now) }
{
    let spaces = spaces(usize::from(field.width).saturating_sub(shown.len()));
    if field.left {
        append(out, shown)?;
        append(out, spaces)?;
    } else {
        append(out, spaces)?;
        append(out, shown)?;
    }
    Ok(())
}

fn spaces(count: usize) -> &'static [u8]
    requires { count ≤ 255 }
    ensures { result.now ≡ replicate count 32 }
{
    &SPACES[..count]
}
