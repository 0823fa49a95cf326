ghost use Rattle.std.specs.Prelude.{◌≡◌, is_some, map};
ghost use Rattle.chi_check_types.specs.Names.{looked_up};
ghost use Rattle.chi_check_types.specs.Predefined as spec;

use chi_check_types::{PREDEFINED, Predefined};

/// Whether one of the rows has this name.
fn has_name(rows: &[(&'static str, Predefined)], name: &[u8]) -> bool
    ensures { result ≡ is_some (looked_up (map (λ row. (row.0.now, row.1)) rows.now) name.now) }
{
    for row in rows {
        if name == row.0.as_bytes() {
            return true;
        }
    }
    false
}

/// Whether the language itself gives the name.
#[tactic(auto, unfolding(chi_check_types::specs::Predefined::predefined_of))]
pub fn is_predefined(name: &[u8]) -> bool
    ensures { result ≡ spec.is_predefined name.now }
{
    has_name(&PREDEFINED, name)
}
