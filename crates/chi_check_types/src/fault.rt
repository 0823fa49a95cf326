ghost use Rattle.std.specs.Prelude.{◌≡◌, [], ◌∷◌};
ghost use Rattle.chi_check_types.specs.Faults as spec;

use chi_base::NoMemory;
use chi_token::Place;
use thiserror::Error;

/// A rule that is broken, by its number, and where.
#[derive(Clone, Copy, Debug, PartialEq, Eq)]
pub struct Fault {
    pub rule: u8,
    pub place: Place,
}

/// Why there is no type and no core.
#[derive(Clone, Copy, Debug, PartialEq, Eq, Error)]
pub enum TypeFault {
    /// The first rule that is broken: that of the least place, and at one place the least number.
    #[error("rule {rule}")]
    Broken { rule: u8, place: Place },
    #[error("out of memory")]
    NoMemory,
}

impl From<NoMemory> for TypeFault {
    ghost use Rattle.std.specs.Prelude.{◌≡◌};
    ghost use Rattle.chi_check_types.specs.declared.fault.TypeFault.TheVariants as fault;

    ghost from_gives = { λ _ e. e ≡ fault.NoMemory };

    fn from(_refused: NoMemory) -> TypeFault {
        TypeFault::NoMemory
    }
}

fn is_sooner(a: &Fault, b: &Fault) -> bool
    ensures { result ≡ spec.is_sooner a.now b.now }
{
    a.place.line < b.place.line
        || (a.place.line == b.place.line
            && (a.place.column < b.place.column
                || (a.place.column == b.place.column && a.rule < b.rule)))
}

#[tactic(auto, using(crate::proofs::Firsts::found_first, crate::proofs::Firsts::found_sooner, crate::proofs::Firsts::found_later))]
/// Keeps the first of the faults that were found: of one that may be kept already, and of this one.
pub fn note(kept: &mut Option<Fault>, rule: u8, place: Place)
    ensures { kept.new ≡ spec.first_of kept.old (spec.fault rule place ∷ []) }
{
    let found = Fault { rule, place };
    match kept {
        None => *kept = Some(found),
        Some(sooner) => {
            if is_sooner(&found, sooner) {
                *kept = Some(found);
            }
        }
    }
}
