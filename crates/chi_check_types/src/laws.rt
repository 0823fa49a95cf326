//! What holds of all lists of faults. The function computes nothing: its contract is the law.

ghost use Rattle.std.specs.Prelude.{◌≡◌, ◌↔◌, List, [], Option, None, Some};
ghost use Rattle.chi_check_types.specs.declared.fault.Fault.{Fault};
ghost use Rattle.chi_check_types.specs.Faults.{first, IsFirst};

/// A list has no first fault exactly where it is empty; else its first fault is one of the list, and
/// none of the list is sooner.
#[tactic(auto, using(crate::proofs::FirstLaws::none_first, crate::proofs::FirstLaws::empty_first, crate::proofs::FirstLaws::first_is_first))]
pub fn first_is_the_least()
    ensures none { (faults : List Fault) → (first faults ≡ None) ↔ (faults ≡ []) }
    ensures least { (faults : List Fault) (fault : Fault) → first faults ≡ Some fault → IsFirst fault faults }
{}
