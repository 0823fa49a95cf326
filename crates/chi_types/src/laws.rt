//! What holds of all types. The functions compute nothing: their contracts are the laws.

ghost use Rattle.std.specs.Prelude.{◌≡◌, ◌↔◌, IsTrue, Some};
ghost use Rattle.chi_types.specs.declared.ty.Ty.{Ty};
ghost use Rattle.chi_types.specs.Same.{same, unnamed};
ghost use Rattle.chi_types.specs.Fits.{fits};
ghost use Rattle.chi_types.specs.Joined.{joined};
ghost use Rattle.chi_types.specs.Laws.{SameJoined};

/// To be the same type is an equivalence, and is to be equal without the names of tuples' parts.
#[tactic(auto, using(crate::proofs::SameLaws::same_reflexive, crate::proofs::SameLaws::same_symmetric, crate::proofs::SameLaws::same_transitive, crate::proofs::SameLaws::same_equal, crate::proofs::SameLaws::equal_same))]
pub fn same_is_an_equivalence()
    ensures reflexive { (a : Ty) → IsTrue (same a a) }
    ensures symmetric { (a b : Ty) → IsTrue (same a b) → IsTrue (same b a) }
    ensures transitive { (a b c : Ty) → IsTrue (same a b) → IsTrue (same b c) → IsTrue (same a c) }
    ensures equal_without_names { (a b : Ty) → IsTrue (same a b) ↔ (unnamed a ≡ unnamed b) }
{}

/// Fitting is an order of types: it has the same types, goes on over a type between, also over one
/// conversion, and has two ways only between types that are the same.
#[tactic(auto, using(crate::proofs::FitsLaws::same_fits, crate::proofs::FitsLaws::fits_transitive, crate::proofs::FitsLaws::fits_antisymmetric))]
pub fn fitting_is_an_order()
    ensures of_the_same { (a b : Ty) → IsTrue (same a b) → IsTrue (fits a b) }
    ensures transitive { (a b c : Ty) → IsTrue (fits a b) → IsTrue (fits b c) → IsTrue (fits a c) }
    ensures antisymmetric { (a b : Ty) → IsTrue (fits a b) → IsTrue (fits b a) → IsTrue (same a b) }
{}

/// Which of two types comes first changes what they have in common only by names, and both fit it.
#[tactic(auto, using(crate::proofs::FitsLaws::joined_symmetric))]
pub fn joined_is_common()
    ensures symmetric { (a b : Ty) → SameJoined (joined a b) (joined b a) }
    ensures fitted_by_both { (a b c : Ty) → joined a b ≡ Some c → IsTrue (fits a c) × IsTrue (fits b c) }
{}
