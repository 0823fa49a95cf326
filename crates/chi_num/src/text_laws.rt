//! Laws of the definitions: what texts mean, and that it is one number. Nothing here runs.

ghost use Rattle.std.specs.Prelude.{◌≡◌, ◌≤◌, ◌*◌, ◌^◌, ◌-◌, ◌↔◌, ℕ, ℤ, pos, ◌*ℤ◌, List, FitsSigned};
ghost use Rattle.std.specs.Fmt.{signed_decimal};
ghost use Rattle.std.specs.Int.{w64};
ghost use Rattle.chi_num.specs.FixedText.{fixed_text_of};
ghost use Rattle.chi_num.specs.ReadInt.{HasIntForm, MeansInt};
ghost use Rattle.chi_num.specs.ReadReal.{HasRealForm, MeansReal};
ghost use Rattle.chi_num.specs.RealText.{real_text_of};
ghost use Rattle.chi_num.specs.TextNumbers.{int_meant, real_meant, means, no_form, out_of_range};

/// A text of an int's form means exactly one whole number, and one of a real's form exactly one
/// count of units.
pub fn one_number_is_meant()
    ensures some_int { (text : List ℕ) → HasIntForm text → (z : ℤ) × MeansInt text z }
    ensures one_int { (text : List ℕ) → (y z : ℤ) → MeansInt text y → MeansInt text z → y ≡ z }
    ensures some_real { (text : List ℕ) → HasRealForm text → (z : ℤ) × MeansReal text z }
    ensures one_real { (text : List ℕ) → (y z : ℤ) → MeansReal text y → MeansReal text z → y ≡ z }
{}

/// The text of a number means that number, and that of a rounded one the rounded number.
pub fn texts_read_back()
    ensures int { (z : ℤ) → FitsSigned w64 z → MeansInt (signed_decimal z) z }
    ensures real { (units : ℤ) → FitsSigned w64 units → MeansReal (real_text_of units) units }
    ensures fixed { (k : ℕ) → (steps : ℤ) → k ≤ 9 → FitsSigned w64 steps
        → MeansReal (fixed_text_of k steps) (steps *ℤ pos (10 ^ (9 - k))) }
{}

/// What a text means as an int and as a real, as an answer and as a relation, is one thing.
pub fn text_numbers_law()
    ensures int { (text : List ℕ) → (z : ℤ) → (int_meant text ≡ means z) ↔ (MeansInt text z × FitsSigned w64 z) }
    ensures int_form { (text : List ℕ) → (int_meant text ≡ no_form) ↔ (¬ (HasIntForm text)) }
    ensures int_range { (text : List ℕ) → (int_meant text ≡ out_of_range)
        ↔ ((z : ℤ) × MeansInt text z × ¬ (FitsSigned w64 z)) }
    ensures real { (text : List ℕ) → (z : ℤ) → (real_meant text ≡ means z) ↔ (MeansReal text z × FitsSigned w64 z) }
    ensures real_form { (text : List ℕ) → (real_meant text ≡ no_form) ↔ (¬ (HasRealForm text)) }
    ensures real_range { (text : List ℕ) → (real_meant text ≡ out_of_range)
        ↔ ((z : ℤ) × MeansReal text z × ¬ (FitsSigned w64 z)) }
{}
