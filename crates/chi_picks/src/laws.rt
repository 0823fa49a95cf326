//! Laws of texts of picks. Nothing here runs.

ghost use Rattle.std.specs.Prelude.{◌≡◌, ◌⊎◌, ◌<◌, ◌^◌, ℕ, All, List};
ghost use Rattle.chi_picks.specs.Lists.{Has, Misfits, spelled};

/// A text has one list of picks, or one first line that doesn't fit. The text of picks has them.
pub fn picks_law()
    ensures some { (text : List ℕ) → ((picks : List ℕ) × Has text picks) ⊎ ((k : ℕ) × Misfits text k) }
    ensures one_list { (text picks other : List ℕ) → Has text picks → Has text other → picks ≡ other }
    ensures one_line { (text : List ℕ) (j k : ℕ) → Misfits text j → Misfits text k → j ≡ k }
    ensures apart { (text picks : List ℕ) (k : ℕ) → Has text picks → Misfits text k → ⊥ }
    ensures spelled { (picks : List ℕ) → All (λ pick. pick < 2 ^ 64) picks → Has (spelled picks) picks }
{}
