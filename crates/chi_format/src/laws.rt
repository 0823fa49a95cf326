ghost use Rattle.std.specs.Prelude.{◌≡◌, ◌⊎◌, ℕ, List, is_some};
ghost use Rattle.chi_value.specs.declared.format.Piece.{Piece};
ghost use Rattle.chi_value.specs.declared.value.Value.{Value};
ghost use Rattle.chi_format.specs.Format.{rendered, may_render};
ghost use Rattle.chi_format.specs.FormatCodes.{MeansPieces, HasBadCode};

/// Each text is one list of pieces or has one first bad code, and not both: what `read_format`
/// answers is the only answer.
pub fn one_reading_is_meant()
    ensures some { (text : List ℕ)
        → ((pieces : List Piece) × MeansPieces text pieces) ⊎ ((offset : ℕ) × HasBadCode text offset) }
    ensures one_list { (text : List ℕ) (a b : List Piece) → MeansPieces text a → MeansPieces text b → a ≡ b }
    ensures one_offset { (text : List ℕ) (m n : ℕ) → HasBadCode text m → HasBadCode text n → m ≡ n }
    ensures not_both { (text : List ℕ) (pieces : List Piece) (offset : ℕ)
        → MeansPieces text pieces → HasBadCode text offset → ⊥ }
{}

/// Pieces and values have a text exactly where the condition of `render` holds.
#[tactic(auto, using(crate::proofs::Turns::rendered_is))]
pub fn rendered_where_allowed()
    ensures { (names : List (List (List ℕ))) (pieces : List Piece) (values : List Value)
        → is_some (rendered names pieces values) ≡ may_render names pieces values }
{}
