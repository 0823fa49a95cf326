ghost use Rattle.std.specs.Prelude.{◌≡◌, ℕ, List, ◌⊎◌};
ghost use Rattle.chi_token.specs.declared.place.Spanned.{Spanned};
ghost use Rattle.chi_tree.specs.declared.class.Class.{Class};
ghost use Rattle.chi_tree_spell.specs.Words.{Tokens};
ghost use Rattle.chi_explain_expected.specs.Depth.{IsBlockTooDeep};
ghost use Rattle.chi_explain_expected.specs.Expected.{AreExpected};

/// Of any classes exactly one choice can stand after tokens.
pub fn expected_law()
    ensures some { (before : Tokens) (classes : List Class) → (chosen : List Class) × AreExpected before classes chosen }
    ensures one { (before : Tokens) (classes chosen other : List Class)
        → AreExpected before classes chosen → AreExpected before classes other → chosen ≡ other }
{}

/// A statement is too deep at a token, or it isn't.
pub fn block_depth_law()
    ensures { (tokens : List Spanned) (k : ℕ) → IsBlockTooDeep tokens k ⊎ (IsBlockTooDeep tokens k → ⊥) }
{}
