//! What holds of all sound programs. The function computes nothing: its contract is the law.

ghost use Rattle.std.specs.Prelude.{◌≡◌};
ghost use Rattle.chi_core.specs.declared.program.Core.{Core};
ghost use Rattle.chi_core.specs.Sound.{Sound};
ghost use Rattle.chi_code.specs.declared.code.Code.{Code};
ghost use Rattle.chi_code.specs.Codes.{Codes};

/// A sound program has a code, whatever memory there is, and no other.
pub fn sound_programs_have_one_code()
    ensures one { (core : Core) → Sound core → (code : Code) × Codes core code × ((other : Code) → Codes core other → code ≡ other) }
{}
