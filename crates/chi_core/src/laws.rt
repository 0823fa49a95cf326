//! What holds of all programs. The functions compute nothing: their contracts are the laws.

ghost use Rattle.std.specs.Prelude.{◌≡◌, ◌⊎◌, ℕ, ℤ, List, Option, Some, IsTrue, IsFalse, slice_get};
ghost use Rattle.chi_types.specs.declared.ty.Ty.{Ty, Ty-F, out-Ty};
ghost use Rattle.chi_types.specs.declared.ty.Ty.TheVariants as ty;
ghost use Rattle.chi_types.specs.declared.ty.Way.{Way};
ghost use Rattle.chi_types.specs.Same.{same};
ghost use Rattle.chi_types.specs.Fits.{fits};
ghost use Rattle.chi_value.specs.declared.value.Value.{Value};
ghost use Rattle.chi_value.specs.Alike.{alike, Alike};
ghost use Rattle.chi_value.specs.Plain.{is_plain, within};
ghost use Rattle.chi_ops.specs.Tidy.{tidy};
ghost use Rattle.chi_core.specs.declared.program.Core.{Core};
ghost use Rattle.chi_core.specs.declared.program.ProcDef.{ProcDef};
ghost use Rattle.chi_core.specs.declared.statement.CStat.{CStat};
ghost use Rattle.chi_core.specs.Beginning.{first_config};
ghost use Rattle.chi_core.specs.Kinded.{KindedConstants, Kinded};
ghost use Rattle.chi_core.specs.Kinds.{Kind, kind_of, kinds_of, is_plain_kind, holds_channel};
ghost use Rattle.chi_core.specs.Limits.{LimitsAre};
ghost use Rattle.chi_core.specs.Of.{World, Wider, at_start, IsOf, AreOf};
ghost use Rattle.chi_core.specs.Scopes.{Home};
ghost use Rattle.chi_core.specs.SetSlots.{Known};
ghost use Rattle.chi_core.specs.Sound.{Sound, SoundHome};
ghost use Rattle.chi_core.specs.SoundStatements.{SoundBlock};
ghost use Rattle.chi_core.specs.Standing.{Frame, Standing, is_within_loop};

/// A type that fits another has its kind, unless an int is converted to a real. Kinds forget only the
/// ways of channels and the names of tuples' parts: types in which there is no channel are the same
/// where they have one kind, and channels of one kind carry values of one kind.
#[tactic(auto, using(crate::proofs::Erased::same_kind, crate::proofs::Erased::fitting_kinds, crate::proofs::Erased::kind_tells, crate::proofs::Erased::channels_tell))]
pub fn kinds_are_types()
    ensures of_the_same { (a b : Ty) → IsTrue (same a b) → kind_of a ≡ kind_of b }
    ensures of_what_fits { (a b : Ty) → IsTrue (fits a b) → (kind_of a ≡ kind_of b) ⊎ ((kind_of a ≡ Ty-F.Int) × (kind_of b ≡ Ty-F.Real)) }
    ensures without_channels { (a b : Ty) → IsFalse (holds_channel (out-Ty a)) → IsFalse (holds_channel (out-Ty b)) → kind_of a ≡ kind_of b → IsTrue (same a b) }
    ensures of_channels { (v w : Way) (a b : Ty) → kind_of (ty.Chan v a) ≡ kind_of (ty.Chan w b) → kind_of a ≡ kind_of b }
{}

/// A value stays of its kind where more may be named. It is tidy to the whole depth, its enumeration
/// values have names, and it is plain where its kind is. Two values of one kind are alike, and can be
/// compared where that is plain.
#[tactic(auto, using(crate::proofs::Worlds::value_grows, crate::proofs::Tidied::tidy_of, crate::proofs::Tidied::within_of, crate::proofs::Tidied::plain_of, crate::proofs::Alikes::alike_of, crate::proofs::Tidied::comparable))]
pub fn values_are_of_kinds()
    ensures in_a_wider_world { (w v : World) → Wider w v → (a : Value) (T : Kind) → IsOf w T a → IsOf v T a }
    ensures tidy { (w : World) (a : Value) (T : Kind) → IsOf w T a → IsTrue (tidy a) }
    ensures named { (w : World) (a : Value) (T : Kind) → IsOf w T a → IsTrue (within w.names a) }
    ensures plain { (w : World) (a : Value) (T : Kind) → IsTrue (is_plain_kind T) → IsOf w T a → IsTrue (is_plain a) }
    ensures alike { (w : World) (a b : Value) (T : Kind) → IsOf w T a → IsOf w T b → IsTrue (alike a b) }
    ensures comparable { (w : World) (a b : Value) (T : Kind) → IsTrue (is_plain_kind T) → IsOf w T a → IsOf w T b → Alike a b }
{}

/// What is left to do at a place of a sound body is sound where the slots are set that count as set
/// there.
#[tactic(auto, using(crate::proofs::Standings::sound_at))]
pub fn places_are_sound()
    ensures sound { (d : Home) → SoundHome d → (known : Known) (rest : List CStat) (frames : List Frame) → Standing d known rest frames
        → SoundBlock d.scope (is_within_loop frames) known rest }
{}

/// A sound program begins in a kinded configuration, where its constants are kinded and the arguments
/// are of the kinds of the model's parameters.
#[tactic(auto, using(crate::proofs::Beginnings::start_kinded))]
pub fn start_is_kinded()
    ensures kinded { (core : Core) → Sound core → (constants : List Value) → KindedConstants core constants → (d : ProcDef) → slice_get core.procs core.model ≡ Some d
        → (arguments : List Value) → AreOf (at_start core.names.kinds) arguments (kinds_of d.params) → (seed : ℕ) (until : Option ℤ)
        → Kinded core (first_config seed until arguments constants core.model d) }
{}

/// The numbers that are the language's limits, each of which the definitions cite by its constant.
pub fn limits_law()
    ensures limits { LimitsAre }
{}
