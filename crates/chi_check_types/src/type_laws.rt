//! What holds of the rules of types. The functions compute nothing: their contracts are the laws.

ghost use Rattle.std.specs.Prelude.{◌≡◌, ◌↔◌, ℕ, Bool, List, [], Option, Some};
ghost use Rattle.chi_token.specs.declared.place.Place.{Place};
ghost use Rattle.chi_tree.specs.declared.type_tree.Name.{Name};
ghost use Rattle.chi_tree.specs.declared.type_tree.TypeWord.{TypeWord};
ghost use Rattle.chi_tree.specs.declared.type_tree.Way.{Way};
ghost use Rattle.chi_types.specs.declared.ty.Ty.{Ty, out-Ty};
ghost use Rattle.chi_value.specs.declared.shape.Shape.{Shape, out-Shape};
ghost use Rattle.chi_core.specs.Kinds.{kind_of};
ghost use Rattle.chi_core.specs.OperatorKinds.{ShapeKind};
ghost use Rattle.chi_core.specs.SoundTypes.{SoundType, SoundParts};
ghost use Rattle.chi_check_types.specs.declared.fault.Fault.{Fault};
ghost use Rattle.chi_check_types.specs.declared.known.Known.TheVariants as known;
ghost use Rattle.chi_check_types.specs.declared.meant.Made.{Made};
ghost use Rattle.chi_check_types.specs.declared.meant.Meant.{Meant};
ghost use Rattle.chi_check_types.specs.Defaults.{shape_of};
ghost use Rattle.chi_check_types.specs.TypeRules as rule;
ghost use Rattle.chi_check_types.specs.TypeLaws.{IsSound, ComesToSound};

/// A type tree with typed parts comes to its type exactly where no rule of its own is broken.
#[tactic(auto, using(crate::proofs::TypeLaws::made_unbroken, crate::proofs::TypeLaws::unbroken_made))]
pub fn types_are_exact()
    ensures exact { (place : Place) (own : List Fault) (m : Meant) → ((rule.of_type place own m).faults ≡ []) ↔ ((rule.of_type place own m).made ≡ Some m) }
{}

/// The default of a sound type is of its kind.
#[tactic(auto, using(crate::proofs::ShapeLaws::shapes_have_kinds))]
pub fn defaults_are_sound()
    ensures of_shapes { (n : ℕ) (t : Ty) (s : Shape) → SoundType n (out-Ty t) → shape_of t ≡ Some s → ShapeKind n (out-Shape s) (kind_of t) }
{}

/// What a type tree comes to is sound where the types of its parts are.
#[tactic(auto, using(crate::proofs::TypeLaws::sound_word, crate::proofs::TypeLaws::sound_name, crate::proofs::TypeLaws::sound_list, crate::proofs::TypeLaws::sound_sized_list, crate::proofs::TypeLaws::sound_set, crate::proofs::TypeLaws::sound_dict, crate::proofs::TypeLaws::sound_dist, crate::proofs::TypeLaws::sound_chan, crate::proofs::TypeLaws::sound_void_chan, crate::proofs::TypeLaws::sound_tuple))]
pub fn types_are_sound()
    ensures of_words { (n : ℕ) (place : Place) (word : TypeWord) → ComesToSound n (rule.word_of place word) }
    ensures of_names { (n : ℕ) (place : Place) (t : Ty) → SoundType n (out-Ty t) → ComesToSound n (rule.visible_type place (Some (known.Kind t))) }
    ensures of_lists { (n : ℕ) (place : Place) (element : Meant) → IsSound n element → ComesToSound n (rule.list_of place (Some element)) }
    ensures of_sized_lists { (n : ℕ) (place : Place) (sizes : Bool) (size : Made) (element : Meant) → IsSound n element → ComesToSound n (rule.sized_list_of place sizes (Some size) (Some element)) }
    ensures of_sets { (n : ℕ) (place : Place) (element : Meant) → IsSound n element → ComesToSound n (rule.set_of place (Some element)) }
    ensures of_dictionaries { (n : ℕ) (place : Place) (key value : Meant) → IsSound n key → IsSound n value → ComesToSound n (rule.dict_of place (Some key) (Some value)) }
    ensures of_distributions { (n : ℕ) (place : Place) (drawn : Meant) → IsSound n drawn → ComesToSound n (rule.dist_of place (Some drawn)) }
    ensures of_channels { (n : ℕ) (place : Place) (way : Way) (carried : Meant) → IsSound n carried → ComesToSound n (rule.chan_of place way (Some carried)) }
    ensures of_void_channels { (n : ℕ) (place : Place) (way : Way) → ComesToSound n (rule.void_chan_of place way) }
    ensures of_tuples { (n : ℕ) (place : Place) (names : List Name) (parts : List (List ℕ × Ty)) → SoundParts n parts → ComesToSound n (rule.tuple_of place names (Some parts)) }
{}
