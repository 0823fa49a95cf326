//! What holds of all parts of statements. The functions compute nothing: their contracts are the laws.

ghost use Rattle.std.specs.Prelude.{◌≡◌, ℕ, List, Some, None, IsTrue, IsFalse};
ghost use Rattle.chi_token.specs.declared.place.Place.{Place};
ghost use Rattle.chi_types.specs.declared.ty.Ty.{Ty, Ty-F, out-Ty};
ghost use Rattle.chi_core.specs.declared.communication.CComm.{CComm};
ghost use Rattle.chi_core.specs.declared.communication.CComm.TheVariants as comm;
ghost use Rattle.chi_core.specs.declared.expression.CExpr.{CExpr};
ghost use Rattle.chi_core.specs.declared.statement.CStat.{CStat};
ghost use Rattle.chi_core.specs.declared.statement.CStat.TheVariants as statement;
ghost use Rattle.chi_core.specs.Kinds.{kind_of, is_plain_kind, is_void};
ghost use Rattle.chi_core.specs.Scopes.{Scope};
ghost use Rattle.chi_core.specs.SetSlots.{Known as Set};
ghost use Rattle.chi_core.specs.Sound.{SoundIn};
ghost use Rattle.chi_core.specs.SoundParts.{TargetTakes, WalkedOver};
ghost use Rattle.chi_check.specs.Below.chi_check_streams.specs.Streams.{of_target};
ghost use Rattle.chi_check_types.specs.declared.known.Known.{Known};
ghost use Rattle.chi_check_types.specs.declared.meant.Made.{Made};
ghost use Rattle.chi_check.specs.Below.chi_check_stat_rules.specs.declared.parts.Aim.{Aim};
ghost use Rattle.chi_check.specs.Below.chi_check_stat_rules.specs.declared.parts.Receiver.{Receiver};
ghost use Rattle.chi_check.specs.Below.chi_check_stat_rules.specs.Channels.{sent_type, sending, received_type, receiving, delaying};
ghost use Rattle.chi_check.specs.Below.chi_check_stat_rules.specs.Endings.{exiting};
ghost use Rattle.chi_check.specs.Below.chi_check_stat_rules.specs.Targets.{visible_target, indexed, field_of};
ghost use Rattle.chi_check.specs.Below.chi_check_stat_rules.specs.Values.{fitted, as_bool, as_instance};
ghost use Rattle.chi_check.specs.Below.chi_check_stat_rules.specs.Walks.{element_type};
ghost use Rattle.chi_check_laws.specs.KnownNames.{Has, SoundMade, Stands};
ghost use Rattle.chi_check_laws.specs.Parts.{target_texts, SoundAim, SoundReceiver, Communicates};

/// A target that is the name of a variable is sound, and so is each step further. A sound target takes
/// values of the kind of its type.
pub fn targets_are_sound()
    ensures of_names { (scope : Scope) (set : Set) (place : Place) (k : Known) (a : Aim) → Stands scope set k → (visible_target place (Some k)).made ≡ Some a → SoundAim scope set a }
    ensures of_indexes { (scope : Scope) (set : Set) (a : Aim) (m : Made) (b : Aim) → SoundAim scope set a → SoundMade scope set m → indexed (out-Ty a.ty) a m ≡ Some b → SoundAim scope set b }
    ensures of_fields { (scope : Scope) (set : Set) (name : List ℕ) (a b : Aim) → SoundAim scope set a → field_of name a ≡ Some b → SoundAim scope set b }
    ensures taken { (scope : Scope) (set : Set) (a : Aim) → SoundAim scope set a → IsTrue (target_texts a.target)
        → (count : ℕ) → TargetTakes scope set a.target.slot (of_target a.target count).part.steps (kind_of a.ty) }
{}

/// Sends, receives and delays are sound where their parts are.
pub fn communications_are_sound()
    ensures sends { (scope : Scope) (set : Set) (a : Aim) (carried : Ty) (m : Made) (c : CComm) → sent_type (out-Ty a.ty) ≡ Some carried → IsFalse (is_void (out-Ty carried))
        → SoundAim scope set a → SoundMade scope set m → sending a carried m ≡ Some c → Communicates scope set c }
    ensures void_sends { (scope : Scope) (set : Set) (a : Aim) (carried : Ty) → sent_type (out-Ty a.ty) ≡ Some carried → IsTrue (is_void (out-Ty carried))
        → SoundAim scope set a → Communicates scope set (comm.Send a.target None) }
    ensures receives { (scope : Scope) (set : Set) (a : Aim) (carried : Ty) (r : Receiver) (c : CComm) → received_type (out-Ty a.ty) ≡ Some carried → IsFalse (is_void (out-Ty carried))
        → SoundAim scope set a → SoundReceiver scope r → receiving a carried r ≡ Some c → Communicates scope set c }
    ensures void_receives { (scope : Scope) (set : Set) (a : Aim) (carried : Ty) → received_type (out-Ty a.ty) ≡ Some carried → IsTrue (is_void (out-Ty carried))
        → SoundAim scope set a → Communicates scope set (comm.Receive a.target None) }
    ensures delays { (scope : Scope) (set : Set) (m : Made) (c : CComm) → SoundMade scope set m → delaying m ≡ Some c → Communicates scope set c }
{}

/// Initial values, conditions, instances that are waited for and values of exits are of the kinds that
/// their places want; the elements of what is walked over are of the kind of their type, which is sound.
pub fn values_are_sound()
    ensures initial { (scope : Scope) (set : Set) (m : Made) (t : Ty) (e : CExpr) → SoundMade scope set m → fitted m t ≡ Some e → Has scope set e (kind_of t) }
    ensures conditions { (scope : Scope) (set : Set) (m : Made) (e : CExpr) → SoundMade scope set m → as_bool m ≡ Some e → Has scope set e Ty-F.Bool }
    ensures instances { (scope : Scope) (set : Set) (m : Made) (e : CExpr) → SoundMade scope set m → as_instance m ≡ Some e → Has scope set e Ty-F.Inst }
    ensures exits { (scope : Scope) (set : Set) (line : ℕ) (t : Ty) (m : Made) (s : CStat) → SoundMade scope set m → exiting line t m ≡ Some s
        → (e : CExpr) × (s ≡ statement.Exit line (Some e)) × Has scope set e (kind_of t) × IsTrue (is_plain_kind (kind_of t)) }
    ensures walks { (scope : Scope) (set : Set) (t element : Ty) → SoundIn scope.core t → element_type (out-Ty t) ≡ Some element → WalkedOver (kind_of t) (kind_of element) × SoundIn scope.core element }
{}
