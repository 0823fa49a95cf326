//! What holds of all that is made of trees. The functions compute nothing: their contracts are the laws.

ghost use Rattle.std.specs.Prelude.{◌≡◌, Bool, Some, IsTrue};
ghost use Rattle.chi_tree.specs.declared.expr.Expr.{Expr};
ghost use Rattle.chi_tree.specs.declared.type_tree.TypeTree.{TypeTree};
ghost use Rattle.chi_types.specs.declared.ty.Ty.{Ty};
ghost use Rattle.chi_types.specs.Fits.{fits};
ghost use Rattle.chi_core.specs.declared.expression.CExpr.{CExpr};
ghost use Rattle.chi_core.specs.Kinds.{kind_of};
ghost use Rattle.chi_core.specs.Scopes.{Scope};
ghost use Rattle.chi_core.specs.SetSlots.{Known as Set};
ghost use Rattle.chi_check_types.specs.declared.meant.Made.{Made};
ghost use Rattle.chi_check_types.specs.declared.meant.Meant.{Meant};
ghost use Rattle.chi_check_types.specs.declared.site.Site.{Site};
ghost use Rattle.chi_check_types.specs.Defaults.{default_of};
ghost use Rattle.chi_check_types.specs.Names.{Names};
ghost use Rattle.chi_check_expr_rules.specs.Conversions.{converted};
ghost use Rattle.chi_check_expr.specs.Typing.{typing, reading};
ghost use Rattle.chi_check_laws.specs.KnownNames.{IsSite, AllStand, Has, SoundMade, SoundMeant, may_make_default};

/// An expression that comes to something is of its type with its streams, where its text literals are
/// short and all visible names agree with the program; and its type is sound.
pub fn expressions_are_sound()
    ensures sound { (scope : Scope) (set : Set) (site : Site) (names : Names) → IsSite site scope.role → AllStand scope set names
        → (e : Expr) (m : Made) → (typing site names e).made ≡ Some m → SoundMade scope set m }
{}

/// What a type means is sound where all visible names agree with the program: its sizes are ints. Its
/// default, with a list of so many for each size, is of its kind.
pub fn types_are_sound()
    ensures sound { (scope : Scope) (set : Set) (site : Site) (names : Names) → IsSite site scope.role → AllStand scope set names
        → (t : TypeTree) (sizes : Bool) (m : Meant) → (reading site names t sizes).made ≡ Some m → SoundMeant scope set m }
    ensures defaults { (scope : Scope) (set : Set) (m : Meant) (e : CExpr) → SoundMeant scope set m → IsTrue (may_make_default scope.role (kind_of m.ty))
        → default_of m.ty m.sizes ≡ Some e → Has scope set e (kind_of m.ty) }
{}

/// What fits a type is of its kind once it is converted.
#[tactic(auto, using(crate::proofs::Conversions::fits_has))]
pub fn conversions_are_sound()
    ensures converted { (scope : Scope) (set : Set) (m : Made) (t : Ty) → IsTrue (fits m.ty t) → SoundMade scope set m → Has scope set (converted m t) (kind_of t) }
{}
