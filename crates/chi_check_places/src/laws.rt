//! What is made of trees without places. The functions compute nothing: their contracts are the laws.

ghost use Rattle.std.specs.Prelude.{◌≡◌, Bool};
ghost use Rattle.chi_tree.specs.declared.expr.Expr.{Expr};
ghost use Rattle.chi_tree.specs.declared.type_tree.TypeTree.{TypeTree};
ghost use Rattle.chi_tree_laws.specs.Unplaced.{unplaced_expr, unplaced_type};
ghost use Rattle.chi_check_types.specs.declared.site.Site.{Site};
ghost use Rattle.chi_check_types.specs.Names.{Names};
ghost use Rattle.chi_check_expr.specs.Typing.{typing, reading};
ghost use Rattle.chi_check_places.specs.UnplacedTyped.{unplaced_typed};

/// What an expression or a type without its places comes to is what it comes to with them, but for the places of its
/// broken rules.
pub fn expressions_without_places()
    ensures expressions { (site : Site) (names : Names) (e : Expr) → typing site names (unplaced_expr e) ≡ unplaced_typed (typing site names e) }
    ensures types { (site : Site) (names : Names) (t : TypeTree) (sizes : Bool) → reading site names (unplaced_type t) sizes ≡ unplaced_typed (reading site names t sizes) }
{}
