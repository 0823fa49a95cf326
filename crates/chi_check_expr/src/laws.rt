//! What holds of all trees. The functions compute nothing: their contracts are the laws.

ghost use Rattle.std.specs.Prelude.{Bool};
ghost use Rattle.chi_tree.specs.declared.expr.Expr.{Expr};
ghost use Rattle.chi_tree.specs.declared.type_tree.TypeTree.{TypeTree};
ghost use Rattle.chi_check_types.specs.declared.site.Site.{Site};
ghost use Rattle.chi_check_types.specs.Names.{Names};
ghost use Rattle.chi_check_expr.specs.Clean.{Clean};
ghost use Rattle.chi_check_expr.specs.Laws.{IsExact};
ghost use Rattle.chi_check_expr.specs.Typing.{typing, reading};

/// An expression, and a type, comes to something exactly where no rule is broken, if no visible name
/// lacks a type.
pub fn typing_is_exact()
    ensures expressions { (site : Site) (names : Names) (e : Expr) → Clean names → IsExact (typing site names e) }
    ensures types { (site : Site) (names : Names) (t : TypeTree) (sizes : Bool) → Clean names → IsExact (reading site names t sizes) }
{}
