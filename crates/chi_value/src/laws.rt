//! What holds of all values. The functions compute nothing: their contracts are the laws.

ghost use Rattle.std.specs.Prelude.{◌≡◌, IsTrue};
ghost use Rattle.std.specs.Cmp.{IsTotalOrder};
ghost use Rattle.std.specs.declared.cmp.Ordering.TheVariants.{Equal};
ghost use Rattle.chi_value.specs.declared.value.Value.{Value};
ghost use Rattle.chi_value.specs.Alike.{Alike};
ghost use Rattle.chi_value.specs.Order.{order};
ghost use Rattle.chi_value.specs.Plain.{is_plain};

/// The order is total on all values, alike or not, and ties none but equal values where one of them
/// is plain, as each of two alike values is.
#[tactic(auto, using(crate::proofs::OrderLaws::order_total, crate::proofs::OrderLaws::order_equal))]
pub fn order_is_total()
    ensures total { IsTotalOrder order }
    ensures ties_none_but_equal { (a b : Value) → IsTrue (is_plain a) → order a b ≡ Equal → a ≡ b }
    ensures alike_are_plain { (a b : Value) → Alike a b → IsTrue (is_plain a) }
{}
