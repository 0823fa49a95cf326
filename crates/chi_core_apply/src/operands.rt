ghost use Rattle.chi_core_apply.specs.Operands.{AreOperands};

use chi_value::Value;

/// The operands of an operator.
pub enum Operands<'a> {
    None,
    One(&'a Value),
    Two(&'a Value, &'a Value),
    /// Three or more.
    More(&'a Value, &'a Value, &'a Value, &'a [Value]),
}

#[tactic(auto, using(crate::proofs::Lists::lists))]
pub fn split_operands(values: &[Value]) -> Operands<'_>
    ensures { AreOperands result values.now }
{
    let Some((first, others)) = values.split_first() else {
        return Operands::None;
    };
    let Some((second, rest)) = others.split_first() else {
        return Operands::One(first);
    };
    let Some((third, others)) = rest.split_first() else {
        return Operands::Two(first, second);
    };
    Operands::More(first, second, third, others)
}
