//! How many instructions each construct has.

ghost use Rattle.std.specs.Prelude.{◌≡◌, IfOk};
ghost use Rattle.chi_code.specs.Sizes.{size, sizes};

use crate::adding::plus;
use chi_base::{Items, NoMemory};
use chi_core::CExpr;

#[cycle(size_of)]
#[tactic(auto, using(crate::proofs::Measures::size_lit, crate::proofs::Measures::size_var, crate::proofs::Measures::size_const, crate::proofs::Measures::size_op, crate::proofs::Measures::size_and, crate::proofs::Measures::size_or, crate::proofs::Measures::size_build, crate::proofs::Measures::size_part, crate::proofs::Measures::size_call, crate::proofs::Measures::size_insert, crate::proofs::Measures::size_default, crate::proofs::Measures::size_repeat))]
pub(crate) fn size_of(x: &CExpr) -> Result<u64, NoMemory>
    ensures { IfOk result (λ n. n ≡ size x.now) }
{
    match x {
        CExpr::Lit(_) => Ok(1),
        CExpr::Var(_) => Ok(1),
        CExpr::Const(_) => Ok(1),
        CExpr::Op(_, parts) => plus(sizes_of(parts)?, 1),
        CExpr::And(a, b) => {
            let first = plus(size_of(a.get())?, 1)?;
            plus(first, size_of(b.get())?)
        }
        CExpr::Or(a, b) => {
            let first = plus(size_of(a.get())?, 1)?;
            plus(first, size_of(b.get())?)
        }
        CExpr::Build(_, parts) => plus(sizes_of(parts)?, 1),
        CExpr::Part(a, _) => plus(size_of(a.get())?, 1),
        CExpr::Call(_, parts) => plus(sizes_of(parts)?, 1),
        CExpr::InsertBy(a, b, _) => {
            let first = plus(size_of(a.get())?, 5)?;
            plus(first, size_of(b.get())?)
        }
        CExpr::Default(_) => Ok(1),
        CExpr::Repeat(a, b) => {
            let first = plus(size_of(a.get())?, 4)?;
            plus(first, size_of(b.get())?)
        }
    }
}

#[cycle(size_of)]
#[tactic(auto, using(crate::proofs::Measures::total_next))]
pub(crate) fn sizes_of(xs: &Items<CExpr>) -> Result<u64, NoMemory>
    ensures { IfOk result (λ n. n ≡ sizes xs.now) }
{
    let mut count = 0;
    for x in xs.as_slice() {
        count = plus(count, size_of(x)?)?;
    }
    Ok(count)
}
