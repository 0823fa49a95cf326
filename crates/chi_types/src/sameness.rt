ghost use Rattle.std.specs.Prelude.{◌≡◌, map};
ghost use Rattle.chi_types.specs.Same.{same, same_way, each_passes, beside};

use crate::{Ty, Way};
use chi_token::Bytes;

/// Whether two types are built alike. The names of a tuple's parts don't count.
#[cycle(same)]
pub fn same(a: &Ty, b: &Ty) -> bool
    ensures value { result ≡ same a.now b.now }
{
    match (a, b) {
        (Ty::Bool, Ty::Bool)
        | (Ty::Int, Ty::Int)
        | (Ty::Real, Ty::Real)
        | (Ty::Text, Ty::Text)
        | (Ty::Timer, Ty::Timer)
        | (Ty::Inst, Ty::Inst)
        | (Ty::Void, Ty::Void) => true,
        (Ty::Choice(k), Ty::Choice(l)) => k == l,
        (Ty::TupleOf(ps), Ty::TupleOf(qs)) => each_same(ps.as_slice(), qs.as_slice()),
        (Ty::ListOf(x), Ty::ListOf(y)) => same(x.get(), y.get()),
        (Ty::SetOf(x), Ty::SetOf(y)) => same(x.get(), y.get()),
        (Ty::DictOf(k, v), Ty::DictOf(l, w)) => same(k.get(), l.get()) && same(v.get(), w.get()),
        (Ty::Chan(v, x), Ty::Chan(w, y)) => same_way(*v, *w) && same(x.get(), y.get()),
        (Ty::Dist(x), Ty::Dist(y)) => same(x.get(), y.get()),
        (_, _) => false,
    }
}

#[cycle(same)]
fn each_same(a: &[(Bytes, Ty)], b: &[(Bytes, Ty)]) -> bool
    ensures value { result ≡ each_passes (map (beside same) a.now) b.now }
{
    let mut others = b;
    for part in a {
        let Some((other, rest)) = others.split_first() else {
            return false;
        };
        if !same(&part.1, &other.1) {
            return false;
        }
        others = rest;
    }
    others.is_empty()
}

pub(crate) fn same_way(a: Way, b: Way) -> bool
    ensures value { result ≡ same_way a b }
{
    a == b
}
