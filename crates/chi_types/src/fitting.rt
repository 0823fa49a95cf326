ghost use Rattle.std.specs.Prelude.{◌≡◌, map};
ghost use Rattle.chi_types.specs.Same.{each_passes, beside};
ghost use Rattle.chi_types.specs.Fits.{fits, fits_unconverted, serves};

use crate::sameness::{same, same_way};
use crate::{Ty, Way};
use chi_token::Bytes;

/// Whether a value of the given type serves where the other is wanted. An int that serves for a
/// real is converted; within a container, a tuple or a channel none does.
pub fn fits(given: &Ty, wanted: &Ty) -> bool
    ensures value { result ≡ fits given.now wanted.now }
{
    match (given, wanted) {
        (Ty::Int, Ty::Real) => true,
        (_, _) => fits_unconverted(given, wanted),
    }
}

#[cycle(fits_unconverted)]
#[tactic(auto, using(crate::proofs::Served::served, crate::proofs::Served::served_choices, crate::proofs::Served::served_tuples, crate::proofs::Served::served_lists, crate::proofs::Served::served_sets, crate::proofs::Served::served_dists))]
fn fits_unconverted(given: &Ty, wanted: &Ty) -> bool
    ensures value { result ≡ fits_unconverted given.now wanted.now }
{
    match (given, wanted) {
        (Ty::Bool, Ty::Bool)
        | (Ty::Int, Ty::Int)
        | (Ty::Real, Ty::Real)
        | (Ty::Text, Ty::Text)
        | (Ty::Timer, Ty::Timer)
        | (Ty::Inst, Ty::Inst)
        | (Ty::Void, Ty::Void) => true,
        (Ty::Choice(k), Ty::Choice(l)) => k == l,
        (Ty::TupleOf(ps), Ty::TupleOf(qs)) => each_fits(ps.as_slice(), qs.as_slice()),
        (Ty::ListOf(x), Ty::ListOf(y)) => fits_unconverted(x.get(), y.get()),
        (Ty::SetOf(x), Ty::SetOf(y)) => same(x.get(), y.get()),
        (Ty::DictOf(k, v), Ty::DictOf(l, w)) => {
            same(k.get(), l.get()) && fits_unconverted(v.get(), w.get())
        }
        (Ty::Chan(v, x), Ty::Chan(w, y)) => serves(*v, *w) && same(x.get(), y.get()),
        (Ty::Dist(x), Ty::Dist(y)) => same(x.get(), y.get()),
        (_, _) => false,
    }
}

#[cycle(fits_unconverted)]
fn each_fits(given: &[(Bytes, Ty)], wanted: &[(Bytes, Ty)]) -> bool
    ensures value { result ≡ each_passes (map (beside fits_unconverted) given.now) wanted.now }
{
    let mut others = wanted;
    for part in given {
        let Some((other, rest)) = others.split_first() else {
            return false;
        };
        if !fits_unconverted(&part.1, &other.1) {
            return false;
        }
        others = rest;
    }
    others.is_empty()
}

fn serves(given: Way, wanted: Way) -> bool
    ensures value { result ≡ serves given wanted }
{
    match given {
        Way::Both => true,
        Way::Send | Way::Receive => same_way(given, wanted),
    }
}
