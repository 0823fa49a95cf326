ghost use Rattle.std.specs.Prelude.{◌≡◌, ◌-◌, ◌^◌, min, map};
ghost use Rattle.std.specs.List.{list_all};
ghost use Rattle.chi_types.specs.Same.{beside};
ghost use Rattle.chi_types.specs.Plain.{is_plain, holds};
ghost use Rattle.chi_types.specs.Depth.{depth, deepest};

use crate::Ty;
use chi_token::Bytes;

/// Whether values of the type can be compared, kept in sets and shown.
#[cycle(is_plain)]
pub fn is_plain(ty: &Ty) -> bool
    ensures value { result ≡ is_plain ty.now }
{
    match ty {
        Ty::Bool | Ty::Int | Ty::Real | Ty::Text | Ty::Choice(_) => true,
        Ty::TupleOf(parts) => are_plain(parts.as_slice()),
        Ty::ListOf(element) | Ty::SetOf(element) => is_plain(element.get()),
        Ty::DictOf(key, value) => is_plain(key.get()) && is_plain(value.get()),
        Ty::Timer | Ty::Inst | Ty::Void | Ty::Chan(_, _) | Ty::Dist(_) => false,
    }
}

#[cycle(is_plain)]
fn are_plain(parts: &[(Bytes, Ty)]) -> bool
    ensures value { result ≡ list_all holds (map (beside is_plain) parts.now) }
{
    for part in parts {
        if !is_plain(&part.1) {
            return false;
        }
    }
    true
}

/// How deep the type is, or the greatest u32 where that is more.
#[cycle(depth)]
#[tactic(auto, using(crate::proofs::Depths::depth_of_tuple))]
pub fn depth(ty: &Ty) -> u32
    ensures value { result ≡ min (depth ty.now) (2 ^ 32 - 1) }
{
    match ty {
        Ty::TupleOf(parts) => greatest_depth(parts.as_slice()).saturating_add(1),
        Ty::ListOf(element) | Ty::SetOf(element) | Ty::Chan(_, element) | Ty::Dist(element) => {
            depth(element.get()).saturating_add(1)
        }
        Ty::DictOf(key, value) => depth(key.get()).max(depth(value.get())).saturating_add(1),
        Ty::Bool
        | Ty::Int
        | Ty::Real
        | Ty::Text
        | Ty::Timer
        | Ty::Inst
        | Ty::Void
        | Ty::Choice(_) => 1,
    }
}

#[cycle(depth)]
fn greatest_depth(parts: &[(Bytes, Ty)]) -> u32
    ensures value { result ≡ min (deepest (map (beside depth) parts.now)) (2 ^ 32 - 1) }
{
    let mut greatest = 0;
    for part in parts {
        greatest = depth(&part.1).max(greatest);
    }
    greatest
}
