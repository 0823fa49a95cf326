ghost use Rattle.std.specs.Prelude.{◌≡◌, IfOk};

use crate::Ty;
use chi_base::{Boxed, Items, NoMemory};
use chi_token::Bytes;
use std::alloc::Global;

impl Ty {
    /// A copy that shares nothing with it.
    #[cycle(copy)]
    pub fn copy(&self, alloc: Global) -> Result<Ty, NoMemory>
        ensures copied { IfOk result (λ ty. ty ≡ self.now) }
    {
        match self {
            Ty::Bool => Ok(Ty::Bool),
            Ty::Int => Ok(Ty::Int),
            Ty::Real => Ok(Ty::Real),
            Ty::Text => Ok(Ty::Text),
            Ty::Timer => Ok(Ty::Timer),
            Ty::Inst => Ok(Ty::Inst),
            Ty::Void => Ok(Ty::Void),
            Ty::Choice(number) => Ok(Ty::Choice(*number)),
            Ty::TupleOf(parts) => Ok(Ty::TupleOf(copy_parts(parts.as_slice(), alloc)?)),
            Ty::ListOf(element) => Ok(Ty::ListOf(copy_boxed(element.get(), alloc)?)),
            Ty::SetOf(element) => Ok(Ty::SetOf(copy_boxed(element.get(), alloc)?)),
            Ty::DictOf(key, value) => {
                let key = copy_boxed(key.get(), alloc)?;
                Ok(Ty::DictOf(key, copy_boxed(value.get(), alloc)?))
            }
            Ty::Chan(way, element) => Ok(Ty::Chan(*way, copy_boxed(element.get(), alloc)?)),
            Ty::Dist(element) => Ok(Ty::Dist(copy_boxed(element.get(), alloc)?)),
        }
    }
}

#[cycle(copy)]
fn copy_boxed(ty: &Ty, alloc: Global) -> Result<Boxed<Ty>, NoMemory>
    ensures copied { IfOk result (λ boxed. boxed ≡ ty.now) }
{
    let copy = ty.copy(alloc)?;
    Ok(Boxed::new(alloc, copy)?)
}

#[cycle(copy)]
fn copy_parts(parts: &[(Bytes, Ty)], alloc: Global) -> Result<Items<(Bytes, Ty)>, NoMemory>
    ensures copied { IfOk result (λ items. items ≡ parts.now) }
{
    let mut copies = Vec::new(alloc);
    for (name, ty) in parts {
        let name = Bytes::copy_of(alloc, name.as_slice())?;
        let ty = ty.copy(alloc)?;
        copies.push((name, ty))?;
    }
    Ok(Items::of(alloc, copies)?)
}
