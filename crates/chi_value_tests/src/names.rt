use chi_base::NoMemory;
use chi_token::Bytes;
use chi_value::Names;
use std::alloc::Global;

/// One enumeration, of red and blue.
pub(crate) fn colours(alloc: Global) -> Result<Names, NoMemory> {
    let mut names = Vec::new(alloc);
    names.push(Bytes::copy_of(alloc, b"red")?)?;
    names.push(Bytes::copy_of(alloc, b"blue")?)?;
    let mut kinds = Vec::new(alloc);
    kinds.push(chi_base::Items::of(alloc, names)?)?;
    Ok(Names {
        kinds: chi_base::Items::of(alloc, kinds)?,
    })
}
