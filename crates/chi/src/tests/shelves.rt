use chi_io::MemShelf;
use std::alloc::{AllocError, Global};

/// A shelf with one file, `m.chi`, that fails at the calls of these numbers.
pub fn shelf_failing(
    alloc: Global,
    source: &[u8],
    failing: Vec<u64>,
) -> Result<MemShelf, AllocError> {
    let name = Vec::from_slice(alloc, b"m.chi")?;
    let source = Vec::from_slice(alloc, source)?;
    let mut files = Vec::new(alloc);
    files.push((name, source))?;
    Ok(MemShelf::new(files, failing))
}

/// A shelf with this source in `m.chi`.
pub fn shelf_of(alloc: Global, source: &[u8]) -> Result<MemShelf, AllocError> {
    shelf_failing(alloc, source, Vec::new(alloc))
}
