use crate::names::colours;
use crate::pieces::may_render;
use crate::reading::pieces_of;
use chi_format::{Piece, RenderFault, render};
use chi_num::Real;
use chi_token::Bytes;
use chi_value::{MOST_TEXT, Names, Value};
use std::alloc::Global;
use std::test::Fail;

/// What pieces come to with values, within the names.
fn shown(
    alloc: Global,
    pieces: &[Piece],
    values: &[Value],
    names: &Names,
) -> Result<Result<Vec<u8>, RenderFault>, Fail> {
    if !may_render(names, pieces, values) {
        return Err(Fail::new("pieces that don't take the values"));
    }
    Ok(render(alloc, pieces, values, names))
}

/// More formats are in rows/.
#[test]
fn codes_show_values(rt: HostRuntime) -> Result<(), Fail> {
    let alloc = rt.alloc();
    let names = colours(alloc)?;
    let pieces = pieces_of(alloc, b"[%5d][%-5s][%.2f]%%")??;
    let mut values = Vec::new(alloc);
    values.push(Value::Int(42))?;
    values.push(Value::Choice(0, 1))?;
    values.push(Value::Real(Real::from_units(2_005_000_000)))?;
    let text = shown(alloc, pieces.as_slice(), values.as_slice(), &names)??;
    assert_eq!(rt; text.as_slice(), b"[   42][blue ][2.01]%".as_slice());
    Ok(())
}

/// After a plain piece of the limit there is room for none.
#[test]
fn a_text_may_have_so_many_bytes(rt: HostRuntime) -> Result<(), Fail> {
    let alloc = rt.alloc();
    let names = colours(alloc)?;
    let bytes = vec![in alloc; b'a'; MOST_TEXT]?;
    let mut pieces = Vec::new(alloc);
    pieces.push(Piece::Plain(Bytes::copy_of(alloc, bytes.as_slice())?))?;
    let text = shown(alloc, pieces.as_slice(), &[], &names)??;
    assert_eq!(rt; text.len(), MOST_TEXT);
    pieces.push(Piece::Plain(Bytes::copy_of(alloc, b"a")?))?;
    let refused = shown(alloc, pieces.as_slice(), &[], &names)?;
    assert!(rt; matches!(refused, Err(RenderFault::Limit)));
    Ok(())
}
