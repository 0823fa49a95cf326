ghost use Rattle.std.specs.Prelude.{◌≡◌, ◌<◌, [], length, map, slice_index_or};
ghost use Rattle.chi_token.specs.Tables.{value_at};

/// What the first row with this spelling stands for.
pub fn value_of<K: Copy>(rows: &[(&'static str, K)], text: &[u8]) -> Option<K>
    ensures { result ≡ value_at text.now (map (λ row. (row.0.now, row.1)) rows.now) }
{
    for row in rows {
        if text == row.0.as_bytes() {
            return Some(row.1);
        }
    }
    None
}

/// The spelling of the row with this number.
pub fn spelling_at<K>(rows: &[(&'static str, K)], number: usize) -> &'static str
    requires { number < length rows.now }
    ensures { result.now ≡ slice_index_or (map (λ row. row.0.now) rows.now) number [] }
{
    rows[number].0
}
