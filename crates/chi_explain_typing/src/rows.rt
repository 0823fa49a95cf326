ghost use Rattle.std.specs.Prelude.{◌≡◌, map, option_map};
ghost use Rattle.chi_explain_typing.specs.Rules.{words_at};

/// The words of the first row with this number.
pub fn words_at(rows: &[(u8, &'static str)], number: u8) -> Option<&'static str>
    ensures { option_map (λ words. words.now) result ≡ words_at number (map (λ row. (row.0, row.1.now)) rows.now) }
{
    for row in rows {
        if row.0 == number {
            return Some(row.1);
        }
    }
    None
}
