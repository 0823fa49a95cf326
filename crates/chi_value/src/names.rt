use chi_base::Items;
use chi_token::Bytes;

/// What the values of each enumeration are called: for each enumeration, by its number, the names
/// in the order of their positions.
#[derive(Debug, Drop)]
pub struct Names {
    pub kinds: Items<Items<Bytes>>,
}
