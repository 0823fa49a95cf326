use chi_base::Items;
use chi_check_stat_rules::Home;
use chi_types::Ty;

/// What the header of a function, a process or a model means.
#[derive(Debug, Drop)]
pub struct Header {
    /// The types of the formals, in order. One whose type breaks a rule has none.
    pub formals: Items<Option<Ty>>,
    /// What the body stands in.
    pub home: Home,
}
