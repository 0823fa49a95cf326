ghost use Rattle.std.specs.Prelude.{◌≡◌, map};
ghost use Rattle.chi_check_types.specs.Names.{looked_up};
ghost use Rattle.chi_check_types.specs.Predefined as spec;

use chi_token::Bytes;

/// What a predefined name stands for.
#[derive(Clone, Copy, Debug, PartialEq, Eq)]
pub enum Predefined {
    Abs,
    Sign,
    Min,
    Max,
    Floor,
    Ceil,
    Round,
    Size,
    Empty,
    Pop,
    Del,
    Insert,
    Range,
    Enumerate,
    DictKeys,
    DictValues,
    Constant,
    Uniform,
    Bernoulli,
    Binomial,
    Exponential,
    Ready,
    Finished,
}

/// The predefined names, which nothing else may be named, with what each stands for.
pub static PREDEFINED: [(&str, Predefined); 23] = [
    ("abs", Predefined::Abs),
    ("sign", Predefined::Sign),
    ("min", Predefined::Min),
    ("max", Predefined::Max),
    ("floor", Predefined::Floor),
    ("ceil", Predefined::Ceil),
    ("round", Predefined::Round),
    ("size", Predefined::Size),
    ("empty", Predefined::Empty),
    ("pop", Predefined::Pop),
    ("del", Predefined::Del),
    ("insert", Predefined::Insert),
    ("range", Predefined::Range),
    ("enumerate", Predefined::Enumerate),
    ("dict_keys", Predefined::DictKeys),
    ("dict_values", Predefined::DictValues),
    ("constant", Predefined::Constant),
    ("uniform", Predefined::Uniform),
    ("bernoulli", Predefined::Bernoulli),
    ("binomial", Predefined::Binomial),
    ("exponential", Predefined::Exponential),
    ("ready", Predefined::Ready),
    ("finished", Predefined::Finished),
];

/// What the first row with this name stands for.
fn row_of(rows: &[(&'static str, Predefined)], name: &[u8]) -> Option<Predefined>
    ensures { result ≡ looked_up (map (λ row. (row.0.now, row.1)) rows.now) name.now }
{
    for row in rows {
        if name == row.0.as_bytes() {
            return Some(row.1);
        }
    }
    None
}

/// What a name stands for, if it is predefined.
#[tactic(auto, unfolding(crate::specs::Predefined::predefined_of))]
pub fn predefined_of(name: &Bytes) -> Option<Predefined>
    ensures { result ≡ spec.predefined_of name.now }
{
    row_of(&PREDEFINED, name.as_slice())
}

/// Whether the language itself gives the name.
pub fn is_predefined(name: &Bytes) -> bool
    ensures { result ≡ spec.is_predefined name.now }
{
    predefined_of(name).is_some()
}
