use chi_check_types::Scope;

/// The names of a program's definitions, before their types are known.
#[derive(Drop)]
pub struct Sketch {
    /// Of two definitions or values with one name the first.
    pub all: Scope,
    /// Enumerations and their values alone.
    pub early: Scope,
    pub enumerations: u32,
    /// Of processes and models.
    pub processes: u32,
    pub experiments: u32,
}

/// The names that a definition of a type or a constant sees.
#[derive(Drop)]
pub struct Early {
    pub names: Scope,
    pub constants: u32,
}

/// The names that bodies see.
#[derive(Drop)]
pub struct Named {
    pub names: Scope,
    pub functions: u32,
    /// Of processes and models.
    pub processes: u32,
}
