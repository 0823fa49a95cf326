use chi_types::Ty;

/// The type of the values of a process's exits, as its header has it.
#[derive(Debug, Drop)]
pub enum ExitType {
    /// The header has none.
    Nothing,
    /// The header has one that breaks a rule.
    Untyped,
    Given(Ty),
}

/// What a statement stands in.
#[derive(Debug, Drop)]
pub enum Home {
    /// A function, with the type of its result, unless that breaks a rule.
    Function(Option<Ty>),
    /// A process or a model.
    Process(ExitType),
    Experiment,
}
