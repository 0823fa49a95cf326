/// Where an expression or a type stands.
#[derive(Clone, Copy, Debug, PartialEq, Eq)]
pub enum Site {
    /// In a process or a model.
    Process,
    Function,
    /// In the definition of a constant or of a type.
    Constant,
    /// In an experiment.
    Experiment,
}
