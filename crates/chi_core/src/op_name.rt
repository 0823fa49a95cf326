ghost use Rattle.std.specs.Prelude.{◌≡◌};
ghost use Rattle.chi_core.specs.OpNames.{spelling_of};

/// An operator, a predefined name or a cast.
#[derive(Clone, Copy, Debug, PartialEq, Eq)]
pub enum OpName {
    Not,
    Add,
    Sub,
    Mul,
    /// The quotient of reals.
    Divide,
    /// The quotient of ints, rounded down.
    Div,
    Mod,
    Power,
    /// The prefix minus.
    Neg,
    Equal,
    NotEqual,
    Less,
    AtMost,
    Greater,
    AtLeast,
    /// An element is in a list or set, or a key in a dictionary.
    In,
    /// A set is a subset of another.
    Subset,
    Sample,
    /// The element at an index, or the byte of a string.
    Index,
    /// What a key of a dictionary has.
    Lookup,
    /// Which of the three bounds are given.
    Slice(bool, bool, bool),
    Abs,
    Sign,
    Min,
    Max,
    Floor,
    Ceil,
    Round,
    Size,
    Empty,
    Pop,
    Del,
    Range,
    Enumerate,
    DictKeys,
    DictValues,
    Constant,
    /// Its last operand is the stream from which is drawn, as of the three below.
    Uniform,
    Bernoulli,
    Binomial,
    Exponential,
    Ready,
    Finished,
    Time,
    /// An int, converted to a real.
    Widen,
    /// A cast, as the four below.
    ToInt,
    ToReal,
    ToText,
    ToBool,
    ToTimer,
}

impl OpName {
    /// The word or the sign by which it is written.
    pub fn spelling(self) -> &'static str
        ensures spelling { result.now ≡ spelling_of self }
    {
        match self {
            OpName::Not => "not",
            OpName::Add => "+",
            OpName::Sub => "-",
            OpName::Mul => "*",
            OpName::Divide => "/",
            OpName::Div => "div",
            OpName::Mod => "mod",
            OpName::Power => "^",
            OpName::Neg => "neg",
            OpName::Equal => "==",
            OpName::NotEqual => "!=",
            OpName::Less => "<",
            OpName::AtMost => "<=",
            OpName::Greater => ">",
            OpName::AtLeast => ">=",
            OpName::In => "in",
            OpName::Subset => "sub",
            OpName::Sample => "sample",
            OpName::Index => "index",
            OpName::Lookup => "lookup",
            OpName::Slice(_, _, _) => "slice",
            OpName::Abs => "abs",
            OpName::Sign => "sign",
            OpName::Min => "min",
            OpName::Max => "max",
            OpName::Floor => "floor",
            OpName::Ceil => "ceil",
            OpName::Round => "round",
            OpName::Size => "size",
            OpName::Empty => "empty",
            OpName::Pop => "pop",
            OpName::Del => "del",
            OpName::Range => "range",
            OpName::Enumerate => "enumerate",
            OpName::DictKeys => "dict_keys",
            OpName::DictValues => "dict_values",
            OpName::Constant => "constant",
            OpName::Uniform => "uniform",
            OpName::Bernoulli => "bernoulli",
            OpName::Binomial => "binomial",
            OpName::Exponential => "exponential",
            OpName::Ready => "ready",
            OpName::Finished => "finished",
            OpName::Time => "time",
            OpName::Widen => "widen",
            OpName::ToInt => "int",
            OpName::ToReal => "real",
            OpName::ToText => "string",
            OpName::ToBool => "bool",
            OpName::ToTimer => "timer",
        }
    }
}
