use chi_base::Items;
use chi_types::Ty;

/// What a name can be that has a type or types.
#[derive(Clone, Copy, Debug, PartialEq, Eq)]
pub enum NameKind {
    Variable,
    /// A variable that an unwind binds, which is no target.
    Unwound,
    Constant,
    Type,
    Function,
    Process,
    Model,
}

/// What is known of a visible name.
#[derive(Debug, Drop)]
pub enum Known {
    /// A variable, by its slot.
    Var(u32, Ty),
    /// A variable that an unwind binds, by its slot.
    Fixed(u32, Ty),
    /// A constant, by its number.
    Const(u32, Ty),
    /// A type, or an enumeration.
    Kind(Ty),
    /// A value of an enumeration: the number of the enumeration, and the position of the value.
    Value(u32, u32),
    /// A function by its number, with the types of its parameters and of its result.
    Func(u32, Items<Ty>, Ty),
    /// A process by its number, with the types of its parameters and that of its exits' values.
    Proc(u32, Items<Ty>, Option<Ty>),
    /// A model by its number, with the types of its parameters and that of its exits' values.
    Model(u32, Items<Ty>, Option<Ty>),
    /// An experiment, by its number.
    Xper(u32),
    /// A name whose own type, or one of whose types, breaks a rule. It is visible, and no rule that
    /// needs its type is broken by its use.
    Untyped(NameKind),
}
