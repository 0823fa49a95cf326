/// What is said of the rules that are broken at the place of a name, with an `@` where the name goes.
pub static NAMED: [(u8, &str); 11] = [
    (
        1,
        "the name `@` can't be given here: it is visible already, or stands twice",
    ),
    (
        2,
        "nothing that is visible here has the name `@`; a `type` or `const` sees only types and constants before it, and enumerations",
    ),
    (
        3,
        "`@` is of another kind than stands here: a type, a value, a function that is called, a process after `run` or `start`, or a model that an `xper` calls",
    ),
    (
        8,
        "a field before this one in the tuple type has the name `@`, too",
    ),
    (
        21,
        "`@` can't be changed here: it is no variable, or a name of an `unwind`, or the target goes on with an index of a string",
    ),
    (
        28,
        "the arguments don't fit the parameters of the process `@`, in number or in type",
    ),
    (
        30,
        "the process `@` has an exit type, and another one than the definition that starts it",
    ),
    (
        35,
        "the arguments don't fit the parameters of `@`, in number or in type",
    ),
    (
        36,
        "`@` isn't defined for these arguments, by their number or their types",
    ),
    (38, "what stands before the point has no field `@`"),
    (
        42,
        "the model `@` can't be called here: a model is called as the whole value of an assignment with one target, or as an initial value; it has an exit type, and no channel, timer, distribution or instance in the types of its parameters",
    ),
];

/// What is said of a new name that the language itself gives.
pub const PREDEFINED_NAME: &str = "the name `@` can't be given here: it is predefined";
