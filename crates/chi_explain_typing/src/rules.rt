/// The rules of typing by their numbers, each with what is said of the place where it is broken. The table of "Typing" in
/// `docs/LANGUAGE.md` says when that is.
pub static RULES: [(u8, &str); 42] = [
    (
        1,
        "this name can't be given here: it is visible already, stands twice, or is predefined",
    ),
    (
        2,
        "nothing that is visible here has this name; a `type` or `const` sees only types and constants before it, and enumerations",
    ),
    (
        3,
        "this name is of another kind than stands here: a type, a value, a function that is called, a process after `run` or `start`, or a model that an `xper` calls",
    ),
    (
        4,
        "this type, or that of this literal, is deeper than 32 types within one another",
    ),
    (
        5,
        "this number is out of range: an int is below 2^63, and a real at most 9223372036.854775807",
    ),
    (
        6,
        "the elements of a set and the keys of a dictionary have no channel, timer, distribution or instance in them",
    ),
    (
        7,
        "a list with a size stands only in the type of a local variable, as that type or as the element type of such a list, and its size is an int",
    ),
    (
        8,
        "a field before this one in the tuple type has the same name",
    ),
    (9, "`dist` stands before `bool`, `int` or `real` alone"),
    (
        10,
        "the value doesn't fit the type before the name; and the type of a constant has no channel, timer, distribution or instance in it",
    ),
    (
        11,
        "a constant can't have this in its value: no call of a `func`, no `insert`, `sample`, `time`, `ready` or `finished`, no cast to or from a timer",
    ),
    (
        12,
        "a function can't do this: no `sample`, `time`, `ready` or `finished`, no cast to or from a timer, and nothing that communicates, waits, starts, writes or exits",
    ),
    (
        13,
        "a local variable of a function has no channel in its type",
    ),
    (
        14,
        "`return` stands in a function alone, and its value fits the type in the function's header",
    ),
    (
        15,
        "`exit` has a value exactly where the header has a type; it fits that type, and has no channel, timer, distribution or instance in it",
    ),
    (
        16,
        "`break` and `continue` stand in a `while` or a `for` alone",
    ),
    (17, "a condition or a guard is a bool, and this is none"),
    (
        18,
        "a `for` or an `unwind` goes over a list, a set or a dictionary, and this is none of them",
    ),
    (
        19,
        "these are several names, and the elements of the container aren't tuples of so many parts",
    ),
    (
        20,
        "there are as many values as targets, or one tuple of so many parts for several targets",
    ),
    (
        21,
        "this can't be changed: it is no variable, or a name of an `unwind`, or the target goes on with an index of a string",
    ),
    (
        22,
        "a value, or a part of the tuple, doesn't fit the type of its target",
    ),
    (
        23,
        "before `!` stands a channel on which can be sent, and this is none",
    ),
    (
        24,
        "before `?` stands a channel on which can be received, and this is none",
    ),
    (
        25,
        "what is sent doesn't fit the channel: it has another type, or is missing, or stands though the channel carries nothing",
    ),
    (
        26,
        "after `?` stands a variable of the type that the channel carries, which no `unwind` names, and nothing where the channel carries nothing",
    ),
    (
        27,
        "a delay is an int, a real or a timer, and this is none of them",
    ),
    (
        28,
        "the arguments don't fit the parameters of this process, in number or in type",
    ),
    (
        29,
        "what gets a new instance is a variable of the type `inst`, and this is none",
    ),
    (
        30,
        "this process has an exit type, and another one than the definition that starts it",
    ),
    (31, "`finish` stands before instances, and this is none"),
    (
        32,
        "this format has a bad code, or another number of codes than values stand after it; a percent sign alone is `%%`",
    ),
    (
        33,
        "this value doesn't fit its code: `%d` is for an int, `%f` for an int or a real, and `%s` for what has no channel, timer, distribution or instance in it",
    ),
    (
        34,
        "this operator isn't defined for operands of these types",
    ),
    (
        35,
        "the arguments don't fit the parameters of this function or model, in number or in type",
    ),
    (
        36,
        "this predefined name or cast isn't defined for these arguments, by their number or their types",
    ),
    (
        37,
        "this index or slice isn't defined for what stands before it, or for what stands in it",
    ),
    (38, "what stands before the point has no such field"),
    (
        39,
        "the parts of this literal have no type that fits all of them",
    ),
    (40, "a file has a `model`, and this one has none"),
    (
        41,
        "an experiment can't do this: no `sample`, `time`, `ready` or `finished`, no cast to or from a timer, and nothing that communicates, waits, starts or exits; and its variables have no channel, timer, distribution or instance in their types",
    ),
    (
        42,
        "a model is called as the whole value of an assignment with one target, or as an initial value; it has an exit type, and no channel, timer, distribution or instance in the types of its parameters",
    ),
];
