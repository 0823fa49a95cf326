//! The rules of typing by their numbers. The table of "Typing" in `docs/LANGUAGE.md` says when each is broken, and by which
//! definition and code. At one place the broken rule of the least number is told.

/// Place: the name.
pub const NEW_NAME: u8 = 1;

/// Place: the name.
pub const VISIBLE_NAME: u8 = 2;

/// Place: the name.
pub const NAME_KIND: u8 = 3;

/// Place: the type, or the literal.
pub const TYPE_DEPTH: u8 = 4;

/// Place: the literal.
pub const LITERAL_RANGE: u8 = 5;

/// Place: the type, or the literal.
pub const PLAIN_ELEMENT: u8 = 6;

/// Place: `list`.
pub const LIST_SIZE: u8 = 7;

/// Place: the second name.
pub const FIELD_NAMES: u8 = 8;

/// Place: `dist`.
pub const DISTRIBUTION: u8 = 9;

/// Place: `=`.
pub const INITIAL_VALUE: u8 = 10;

/// Place: the construct.
pub const IN_CONSTANT: u8 = 11;

/// Place: the construct.
pub const IN_FUNCTION: u8 = 12;

/// Place: the type.
pub const CHANNEL_IN_FUNCTION: u8 = 13;

/// Place: `return`.
pub const RETURN: u8 = 14;

/// Place: `exit`.
pub const EXIT: u8 = 15;

/// Place: the word.
pub const LOOP_WORD: u8 = 16;

/// Place: the expression.
pub const CONDITION: u8 = 17;

/// Place: the expression.
pub const WALK: u8 = 18;

/// Place: the first name.
pub const WALK_NAMES: u8 = 19;

/// Place: `=`.
pub const TARGET_COUNT: u8 = 20;

/// Place: the name.
pub const TARGET: u8 = 21;

/// Place: `=`.
pub const ASSIGNED_VALUE: u8 = 22;

/// Place: `!`.
pub const SEND: u8 = 23;

/// Place: `?`.
pub const RECEIVE: u8 = 24;

/// Place: `!`.
pub const SENT_VALUE: u8 = 25;

/// Place: `?`.
pub const RECEIVING_NAME: u8 = 26;

/// Place: `delay`.
pub const DELAY: u8 = 27;

/// Place: the name.
pub const ELEMENT_ARGUMENTS: u8 = 28;

/// Place: the target.
pub const ELEMENT_TARGET: u8 = 29;

/// Place: the name.
pub const STARTED_EXIT: u8 = 30;

/// Place: the expression.
pub const FINISH: u8 = 31;

/// Place: the text.
pub const FORMAT: u8 = 32;

/// Place: the value.
pub const FORMAT_VALUE: u8 = 33;

/// Place: the operator.
pub const OPERATOR: u8 = 34;

/// Place: the name.
pub const CALL_ARGUMENTS: u8 = 35;

/// Place: the name or word.
pub const PREDEFINED: u8 = 36;

/// Place: `[`.
pub const INDEX: u8 = 37;

/// Place: the field's name.
pub const FIELD: u8 = 38;

/// Place: the literal.
pub const JOINED_PARTS: u8 = 39;

/// Place: the last token.
pub const MODEL: u8 = 40;

/// Place: the construct, or the type.
pub const IN_EXPERIMENT: u8 = 41;

/// Place: the name.
pub const MODEL_CALL: u8 = 42;
