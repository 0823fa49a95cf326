//! With which classes of tokens the parts of the grammar begin, in the order of the grammar's table; the parsers' proofs hold each
//! list against that table.
use chi_token::{Keyword, Sign};
use chi_tree::Class;

/// The classes of the groups that are named, one after the other, after those that are given. Each group of classes, and each group
/// of groups, stands here once.
macro_rules! classes {
    ([$($all:expr,)*]) => {
        [$($all,)*]
    };
    ([$($all:expr,)*] prefix_signs $($more:ident)*) => {
        classes!([
            $($all,)*
            Class::Sign(Sign::Minus), Class::Sign(Sign::Plus), Class::Word(Keyword::SampleWord),
        ] $($more)*)
    };
    ([$($all:expr,)*] relation_signs $($more:ident)*) => {
        classes!([
            $($all,)*
            Class::Sign(Sign::Less), Class::Sign(Sign::LessEqual), Class::Sign(Sign::Equal),
            Class::Sign(Sign::NotEqual), Class::Sign(Sign::Greater),
            Class::Sign(Sign::GreaterEqual), Class::Word(Keyword::InWord),
            Class::Word(Keyword::SubWord),
        ] $($more)*)
    };
    ([$($all:expr,)*] sum_signs $($more:ident)*) => {
        classes!([$($all,)* Class::Sign(Sign::Plus), Class::Sign(Sign::Minus),] $($more)*)
    };
    ([$($all:expr,)*] product_signs $($more:ident)*) => {
        classes!([
            $($all,)*
            Class::Sign(Sign::Star), Class::Sign(Sign::Slash), Class::Word(Keyword::DivWord),
            Class::Word(Keyword::ModWord),
        ] $($more)*)
    };
    ([$($all:expr,)*] literals $($more:ident)*) => {
        classes!([
            $($all,)*
            Class::Int, Class::Real, Class::Text, Class::Word(Keyword::TrueWord),
            Class::Word(Keyword::FalseWord), Class::Word(Keyword::TimeWord),
        ] $($more)*)
    };
    ([$($all:expr,)*] cast_words $($more:ident)*) => {
        classes!([
            $($all,)*
            Class::Word(Keyword::IntWord), Class::Word(Keyword::RealWord),
            Class::Word(Keyword::StringWord), Class::Word(Keyword::BoolWord),
            Class::Word(Keyword::TimerWord),
        ] $($more)*)
    };
    ([$($all:expr,)*] open_brackets $($more:ident)*) => {
        classes!([
            $($all,)*
            Class::Sign(Sign::LeftParen), Class::Sign(Sign::LeftBracket),
            Class::Sign(Sign::LeftBrace), Class::Sign(Sign::Less),
        ] $($more)*)
    };
    ([$($all:expr,)*] type_words $($more:ident)*) => {
        classes!([
            $($all,)*
            Class::Word(Keyword::BoolWord), Class::Word(Keyword::IntWord),
            Class::Word(Keyword::RealWord), Class::Word(Keyword::StringWord),
            Class::Word(Keyword::TimerWord), Class::Word(Keyword::InstWord),
        ] $($more)*)
    };
    ([$($all:expr,)*] built_type_words $($more:ident)*) => {
        classes!([
            $($all,)*
            Class::Word(Keyword::ListWord), Class::Word(Keyword::SetWord),
            Class::Word(Keyword::DistWord), Class::Word(Keyword::DictWord),
            Class::Word(Keyword::TupleWord), Class::Word(Keyword::ChanWord),
        ] $($more)*)
    };
    ([$($all:expr,)*] closed $($more:ident)*) => {
        classes!([
            $($all,)*
            Class::Word(Keyword::SelectWord), Class::Word(Keyword::IfWord),
            Class::Word(Keyword::WhileWord), Class::Word(Keyword::ForWord),
        ] $($more)*)
    };
    ([$($all:expr,)*] launch_words $($more:ident)*) => {
        classes!([
            $($all,)*
            Class::Word(Keyword::RunWord), Class::Word(Keyword::StartWord),
        ] $($more)*)
    };
    ([$($all:expr,)*] jumps $($more:ident)*) => {
        classes!([
            $($all,)*
            Class::Word(Keyword::PassWord), Class::Word(Keyword::BreakWord),
            Class::Word(Keyword::ContinueWord),
        ] $($more)*)
    };
    ([$($all:expr,)*] value_words $($more:ident)*) => {
        classes!([
            $($all,)*
            Class::Word(Keyword::ReturnWord), Class::Word(Keyword::ExitWord),
            Class::Word(Keyword::FinishWord),
        ] $($more)*)
    };
    ([$($all:expr,)*] write_words $($more:ident)*) => {
        classes!([
            $($all,)*
            Class::Word(Keyword::WriteWord), Class::Word(Keyword::WritelnWord),
        ] $($more)*)
    };
    ([$($all:expr,)*] name $($more:ident)*) => {
        classes!([$($all,)* Class::Name,] $($more)*)
    };
    ([$($all:expr,)*] not_word $($more:ident)*) => {
        classes!([$($all,)* Class::Word(Keyword::NotWord),] $($more)*)
    };
    ([$($all:expr,)*] delay $($more:ident)*) => {
        classes!([$($all,)* Class::Word(Keyword::DelayWord),] $($more)*)
    };
    ([$($all:expr,)*] unwind $($more:ident)*) => {
        classes!([$($all,)* Class::Word(Keyword::UnwindWord),] $($more)*)
    };
    ([$($all:expr,)*] primary $($more:ident)*) => {
        classes!([$($all,)*] literals name cast_words open_brackets $($more)*)
    };
    ([$($all:expr,)*] unary $($more:ident)*) => {
        classes!([$($all,)*] prefix_signs primary $($more)*)
    };
    ([$($all:expr,)*] expr $($more:ident)*) => {
        classes!([$($all,)*] not_word unary $($more)*)
    };
    ([$($all:expr,)*] built_type $($more:ident)*) => {
        classes!([$($all,)*] type_words built_type_words $($more)*)
    };
    ([$($all:expr,)*] open $($more:ident)*) => {
        classes!([$($all,)*] built_type name delay jumps value_words write_words $($more)*)
    };
    ([$($all:expr,)*] block $($more:ident)*) => {
        classes!([$($all,)*] closed launch_words open $($more)*)
    };
    ([$($all:expr,)*] alternatives $($more:ident)*) => {
        classes!([$($all,)*] unwind delay expr $($more)*)
    };
}

/// An expression.
pub const FIRST_OF_EXPR: [Class; 20] = classes!([] expr);

/// The right side of a power.
pub const FIRST_OF_UNARY: [Class; 19] = classes!([] unary);

/// A type that is no name.
pub const FIRST_OF_BUILT_TYPE: [Class; 12] = classes!([] built_type);

/// A type.
pub const FIRST_OF_TYPE: [Class; 13] = classes!([] built_type name);

/// What stands after an expression and takes a part of it.
pub const FIRST_OF_POSTFIX: [Class; 2] = [Class::Sign(Sign::LeftBracket), Class::Sign(Sign::Dot)];

/// A type that is one word.
pub const TYPE_WORDS: [Class; 6] = classes!([] type_words);

/// What a channel may be used for.
pub const WAY_SIGNS: [Class; 2] = [Class::Sign(Sign::Bang), Class::Sign(Sign::Question)];

/// A cast.
pub const CAST_WORDS: [Class; 5] = classes!([] cast_words);

/// A literal of one token.
pub const LITERALS: [Class; 6] = classes!([] literals);

/// An operator before its operand.
pub const PREFIX_SIGNS: [Class; 3] = classes!([] prefix_signs);

/// An operator between two sums.
pub const RELATION_SIGNS: [Class; 8] = classes!([] relation_signs);

/// An operator between the operands of a sum.
pub const SUM_SIGNS: [Class; 2] = classes!([] sum_signs);

/// An operator between the operands of a product.
pub const PRODUCT_SIGNS: [Class; 4] = classes!([] product_signs);

/// A block.
pub const FIRST_OF_BLOCK: [Class; 28] = classes!([] block);

/// A statement whose last token is `end`.
pub const FIRST_OF_CLOSED: [Class; 4] = classes!([] closed);

/// A launch of instances.
pub const FIRST_OF_LAUNCH: [Class; 2] = classes!([] launch_words);

/// A statement of one word.
pub const FIRST_OF_JUMP: [Class; 3] = classes!([] jumps);

/// A write.
pub const FIRST_OF_WRITE: [Class; 2] = classes!([] write_words);

/// The alternatives of a select.
pub const FIRST_OF_ALTERNATIVES: [Class; 22] = classes!([] alternatives);

/// What is run or started.
pub const FIRST_OF_ELEMENTS: [Class; 2] = classes!([] unwind name);

/// What stands after the target of a communication.
pub const FIRST_OF_COMMUNICATION_END: [Class; 2] = [
    Class::Sign(Sign::Bang),
    Class::Sign(Sign::Question),
];

/// A further formal.
pub const FIRST_OF_MORE_FORMAL: [Class; 2] = [
    Class::Sign(Sign::Comma),
    Class::Sign(Sign::Semicolon),
];

/// A definition.
pub const FIRST_OF_DEFINITION: [Class; 7] = [
    Class::Word(Keyword::EnumWord),
    Class::Word(Keyword::ConstWord),
    Class::Word(Keyword::TypeWord),
    Class::Word(Keyword::FuncWord),
    Class::Word(Keyword::ProcWord),
    Class::Word(Keyword::ModelWord),
    Class::Word(Keyword::XperWord),
];

/// The word `not`.
pub const NOT: Class = Class::Word(Keyword::NotWord);

/// The word `and`.
pub const AND: Class = Class::Word(Keyword::AndWord);

/// The word `or`.
pub const OR: Class = Class::Word(Keyword::OrWord);

/// The word `list`.
pub const LIST: Class = Class::Word(Keyword::ListWord);

/// The word `set`.
pub const SET: Class = Class::Word(Keyword::SetWord);

/// The word `dist`.
pub const DIST: Class = Class::Word(Keyword::DistWord);

/// The word `dict`.
pub const DICT: Class = Class::Word(Keyword::DictWord);

/// The word `tuple`.
pub const TUPLE: Class = Class::Word(Keyword::TupleWord);

/// The word `chan`.
pub const CHAN: Class = Class::Word(Keyword::ChanWord);

/// The word `void`.
pub const VOID: Class = Class::Word(Keyword::VoidWord);

/// The sign `(`.
pub const LEFT_PAREN: Class = Class::Sign(Sign::LeftParen);

/// The sign `)`.
pub const RIGHT_PAREN: Class = Class::Sign(Sign::RightParen);

/// The sign `[`.
pub const LEFT_BRACKET: Class = Class::Sign(Sign::LeftBracket);

/// The sign `]`.
pub const RIGHT_BRACKET: Class = Class::Sign(Sign::RightBracket);

/// The sign `{`.
pub const LEFT_BRACE: Class = Class::Sign(Sign::LeftBrace);

/// The sign `}`.
pub const RIGHT_BRACE: Class = Class::Sign(Sign::RightBrace);

/// The sign `<`.
pub const LESS: Class = Class::Sign(Sign::Less);

/// The sign `>`.
pub const GREATER: Class = Class::Sign(Sign::Greater);

/// The sign `^`.
pub const CARET: Class = Class::Sign(Sign::Caret);

/// The sign `,`.
pub const COMMA: Class = Class::Sign(Sign::Comma);

/// The sign `;`.
pub const SEMICOLON: Class = Class::Sign(Sign::Semicolon);

/// The sign `:`.
pub const COLON: Class = Class::Sign(Sign::Colon);

/// The sign `.`.
pub const DOT: Class = Class::Sign(Sign::Dot);

/// Any free name.
pub const NAME: Class = Class::Name;
