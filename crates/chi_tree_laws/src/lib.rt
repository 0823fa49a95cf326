//! Laws of the concrete tree: the rules of the grammar build exactly the formed trees, a token list spells at most one of
//! them, the `;` between two statements may be left out after `end` alone, and an exact parser answers with formed programs.
#![tactic(auto)]

mod laws;

pub use laws::{
    answer_law, formed_law, grammar_law, last_token_law, nesting_law, one_program_law,
    one_tree_law, parsed_law, parsed_part_law,
};
