//! A checked Chi 3 program, when it is sound, and the process semantics that says how it runs:
//! configurations, steps, derivations, and the one derivation that a policy picks.
#![tactic(auto)]

mod act;
mod communication;
mod element;
mod experiment;
mod expression;
mod fault;
mod label;
mod laws;
mod limits;
mod line;
mod op_name;
mod program;
mod scene;
mod statement;
mod target;
mod verdict;
mod view;

pub use act::Act;
pub use chi_token::Bytes;
pub use communication::CComm;
pub use element::CElem;
pub use experiment::{XBranch, XStat, XperDef};
pub use expression::CExpr;
pub use fault::FaultKind;
pub use label::Label;
pub use laws::{
    kinds_are_types, limits_law, places_are_sound, start_is_kinded, values_are_of_kinds,
};
pub use limits::{MOST_CALLS, MOST_INSTANCES, MOST_OFFERS};
pub use line::verdict_line;
pub use op_name::OpName;
pub use program::{ConstDef, Core, FuncDef, ProcDef};
pub use scene::Scene;
pub use statement::{Branch, CAlt, CStat};
pub use target::{CStep, CTarget};
pub use verdict::Verdict;
pub use view::View;
