use chi_base::Items;
use chi_core::{CExpr, CTarget};
use chi_types::Ty;

/// What a target comes to, and the type of what can be stored there.
#[derive(Debug, Drop)]
pub struct Aim {
    pub target: CTarget,
    pub ty: Ty,
}

/// What a walk goes over, and the types of the names that it binds.
#[derive(Debug, Drop)]
pub struct Walked {
    pub container: CExpr,
    pub types: Items<Ty>,
}

/// A variable that receives.
#[derive(Debug, Drop)]
pub struct Receiver {
    pub slot: u32,
    pub ty: Ty,
}

/// A process by its number, and the arguments with which it is started.
#[derive(Debug, Drop)]
pub struct Started {
    pub process: u32,
    pub arguments: Items<CExpr>,
}

/// A model by its number, with the types of its parameters and that of its exits' values.
#[derive(Debug, Drop)]
pub struct Modelled {
    pub number: u32,
    pub params: Items<Ty>,
    pub exit: Option<Ty>,
}

/// A model by its number, the arguments with which it is run, and the type of the value that it gives.
#[derive(Debug, Drop)]
pub struct ModelRun {
    pub model: u32,
    pub arguments: Items<CExpr>,
    pub exit: Ty,
}
