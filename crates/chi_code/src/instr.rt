use chi_base::Items;
use chi_core::OpName;
use chi_value::{Kind, Piece, Shape, Value};

/// An instruction. Operands stand on a stack of values, containers that are walked over on a stack of
/// walks. A goal is a place in the code. The slots at the end of an offer are those of the unwind names
/// around it, and its goal is where its body begins.
#[derive(Debug, Drop)]
pub enum Instr {
    /// A statement of a function begins.
    Tick,
    /// A statement of a process begins, with its line.
    Mark(u32),
    /// Pushes a literal.
    Push(Value),
    /// Pushes the value of a slot.
    Load(u32),
    /// Pushes the value of the constant of this number.
    Const(u32),
    /// Pops the value of the constant of this number, which has this line.
    SetConst(u32, u32),
    /// An operator, or a predefined name, with so many operands.
    Op(OpName, u32),
    /// Leads to the goal where the value on top is false, and else drops it.
    And(u64),
    /// Leads to the goal where the value on top is true, and else drops it.
    Or(u64),
    /// A literal container of so many parts.
    Build(Kind, u32),
    /// The part of this number of a tuple.
    Part(u32),
    /// Calls the function of this number.
    Call(u32),
    /// Begins the search for the place of an element in a list.
    Scan,
    /// Asks about the next element, or leads to the goal where there is none.
    Probe(u64),
    /// Goes on at the goal unless the place was found.
    Found(u64),
    /// Puts the element at the place that was found.
    Place,
    /// Pushes a default of the shape.
    Default(Shape),
    /// Begins a list of as many elements as the number on top.
    Repeat,
    /// Leads to the goal where the list has all its elements.
    More(u64),
    /// Adds the value on top to the list.
    Add,
    /// Goes on at the goal.
    Jump(u64),
    /// Pops a value into a slot.
    Store(u32),
    /// The parts of one tuple, for so many targets.
    Spread(u32),
    /// Pops values, and indexes above them, and stores the values at the targets.
    Assign(Items<Aim>),
    /// Pops a bool, and leads to the goal where it is false.
    IfFalse(u64),
    /// Pops a container and begins a walk over it.
    Walk,
    /// Binds the slots to the next element, or ends the walk and leads to the goal where there is none.
    Next(u64, Items<u32>),
    /// Ends the innermost walk.
    Drop,
    /// Gives the value on top back to the caller.
    Ret,
    /// A function's body ended without a return.
    NoRet,
    /// A process's body ended, or the constants are set.
    Done,
    /// Ends the run, with a value or without.
    Exit(bool),
    /// Pops values and writes them as the format says.
    Write(Items<Piece>),
    /// Waits for one of the offers.
    Wait,
    /// Offers to send the value on top on the channel below it.
    Send(u64, Items<u32>),
    /// Offers to send on a channel that carries nothing.
    SendVoid(u64, Items<u32>),
    /// Offers to receive into a slot.
    Receive(u64, u32, Items<u32>),
    /// Offers to receive on a channel that carries nothing.
    ReceiveVoid(u64, Items<u32>),
    /// Offers to wait for so long.
    Delay(u64, Items<u32>),
    /// Offers to wait for a timer.
    Timer(u64, Items<u32>),
    /// Makes an instance of the process of this number, and stores it at the target, if there is one.
    Make(u32, Option<Aim>),
    /// Waits for all instances that were made in this statement.
    Join,
    /// Pops so many instances and waits until they have finished.
    Finish(u32),
}

/// A variable or a part of one, into which a value is stored.
#[derive(Debug, Drop)]
pub struct Aim {
    pub slot: u32,
    pub steps: Items<AimStep>,
}

/// A step into a part.
#[derive(Debug, Drop)]
pub enum AimStep {
    /// To the index or key that was evaluated for it.
    Index,
    /// To the part of this number of a tuple.
    Part(u32),
}
