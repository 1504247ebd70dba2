// What the definitions and the code share: a variable's definition, what the list of commands says of one, and the second port's
// functions.
#![tactic(auto)]

// One definition: `size` bytes from `address` on.
#[repr(C)]
#[derive(Clone, Copy)]
pub struct Variable {
    pub address: u32,
    pub size: u8,
}

// A name for each thing that a command does.
#[derive(Clone, Copy)]
pub enum Operation {
    Unserved,
    Describe,
    DescribeBriefly,
    Read,
    Write,
    WriteMasked,
    SetUpScope,
    ReadScope,
    PrepareAndStart,
    Start,
    Stop,
    Status,
    QueryBuffer,
    SendCommand,
    CommandResult,
    TellTable,
    MeasureString,
}

// What a command does, whether its addresses take 4 bytes, and its own size; 0 where its data begin with one, or where it has none.
#[derive(Clone, Copy)]
pub struct Service {
    pub operation: Operation,
    pub ex: bool,
    pub size: u8,
}

// A name for each function of the second port that is served, and one for every other.
#[derive(Clone, Copy)]
pub enum Function {
    ReadRegisters,
    WriteRegister,
    WriteRegisters,
    MaskRegister,
    Other,
}
