// What a line orders, with all that it says of it.
use crate::lengths::{BLOCK_LENT, LENT, WIDEST};
use crate::room::{LineBytes, Part, Room};

#[derive(Clone, Copy)]
pub enum Order<'a> {
    Gate(GateOrder<'a>),
    Cable(CableOrder<'a>),
}

// What the gate is given or asked over the wire, by time, by its own program, by its panel, at its second port and from outside.
#[derive(Clone, Copy)]
pub enum GateOrder<'a> {
    Give {
        bytes: LineBytes<'a>,
    },
    GiveBlock {
        room: Room<BLOCK_LENT>,
        block: LineBytes<'a>,
    },
    Tick {
        times: u64,
    },
    Poke {
        part: Part,
        bytes: LineBytes<'a>,
    },
    Look {
        part: Part,
    },
    Collect {
        room: Room<WIDEST>,
    },
    Report {
        res: u8,
    },
    Register {
        list: LineBytes<'a>,
    },
    Prepare {
        setup: LineBytes<'a>,
    },
    Start,
    Frame {
        station: u16,
        room: Room<LENT>,
        frame: LineBytes<'a>,
    },
}

// What the other end of the cable writes, and reads of answers.
#[derive(Clone, Copy)]
pub enum CableOrder<'a> {
    WriteCommand {
        command: u8,
        room: Room<LENT>,
        body: LineBytes<'a>,
    },
    WriteAnswer {
        status: u8,
        room: Room<LENT>,
        body: LineBytes<'a>,
    },
    Expect {
        data: u64,
    },
    Read {
        room: Room<LENT>,
        bytes: LineBytes<'a>,
    },
}
