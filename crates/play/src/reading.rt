// A line read as an order: all of it is found right before anything of it is carried out.
ghost use Rattle.std.specs.Prelude.{◌≤◌, length, IfOk};

use crate::complaint::Complaint;
use crate::lengths::{BYTES, FRAME, SETUP, WIDEST};
use crate::operands::Operands;
use crate::order::{CableOrder, GateOrder, Order};
use crate::room::{LineBytes, Part, Room};
use script_words::words::word_at;

// `P addr hh ..`
fn poke<'a>(
    mut operands: Operands,
    bytes: &'a mut [u8; BYTES],
) -> Result<GateOrder<'a>, Complaint> {
    let start = operands.number()?;
    let bytes = operands.bytes(bytes)?;
    let part = Part::new(start, bytes.slice.len() as u64)?;
    Ok(GateOrder::Poke { part, bytes })
}

// `M addr len`
fn look(mut operands: Operands) -> Result<Part, Complaint> {
    let start = operands.number()?;
    let count = operands.number()?;
    operands.end()?;
    Part::new(start, count)
}

// `C room`
fn collect(mut operands: Operands) -> Result<Room<WIDEST>, Complaint> {
    let size = operands.number()?;
    operands.end()?;
    Room::new(size, Complaint::Wide)
}

// `T n` and `E n`
fn only_number(mut operands: Operands) -> Result<u64, Complaint> {
    let number = operands.number()?;
    operands.end()?;
    Ok(number)
}

// `Y hh`
fn only_byte(mut operands: Operands) -> Result<u8, Complaint> {
    let byte = operands.byte()?;
    operands.end()?;
    Ok(byte)
}

// `F hh ..`
fn setup<'a>(operands: Operands, bytes: &'a mut [u8; BYTES]) -> Result<LineBytes<'a>, Complaint>
    ensures { IfOk result (λ setup. length setup.slice.now ≤ 255) }
{
    let setup = operands.bytes(bytes)?;
    if setup.slice.len() > SETUP {
        return Err(Complaint::SetupLength);
    }
    Ok(setup)
}

// A station, a room, and a frame: `U station room hh ..`
fn frame<'a>(
    mut operands: Operands,
    bytes: &'a mut [u8; BYTES],
) -> Result<GateOrder<'a>, Complaint> {
    let station = operands.wide()?;
    let room = operands.room(Complaint::Room)?;
    let frame = operands.bytes(bytes)?;
    if frame.slice.len() > FRAME {
        return Err(Complaint::FrameLength);
    }
    Ok(GateOrder::Frame {
        station,
        room,
        frame,
    })
}

fn gate_order<'a>(
    letter: u8,
    mut operands: Operands,
    bytes: &'a mut [u8; BYTES],
) -> Result<GateOrder<'a>, Complaint> {
    match letter {
        b'B' => Ok(GateOrder::Give {
            bytes: operands.bytes(bytes)?,
        }),
        b'K' => Ok(GateOrder::GiveBlock {
            room: operands.room(Complaint::BlockRoom)?,
            block: operands.bytes(bytes)?,
        }),
        b'T' => Ok(GateOrder::Tick {
            times: only_number(operands)?,
        }),
        b'P' => poke(operands, bytes),
        b'M' => Ok(GateOrder::Look {
            part: look(operands)?,
        }),
        b'C' => Ok(GateOrder::Collect {
            room: collect(operands)?,
        }),
        b'Y' => Ok(GateOrder::Report {
            res: only_byte(operands)?,
        }),
        b'G' => Ok(GateOrder::Register {
            list: operands.tables(bytes)?,
        }),
        b'F' => Ok(GateOrder::Prepare {
            setup: setup(operands, bytes)?,
        }),
        b'S' => {
            operands.end()?;
            Ok(GateOrder::Start)
        }
        b'U' => frame(operands, bytes),
        _ => Err(Complaint::Operation),
    }
}

fn order_of<'a>(
    letter: u8,
    mut operands: Operands,
    bytes: &'a mut [u8; BYTES],
) -> Result<Order<'a>, Complaint> {
    match letter {
        b'W' => Ok(Order::Cable(CableOrder::WriteCommand {
            command: operands.byte()?,
            room: operands.room(Complaint::Room)?,
            body: operands.bytes(bytes)?,
        })),
        b'V' => Ok(Order::Cable(CableOrder::WriteAnswer {
            status: operands.byte()?,
            room: operands.room(Complaint::Room)?,
            body: operands.bytes(bytes)?,
        })),
        b'E' => Ok(Order::Cable(CableOrder::Expect {
            data: only_number(operands)?,
        })),
        b'R' => Ok(Order::Cable(CableOrder::Read {
            room: operands.room(Complaint::Room)?,
            bytes: operands.bytes(bytes)?,
        })),
        _ => Ok(Order::Gate(gate_order(letter, operands, bytes)?)),
    }
}

// A line's first word is one letter; the rest are operands. A comment is known by its very first character alone. On a comment and
// on a line without words there is nothing to do.
pub fn read_order<'a>(
    line: &[u8],
    bytes: &'a mut [u8; BYTES],
) -> Result<Option<Order<'a>>, Complaint> {
    let first = word_at(line, 0);
    match &line[first.start..first.end] {
        [] => Ok(None),
        _ if line[0] == b'#' => Ok(None),
        [letter] => {
            let operands = Operands {
                line,
                next: first.end,
            };
            Ok(Some(order_of(*letter, operands, bytes)?))
        }
        _ => Err(Complaint::Operation),
    }
}
