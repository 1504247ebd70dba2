// Case 14: a write of 61 bytes has the length byte 0x40, one of 62 has 0x41.
ghost use Rattle.std.specs.Prelude.{◌≤◌};

use crate::case::Case;
use log_gate::log_gate_write_command;
use script_lines::output::Output;
use std::io::{self, Write};

const WRITE: u8 = 0x02;

const ADDRESS: u8 = 16;

// The last byte of 61 from the address on.
const LAST: usize = 76;

// The size, the address, and so many bytes of 0x11, as the command writer writes them.
fn show_write<W: Write>(size: u8, expected: &[u8], last: u8, out: &mut Output<W>) -> io::Result<()>
    requires { size ≤ 62 }
{
    let mut body = [0x11u8; 65];
    body[0] = size;
    body[1] = ADDRESS;
    body[2] = 0;
    let end = 3 + usize::from(size);
    let mut wire = [0u8; 150];
    let written = log_gate_write_command(WRITE, &body[..end], &mut wire);
    let case = Case {
        number: 14,
        address: LAST,
        before: 0,
        after: last,
    };
    match wire.get(..written.length) {
        Some(wire) => case.show(wire, expected, out),
        None => Ok(()),
    }
}

// 61 bytes are written, 62 are refused.
pub fn show_lengths<W: Write>(out: &mut Output<W>) -> io::Result<()> {
    show_write(61, &[0x2B, 0x00, 0x00], 0x11, out)?;
    show_write(62, &[0x2B, 0x83, 0x7D], 0x00, out)
}
