// Cases 1 to 12, each a line of the table: the case, the address of a byte of the memory and what it is before and after, what goes
// over the wire, and what comes back.
use crate::case::Case;
use crate::messages::read_messages;
use log_gate::LOG_GATE_MEMORY;
use script_lines::output::Output;
use script_words::operands::{read_byte, read_number};
use std::io::{self, Write};

const TABLE: &str = "
 1    16 00 00   2B C8 38               > 2B 00 03 00 01 01 00 40 BB
 2    16 7F 7F   2B D0 10 00 20         > 2B 00 7F 81
 3    16 2B 2B   2B D0 10 00 20         > 2B 00 2B 2B D5
 4    43 7F 7F   2B D0 2B 2B 00 05      > 2B 00 7F 81
 5    16 5A 72   2B E5 10 00 F0 3C DF   > 2B 00 00
 6    16 7F 7F   2B D0 10 00 21         > 2B 82 7E
 7    16 7F 7F   2B 01 03 41 10 00 AB   > 2B 84 7C
 8 16383 7F 7F   2B D0 FF 3F F2         > 2B 00 7F 81
 8 16383 7F 7F   2B D0 00 40 F0         > 2B 89 77
 9  8191 00 05   2B E3 FF 1F 05 00 FA   > 2B 00 00
 9  8192 00 00   2B E3 00 20 05 00 F8   > 2B 89 77
10    16 00 00   2B 2B 2B C8 38         > 2B 00 03 00 01 01 00 40 BB
10    16 00 00   2B 2B C8 38            >
11    16 00 00   2B D0 10 2B C8 38      > 2B 00 03 00 01 01 00 40 BB
12    16 00 00   2B 7F 00 81            > 2B 81 7F
12    16 00 00   2B C1 3F               > 2B 88 78
";

// The case that a line names, and where its messages stand.
fn read_case(line: &[u8]) -> Option<(Case, usize)> {
    let (number, next) = read_number(line, 0)?;
    let (address, next) = read_number(line, next)?;
    let (before, next) = read_byte(line, next)?;
    let (after, next) = read_byte(line, next)?;
    if address >= LOG_GATE_MEMORY as u64 {
        return None;
    }
    let case = Case {
        number,
        address: address as usize,
        before,
        after,
    };
    Some((case, next))
}

// A line that names no case, or no messages, is skipped.
fn show_line<W: Write>(line: &[u8], out: &mut Output<W>) -> io::Result<()> {
    let Some((case, next)) = read_case(line) else {
        return Ok(());
    };
    let mut wire = [0u8; 16];
    let mut expected = [0u8; 16];
    match read_messages(line, next, &mut wire, &mut expected) {
        Some(messages) => case.show(messages.given, messages.wanted, out),
        None => Ok(()),
    }
}

pub fn show_table<W: Write>(out: &mut Output<W>) -> io::Result<()> {
    for line in TABLE.lines() {
        show_line(line.as_bytes(), out)?;
    }
    Ok(())
}
