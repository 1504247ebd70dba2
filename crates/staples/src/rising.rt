// Case 13: rising over 0x7000, from 0x6000 to 0x8000 in the two bytes at 16, which are recorded too. With post-trigger 0 the
// recorder stops when it fires, and the status that 0xC3 gives is the sign of it.
use crate::messages::{Messages, read_messages};
use crate::show::{Left, put_case, put_outcome};
use crate::target::Target;
use script_lines::output::Output;
use std::io::{self, Write};

// Where the variable's high byte stands, and where the second set keeps it.
const HIGH: usize = 17;

const KEPT: usize = 12291;

const STATUS: [u8; 3] = [0x2B, 0xC3, 0x3D];

// The setup, the value from below to above with a tick at each, and the question for the status.
fn run(setup: &[u8], target: &mut Target) {
    target.memory[HIGH] = 0x60;
    target.give(setup);
    target.tick();
    target.memory[HIGH] = 0x80;
    target.tick();
    target.give(&STATUS);
}

fn show_setup<W: Write>(messages: Messages, out: &mut Output<W>) -> io::Result<()> {
    let mut target = Target::new();
    run(messages.given, &mut target);
    let left = Left {
        address: KEPT,
        value: target.memory[KEPT],
        said: 0x80,
    };
    put_case(13, messages.given, out)?;
    out.put_text(b", two ticks,")?;
    out.put_bytes(&STATUS)?;
    put_outcome(target.answers(), messages.wanted, left, out)
}

fn show_line<W: Write>(line: &[u8], out: &mut Output<W>) -> io::Result<()> {
    let mut setup = [0u8; 32];
    let mut expected = [0u8; 16];
    match read_messages(line, 0, &mut setup, &mut expected) {
        Some(messages) => show_setup(messages, out),
        None => Ok(()),
    }
}

// Rising, four samples, post-trigger and divider 0, the trigger of two bytes at 16, and the same two bytes recorded. With sign 0 it
// fires, with sign 1 it does not.
pub fn show_signs<W: Write>(out: &mut Output<W>) -> io::Result<()> {
    show_line(
        b"2B 09 13 01 04 00 00 00 00 00 10 00 02 00 00 70 00 00 01 02 10 00 4A > 2B 00 00 2B 02 FE",
        out,
    )?;
    show_line(
        b"2B 09 13 01 04 00 00 00 00 00 10 00 02 01 00 70 00 00 01 02 10 00 49 > 2B 00 00 2B 01 FF",
        out,
    )
}
