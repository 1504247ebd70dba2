// Plays a script: what the target does, and what the other end of the cable writes and reads, through the exported calls.
#![tactic(auto)]

mod cable;
mod complaint;
mod gate;
mod lengths;
mod operands;
mod order;
mod panel;
mod play;
mod program;
mod reading;
mod room;
mod second;
mod shown;

use complaint::{Complaint, complain};
use lengths::{BYTES, TEXT};
use play::Play;
use reading::read_order;
use script_lines::input::{Input, Line, next_line};
use script_lines::output::Output;
use std::io::{self, Read, Write};

// Nothing of a line that cannot be read is carried out, and nothing behind it. A loop has to end, and nothing says that the input
// does: the lines are counted up to a number that no script reaches.
fn play_all<I: Read, W: Write>(
    rt: &impl Eprint,
    script: &mut I,
    out: &mut Output<W>,
) -> io::Result<()> {
    let mut text = [0u8; TEXT];
    let mut bytes = [0u8; BYTES];
    let mut play = Play::new();
    let mut input = Input::default();
    for line_number in 1..u64::MAX {
        match next_line(input, &mut text, script)? {
            Line::Over => {
                play.gate.put_digest(out)?;
                return out.flush();
            }
            Line::Long => return complain(rt, line_number, Complaint::Length, out),
            Line::Found { start, end, rest } => {
                match read_order(&text[start..end], &mut bytes) {
                    Ok(Some(order)) => play.carry_out(order, out)?,
                    Ok(None) => {}
                    Err(complaint) => return complain(rt, line_number, complaint, out),
                }
                input = rest;
            }
        }
    }
    Ok(())
}

fn main(rt: HostRuntime) -> io::Result<()> {
    let mut script = rt.reader();
    let mut out = Output::new(io::writer(&rt));
    play_all(&rt, &mut script, &mut out)
}
