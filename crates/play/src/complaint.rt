// What can be wrong with a line, and saying so.
use script_lines::output::Output;
use std::fmt;
use std::io::{self, Write};

#[derive(Clone, Copy)]
pub enum Complaint {
    Operation,
    Number,
    Byte,
    Surplus,
    Range,
    Room,
    BlockRoom,
    Wide,
    SetupLength,
    FrameLength,
    Many,
    Length,
}

impl fmt::Display for Complaint {
    fn fmt<W: fmt::Write>(&self, f: &mut fmt::Formatter<W>) -> fmt::Result {
        f.write_str(match self {
            Complaint::Operation => "no operation begins so",
            Complaint::Number => "a decimal number is missing or wrong",
            Complaint::Byte => "a byte in hex is missing or wrong",
            Complaint::Surplus => "there is a word too many",
            Complaint::Range => "the memory has no such bytes",
            Complaint::Room => "the room is above 600",
            Complaint::BlockRoom => "the room is above 2000",
            Complaint::Wide => "a number is above 65535",
            Complaint::SetupLength => "the panel gives more than 255 bytes",
            Complaint::FrameLength => "the frame has more than 600 bytes",
            Complaint::Many => "there are more than 40 tables",
            Complaint::Length => "the line is too long",
        })
    }
}

// What the lines before gave goes out first.
pub fn complain<W: Write>(
    rt: &impl Eprint,
    line_number: u64,
    complaint: Complaint,
    out: &mut Output<W>,
) -> io::Result<()> {
    out.flush()?;
    eprintln!(rt; "line {line_number}: {complaint}")
}
