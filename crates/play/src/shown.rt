// What a call did, as a line of the output shows it.
use call_block::BlockTaken;
use call_panel::Said;
use script_lines::output::Output;
use std::io::{self, Write};

fn put_number<W: Write>(letter: u8, refusal: u8, out: &mut Output<W>) -> io::Result<()> {
    out.put(letter)?;
    out.put(b' ')?;
    out.put_decimal(u64::from(refusal))
}

// The number alone.
pub fn put_refusal<W: Write>(letter: u8, refusal: u8, out: &mut Output<W>) -> io::Result<()> {
    put_number(letter, refusal, out)?;
    out.put(b'\n')
}

// The status in hex: the panel is refused as little as a byte.
pub fn put_said<W: Write>(letter: u8, said: Said, out: &mut Output<W>) -> io::Result<()> {
    out.put(letter)?;
    out.put(b' ')?;
    out.put_hex(said.status)?;
    out.put(b'\n')
}

// The number, how many bytes of a block were taken and how many written, and the whole lent buffer.
pub fn put_block_taken<W: Write>(
    letter: u8,
    taken: BlockTaken,
    lent: &[u8],
    out: &mut Output<W>,
) -> io::Result<()> {
    put_number(letter, taken.refusal, out)?;
    out.put(b' ')?;
    out.put_decimal(taken.taken as u64)?;
    out.put(b' ')?;
    out.put_decimal(taken.written as u64)?;
    out.put_bytes(lent)?;
    out.put(b'\n')
}

// The number, how many bytes were written, and the whole lent buffer.
pub fn put_written<W: Write>(
    letter: u8,
    refusal: u8,
    length: usize,
    lent: &[u8],
    out: &mut Output<W>,
) -> io::Result<()> {
    put_number(letter, refusal, out)?;
    out.put(b' ')?;
    out.put_decimal(length as u64)?;
    out.put_bytes(lent)?;
    out.put(b'\n')
}
