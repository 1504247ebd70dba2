// What a case prints: a line, with the verdict at its end.
use script_lines::output::Output;
use std::io::{self, Write};

pub fn put_case<W: Write>(number: u64, wire: &[u8], out: &mut Output<W>) -> io::Result<()> {
    out.put_decimal(number)?;
    out.put(b':')?;
    out.put_bytes(wire)
}

// Nothing may come back, and then that is said.
fn put_came<W: Write>(came: &[u8], out: &mut Output<W>) -> io::Result<()> {
    out.put_text(b" gives")?;
    if came.is_empty() {
        return out.put_text(b" nothing");
    }
    out.put_bytes(came)
}

fn put_left<W: Write>(address: usize, value: u8, out: &mut Output<W>) -> io::Result<()> {
    out.put_text(b", byte ")?;
    out.put_decimal(address as u64)?;
    out.put_text(b" is ")?;
    out.put_hex(value)
}

fn put_verdict<W: Write>(right: bool, out: &mut Output<W>) -> io::Result<()> {
    if right {
        return out.put_text(b": ok\n");
    }
    out.put_text(b": NOT ok\n")
}

// A byte of the memory as it is, and as the case says that it is left.
#[derive(Clone, Copy)]
pub struct Left {
    pub address: usize,
    pub value: u8,
    pub said: u8,
}

pub fn put_outcome<W: Write>(
    came: &[u8],
    expected: &[u8],
    left: Left,
    out: &mut Output<W>,
) -> io::Result<()> {
    put_came(came, out)?;
    put_left(left.address, left.value, out)?;
    put_verdict(came == expected && left.value == left.said, out)
}
