// Output through a buffer and a place in it. A full buffer is written out, so that no line is too long.
ghost use Rattle.std.specs.Prelude.{◌≡◌, ◌≤◌, ◌<◌, ◌+◌, ◌-◌, set, take, OnOk, OnErr};
ghost use Rattle.std.specs.Io.KnownBytes.{Appends};
ghost use Rattle.script_lines.specs.Output.{place_of, glyph_of};

use itoa::Buffer;
use std::io::{self, Write};

pub const ROOM: usize = 65536;

#[derive(Drop)]
pub struct Output<W> {
    pub to: W,
    pub room: [u8; ROOM],
    // where the next byte goes
    pub at: usize,
    ghost within: { at ≤ 65536 },
}

impl<W: Write> Output<W> {
    pub fn new(to: W) -> Self
        ensures { result.at ≡ 0 }
    {
        Output {
            to,
            room: [0; ROOM],
            at: 0,
        }
    }

    // Writes out what stands before the place; the next byte goes to the front.
    pub fn flush(&mut self) -> io::Result<()>
        ensures written { OnOk result (Appends (W.contents self.old.to) (W.contents self.new.to) (take self.old.at self.old.room)) }
        ensures front { OnOk result (self.new.at ≡ 0) }
        ensures unwritten { OnErr result (self.new.at ≡ self.old.at) }
        ensures kept { self.new.room ≡ self.old.room }
    {
        self.to.write_all(&self.room[..self.at])?;
        self.at = 0;
        Ok(())
    }

    // What stands in the room is passed on only where the room is full, and only there a write can fail.
    pub fn put(&mut self, byte: u8) -> io::Result<()>
        ensures place { OnOk result (self.new.at ≡ place_of self.old.at + 1) }
        ensures byte { OnOk result (self.new.room ≡ set self.old.room (place_of self.old.at) byte) }
        ensures passed_on { OnOk result (Appends (W.contents self.old.to) (W.contents self.new.to) (take (self.old.at - place_of self.old.at) self.old.room)) }
        ensures unwritten { OnErr result ((self.new.at ≡ self.old.at) × (self.new.room ≡ self.old.room)) }
        ensures full { OnErr result (self.old.at ≡ 65536) }
    {
        if self.at == ROOM {
            self.flush()?;
        }
        self.room[self.at] = byte;
        self.at += 1;
        Ok(())
    }

    // Byte by byte, by the one contract that says where in the room a byte goes: the room may be full wherever in the text.
    pub fn put_text(&mut self, text: &[u8]) -> io::Result<()> {
        for byte in text {
            self.put(*byte)?;
        }
        Ok(())
    }

    pub fn put_decimal(&mut self, value: u64) -> io::Result<()> {
        self.put_text(Buffer::new().format(value).as_bytes())
    }

    pub fn put_hex(&mut self, byte: u8) -> io::Result<()> {
        self.put(glyph(byte / 16))?;
        self.put(glyph(byte % 16))
    }

    // Bytes in hex, a space before each.
    pub fn put_bytes(&mut self, bytes: &[u8]) -> io::Result<()> {
        for byte in bytes {
            self.put(b' ')?;
            self.put_hex(*byte)?;
        }
        Ok(())
    }

    // A number of four bytes in hex, the highest byte first.
    pub fn put_word(&mut self, value: u32) -> io::Result<()> {
        for byte in value.to_be_bytes() {
            self.put_hex(byte)?;
        }
        Ok(())
    }
}

// The character of a value below 16, in upper case. (`char::from_digit` gives lower case.)
fn glyph(value: u8) -> u8
    requires { value < 16 }
    ensures { result ≡ glyph_of value }
{
    if value < 10 {
        b'0' + value
    } else {
        b'A' - 10 + value
    }
}
