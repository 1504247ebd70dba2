// The pairing rule at a place of the capture.
ghost use Rattle.std.specs.Prelude.{◌≡◌};
ghost use Rattle.line_captures.specs.Tokens.{met_at};

use line_wire::doubling::PLUS;

#[derive(Clone, Copy)]
pub enum Met {
    // The byte behind it is the first literal.
    Start,
    // A literal, and the place behind it.
    Literal(u8, usize),
    // No byte is left, or a last 0x2B without a follower.
    End,
}

pub fn met_at(bytes: &[u8], at: usize) -> Met
    ensures { result ≡ met_at bytes.now at }
{
    if at >= bytes.len() {
        return Met::End;
    }
    let byte = bytes[at];
    let behind = at + 1;
    if byte != PLUS {
        return Met::Literal(byte, behind);
    }
    if behind >= bytes.len() {
        return Met::End;
    }
    if bytes[behind] != PLUS {
        return Met::Start;
    }
    Met::Literal(PLUS, at + 2)
}
