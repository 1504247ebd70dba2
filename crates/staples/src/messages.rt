// The two sides of a line of text: what goes over the wire, and behind a mark what comes back.
ghost use Rattle.std.specs.Prelude.{◌≤◌, length, IfSome};

use script_words::operands::read_bytes;

#[derive(Clone, Copy)]
pub struct Messages<'a> {
    pub given: &'a [u8],
    pub wanted: &'a [u8],
}

// The first side stands from a place on.
pub fn read_messages<'a>(
    line: &[u8],
    from: usize,
    wire: &'a mut [u8],
    expected: &'a mut [u8],
) -> Option<Messages<'a>>
    ensures { IfSome result (λ messages. (length messages.given.now ≤ length wire.old) × (length messages.wanted.now ≤ length expected.old)) }
{
    let back = line.iter().position(|character| *character == b'>')?;
    let given = read_bytes(&line[..back], from, wire)?;
    let wanted = read_bytes(&line[back..], 1, expected)?;
    Some(Messages {
        given: &wire[..given],
        wanted: &expected[..wanted],
    })
}
