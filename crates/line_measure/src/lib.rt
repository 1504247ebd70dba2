// How long a message is on the wire, before a byte of it is written.
#![tactic(auto)]

ghost use Rattle.std.specs.Prelude.{◌≡◌, ◌≤◌, length, ltb};
ghost use Rattle.document.specs.Message.{length_part};
ghost use Rattle.document.specs.CommandWriter.{command_on_wire};
ghost use Rattle.line_wire.specs.Put.{progressed};

use codes_table::FIRST_FAST;
use line_wire::doubling::Progress;
use line_wire::sum::sum_byte;

// The bytes go nowhere: a buffer to write them into is what the caller is to be spared.
fn measured_all(from: Progress, bytes: &[u8]) -> Progress
    requires { (from.at ≤ 4) × (length bytes.now ≤ 255) }
    ensures { result ≡ progressed from bytes.now }
{
    let mut progress = from;
    for byte in bytes {
        progress = progress.behind(*byte);
    }
    progress
}

// A standard command has a length byte.
fn measured_length(from: Progress, command: u8, body: &[u8]) -> Progress
    requires { (from.at ≤ 2) × (length body.now ≤ 255) }
    ensures { result ≡ progressed from (length_part command body.now) }
{
    if command < FIRST_FAST {
        return from.behind(body.len() as u8);
    }
    from
}

fn wire_length(command: u8, body: &[u8]) -> usize
    requires { length body.now ≤ 255 }
    ensures { result ≡ length (command_on_wire command body.now) }
{
    let front = Progress {
        at: 2,
        sum: command,
    };
    let before = measured_length(front, command, body);
    let summed = measured_all(before, body);
    let end = summed.behind(sum_byte(summed.sum));
    end.at
}

// Whether so much room is too little. Where a message of which every byte is doubled would find room, nothing need be measured.
pub fn is_short(command: u8, body: &[u8], room: usize) -> bool
    requires { length body.now ≤ 255 }
    ensures { result ≡ ltb room (length (command_on_wire command body.now)) }
{
    if room >= 2 * body.len() + 6 {
        return false;
    }
    room < wire_length(command, body)
}
