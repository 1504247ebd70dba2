// The writer of command messages, into just the room that a message takes.
ghost use Rattle.std.specs.Prelude.{◌≡◌, ◌+◌, ◌≤◌, length};
ghost use Rattle.document.specs.Doubling.{stuffed};
ghost use Rattle.document.specs.Message.{length_part, summed, well_formed};
ghost use Rattle.line_wire.specs.Outcome.{written_of};
ghost use Rattle.line_wire.specs.Put.{Put};
ghost use Rattle.line_commands.specs.CommandWritten.{CommandWritten};

use codes_table::{FIRST_FAST, Refusal, data_length};
use line_measure::is_short;
use line_wire::Written;
use line_wire::doubling::{PLUS, Progress, put, put_all, put_sum};

// Whether the message can be formed: a command that is no start byte, and as many data as it takes.
fn is_formed(command: u8, body: &[u8]) -> bool
    ensures { result ≡ well_formed (summed command body.now) }
{
    if command == PLUS {
        return false;
    }
    match data_length(command) {
        None => body.len() <= 255,
        Some(n) => body.len() == usize::from(n),
    }
}

// A standard command has a length byte.
fn put_length(from: Progress, command: u8, body: &[u8], out: &mut [u8]) -> Progress
    requires { (length body.now ≤ 255) × (from.at + length (stuffed (length_part command body.now)) ≤ length out.old) }
    ensures { Put from (length_part command body.now) out.old result out.new }
{
    if command < FIRST_FAST {
        return put(from, body.len() as u8, out);
    }
    from
}

fn written_in(command: u8, body: &[u8], out: &mut [u8]) -> Result<usize, Refusal>
    ensures { CommandWritten command body.now out.old (written_of result) out.new }
{
    if !is_formed(command, body) {
        return Err(Refusal::Form);
    }
    if is_short(command, body, out.len()) {
        return Err(Refusal::Room);
    }
    out[0] = PLUS;
    out[1] = command;
    let front = Progress {
        at: 2,
        sum: command,
    };
    let before = put_length(front, command, body, out);
    let behind = put_all(before, body, out);
    Ok(put_sum(behind, out))
}

pub fn write_command(command: u8, body: &[u8], out: &mut [u8]) -> Written
    ensures { CommandWritten command body.now out.old result out.new }
{
    Written::from(written_in(command, body, out))
}
