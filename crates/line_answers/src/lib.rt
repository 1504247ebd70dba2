// The one way to write an answer: straight into the lent buffer, so that no second copy of it is held.
#![tactic(auto)]

ghost use Rattle.std.specs.Prelude.{◌≡◌, [], ◌≤◌, length};
ghost use Rattle.document.specs.Numbers.{most_data, answer_room};
ghost use Rattle.document.specs.AnswerWriter.{answer_formed};
ghost use Rattle.line_wire.specs.AnswerWritten.{AnswerWritten};
ghost use Rattle.line_wire.specs.Outcome.{written_of};
ghost use Rattle.line_wire.specs.Told.{Telling, Told};

use codes_table::{ANSWER_ROOM, MOST_DATA, NOT_SERVED, RANGE_WRONG, RECORDER_STOPPED, Refusal};
use line_wire::Written;
use line_wire::doubling::{PLUS, Progress, put_all, put_sum};

// Whether the answer can be formed: a known status, few enough data, none beside an error.
fn is_formed(status: u8, body: &[u8]) -> bool
    ensures { result ≡ answer_formed (record { status = status; body = body.now }) }
{
    match status {
        ..=RECORDER_STOPPED => body.len() <= MOST_DATA,
        NOT_SERVED..=RANGE_WRONG => body.is_empty(),
        _ => false,
    }
}

// An answer's front. What is put behind it, and the sum byte, go straight into the lent buffer, each byte doubled and summed as it is
// written; who tells has measured the buffer.
pub fn begin(status: u8, out: &mut [u8]) -> Progress
    requires { answer_room ≤ length out.old }
    ensures { Telling status [] out.old result out.new }
{
    out[0] = PLUS;
    out[1] = status;
    Progress { at: 2, sum: status }
}

// A whole answer whose data stand in one place: how many bytes it takes on the wire.
pub fn tell(status: u8, body: &[u8], out: &mut [u8]) -> usize
    requires { (length body.now ≤ most_data) × (answer_room ≤ length out.old) }
    ensures { Told (record { status = status; body = body.now }) out.old result out.new }
{
    let front = begin(status, out);
    let behind = put_all(front, body, out);
    put_sum(behind, out)
}

fn written_in(status: u8, body: &[u8], out: &mut [u8]) -> Result<usize, Refusal>
    ensures { AnswerWritten (record { status = status; body = body.now }) out.old (written_of result) out.new }
{
    if !is_formed(status, body) {
        return Err(Refusal::Form);
    }
    if out.len() < ANSWER_ROOM {
        return Err(Refusal::Room);
    }
    Ok(tell(status, body, out))
}

pub fn write_answer(status: u8, body: &[u8], out: &mut [u8]) -> Written
    ensures { AnswerWritten (record { status = status; body = body.now }) out.old result out.new }
{
    Written::from(written_in(status, body, out))
}
