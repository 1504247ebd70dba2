// The answers that need no more than a status or bytes that stand in one place, and those that ask nothing of the gate.
#![tactic(auto)]

mod words;

ghost use Rattle.std.specs.Prelude.{List, [], ℕ, ◌≤◌, length};
ghost use Rattle.document.specs.Numbers.{most_data, answer_room, done};
ghost use Rattle.document.specs.Gate.{Gate};
ghost use Rattle.document.specs.Commands.{served};
ghost use Rattle.document.specs.declared.Operation.TheVariants.{Describe, DescribeBriefly};
ghost use Rattle.document.specs.declared.Service.{Service};
ghost use Rattle.document_outcomes.specs.Known.{known_as};
ghost use Rattle.line_wire.specs.Told.{Told};

use codes_table::DONE;
use line_answers::tell;
pub use words::done_words;

// A status without data.
pub fn status_alone(status: u8, out: &mut [u8]) -> usize
    requires { answer_room ≤ length out.old }
    ensures { Told (record { status = status; body = [] }) out.old result out.new }
{
    tell(status, &[], out)
}

pub fn done_with(bytes: &[u8], out: &mut [u8]) -> usize
    requires { (length bytes.now ≤ most_data) × (answer_room ≤ length out.old) }
    ensures { Told (record { status = done; body = bytes.now }) out.old result out.new }
{
    tell(DONE, bytes, out)
}

// The gate describes itself: protocol version 3, little-endian, one byte at an address, version 1.0, data of 64 bytes, a
// recorder buffer of 4,096 bytes, a tick each millisecond, and its name in 25 bytes.
const DESCRIPTION: [u8; 35] =
    *b"\x03\x00\x01\x01\x00\x40\x00\x10\x01\x40LOG GATE\0\0\0\0\0\0\0\0\0\0\0\0\0\0\0\0\0";

pub fn describe(out: &mut [u8]) -> usize
    requires { answer_room ≤ length out.old }
    ensures { (g : Gate) (s : Service) (body : List ℕ) → Told (served g (known_as Describe s) body).answer out.old result out.new }
{
    done_with(&DESCRIPTION, out)
}

pub fn describe_briefly(out: &mut [u8]) -> usize
    requires { answer_room ≤ length out.old }
    ensures { (g : Gate) (s : Service) (body : List ℕ) → Told (served g (known_as DescribeBriefly s) body).answer out.old result out.new }
{
    done_with(&DESCRIPTION[..6], out)
}
