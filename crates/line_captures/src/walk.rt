// One walk over the whole capture.
ghost use Rattle.std.specs.Prelude.{◌≡◌, ◌<◌, length};
ghost use Rattle.line_captures.specs.Walk.{Stepped, Walked};

use crate::messages::Step;
use crate::tokens::Met;
use crate::{entries, messages, tokens};

// Only a start opens a message: "Literals outside a message are dropped."
fn step(bytes: &[u8], at: usize) -> Step
    requires { at < length bytes.now }
    ensures { Stepped bytes.now at result }
{
    let met = tokens::met_at(bytes, at);
    match met {
        Met::Start => messages::opened(bytes, at + 1),
        Met::Literal(_, behind) => Step {
            behind,
            found: None,
        },
        Met::End => Step {
            behind: bytes.len(),
            found: None,
        },
    }
}

// How many messages there are; those for which there is room are listed. A `while`, since each step says where the next one begins.
pub fn walk(bytes: &[u8], list: &mut [u64]) -> usize
    ensures { Walked bytes.now list.old result list.new }
{
    let mut at = 0;
    let mut n = 0;
    while at < bytes.len() {
        let found = step(bytes, at);
        n = entries::listed(list, n, at, found);
        at = found.behind;
    }
    n
}
