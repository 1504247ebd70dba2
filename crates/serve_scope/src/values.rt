// The bytes of the scope's variables, as an answer tells them.
ghost use Rattle.std.specs.Prelude.{◌≡◌, true, ◌+◌, ◌≤◌, length};
ghost use Rattle.document.specs.Areas.{memory_end};
ghost use Rattle.document.specs.Doubling.{stuffed};
ghost use Rattle.document.specs.Variables.{values_of};
ghost use Rattle.line_wire.specs.Put.{Put};
ghost use Rattle.variables_list.specs.State.{variables_of};
ghost use Rattle.scope_state.specs.State.{sound};
ghost use Rattle.state_block.specs.Places.{state_length};
ghost use Rattle.state_block.specs.Layout.{decoded_scope};

use bytes_fields::{DEFINITION_WIDTH, Field};
use line_wire::doubling::{Progress, put_all};
use state_block::{SCOPE, SCOPE_DEFINITIONS};

// In their order, each definition read where it lies.
pub(crate) fn put_values(block: &[u8], memory: &[u8], from: Progress, out: &mut [u8]) -> Progress
    requires { (state_length ≤ length block.now) × (sound (decoded_scope block.now) ≡ true) × (length memory.now ≡ memory_end) × (from.at + length (stuffed (values_of memory.now (variables_of (decoded_scope block.now).variables))) ≤ length out.old) }
    ensures { Put from (values_of memory.now (variables_of (decoded_scope block.now).variables)) out.old result out.new }
{
    let mut progress = from;
    for i in 0..usize::from(block[SCOPE]) {
        let at = SCOPE_DEFINITIONS + i * DEFINITION_WIDTH;
        let start = u32::at(block, at + 1) as usize;
        let end = start + usize::from(block[at]);
        progress = put_all(progress, &memory[start..end], out);
    }
    progress
}
