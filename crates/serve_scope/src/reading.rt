// The scope's reading: 0xC5.
ghost use Rattle.std.specs.Prelude.{◌≡◌, true, List, ℕ, ◌≤◌, length};
ghost use Rattle.codes_table.specs.Statuses.{outcome_number};
ghost use Rattle.document.specs.Areas.{memory_end};
ghost use Rattle.document.specs.Numbers.{answer_room};
ghost use Rattle.document.specs.Commands.{served};
ghost use Rattle.document.specs.declared.Operation.TheVariants.{ReadScope};
ghost use Rattle.document.specs.declared.Service.{Service};
ghost use Rattle.line_wire.specs.Told.{Told};
ghost use Rattle.document_outcomes.specs.Known.{known_as};
ghost use Rattle.scope_state.specs.State.{sound};
ghost use Rattle.scope_state.specs.Read.{read_status};
ghost use Rattle.state_parts.specs.State.{gate_of};
ghost use Rattle.state_block.specs.Places.{state_length};
ghost use Rattle.state_block.specs.Layout.{decoded_scope, decoded_instruments};

use crate::values::put_values;
use codes_table::{DONE, MOST_DATA, Status};
use line_answers::begin;
use line_wire::doubling::put_sum;
use serve_answers::status_alone;
use state_block::{SCOPE, SCOPE_DEFINITIONS};
use variables_sets::set_size;

fn read_status(block: &[u8]) -> Result<(), Status>
    requires { (state_length ≤ length block.now) × (sound (decoded_scope block.now) ≡ true) }
    ensures { outcome_number result ≡ read_status (decoded_scope block.now) }
{
    let count = usize::from(block[SCOPE]);
    if count == 0 {
        return Err(Status::NotSetUp);
    }
    if set_size(block, SCOPE_DEFINITIONS, count) > MOST_DATA {
        return Err(Status::AnswerTooLong);
    }
    Ok(())
}

pub fn read_scope(state: &[u8], memory: &[u8], out: &mut [u8]) -> usize
    requires { (state_length ≤ length state.now) × (sound (decoded_scope state.now) ≡ true) × (length memory.now ≡ memory_end) × (answer_room ≤ length out.old) }
    ensures { (s : Service) (body : List ℕ) → Told (served (gate_of (decoded_instruments state.now) memory.now) (known_as ReadScope s) body).answer out.old result out.new }
{
    match read_status(state) {
        Ok(()) => {
            let front = begin(DONE, out);
            let behind = put_values(state, memory, front, out);
            put_sum(behind, out)
        }
        Err(status) => status_alone(u8::from(status), out),
    }
}
