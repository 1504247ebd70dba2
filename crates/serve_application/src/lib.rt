// The application command over the line: 0x10 and 0xC6.
#![tactic(auto)]

ghost use Rattle.std.specs.Prelude.{◌≡◌, List, ℕ, ◌≤◌, length};
ghost use Rattle.document.specs.Numbers.{answer_room};
ghost use Rattle.document.specs.Application.{result_byte};
ghost use Rattle.document.specs.Commands.{served};
ghost use Rattle.document.specs.declared.Operation.TheVariants.{SendCommand, CommandResult};
ghost use Rattle.document.specs.declared.Service.{Service};
ghost use Rattle.document_outcomes.specs.Known.{known_as};
ghost use Rattle.codes_table.specs.Statuses.{outcome_number};
ghost use Rattle.line_wire.specs.Told.{Told};
ghost use Rattle.application_state.specs.State.{application_of};
ghost use Rattle.state_parts.specs.State.{gate_of};
ghost use Rattle.state_byte.specs.After.{instruments_after};
ghost use Rattle.state_block.specs.Places.{body_place, scope_place, state_length};
ghost use Rattle.state_block.specs.Layout.{data_to, decoded_application, decoded_instruments};
ghost use Rattle.serve_recorder.specs.Operates.{Settles};

use application_block::{is_pending, send};
use application_state::{NO_COMMAND, NO_RESULT, NONE};
use codes_table::Status;
use serve_answers::done_with;
use state_block::{APPLICATION, BODY, RESULT};

// The message's data stand in the block, up to a place. What is refused stores nothing.
pub fn send_command(state: &mut [u8], to: usize) -> Result<(), Status>
    requires { (state_length ≤ length state.old) × (body_place ≤ to) × (to ≤ scope_place) }
    ensures { (memory : List ℕ) (s : Service) → Settles (served (gate_of (decoded_instruments state.old) memory) (known_as SendCommand s) (data_to state.old to)) (instruments_after SendCommand (decoded_instruments state.old) s (data_to state.old to)) state.old (outcome_number result) state.new memory }
{
    if is_pending(state) {
        return Err(Status::Busy);
    }
    if to == BODY {
        return Err(Status::LayoutWrong);
    }
    send(state, to);
    Ok(())
}

// One byte: whether there was a command, whether its result is in, or the result.
fn result_byte(state: &[u8]) -> u8
    requires { state_length ≤ length state.now }
    ensures { result ≡ result_byte (application_of (decoded_application state.now)) }
{
    if is_pending(state) {
        return NO_RESULT;
    }
    if state[APPLICATION] == NONE {
        return NO_COMMAND;
    }
    state[RESULT]
}

pub fn command_result(state: &[u8], out: &mut [u8]) -> usize
    requires { (state_length ≤ length state.now) × (answer_room ≤ length out.old) }
    ensures { (memory : List ℕ) (s : Service) (body : List ℕ) → Told (served (gate_of (decoded_instruments state.now) memory) (known_as CommandResult s) body).answer out.old result out.new }
{
    done_with(&[result_byte(state)], out)
}
