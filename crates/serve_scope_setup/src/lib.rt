// The scope's setup, in the block that holds the state: 0x08 and 0x0A.
#![tactic(auto)]

ghost use Rattle.std.specs.Prelude.{List, ℕ, ◌≤◌, length};
ghost use Rattle.document.specs.Commands.{served};
ghost use Rattle.document.specs.declared.Operation.TheVariants.{SetUpScope};
ghost use Rattle.document.specs.declared.Service.{Service};
ghost use Rattle.document_outcomes.specs.Known.{known_as};
ghost use Rattle.codes_table.specs.Statuses.{outcome_number};
ghost use Rattle.state_parts.specs.State.{gate_of};
ghost use Rattle.state_byte.specs.After.{instruments_after};
ghost use Rattle.state_block.specs.Places.{body_place, scope_place, state_length};
ghost use Rattle.state_block.specs.Layout.{data_to, decoded_instruments};
ghost use Rattle.serve_recorder.specs.Operates.{Settles};

use codes_table::Status;
use document::Service;
use scope_state::set_up_status;
use state_block::BODY;
use state_setups::store_scope;

// The message's data stand in the block, up to a place. What is refused stores nothing.
pub fn set_up_scope(state: &mut [u8], service: Service, to: usize) -> Result<(), Status>
    requires { (state_length ≤ length state.old) × (body_place ≤ to) × (to ≤ scope_place) }
    ensures { (memory : List ℕ) → Settles (served (gate_of (decoded_instruments state.old) memory) (known_as SetUpScope service) (data_to state.old to)) (instruments_after SetUpScope (decoded_instruments state.old) service (data_to state.old to)) state.old (outcome_number result) state.new memory }
{
    set_up_status(service.ex, &state[BODY..to])?;
    store_scope(state, service.ex, to);
    Ok(())
}
