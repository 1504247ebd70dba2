// The scope that an accepted setup leaves.
ghost use Rattle.std.specs.Prelude.{◌≡◌, ◌≤◌, length};
ghost use Rattle.document.specs.Numbers.{done};
ghost use Rattle.document.specs.Variables.{variables_in};
ghost use Rattle.variables_list.specs.State.{kept};
ghost use Rattle.scope_state.specs.Setup.{set_up_status};
ghost use Rattle.state_block.specs.Layout.{data_to};
ghost use Rattle.state_block.specs.Changes.{block_with_scope};
ghost use Rattle.state_block.specs.Places.{body_place, scope_place, state_length};

use crate::parts::store_variables;
use state_block::{BODY, SCOPE};

// The message's data stand in the block, up to a place.
pub fn store_scope(block: &mut [u8], ex: bool, to: usize)
    requires { (state_length ≤ length block.old) × (body_place ≤ to) × (to ≤ scope_place) × (set_up_status ex (data_to block.old to) ≡ done) }
    ensures { block.new ≡ block_with_scope block.old (record { variables = kept (variables_in ex (data_to block.old to)) }) }
{
    let (front, behind) = block.split_at_mut(SCOPE);
    store_variables(behind, 0, &front[BODY..to], ex);
}
