// A recorder prepared: the plan of an accepted setup, and a run that has taken no set.
ghost use Rattle.std.specs.Prelude.{◌≡◌, ◌≤◌, length, set};
ghost use Rattle.std.proofs.lemmas.List.Edits.{sets};
ghost use Rattle.document.specs.Numbers.{done};
ghost use Rattle.document.specs.Run.{prepared};
ghost use Rattle.recorder_setups.specs.Setup.{body_status};
ghost use Rattle.recorder_runs.specs.State.{run_kept};
ghost use Rattle.recorder_state.specs.Preparing.{prepared_state};
ghost use Rattle.state_block.specs.Layout.{data_to, encoded_numbers, encoded_run};
ghost use Rattle.state_block.specs.Changes.{block_with_recorder};
ghost use Rattle.state_block.specs.Places.{body_place, scope_place, recorder_place, plan_place, run_place, state_length};

use crate::parts::store_variables;
use recorder_plans::Plan;
use recorder_runs::Run;
use recorder_setups::{head_width, read_plan};
use state_block::{BODY, READY, RECORDED, put_numbers, put_run};

// The plan without its variables, from now on the one that is set up.
pub fn store_numbers(block: &mut [u8], plan: Plan)
    requires { state_length ≤ length block.old }
    ensures { block.new ≡ sets (set block.old recorder_place 1) plan_place (encoded_numbers plan) }
{
    block[READY] = 1;
    put_numbers(block, plan);
}

pub fn prepare_run(block: &mut [u8])
    requires { state_length ≤ length block.old }
    ensures { block.new ≡ sets block.old run_place (encoded_run (run_kept prepared)) }
{
    put_run(block, Run::prepared());
}

// The message's data stand in the block, up to a place.
pub fn store_prepared(block: &mut [u8], ex: bool, to: usize)
    requires { (state_length ≤ length block.old) × (body_place ≤ to) × (to ≤ scope_place) × (body_status ex (data_to block.old to) ≡ done) }
    ensures { block.new ≡ block_with_recorder block.old (prepared_state ex (data_to block.old to)) }
{
    let plan = read_plan(ex, &block[BODY..to]);
    store_numbers(block, plan);
    let from = BODY + head_width(ex);
    let (front, behind) = block.split_at_mut(RECORDED);
    store_variables(behind, 0, &front[from..to], ex);
    prepare_run(block);
}
