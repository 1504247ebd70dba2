// A recorder prepared from data that are lent beside the block, as the front panel gives them: addresses have two bytes.
#![tactic(auto)]

ghost use Rattle.std.specs.Prelude.{◌≡◌, false, ◌≤◌, length};
ghost use Rattle.document.specs.Numbers.{done};
ghost use Rattle.recorder_setups.specs.Setup.{body_status};
ghost use Rattle.recorder_state.specs.Preparing.{prepared_state};
ghost use Rattle.state_block.specs.Changes.{block_with_recorder};
ghost use Rattle.state_block.specs.Places.{state_length};

use recorder_setups::{head_width, read_plan};
use state_block::RECORDED;
use state_setups::{prepare_run, store_numbers, store_variables};

pub fn store_given(block: &mut [u8], setup: &[u8])
    requires { (state_length ≤ length block.old) × (body_status false setup.now ≡ done) }
    ensures { block.new ≡ block_with_recorder block.old (prepared_state false setup.now) }
{
    let plan = read_plan(false, setup);
    store_numbers(block, plan);
    let from = head_width(false);
    store_variables(block, RECORDED, &setup[from..], false);
    prepare_run(block);
}
