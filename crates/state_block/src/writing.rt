// From a state to its block. Who asks has seen that the block is long enough; bytes of other fields keep their values.
ghost use Rattle.std.specs.Prelude.{◌≡◌, ◌≤◌, length};
ghost use Rattle.std.proofs.lemmas.List.Edits.{sets};
ghost use Rattle.state_parts.specs.Bounds.{fresh};
ghost use Rattle.state_block.specs.Layout.{encoded_receiver, encoded_ring, encoded_trigger, encoded_numbers, encoded_flags, encoded_counts, encoded_run, encoded};
ghost use Rattle.state_block.specs.Places.{receiver_length, plan_place, trigger_address_place, run_place, wait_place, state_length};

use crate::places::{
    DIVIDER, FULL, MODE, PLACE, POST_TRIGGER, RUNNING, SAMPLES, SIGN, STATE_LENGTH, THRESHOLD,
    TRIGGER_ADDRESS, TRIGGER_SIZE, VALUE, WAIT, WATCH,
};
use bytes_fields::{Field, clear, put_head};

#[tactic(auto, unfolding(crate::specs::Layout::encoded_receiver))]
pub fn put_receiver(block: &mut [u8], r: line_receiver::Receiver)
    requires { receiver_length ≤ length block.old }
    ensures { block.new ≡ sets block.old 0 (encoded_receiver r) }
{
    let head = [r.waiting, r.phase, r.command, r.length, r.have, r.sum];
    put_head(block, head);
}

// The plan's numbers, in front of its variables.
pub fn put_numbers(block: &mut [u8], plan: recorder_plans::Plan)
    requires { state_length ≤ length block.old }
    ensures { block.new ≡ sets block.old plan_place (encoded_numbers plan) }
{
    block[MODE] = plan.mode;
    plan.samples.put(block, SAMPLES);
    plan.post_trigger.put(block, POST_TRIGGER);
    plan.divider.put(block, DIVIDER);
    plan.address.put(block, TRIGGER_ADDRESS);
    block[TRIGGER_SIZE] = plan.size;
    block[SIGN] = plan.sign;
    plan.threshold.put(block, THRESHOLD);
}

// What a tick changes.
#[tactic(auto, unfolding(crate::specs::Layout::encoded_run))]
pub fn put_run(block: &mut [u8], run: recorder_runs::Run)
    requires { state_length ≤ length block.old }
    ensures { block.new ≡ sets block.old run_place (encoded_run run) }
{
    block[RUNNING] = run.running;
    block[FULL] = run.full;
    block[WATCH] = run.watch;
    run.wait.put(block, WAIT);
    run.place.put(block, PLACE);
    run.value.put(block, VALUE);
}

// The state at reset is all zeros: an idle link, and nothing set up.
pub fn reset(block: &mut [u8])
    requires { state_length ≤ length block.old }
    ensures { block.new ≡ sets block.old 0 (encoded fresh) }
{
    clear(block, 0, STATE_LENGTH);
}
