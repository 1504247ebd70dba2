// From a block to the state that it is. Who asks has seen that the block is long enough: one question says whether it is.
ghost use Rattle.std.specs.Prelude.{◌≡◌, true, ◌+◌, ◌≤◌, leb, length, drop};
ghost use Rattle.document.specs.Variables.{definition_width, definition_in};
ghost use Rattle.document.specs.Recorder.{is_running};
ghost use Rattle.recorder_state.specs.State.{recorder_of};
ghost use Rattle.state_block.specs.Layout.{decoded_receiver, decoded_definitions, decoded_variables, decoded_plan, decoded_run, decoded_recorder};
ghost use Rattle.state_block.specs.Places.{definitions_length, variables_length, state_length};

use crate::places::{
    DIVIDER, FULL, MODE, PLACE, POST_TRIGGER, READY, RECORDED, RUNNING, SAMPLES, SIGN,
    STATE_LENGTH, THRESHOLD, TRIGGER_ADDRESS, TRIGGER_SIZE, VALUE, WAIT, WATCH,
};
use bytes_fields::{DEFINITION_WIDTH, Field};
use variables_list::MOST_VARIABLES;

pub fn is_long_enough(block: &[u8]) -> bool
    ensures { result ≡ leb state_length (length block.now) }
{
    STATE_LENGTH <= block.len()
}

#[tactic(auto, unfolding(crate::specs::Layout::decoded_receiver))]
pub fn receiver_in(block: &[u8]) -> line_receiver::Receiver
    requires { state_length ≤ length block.now }
    ensures { result ≡ decoded_receiver block.now }
{
    line_receiver::Receiver {
        waiting: block[0],
        phase: block[1],
        command: block[2],
        length: block[3],
        have: block[4],
        sum: block[5],
    }
}

fn definition_at(block: &[u8], at: usize) -> document::Variable
    requires { at + definition_width true ≤ length block.now }
    ensures { result ≡ definition_in true (drop at block.now) }
{
    document::Variable {
        address: u32::at(block, at + 1),
        size: block[at],
    }
}

fn definitions_at(block: &[u8], from: usize) -> [document::Variable; MOST_VARIABLES]
    requires { from + definitions_length ≤ length block.now }
    ensures { result ≡ decoded_definitions block.now from }
{
    let mut list = [document::Variable {
        address: 0,
        size: 0,
    }; MOST_VARIABLES];
    for k in 0..MOST_VARIABLES {
        list[k] = definition_at(block, from + k * DEFINITION_WIDTH);
    }
    list
}

fn variables_at(block: &[u8], at: usize) -> variables_list::Variables
    requires { at + variables_length ≤ length block.now }
    ensures { result ≡ decoded_variables block.now at }
{
    variables_list::Variables {
        count: block[at],
        list: definitions_at(block, at + 1),
    }
}

pub fn plan_in(block: &[u8]) -> recorder_plans::Plan
    requires { state_length ≤ length block.now }
    ensures { result ≡ decoded_plan block.now }
{
    recorder_plans::Plan {
        samples: u16::at(block, SAMPLES),
        post_trigger: u16::at(block, POST_TRIGGER),
        divider: u16::at(block, DIVIDER),
        mode: block[MODE],
        size: block[TRIGGER_SIZE],
        sign: block[SIGN],
        address: u32::at(block, TRIGGER_ADDRESS),
        threshold: u32::at(block, THRESHOLD),
        variables: variables_at(block, RECORDED),
    }
}

pub fn run_in(block: &[u8]) -> recorder_runs::Run
    requires { state_length ≤ length block.now }
    ensures { result ≡ decoded_run block.now }
{
    recorder_runs::Run {
        running: block[RUNNING],
        full: block[FULL],
        watch: block[WATCH],
        wait: u16::at(block, WAIT),
        place: u16::at(block, PLACE),
        value: u32::at(block, VALUE),
    }
}

#[tactic(auto, unfolding(crate::specs::Layout::decoded_recorder))]
pub fn recorder_in(block: &[u8]) -> recorder_state::Recorder
    requires { state_length ≤ length block.now }
    ensures { result ≡ decoded_recorder block.now }
{
    recorder_state::Recorder {
        ready: block[READY],
        plan: plan_in(block),
        run: run_in(block),
    }
}

// Whether the recorder runs, of which two bytes tell.
pub fn recorder_runs(block: &[u8]) -> bool
    requires { state_length ≤ length block.now }
    ensures { result ≡ is_running (recorder_of (decoded_recorder block.now)) }
{
    block[READY] != 0 && block[RUNNING] == 1
}
