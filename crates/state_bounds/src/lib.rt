// The bounds of a target's state, checked where it lies in its block: of the definitions only those that are set up are looked at.
#![tactic(auto)]

ghost use Rattle.std.specs.Prelude.{◌≡◌, true, ◌+◌, ◌≤◌, IfSome, length, get_or, drop};
ghost use Rattle.document.specs.Variables.{definitions_in};
ghost use Rattle.scope_state.specs.State as scope;
ghost use Rattle.recorder_plans.specs.Bounds as plans;
ghost use Rattle.recorder_runs.specs.Bounds.{run_sound};
ghost use Rattle.recorder_state.specs.Bounds as recorder;
ghost use Rattle.state_parts.specs.Bounds as state;
ghost use Rattle.application_state.specs.State as application;
ghost use Rattle.state_block.specs.Layout.{decoded, decoded_scope, decoded_plan, decoded_run, decoded_recorder, decoded_application};
ghost use Rattle.state_block.specs.Places.{definitions_length, trigger_size_place, state_length};
ghost use Rattle.state_bounds.specs.Measured.{measured};

use application_state::{ENDED, MOST_RESULT, WAITING};
use bytes_fields::{DEFINITION_WIDTH, Field};
use codes_table::MOST_DATA_BYTE;
use memory_ranges::{BUFFER_SIZE, MEMORY_END, RECORDED_END};
use recorder_triggers::Trigger;
use state_block::{
    APPLICATION, COUNT, DIVIDER, MODE, POST_TRIGGER, READY, RECORDED, RECORDED_DEFINITIONS, RESULT,
    SAMPLES, SCOPE, SCOPE_DEFINITIONS, SIGN, TABLES, THRESHOLD, TRIGGER_ADDRESS, TRIGGER_SIZE,
    receiver_in, run_in,
};
use tables_state::MOST_TABLES;
use variables_list::MOST_VARIABLES;

// How many bytes so many definitions name, where each has a size and ends at or below a limit.
fn measure(block: &[u8], from: usize, count: usize, limit: usize) -> Option<usize>
    requires { (count ≤ 8) × (from + definitions_length ≤ length block.now) }
    ensures { (result ≡ measured limit (definitions_in true count (drop from block.now))) × IfSome result (λ size. size ≤ 2040) }
{
    let mut sum = 0;
    for k in 0..count {
        let at = from + k * DEFINITION_WIDTH;
        let size = usize::from(block[at]);
        if size == 0 || !memory_ranges::within(u32::at(block, at + 1), size, limit) {
            return None;
        }
        sum += size;
    }
    Some(sum)
}

fn is_scope_sound(block: &[u8]) -> bool
    requires { state_length ≤ length block.now }
    ensures { result ≡ scope.sound (decoded_scope block.now) }
{
    let count = usize::from(block[SCOPE]);
    count <= MOST_VARIABLES && measure(block, SCOPE_DEFINITIONS, count, MEMORY_END).is_some()
}

// The recorded variables, and that so many sets of them go into the buffer.
fn are_recorded_sound(block: &[u8]) -> bool
    requires { state_length ≤ length block.now }
    ensures { result ≡ plans.variables_sound (decoded_plan block.now).samples (decoded_plan block.now).variables }
{
    let count = usize::from(block[RECORDED]);
    if count == 0 || count > MOST_VARIABLES {
        return false;
    }
    match measure(block, RECORDED_DEFINITIONS, count, RECORDED_END) {
        Some(size) => usize::from(u16::at(block, SAMPLES)) * size <= BUFFER_SIZE,
        None => false,
    }
}

#[tactic(auto, unfolding(recorder_plans::specs::Bounds::plan_sound))]
fn is_plan_sound(block: &[u8]) -> bool
    requires { state_length ≤ length block.now }
    ensures { result ≡ plans.plan_sound (decoded_plan block.now) }
{
    u16::at(block, SAMPLES) != 0
        && recorder_plans::is_trigger_sound(Trigger {
            mode: block[MODE],
            size: block[TRIGGER_SIZE],
            sign: block[SIGN],
            address: u32::at(block, TRIGGER_ADDRESS),
            threshold: u32::at(block, THRESHOLD),
        })
        && are_recorded_sound(block)
}

#[tactic(auto, unfolding(recorder_runs::specs::Bounds::run_sound))]
fn is_run_sound(block: &[u8]) -> bool
    requires { (state_length ≤ length block.now) × (get_or block.now trigger_size_place 0 ≤ 4) }
    ensures { result ≡ run_sound (decoded_plan block.now) (decoded_run block.now) }
{
    run_in(block).is_sound(
        u16::at(block, SAMPLES),
        u16::at(block, DIVIDER),
        block[TRIGGER_SIZE],
        u16::at(block, POST_TRIGGER),
    )
}

// While nothing is set up, nothing else is looked at.
#[tactic(auto, unfolding(state_block::specs::Layout::decoded_recorder))]
fn is_recorder_sound(block: &[u8]) -> bool
    requires { state_length ≤ length block.now }
    ensures { result ≡ recorder.sound (decoded_recorder block.now) }
{
    match block[READY] {
        0 => true,
        1 => is_plan_sound(block) && is_run_sound(block),
        _ => false,
    }
}

// What a phase does not look at may be anything.
#[tactic(auto, unfolding(application_state::specs::State::sound, state_block::specs::Layout::decoded_application))]
fn is_application_sound(block: &[u8]) -> bool
    requires { state_length ≤ length block.now }
    ensures { result ≡ application.sound (decoded_application block.now) }
{
    let phase = block[APPLICATION];
    if phase == WAITING {
        let count = block[COUNT];
        return count != 0 && count <= MOST_DATA_BYTE;
    }
    if phase == ENDED {
        return block[RESULT] <= MOST_RESULT;
    }
    phase <= ENDED
}

// Whether every part of the state is within its bounds.
#[tactic(auto, unfolding(state_parts::specs::Bounds::sound, tables_state::specs::State::sound, state_block::specs::Layout::decoded_tables))]
pub fn is_sound(block: &[u8]) -> bool
    requires { state_length ≤ length block.now }
    ensures { result ≡ state.sound (decoded block.now) }
{
    line_bounds::is_sound(receiver_in(block))
        && is_scope_sound(block)
        && is_recorder_sound(block)
        && is_application_sound(block)
        && block[TABLES] <= MOST_TABLES
}
