// A state begun, and looked at: reset, check, and what the calls that take a state refuse.
#![tactic(auto)]

ghost use Rattle.std.specs.Prelude.{◌≡◌};
ghost use Rattle.codes_table.specs.Calls.{taken_number};
ghost use Rattle.document.specs.Calls.{byte_refusal, tick_refusal};
ghost use Rattle.call_checks.specs.Promises.{block_sound, ResetDone, Checked, panel_number, collect_number, report_number};

use application_block::is_collected;
use application_state::MOST_RESULT;
use codes_table::{ANSWER_ROOM, MOST_DATA, Refusal, TAKEN, taken_number};
use memory_ranges::MEMORY_END;
use state_block::is_long_enough;

pub fn reset(state: &mut [u8]) -> u8
    ensures { ResetDone state.old result state.new }
{
    if !is_long_enough(state) {
        return u8::from(Refusal::State);
    }
    state_block::reset(state);
    TAKEN
}

fn is_sound(state: &[u8]) -> bool
    ensures { result ≡ block_sound state.now }
{
    is_long_enough(state) && state_bounds::is_sound(state)
}

// What every call that takes a state refuses first, and a call of the panel alone.
pub fn panel_refusal(state: &[u8]) -> Result<(), Refusal>
    ensures { taken_number result ≡ panel_number state.now }
{
    if is_sound(state) {
        return Ok(());
    }
    Err(Refusal::State)
}

pub fn check(state: &[u8]) -> u8
    ensures { Checked state.now result }
{
    taken_number(panel_refusal(state))
}

// What a byte and a tick refuse first.
pub fn tick_refusal(state: &[u8], memory: &[u8]) -> Result<(), Refusal>
    ensures { taken_number result ≡ tick_refusal (block_sound state.now) memory.now }
{
    panel_refusal(state)?;
    if memory.len() != MEMORY_END {
        return Err(Refusal::Memory);
    }
    Ok(())
}

pub fn byte_refusal(state: &[u8], memory: &[u8], answer: &[u8]) -> Result<(), Refusal>
    ensures { taken_number result ≡ byte_refusal (block_sound state.now) memory.now answer.now }
{
    tick_refusal(state, memory)?;
    if answer.len() < ANSWER_ROOM {
        return Err(Refusal::Room);
    }
    Ok(())
}

pub fn collect_refusal(state: &[u8], out: &[u8]) -> Result<(), Refusal>
    ensures { taken_number result ≡ collect_number state.now out.now }
{
    panel_refusal(state)?;
    if out.len() < MOST_DATA {
        return Err(Refusal::Room);
    }
    Ok(())
}

pub fn report_refusal(state: &[u8], res: u8) -> Result<(), Refusal>
    ensures { taken_number result ≡ report_number state.now res }
{
    panel_refusal(state)?;
    if res > MOST_RESULT {
        return Err(Refusal::Report);
    }
    if !is_collected(state) {
        return Err(Refusal::Report);
    }
    Ok(())
}
