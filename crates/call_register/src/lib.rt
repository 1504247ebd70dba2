// The gate registers its tables: a reset with a list that was looked at over the memory.
#![tactic(auto)]

ghost use Rattle.std.specs.Prelude.{◌≡◌, ◌≤◌, length};
ghost use Rattle.std.proofs.lemmas.List.Edits.{sets};
ghost use Rattle.tables_state.specs.State.{list_length, registered_list};
ghost use Rattle.state_parts.specs.Bounds.{fresh_with};
ghost use Rattle.state_block.specs.Places.{state_length};
ghost use Rattle.state_block.specs.Layout.{encoded};
ghost use Rattle.codes_table.specs.Calls.{taken_number};
ghost use Rattle.call_register.specs.Promises.{register_number, RegisterDone};

use bytes_fields::clear;
use codes_table::{Refusal, TAKEN};
use memory_ranges::{MEMORY_END, copy_in};
use state_block::{LIST, STATE_LENGTH, TABLES, is_long_enough};
use tables_lists::is_list_good;
use tables_state::PAIR;

fn register_refusal(state: &[u8], memory: &[u8], list: &[u8]) -> Result<(), Refusal>
    ensures { taken_number result ≡ register_number state.now memory.now list.now }
{
    if !is_long_enough(state) {
        return Err(Refusal::State);
    }
    if memory.len() != MEMORY_END {
        return Err(Refusal::Memory);
    }
    if is_list_good(memory, list) {
        Ok(())
    } else {
        Err(Refusal::List)
    }
}

// Zeros, the count, the list, and zeros behind it.
fn reset_with(state: &mut [u8], list: &[u8])
    requires { (state_length ≤ length state.old) × (length list.now ≤ list_length) }
    ensures { state.new ≡ sets state.old 0 (encoded (fresh_with (registered_list list.now))) }
{
    clear(state, 0, TABLES);
    state[TABLES] = (list.len() / PAIR) as u8;
    copy_in(state, LIST, list);
    let end = LIST + list.len();
    clear(state, end, STATE_LENGTH - end);
}

pub fn register(state: &mut [u8], memory: &[u8], list: &[u8]) -> u8
    ensures { RegisterDone state.old memory.now list.now result state.new }
{
    if let Err(refusal) = register_refusal(state, memory, list) {
        return u8::from(refusal);
    }
    reset_with(state, list);
    TAKEN
}
