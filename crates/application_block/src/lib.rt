// The application command where it lies in the block: stored by a 0x10, collected and answered by the gate's own program.
#![tactic(auto)]

ghost use Rattle.std.specs.Prelude.{◌≡◌, true, ◌+◌, ◌≤◌, length};
ghost use Rattle.std.proofs.lemmas.List.Edits.{sets};
ghost use Rattle.document.specs.Numbers.{most_data};
ghost use Rattle.document.specs.Areas.{bytes_at};
ghost use Rattle.document.specs.Application.{is_pending, is_collected};
ghost use Rattle.application_state.specs.State.{application_of, sound, ended_command, sent_command};
ghost use Rattle.state_block.specs.Places.{body_place, command_place, scope_place, state_length};
ghost use Rattle.state_block.specs.Layout.{data_to, decoded_application};
ghost use Rattle.application_block.specs.Stored.{Stored, Collects};

use application_state::{COLLECTED, ENDED, WAITING};
use memory_ranges::copy_in;
use state_block::{APPLICATION, BODY, COMMAND, COUNT, RESULT};

#[tactic(auto, unfolding(state_block::specs::Layout::decoded_application))]
pub fn is_pending(state: &[u8]) -> bool
    requires { state_length ≤ length state.now }
    ensures { result ≡ is_pending (application_of (decoded_application state.now)) }
{
    // A block may hold any byte for the phase, so it is no enum.
    matches!(state[APPLICATION], WAITING | COLLECTED)
}

pub fn is_collected(state: &[u8]) -> bool
    requires { state_length ≤ length state.now }
    ensures { result ≡ is_collected (application_of (decoded_application state.now)) }
{
    state[APPLICATION] == COLLECTED
}

// The message's data to the command's place: both are parts of one block.
fn copy_down(state: &mut [u8], count: usize)
    requires { (state_length ≤ length state.old) × (count ≤ most_data) }
    ensures { state.new ≡ sets state.old command_place (bytes_at state.old body_place count) }
{
    let (front, behind) = state.split_at_mut(COMMAND);
    copy_in(behind, 0, &front[BODY..BODY + count]);
}

// The data of a message stand in the block up to a place.
pub fn send(state: &mut [u8], to: usize)
    requires { (state_length ≤ length state.old) × (body_place ≤ to) × (to ≤ scope_place) }
    ensures { Stored state.old (sent_command (data_to state.old to) (decoded_application state.old)) state.new }
{
    let count = to - BODY;
    state[APPLICATION] = WAITING;
    state[COUNT] = count as u8;
    state[RESULT] = 0;
    copy_down(state, count);
}

// How many bytes the command has; none where nothing is new.
pub fn collect(state: &mut [u8], out: &mut [u8]) -> usize
    requires { (state_length ≤ length state.old) × (sound (decoded_application state.old) ≡ true) × (most_data ≤ length out.old) }
    ensures { Collects state.old out.old result state.new out.new }
{
    if state[APPLICATION] != WAITING {
        return 0;
    }
    let count = usize::from(state[COUNT]);
    copy_in(out, 0, &state[COMMAND..COMMAND + count]);
    state[APPLICATION] = COLLECTED;
    count
}

pub fn report(state: &mut [u8], res: u8)
    requires { state_length ≤ length state.old }
    ensures { Stored state.old (ended_command res (decoded_application state.old)) state.new }
{
    state[APPLICATION] = ENDED;
    state[COUNT] = 0;
    state[RESULT] = res;
}
