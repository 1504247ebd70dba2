// The recorder's commands.
ghost use Rattle.std.specs.Prelude.{◌≡◌, cond, List, ◌++◌, ℕ, ◌≤◌, eqb, length};
ghost use Rattle.std.proofs.lemmas.List.Edits.{sets};
ghost use Rattle.document.specs.Areas.{buffer_begin};
ghost use Rattle.document.specs.Numbers.{answer_room, done};
ghost use Rattle.document.specs.Values.{little_endian};
ghost use Rattle.document.specs.Variables.{address_width};
ghost use Rattle.document.specs.Recorder.{is_running};
ghost use Rattle.document.specs.Commands.{served};
ghost use Rattle.document.specs.declared.Operation.TheVariants.{PrepareAndStart, Start, Stop, Status as StatusAsked, QueryBuffer};
ghost use Rattle.document.specs.declared.Service.{Service};
ghost use Rattle.document_outcomes.specs.Known.{known_as};
ghost use Rattle.codes_table.specs.Statuses.{status_number, outcome_number};
ghost use Rattle.line_wire.specs.Told.{Told};
ghost use Rattle.recorder_state.specs.State.{recorder_of};
ghost use Rattle.recorder_state.specs.Preparing.{prepare_status, prepared_state};
ghost use Rattle.state_parts.specs.State.{gate_of, with_recorder};
ghost use Rattle.state_byte.specs.After.{instruments_after};
ghost use Rattle.state_block.specs.Places.{body_place, scope_place, state_length};
ghost use Rattle.state_block.specs.Layout.{data_to, decoded_recorder, decoded_instruments, encoded_instruments};
ghost use Rattle.serve_recorder.specs.Operates.{status_alone, Settles};

use codes_table::Status;
use document::Service;
use memory_ranges::BUFFER_BEGIN;
use recorder_state::prepare_status;
use serve_answers::{done_words, status_alone};
use state_block::{BODY, put_run, recorder_in, recorder_runs};
use state_setups::store_prepared;

// The message's data stand in the block, up to a place. What is refused stores nothing.
fn prepare(state: &mut [u8], ex: bool, to: usize) -> Result<(), Status>
    requires { (state_length ≤ length state.old) × (body_place ≤ to) × (to ≤ scope_place) }
    ensures { (outcome_number result ≡ prepare_status (is_running (recorder_of (decoded_recorder state.old))) ex (data_to state.old to)) × (state.new ≡ cond (eqb (outcome_number result) done) (sets state.old scope_place (encoded_instruments (with_recorder (decoded_instruments state.old) (prepared_state ex (data_to state.old to))))) state.old) }
{
    prepare_status(recorder_runs(state), ex, &state[BODY..to])?;
    store_prepared(state, ex, to);
    Ok(())
}

// The two in a row.
pub fn prepare_and_start(state: &mut [u8], service: Service, to: usize) -> Result<(), Status>
    requires { (state_length ≤ length state.old) × (body_place ≤ to) × (to ≤ scope_place) }
    ensures { (memory : List ℕ) → Settles (served (gate_of (decoded_instruments state.old) memory) (known_as PrepareAndStart service) (data_to state.old to)) (instruments_after PrepareAndStart (decoded_instruments state.old) service (data_to state.old to)) state.old (outcome_number result) state.new memory }
{
    prepare(state, service.ex, to)?;
    start(state)
}

// A start and a stop leave the plan as it is, and what is refused stores nothing. They are not one function that takes what is
// done: its clauses on a closure would be longer than the two.
pub fn start(state: &mut [u8]) -> Result<(), Status>
    requires { state_length ≤ length state.old }
    ensures { (memory : List ℕ) (s : Service) (body : List ℕ) → Settles (served (gate_of (decoded_instruments state.old) memory) (known_as Start s) body) (instruments_after Start (decoded_instruments state.old) s body) state.old (outcome_number result) state.new memory }
{
    let mut recorder = recorder_in(state);
    recorder.start()?;
    put_run(state, recorder.run);
    Ok(())
}

pub fn stop(state: &mut [u8]) -> Result<(), Status>
    requires { state_length ≤ length state.old }
    ensures { (memory : List ℕ) (s : Service) (body : List ℕ) → Settles (served (gate_of (decoded_instruments state.old) memory) (known_as Stop s) body) (instruments_after Stop (decoded_instruments state.old) s body) state.old (outcome_number result) state.new memory }
{
    let mut recorder = recorder_in(state);
    recorder.stop()?;
    put_run(state, recorder.run);
    Ok(())
}

pub fn status(state: &[u8]) -> Status
    requires { state_length ≤ length state.now }
    ensures { (memory : List ℕ) (s : Service) (body : List ℕ) → status_alone (status_number result) ≡ (served (gate_of (decoded_instruments state.now) memory) (known_as StatusAsked s) body).answer }
{
    recorder_in(state).status()
}

pub fn query_buffer(state: &[u8], service: Service, out: &mut [u8]) -> usize
    requires { (state_length ≤ length state.now) × (answer_room ≤ length out.old) }
    ensures { (memory : List ℕ) (body : List ℕ) → Told (served (gate_of (decoded_instruments state.now) memory) (known_as QueryBuffer service) body).answer out.old result out.new }
{
    match recorder_in(state).query() {
        Ok(index) => buffer_from(service.ex, index, out),
        Err(status) => status_alone(u8::from(status), out),
    }
}

// Where the buffer begins, in two words or one, and the index of its oldest set.
fn buffer_from(ex: bool, index: u16, out: &mut [u8]) -> usize
    requires { answer_room ≤ length out.old }
    ensures { Told (record { status = done; body = little_endian (address_width ex) buffer_begin ++ little_endian 2 index }) out.old result out.new }
{
    if ex {
        return done_words(&[BUFFER_BEGIN as u16, 0, index], out);
    }
    done_words(&[BUFFER_BEGIN as u16, index], out)
}
