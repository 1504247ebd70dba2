// The front panel's two calls over a block: it prepares the recorder, and starts it. The link is not touched.
#![tactic(auto)]

ghost use Rattle.std.specs.Prelude.{◌≡◌, ◌≤◌, length};
ghost use Rattle.codes_table.specs.Calls.{refusal_number};
ghost use Rattle.codes_table.specs.Statuses.{outcome_number};
ghost use Rattle.document.specs.Numbers.{not_served};
ghost use Rattle.recorder_state.specs.State.{recorder_of};
ghost use Rattle.state_block.specs.Places.{state_length};
ghost use Rattle.state_block.specs.Layout.{decoded_recorder};
ghost use Rattle.call_panel.specs.Promises.{given_status, Prepared, PrepareDone, StartDone};

use call_checks::panel_refusal;
use codes_table::{MOST_DATA, Refusal, Status, TAKEN, outcome_number};
use recorder_state::prepare_status;
use state_block::recorder_runs;
use state_given::store_given;

// Whether the call refused, and what the panel is told: an error where it refused.
#[repr(C)]
#[derive(Clone, Copy)]
pub struct Said {
    pub refusal: u8,
    pub status: u8,
}

// A call that refuses prepares and starts nothing. So that its status alone does not read as success it is 0x81, which neither call
// says when it is taken.
impl From<Refusal> for Said {
    ghost from_gives = { λ refusal said. said ≡ record { refusal = refusal_number refusal; status = not_served } };

    fn from(refusal: Refusal) -> Said {
        Said {
            refusal: u8::from(refusal),
            status: u8::from(Status::NotServed),
        }
    }
}

fn given_status(state: &[u8], setup: &[u8]) -> Result<(), Status>
    requires { state_length ≤ length state.now }
    ensures { outcome_number result ≡ given_status (recorder_of (decoded_recorder state.now)) setup.now }
{
    if setup.len() > MOST_DATA {
        return Err(Status::MessageTooLong);
    }
    prepare_status(recorder_runs(state), false, setup)
}

// A state within its bounds. What is answered with an error stores nothing.
fn prepare_within(state: &mut [u8], setup: &[u8]) -> Result<(), Status>
    requires { state_length ≤ length state.old }
    ensures { Prepared state.old setup.now (outcome_number result) state.new }
{
    given_status(state, setup)?;
    store_given(state, setup);
    Ok(())
}

pub fn prepare(state: &mut [u8], setup: &[u8]) -> Said
    ensures { PrepareDone state.old setup.now result state.new }
{
    match panel_refusal(state) {
        Ok(()) => Said {
            refusal: TAKEN,
            status: outcome_number(prepare_within(state, setup)),
        },
        Err(refusal) => Said::from(refusal),
    }
}

pub fn start(state: &mut [u8]) -> Said
    ensures { StartDone state.old result state.new }
{
    match panel_refusal(state) {
        Ok(()) => Said {
            refusal: TAKEN,
            status: outcome_number(serve_recorder::start(state)),
        },
        Err(refusal) => Said::from(refusal),
    }
}
