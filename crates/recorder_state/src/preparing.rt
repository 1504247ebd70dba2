// The recorder prepared: the first refusal that applies.
ghost use Rattle.std.specs.Prelude.{◌≡◌};
ghost use Rattle.codes_table.specs.Statuses.{outcome_number};
ghost use Rattle.recorder_state.specs.Preparing.{prepare_status};

use codes_table::Status;

// Any data part will do. Of the recorder only whether it runs is asked, so that nobody takes a whole one out of the block for it.
#[tactic(auto, unfolding(crate::specs::Preparing::prepare_status))]
pub fn prepare_status(running: bool, ex: bool, body: &[u8]) -> Result<(), Status>
    ensures { outcome_number result ≡ prepare_status running ex body.now }
{
    if running {
        return Err(Status::Busy);
    }
    recorder_setups::setup_status(ex, body)
}
