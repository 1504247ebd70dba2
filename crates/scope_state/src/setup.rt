// The scope's setup: the first refusal that applies.
ghost use Rattle.std.specs.Prelude.{◌≡◌};
ghost use Rattle.codes_table.specs.Statuses.{outcome_number};
ghost use Rattle.scope_state.specs.Setup.{set_up_status};

use codes_table::Status;

// Any data part will do.
#[tactic(auto, using(variables_list::proofs::Wrong::count_right), unfolding(crate::specs::Setup::set_up_status))]
pub fn set_up_status(ex: bool, body: &[u8]) -> Result<(), Status>
    ensures { outcome_number result ≡ set_up_status ex body.now }
{
    if !variables_surveys::is_whole(body, ex) {
        return Err(Status::LayoutWrong);
    }
    if variables_list::is_count_wrong(body[0]) {
        return Err(Status::SizeWrong);
    }
    let seen = variables_surveys::survey(body, ex, memory_ranges::MEMORY_END);
    if seen.zero {
        return Err(Status::SizeWrong);
    }
    if !seen.within {
        return Err(Status::RangeWrong);
    }
    Ok(())
}
