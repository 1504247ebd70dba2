// What is wrong with a setup, line by line of the table.
ghost use Rattle.std.specs.Prelude.{◌≡◌, not, ◌&&◌, [], ◌∷◌, ◌+◌, ◌*◌, ◌≤◌, eqb, ltb, length};
ghost use Rattle.document.specs.Numbers.{is_in};
ghost use Rattle.document.specs.Areas.{may_be_recorded};
ghost use Rattle.document.specs.Variables.{length_given};
ghost use Rattle.document.specs.Plan.{head_width, variables_part, recorder_layout_wrong};
ghost use Rattle.codes_table.specs.Statuses.{outcome_number};
ghost use Rattle.recorder_setups.specs.Setup.{seen_size_wrong, seen_range_wrong, body_status};

use crate::fields::head_width;
use bytes_fields::Field;
use codes_table::Status;
use memory_ranges::{BUFFER_SIZE, RECORDED_END, may_be_recorded, number_at};
use recorder_plans::is_trigger_size;
use variables_definitions::address_width;
use variables_list::is_count_wrong;
use variables_surveys::{Surveyed, is_whole, survey};

// Too short for the fields before the count, or not as long as the count gives.
fn is_length_wrong(ex: bool, body: &[u8]) -> bool
    ensures { result ≡ not (eqb (length body.now) (head_width ex + length_given ex (variables_part ex body.now))) }
{
    let head = head_width(ex);
    body.len() < head || !is_whole(&body[head..], ex)
}

fn is_layout_wrong(ex: bool, body: &[u8]) -> bool
    ensures { result ≡ recorder_layout_wrong ex body.now }
{
    if is_length_wrong(ex, body) {
        return true;
    }
    match body[0] {
        0 => false,
        1 | 2 => body[8 + address_width(ex)] > 1,
        _ => true,
    }
}

fn do_sets_overflow(samples: u16, size: usize) -> bool
    requires { size ≤ 2040 }
    ensures { result ≡ ltb 4096 (samples * size) }
{
    usize::from(samples) * size > BUFFER_SIZE
}

fn is_trigger_size_wrong(mode: u8, size: u8) -> bool
    ensures { result ≡ not (eqb mode 0) && not (is_in size (1 ∷ 2 ∷ 4 ∷ [])) }
{
    mode != 0 && !is_trigger_size(size)
}

// Of variables whose count is right.
fn is_size_wrong(ex: bool, body: &[u8], seen: Surveyed) -> bool
    requires { (head_width ex ≤ length body.now) × (seen.size ≤ 2040) }
    ensures { result ≡ seen_size_wrong ex body.now seen }
{
    let samples = u16::at(body, 1);
    seen.zero
        || samples == 0
        || do_sets_overflow(samples, seen.size)
        || is_trigger_size_wrong(body[0], body[7 + address_width(ex)])
}

fn is_trigger_range_wrong(mode: u8, address: u32, size: u8) -> bool
    ensures { result ≡ not (eqb mode 0) && not (may_be_recorded address size) }
{
    mode != 0 && !may_be_recorded(address, usize::from(size))
}

fn is_range_wrong(ex: bool, body: &[u8], seen: Surveyed) -> bool
    requires { head_width ex ≤ length body.now }
    ensures { result ≡ seen_range_wrong ex body.now seen }
{
    let width = address_width(ex);
    !seen.within || is_trigger_range_wrong(body[0], number_at(body, 7, width), body[7 + width])
}

// Any data part will do.
#[tactic(auto, using(crate::proofs::SetUps::tail_part, crate::proofs::SetUps::count_at, crate::proofs::SetUps::range_seen))]
pub fn setup_status(ex: bool, body: &[u8]) -> Result<(), Status>
    ensures { outcome_number result ≡ body_status ex body.now }
{
    if is_layout_wrong(ex, body) {
        return Err(Status::LayoutWrong);
    }
    let head = head_width(ex);
    if is_count_wrong(body[head]) {
        return Err(Status::SizeWrong);
    }
    let seen = survey(&body[head..], ex, RECORDED_END);
    if is_size_wrong(ex, body, seen) {
        return Err(Status::SizeWrong);
    }
    if is_range_wrong(ex, body, seen) {
        return Err(Status::RangeWrong);
    }
    Ok(())
}
