// The fields of a read or a write, as they stand in the message's data.
#![tactic(auto)]

ghost use Rattle.std.specs.Prelude.{◌≡◌, ℕ, ◌+◌, ◌-◌, ◌*◌, ◌≤◌, ◌<◌, length, MatchResult};
ghost use Rattle.codes_table.specs.Statuses.{status_number, outcome_number};
ghost use Rattle.document.specs.Areas.{bytes_at};
ghost use Rattle.document.specs.Values.{number};
ghost use Rattle.document.specs.Fields.{size_field, address_place};
ghost use Rattle.document.specs.Refusals.{first_of};
ghost use Rattle.serve_fields.specs.Found.{own_lines, own_status, OwnFits, AreFields};

use codes_table::Status;
use document::Service;
use variables_definitions::address_width;

// Where in the memory a read or a write goes, how many bytes, and where in the message the data begin.
#[derive(Clone, Copy)]
pub struct Fields {
    pub address: u32,
    pub size: usize,
    pub place: usize,
}

// The command's own size, or the one that the data begin with.
fn size_in(service: Service, body: &[u8]) -> usize
    ensures { (result ≡ size_field service body.now) × (result < 256) }
{
    match service.size {
        0 => body.first().map_or(0, |size| usize::from(*size)),
        size => usize::from(size),
    }
}

fn address_place(service: Service) -> usize
    ensures { (result ≡ address_place service) × (result ≤ 1) }
{
    usize::from(service.size == 0)
}

// Who asks knows that the data reach behind the address.
fn address_in(body: &[u8], from: usize, to: usize) -> u32
    requires { (from ≤ to) × (to ≤ from + 4) × (to ≤ length body.now) }
    ensures { result ≡ number (bytes_at body.now from (to - from)) }
{
    memory_ranges::number(&body[from..to])
}

// A command with a size of its own has the length that its code gives.
fn own_status(service: Service, size: usize, length: usize, given: usize) -> Result<(), Status>
    ensures { outcome_number result ≡ own_status service size length given }
{
    if service.size != 0 {
        return Ok(());
    }
    if length != given {
        return Err(Status::LayoutWrong);
    }
    if size == 0 {
        return Err(Status::SizeWrong);
    }
    Ok(())
}

// Behind the address stand so many parts of the access's size: none, data, or data and mask.
pub fn block_in(service: Service, body: &[u8], parts: usize) -> Result<Fields, Status>
    requires { (parts ≤ 2) × OwnFits service parts body.now }
    ensures { (n : ℕ) → n ≡ parts * size_field service body.now → MatchResult result (AreFields service body.now n) (λ status. status_number status ≡ first_of (own_lines service body.now n)) }
{
    let size = size_in(service, body);
    let from = address_place(service);
    let place = from + address_width(service.ex);
    own_status(service, size, body.len(), place + parts * size)?;
    Ok(Fields {
        address: address_in(body, from, place),
        size,
        place,
    })
}
