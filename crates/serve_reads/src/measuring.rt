// The length of a string in memory: 0xD4 and 0xE6.
ghost use Rattle.std.specs.Prelude.{◌≡◌, ◌≤◌, length, MatchResult};
ghost use Rattle.document.specs.Numbers.{answer_room};
ghost use Rattle.document.specs.Areas.{memory_end};
ghost use Rattle.document.specs.Commands.{served};
ghost use Rattle.document.specs.Gate.{Gate};
ghost use Rattle.document.specs.declared.Operation.TheVariants.{MeasureString};
ghost use Rattle.document_outcomes.specs.Known.{known_as};
ghost use Rattle.line_wire.specs.Told.{Told};
ghost use Rattle.serve_reads.specs.Measured.{IsMeasured, IsUnmeasured};

use codes_table::Status;
use document::Service;
use memory_ranges::may_be_read;
use memory_strings::string_length;
use serve_answers::{done_words, status_alone};
use variables_definitions::address_width;

// The message's data are the address. What has no zero before memory's end is no string.
fn measured(service: Service, body: &[u8], memory: &[u8]) -> Result<u16, Status>
    requires { length memory.now ≡ memory_end }
    ensures { (g : Gate) → g.memory ≡ memory.now → MatchResult result (IsMeasured g service body.now) (IsUnmeasured g service body.now) }
{
    if body.len() != address_width(service.ex) {
        return Err(Status::LayoutWrong);
    }
    let address = memory_ranges::number(body);
    if !may_be_read(address, 1) {
        return Err(Status::RangeWrong);
    }
    let from = address as usize;
    let size = string_length(memory, from);
    if from + size == memory.len() {
        return Err(Status::SizeWrong);
    }
    Ok(size as u16)
}

pub fn measure_string(service: Service, body: &[u8], memory: &[u8], out: &mut [u8]) -> usize
    requires { (length memory.now ≡ memory_end) × (answer_room ≤ length out.old) }
    ensures { (g : Gate) → g.memory ≡ memory.now → Told (served g (known_as MeasureString service) body.now).answer out.old result out.new }
{
    match measured(service, body, memory) {
        Ok(size) => done_words(&[size], out),
        Err(status) => status_alone(u8::from(status), out),
    }
}
