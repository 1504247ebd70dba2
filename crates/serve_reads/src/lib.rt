// Reads: 1, 2 or 4 bytes at an address, a block, or the length of a string.
#![tactic(auto)]

mod measuring;

ghost use Rattle.std.specs.Prelude.{◌≡◌, ◌≤◌, length, MatchResult};
ghost use Rattle.codes_table.specs.Statuses.{status_number, outcome_number};
ghost use Rattle.document.specs.Numbers.{answer_room};
ghost use Rattle.document.specs.Areas.{memory_end};
ghost use Rattle.document.specs.Commands.{served};
ghost use Rattle.document.specs.Gate.{Gate};
ghost use Rattle.document.specs.Refusals.{first_of, read_lines};
ghost use Rattle.document.specs.declared.Operation.TheVariants.{Read};
ghost use Rattle.document_outcomes.specs.Known.{known_as};
ghost use Rattle.line_wire.specs.Told.{Told};
ghost use Rattle.serve_fields.specs.Found.{OwnFits};
ghost use Rattle.serve_reads.specs.ReadStatus.{read_status, IsRead};

use codes_table::{MOST_DATA, Status};
use document::Service;
pub use measuring::measure_string;
use memory_ranges::may_be_read;
use serve_answers::{done_with, status_alone};
use serve_fields::{Fields, block_in};

// What a read asks of the range that its fields give.
fn read_status(block: Fields) -> Result<(), Status>
    ensures { outcome_number result ≡ read_status block }
{
    if block.size > MOST_DATA {
        return Err(Status::AnswerTooLong);
    }
    if !may_be_read(block.address, block.size) {
        return Err(Status::RangeWrong);
    }
    Ok(())
}

fn range_in(service: Service, body: &[u8]) -> Result<Fields, Status>
    requires { OwnFits service 0 body.now }
    ensures { MatchResult result (IsRead service body.now) (λ status. status_number status ≡ first_of (read_lines service body.now)) }
{
    let block = block_in(service, body, 0)?;
    read_status(block)?;
    Ok(block)
}

pub fn read(service: Service, body: &[u8], memory: &[u8], out: &mut [u8]) -> usize
    requires { OwnFits service 0 body.now × (length memory.now ≡ memory_end) × (answer_room ≤ length out.old) }
    ensures { (g : Gate) → g.memory ≡ memory.now → Told (served g (known_as Read service) body.now).answer out.old result out.new }
{
    match range_in(service, body) {
        Ok(block) => {
            let from = block.address as usize;
            let to = from + block.size;
            done_with(&memory[from..to], out)
        }
        Err(status) => status_alone(u8::from(status), out),
    }
}
