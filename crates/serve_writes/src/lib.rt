// Writes, plain and masked. Payload and mask are handed on as parts of the message's data.
#![tactic(auto)]

ghost use Rattle.std.specs.Prelude.{◌≡◌, ℕ, ◌+◌, ◌*◌, ◌≤◌, length, MatchResult};
ghost use Rattle.codes_table.specs.Statuses.{outcome_number};
ghost use Rattle.document.specs.Areas.{memory_end};
ghost use Rattle.document.specs.Stores.{mask_stored};
ghost use Rattle.document.specs.Commands.{served};
ghost use Rattle.document.specs.Fields.{size_field};
ghost use Rattle.document.specs.Gate.{Gate};
ghost use Rattle.document.specs.declared.Operation.TheVariants.{Write, WriteMasked};
ghost use Rattle.document_outcomes.specs.Known.{known_as};
ghost use Rattle.serve_fields.specs.Found.{OwnFits};
ghost use Rattle.serve_writes.specs.WriteStatus.{write_status, IsWritten, IsUnwritten};
ghost use Rattle.serve_writes.specs.Wrote.{Wrote};

use bytes_fields::Field;
use codes_table::Status;
use document::Service;
use memory_masks::{store_masked, store_masked_word};
use memory_ranges::{copy_in, may_be_written};
use serve_fields::{Fields, block_in};

// The one place where a write asks for permission; the stores behind it ask nothing.
fn write_status(block: Fields) -> Result<(), Status>
    ensures { (g : Gate) → outcome_number result ≡ write_status g block }
{
    if !may_be_written(block.address, block.size) {
        return Err(Status::RangeWrong);
    }
    Ok(())
}

// Behind the address stand data, or data and mask.
fn range_in(service: Service, body: &[u8], parts: usize) -> Result<Fields, Status>
    requires { (parts ≤ 2) × OwnFits service parts body.now }
    ensures { (n : ℕ) → n ≡ parts * size_field service body.now → MatchResult result (IsWritten service body.now n) (IsUnwritten service body.now n) }
{
    let block = block_in(service, body, parts)?;
    write_status(block)?;
    Ok(block)
}

pub fn write(service: Service, body: &[u8], memory: &mut [u8]) -> Result<(), Status>
    requires { OwnFits service 1 body.now × (length memory.old ≡ memory_end) }
    ensures { (g : Gate) → g.memory ≡ memory.old → Wrote (served g (known_as Write service) body.now) (outcome_number result) memory.new }
{
    let block = range_in(service, body, 1)?;
    let at = block.address as usize;
    let from = block.place;
    let to = from + block.size;
    copy_in(memory, at, &body[from..to]);
    Ok(())
}

// A word has its own form; everything else goes byte by byte.
fn mix(memory: &mut [u8], at: usize, values: &[u8], masks: &[u8])
    requires { (at + length values.now ≤ length memory.old) × (length masks.now ≡ length values.now) }
    ensures { memory.new ≡ mask_stored memory.old at values.now masks.now }
{
    if values.len() == 2 {
        let value = u16::at(values, 0);
        let mask = u16::at(masks, 0);
        store_masked_word(memory, at, value, mask);
    } else {
        store_masked(memory, at, values, masks);
    }
}

pub fn write_masked(service: Service, body: &[u8], memory: &mut [u8]) -> Result<(), Status>
    requires { OwnFits service 2 body.now × (length memory.old ≡ memory_end) }
    ensures { (g : Gate) → g.memory ≡ memory.old → Wrote (served g (known_as WriteMasked service) body.now) (outcome_number result) memory.new }
{
    let block = range_in(service, body, 2)?;
    let at = block.address as usize;
    let from = block.place;
    let to = from + block.size;
    let end = to + block.size;
    mix(memory, at, &body[from..to], &body[to..end]);
    Ok(())
}
