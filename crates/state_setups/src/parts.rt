// A part of a setup's data, a count and the definitions behind it, stored as the block has them: every address in four bytes, and zeros
// behind the last of up to eight.
ghost use Rattle.std.specs.Prelude.{◌≡◌, true, ◌+◌, ◌-◌, ◌*◌, ◌≤◌, length, set, drop, replicate};
ghost use Rattle.std.proofs.lemmas.List.Edits.{sets};
ghost use Rattle.document.specs.Variables.{definition_width, definitions_in, count_in, variables_in, length_given};
ghost use Rattle.variables_list.specs.State.{kept};
ghost use Rattle.state_block.specs.Layout.{encoded_definitions, encoded_variables};
ghost use Rattle.state_block.specs.Places.{variables_length};

use bytes_fields::{DEFINITION_WIDTH, clear, put_definition};
use memory_ranges::number_at;
use variables_definitions::address_width;
use variables_list::MOST_VARIABLES;

fn store_definitions(block: &mut [u8], at: usize, part: &[u8], n: usize, ex: bool)
    requires { (1 + n * definition_width ex ≤ length part.now) × (at + n * definition_width true ≤ length block.old) }
    ensures { block.new ≡ sets block.old at (encoded_definitions (definitions_in ex n (drop 1 part.now))) }
{
    let width = address_width(ex);
    let mut read = 1;
    for k in 0..n {
        let address = number_at(part, read + 1, width);
        put_definition(block, at + k * DEFINITION_WIDTH, part[read], address);
        read += 1 + width;
    }
}

// The count in front of the definitions, and zeros behind them.
pub fn complete_definitions(block: &mut [u8], at: usize, count: u8)
    requires { (count ≤ 8) × (at + variables_length ≤ length block.old) }
    ensures { block.new ≡ sets (set block.old at count) (at + 1 + count * definition_width true) (replicate ((8 - count) * definition_width true) 0) }
{
    let n = usize::from(count);
    block[at] = count;
    let end = at + 1 + n * DEFINITION_WIDTH;
    clear(block, end, (MOST_VARIABLES - n) * DEFINITION_WIDTH);
}

pub fn store_variables(block: &mut [u8], at: usize, part: &[u8], ex: bool)
    requires { (count_in part.now ≤ 8) × (length_given ex part.now ≤ length part.now) × (at + variables_length ≤ length block.old) }
    ensures { block.new ≡ sets block.old at (encoded_variables (kept (variables_in ex part.now))) }
{
    let count = part[0];
    store_definitions(block, at + 1, part, usize::from(count), ex);
    complete_definitions(block, at, count);
}
