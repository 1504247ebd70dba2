// The fields of a block of bytes: numbers lowest byte first, at a width that is known, read and written without a loop.
#![tactic(auto)]

mod fields;

ghost use Rattle.std.specs.Prelude.{◌≡◌, true, [], ◌∷◌, ◌+◌, ◌≤◌, ◌<◌, length, set, replicate};
ghost use Rattle.std.proofs.lemmas.List.Edits.{sets};
ghost use Rattle.document.specs.Areas.{bytes_at};
ghost use Rattle.document.specs.Values.{number, little_endian};
ghost use Rattle.document.specs.Variables.{definition_width};

pub use fields::Field;

// A stored definition: its size, and its address in four bytes, as an EX setup's data part has them.
pub const DEFINITION_WIDTH: usize = 5;

// A definition, where it is stored.
pub fn put_definition(block: &mut [u8], at: usize, size: u8, address: u32)
    requires { at + definition_width true ≤ length block.old }
    ensures { block.new ≡ sets block.old at (size ∷ little_endian 4 address) }
{
    block[at] = size;
    address.put(block, at + 1);
}

// The six bytes with which both a target's block and a reader's begin.
pub fn put_head(block: &mut [u8], head: [u8; 6])
    requires { 6 ≤ length block.old }
    ensures { block.new ≡ sets block.old 0 head }
{
    block[..6].copy_from_slice(&head);
}

pub fn clear(block: &mut [u8], from: usize, n: usize)
    requires { from + n ≤ length block.old }
    ensures { block.new ≡ sets block.old from (replicate n 0) }
{
    block[from..from + n].fill(0);
}
