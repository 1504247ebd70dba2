// Bytes at which the receiver only counts, or does nothing, passed over in a run.
#![tactic(auto)]

ghost use Rattle.std.specs.Prelude.{◌≡◌, ◌+◌, ◌-◌, ◌%◌, ◌<◌, ◌≤◌, length, drop};
ghost use Rattle.std.proofs.lemmas.List.Edits.{sets};
ghost use Rattle.document.specs.Sum.{total};
ghost use Rattle.state_byte.specs.Quiet.{plain_ahead, last_kept, data_ahead};
ghost use Rattle.state_block.specs.Places.{state_length};
ghost use Rattle.state_block.specs.Layout.{decoded, encoded};
ghost use Rattle.call_quiet.specs.Passed.{kept_run, Passed};

use codes_table::MOST_DATA;
use line_receiver::{DATA_NEXT, IDLE};
use line_wire::doubling::PLUS;
use line_wire::sum::added;
use memory_ranges::copy_in;
use state_block::{BODY, put_receiver, receiver_in};

// Behind the bytes, up to a place, that come before a 0x2B. A loop over places and no closure, since every byte of a block comes by here.
fn plain_end(bytes: &[u8], from: usize, end: usize) -> usize
    requires { (from ≤ end) × (end ≤ length bytes.now) }
    ensures { (result ≡ from + plain_ahead (end - from) (drop from bytes.now)) × (result ≤ end) }
{
    for i in from..end {
        if bytes[i] == PLUS {
            return i;
        }
    }
    end
}

fn summed(sum: u8, bytes: &[u8]) -> u8
    ensures { result ≡ (sum + total bytes.now) % 256 }
{
    let mut so_far = sum;
    for byte in bytes {
        so_far = added(so_far, *byte);
    }
    so_far
}

// A run of data bytes goes into the body, counted and summed. The last that is kept is behind it, so the phase stays.
fn keep_run(state: &mut [u8], head: line_receiver::Receiver, run: &[u8])
    requires { (state_length ≤ length state.old) × (head.have + length run.now ≤ 63) }
    ensures { state.new ≡ sets state.old 0 (encoded (kept_run (decoded state.old) head run.now)) }
{
    let counted = head.have + run.len() as u8;
    let sum = summed(head.sum, run);
    put_receiver(
        state,
        line_receiver::Receiver {
            waiting: 0,
            phase: DATA_NEXT,
            command: head.command,
            length: head.length,
            have: counted,
            sum,
        },
    );
    copy_in(state, BODY + usize::from(head.have), run);
}

// "A data part holds at most 64 bytes"
fn last_kept(length: u8) -> usize
    ensures { result ≡ last_kept length }
{
    usize::from(length).min(MOST_DATA)
}

// How many data bytes are to come before the last that is kept, at most so many as are left.
fn data_ahead(head: line_receiver::Receiver, left: usize) -> usize
    ensures { (result ≤ left) × (result ≤ data_ahead head) × (result < data_ahead head → result ≡ left) }
{
    let ahead = last_kept(head.length).saturating_sub(usize::from(head.have) + 1);
    ahead.min(left)
}

// Behind the bytes from a place on that only count, or do nothing.
pub fn pass_over(state: &mut [u8], bytes: &[u8], from: usize) -> usize
    requires { (state_length ≤ length state.old) × (from ≤ length bytes.now) }
    ensures { Passed state.old bytes.now from result state.new }
{
    let head = receiver_in(state);
    if head.waiting != 0 {
        return from;
    }
    if head.phase == IDLE {
        return plain_end(bytes, from, bytes.len());
    }
    if head.phase != DATA_NEXT {
        return from;
    }
    let ahead = data_ahead(head, bytes.len() - from);
    let end = plain_end(bytes, from, from + ahead);
    if end == from {
        return from;
    }
    keep_run(state, head, &bytes[from..end]);
    end
}
