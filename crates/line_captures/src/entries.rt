// The lent list: a message that was found is counted, and listed as three numbers where there is room. It is numbers, since a caller in C
// lends it.
ghost use Rattle.std.specs.Prelude.{◌≡◌, ◌+◌, ◌<◌, length};
ghost use Rattle.line_captures.specs.Entries.{put_one, put_all};
ghost use Rattle.line_captures.specs.Messages.{placed, entries_of};

use crate::messages::{Found, Step};

// Numbers of an entry.
pub const ENTRY: usize = 3;

fn put(list: &mut [u64], n: usize, place: usize, found: Found)
    ensures { list.new ≡ put_one list.old n (placed place found) }
{
    if n < list.len() / ENTRY {
        let at = n * ENTRY;
        list[at] = place as u64;
        list[at + 1] = u64::from(found.command);
        list[at + 2] = u64::from(found.class);
    }
}

// How many there are behind a step, of which there were n before it.
pub fn listed(list: &mut [u64], n: usize, place: usize, step: Step) -> usize
    requires { n < 0xFFFFFFFFFFFFFFFF }
    ensures { (result ≡ n + length (entries_of place step)) × (list.new ≡ put_all list.old n (entries_of place step)) }
{
    match step.found {
        None => n,
        Some(found) => {
            put(list, n, place, found);
            n + 1
        }
    }
}
