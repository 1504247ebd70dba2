// The head of a reader in its block; the data behind it stay where they lie. Who asks has seen that the block is long enough.
ghost use Rattle.std.specs.Prelude.{◌≡◌, ◌≤◌, length};
ghost use Rattle.std.proofs.lemmas.List.Edits.{sets};
ghost use Rattle.document.specs.Areas.{bytes_at};
ghost use Rattle.line_reader.specs.Reader as host;
ghost use Rattle.line_reader.specs.Head.{with_body};
ghost use Rattle.call_reader.specs.Layout.{body_place, body_length, reader_length, decoded_reader, encoded_head, encoded_reader};

use crate::places::BODY;
use codes_table::MOST_DATA;
use line_reader::Head;

pub fn head_in(block: &[u8]) -> Head
    requires { reader_length ≤ length block.now }
    ensures { with_body result (bytes_at block.now body_place body_length) ≡ decoded_reader block.now }
{
    Head {
        waiting: block[0],
        phase: block[1],
        status: block[2],
        expected: block[3],
        have: block[4],
        sum: block[5],
    }
}

pub fn put_reader_head(block: &mut [u8], h: Head)
    requires { reader_length ≤ length block.old }
    ensures { block.new ≡ sets block.old 0 (encoded_head h) }
{
    let head = [h.waiting, h.phase, h.status, h.expected, h.have, h.sum];
    bytes_fields::put_head(block, head);
}

// The reader as a reading of so many data begins.
pub fn begin_reader(block: &mut [u8], expected: u8)
    requires { reader_length ≤ length block.old }
    ensures { block.new ≡ sets block.old 0 (encoded_reader (host.fresh expected)) }
{
    bytes_fields::put_head(block, [0, 0, 0, expected, 0, 0]);
    bytes_fields::clear(block, BODY, MOST_DATA);
}
