// Answers whose data are words, each low byte first.
ghost use Rattle.std.specs.Prelude.{◌≤◌, length};
ghost use Rattle.document.specs.Numbers.{answer_room, done};
ghost use Rattle.line_wire.specs.Told.{Told};
ghost use Rattle.serve_answers.specs.Words.{words_of};

use codes_table::DONE;
use line_answers::begin;
use line_wire::doubling::{put_sum, put_word};

// So many words as an answer's data hold.
pub fn done_words(words: &[u16], out: &mut [u8]) -> usize
    requires { (length words.now ≤ 32) × (answer_room ≤ length out.old) }
    ensures { Told (record { status = done; body = words_of words.now }) out.old result out.new }
{
    let mut progress = begin(DONE, out);
    for word in words {
        progress = put_word(progress, *word, out);
    }
    put_sum(progress, out)
}
