// The operands of a line, one word after the other.
ghost use Rattle.std.specs.Prelude.{◌≡◌, ◌≤◌, length, IfSome, Option};
ghost use Rattle.std.specs.Fn.{FnOnceReturnsAt};
ghost use Rattle.script_words.specs.Words.{word_of, word_end};
ghost use Rattle.script_words.specs.Operands.{then_at, byte_at, number_at};

use crate::words::{is_over, word_at};
use script_numbers::{decimal, hex};

// What the word at a place says, and where the next word may begin.
fn read_word<T: Drop, F: FnOnce(&[u8]) -> Option<T>>(
    line: &[u8],
    from: usize,
    said: F,
) -> Option<(T, usize)>
    requires { F.IsAlwaysCallable said }
    ensures { (o : Option T) × FnOnceReturnsAt F.FnOnce said (word_of line.now from) o × (result ≡ then_at o (word_end line.now from)) }
{
    let word = word_at(line, from);
    let value = said(&line[word.start..word.end])?;
    Some((value, word.end))
}

pub fn read_byte(line: &[u8], from: usize) -> Option<(u8, usize)>
    ensures { result ≡ byte_at line.now from }
{
    read_word(line, from, hex)
}

pub fn read_number(line: &[u8], from: usize) -> Option<(u64, usize)>
    ensures { result ≡ number_at line.now from }
{
    read_word(line, from, decimal)
}

// Every word from a place on, as bytes: how many there are, if each is one and there is room for all.
pub fn read_bytes(line: &[u8], from: usize, out: &mut [u8]) -> Option<usize>
    ensures { IfSome result (λ count. count ≤ length out.new) }
{
    let mut next = from;
    for (count, place) in out.iter_mut().enumerate() {
        let word = word_at(line, next);
        if word.start == word.end {
            return Some(count);
        }
        *place = hex(&line[word.start..word.end])?;
        next = word.end;
    }
    if is_over(line, next) {
        Some(out.len())
    } else {
        None
    }
}
