// The words of a line, parted by white space.
ghost use Rattle.std.specs.Prelude.{◌≡◌, ◌≤◌, length};
ghost use Rattle.script_words.specs.Words.{spread, is_over, Found};

// A part of a line from a place to another. It is two places and no slice, since a word that is not there, which is empty, still
// has its place, from which the next is looked for.
#[derive(Clone, Copy)]
pub struct Word {
    pub start: usize,
    pub end: usize,
}

// How many characters at the front are all ASCII white space, or all none.
fn spread(text: &[u8], blanks: bool) -> usize
    ensures value { result ≡ spread blanks text.now }
    ensures within { result ≤ length text.now }
{
    text.iter()
        .take_while(|character| character.is_ascii_whitespace() == blanks)
        .count()
}

// The first word at or behind a place.
pub fn word_at(line: &[u8], from: usize) -> Word
    ensures { Found line.now from result }
{
    let first = from.min(line.len());
    let start = first + spread(&line[first..], true);
    let end = start + spread(&line[start..], false);
    Word { start, end }
}

// Whether nothing but white space is left.
pub fn is_over(line: &[u8], from: usize) -> bool
    ensures { result ≡ is_over line.now from }
{
    let rest = word_at(line, from);
    rest.start == rest.end
}
