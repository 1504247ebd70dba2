// The input by lines, through a lent text buffer that holds a window of it.
ghost use Rattle.std.specs.Prelude.{◌≡◌, ◌≤◌, length, position, ◌==◌, IsFalse, IfOk, OnErr};
ghost use Rattle.script_lines.specs.Input.{Inside, Cut};

use std::io::{self, Read};

// Which part of the text buffer has not been taken, and whether the input has ended.
#[derive(Clone, Copy, Default)]
pub struct Input {
    pub start: usize,
    pub end: usize,
    pub ended: bool,
}

// What comes next: a line with the input behind it, the end of the input, or a line that is longer than the text buffer.
#[derive(Clone, Copy)]
pub enum Line {
    Found {
        start: usize,
        end: usize,
        rest: Input,
    },
    Over,
    Long,
}

const LINE_FEED: u8 = 10;

fn feed_in(window: &[u8]) -> Option<usize>
    ensures { result ≡ position (λ c. c == 10) window.now }
{
    window.iter().position(|character| *character == LINE_FEED)
}

// Reads until a part is full or the input has ended: a short count is the end of the input. It calls `read` in turn, since
// `read_exact` makes an error of an input that ends before the part is full.
fn read_full<R: Read>(from: &mut R, part: &mut [u8]) -> io::Result<usize>
    ensures { IfOk result (λ count. count ≤ length part.old) }
{
    let mut count = 0;
    while count < part.len() {
        let more = from.read(&mut part[count..])?;
        if more == 0 {
            break;
        }
        count += more;
    }
    Ok(count)
}

// Fills the text behind what is left of it, which goes to the front.
fn fill<R: Read>(input: Input, text: &mut [u8], from: &mut R) -> io::Result<Input>
    requires { Inside input (length text.old) }
    ensures filled { IfOk result (λ filled. Inside filled (length text.old)) }
    ensures unread { OnErr result (length text.new ≡ length text.old) }
{
    text.copy_within(input.start..input.end, 0);
    let kept = input.end - input.start;
    let room = text.len() - kept;
    let got = read_full(from, &mut text[kept..])?;
    Ok(Input {
        start: 0,
        end: kept + got,
        ended: got < room,
    })
}

// The first line of the window. The last line may lack its line feed; no other does, unless it is too long.
fn cut(input: Input, text: &[u8]) -> Line
    requires { Inside input (length text.now) }
    ensures { Cut result (length text.now) }
{
    let Input { start, end, ended } = input;
    if let Some(length) = feed_in(&text[start..end]) {
        let feed = start + length;
        let rest = Input {
            start: feed + 1,
            end,
            ended,
        };
        return Line::Found {
            start,
            end: feed,
            rest,
        };
    }
    if !ended {
        return Line::Long;
    }
    if start == end {
        return Line::Over;
    }
    let rest = Input {
        start: end,
        end,
        ended,
    };
    Line::Found { start, end, rest }
}

// The next line, read in as far as it has to be. A window that lies outside the text is an input that is over. The input comes by
// value and its rest goes back in the line, since only behind a line that is found is there more to read.
pub fn next_line<R: Read>(input: Input, text: &mut [u8], from: &mut R) -> io::Result<Line>
    ensures found { IfOk result (λ line. Cut line (length text.old)) }
    ensures unread { OnErr result ((IsFalse input.ended) × (length text.new ≡ length text.old)) }
{
    let Input { start, end, ended } = input;
    if start > end || end > text.len() {
        return Ok(Line::Over);
    }
    if ended || feed_in(&text[start..end]).is_some() {
        return Ok(cut(input, text));
    }
    let filled = fill(input, text, from)?;
    Ok(cut(filled, text))
}
