// What a start opens: its command, its length where it has one, its data and its sum byte, as far as literals follow.
ghost use Rattle.std.specs.Prelude.{◌≡◌, ◌+◌, ◌≤◌, ◌<◌, length, get_or};
ghost use Rattle.line_captures.specs.Messages.{class_number, class_of, Spanned, Counted, Opened};

use crate::tokens;
use crate::tokens::Met;
use codes_table::{FIRST_FAST, MOST_DATA_BYTE, fast_length};
use line_wire::sum::added;

// The status class of a whole message, with its number in the list.
#[derive(Clone, Copy)]
pub enum Class {
    WholeAndRight = 0,
    WholeWithWrongSum = 1,
    TooLongWithRightSum = 2,
}

impl From<Class> for u64 {
    ghost from_gives = { λ class number. number ≡ class_number class };

    fn from(class: Class) -> u64 {
        class as u64
    }
}

// A run of literals: where it ends, how many are missing, and what those that are there add up to.
#[derive(Clone, Copy)]
pub struct Span {
    pub behind: usize,
    pub missing: usize,
    pub sum: u8,
}

#[derive(Clone, Copy)]
pub struct Found {
    pub command: u8,
    pub class: Class,
}

// What stands at a place: where to go on, and the message that ends there, if one does.
#[derive(Clone, Copy)]
pub struct Step {
    pub behind: usize,
    pub found: Option<Found>,
}

// So many literals from a place on, or as many as come before a start and the end: a literal says where the next one begins.
fn taken_literals(bytes: &[u8], from: usize, n: usize, sum: u8) -> Span
    requires { from ≤ length bytes.now }
    ensures { Spanned bytes.now from n sum result }
{
    let mut span = Span {
        behind: from,
        missing: n,
        sum,
    };
    while span.missing > 0 {
        let Met::Literal(literal, behind) = tokens::met_at(bytes, span.behind) else {
            return span;
        };
        span = Span {
            behind,
            missing: span.missing - 1,
            sum: added(span.sum, literal),
        };
    }
    span
}

// A message above 64 whose sum is wrong is one with a wrong sum.
fn class_of(sum: u8, count: u8) -> Class
    ensures { result ≡ class_of sum count }
{
    if sum != 0 {
        Class::WholeWithWrongSum
    } else if count > MOST_DATA_BYTE {
        Class::TooLongWithRightSum
    } else {
        Class::WholeAndRight
    }
}

// So many data bytes and a sum byte, behind what adds up to this sum.
fn counted(bytes: &[u8], from: usize, command: u8, count: u8, sum: u8) -> Step
    requires { from ≤ length bytes.now }
    ensures { Counted bytes.now from command count sum result }
{
    let body = taken_literals(bytes, from, usize::from(count) + 1, sum);
    let found = if body.missing == 0 {
        Some(Found {
            command,
            class: class_of(body.sum, count),
        })
    } else {
        None
    };
    Step {
        behind: body.behind,
        found,
    }
}

// The message of which the command stands at this place.
pub fn opened(bytes: &[u8], at: usize) -> Step
    requires { at < length bytes.now }
    ensures { Opened bytes.now at result }
{
    let command = bytes[at];
    let behind = at + 1;
    if command >= FIRST_FAST {
        return counted(bytes, behind, command, fast_length(command), command);
    }
    let Met::Literal(length, from) = tokens::met_at(bytes, behind) else {
        return Step {
            behind,
            found: None,
        };
    };
    counted(bytes, from, command, length, added(command, length))
}
