// The line: the sum, and doubling, whatever any command means; crates/line_answers writes answers with them.
#![tactic(auto)]

pub mod doubling;
pub mod sum;

ghost use Rattle.std.specs.Prelude.{◌≡◌};
ghost use Rattle.line_wire.specs.Outcome.{written_of};

use codes_table::{Refusal, TAKEN};

// What a writer did: with which number it refused, or how many bytes it wrote.
#[repr(C)]
#[derive(Clone, Copy)]
pub struct Written {
    pub refusal: u8,
    pub length: usize,
}

// At the C interface a refusal is a number, beside a length of 0.
impl From<Result<usize, Refusal>> for Written {
    ghost from_gives = { λ outcome written. written ≡ written_of outcome };

    fn from(outcome: Result<usize, Refusal>) -> Written {
        match outcome {
            Ok(length) => Written {
                refusal: TAKEN,
                length,
            },
            Err(refusal) => Written {
                refusal: u8::from(refusal),
                length: 0,
            },
        }
    }
}
