// A case of one message from reset: run, printed and judged.
ghost use Rattle.std.specs.Prelude.{◌<◌};

use crate::show::{Left, put_case, put_outcome};
use crate::target::Target;
use script_lines::output::Output;
use std::io::{self, Write};

// Its number, and the byte of the memory that it names, before and after. The others are zero before.
#[derive(Clone, Copy)]
pub struct Case {
    pub number: u64,
    pub address: usize,
    pub before: u8,
    pub after: u8,
    ghost inside: { address < 16384 },
}

impl Case {
    pub fn show<W: Write>(
        &self,
        wire: &[u8],
        expected: &[u8],
        out: &mut Output<W>,
    ) -> io::Result<()> {
        let mut target = Target::new();
        target.memory[self.address] = self.before;
        target.give(wire);
        let left = Left {
            address: self.address,
            value: target.memory[self.address],
            said: self.after,
        };
        put_case(self.number, wire, out)?;
        put_outcome(target.answers(), expected, left, out)
    }
}
