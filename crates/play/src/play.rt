// What a script plays on, and what each of its lines makes of it.
ghost use Rattle.std.specs.Prelude.{◌≡◌, false};
ghost use Rattle.play.specs.Untouched.{OtherEndKept};

use crate::cable::Reader;
use crate::gate::Gate;
use crate::order::Order;
use script_lines::output::Output;
use std::io::{self, Write};

#[derive(Clone, Copy)]
pub struct Play {
    pub gate: Gate,
    pub reader: Reader,
}

impl Play {
    pub fn new() -> Self
        ensures { result.gate.concerned ≡ false }
    {
        Play {
            gate: Gate::new(),
            reader: Reader::new(),
        }
    }

    pub fn carry_out<W: Write>(&mut self, order: Order, out: &mut Output<W>) -> io::Result<()>
        ensures { OtherEndKept order.entry self.old self.new }
    {
        match order {
            Order::Gate(order) => self.gate.carry_out(order, out),
            Order::Cable(order) => self.reader.carry_out(order, out),
        }
    }
}
