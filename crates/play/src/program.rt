// The orders of the gate's own program: a command collected, a result reported, tables registered.
ghost use Rattle.std.specs.Prelude.{◌≡◌, ℕ};
ghost use Rattle.call_application.specs.Promises.{ReportDone};
ghost use Rattle.call_register.specs.Promises.{RegisterDone};

use crate::gate::Gate;
use crate::lengths::WIDEST;
use crate::room::Room;
use crate::shown::{put_refusal, put_written};
use log_gate::{log_gate_collect, log_gate_register, log_gate_report};
use script_lines::output::Output;
use std::io::{self, Write};

impl Gate {
    pub fn collect<W: Write>(&mut self, room: Room<WIDEST>, out: &mut Output<W>) -> io::Result<()>
        ensures { (self.new.memory ≡ self.old.memory) × (self.new.concerned ≡ self.old.concerned) }
    {
        room.lend(|lent| {
            let collected = log_gate_collect(&mut self.state, lent);
            put_written(b'C', collected.refusal, collected.length, lent, out)
        })
    }

    pub fn report<W: Write>(&mut self, res: u8, out: &mut Output<W>) -> io::Result<()>
        ensures reported { (number : ℕ) × ReportDone self.old.state res number self.new.state }
        ensures kept { (self.new.memory ≡ self.old.memory) × (self.new.concerned ≡ self.old.concerned) }
    {
        put_refusal(b'Y', log_gate_report(&mut self.state, res), out)
    }

    pub fn register<W: Write>(&mut self, list: &[u8], out: &mut Output<W>) -> io::Result<()>
        ensures registered { (number : ℕ) × RegisterDone self.old.state self.old.memory list.now number self.new.state }
        ensures kept { (self.new.memory ≡ self.old.memory) × (self.new.concerned ≡ self.old.concerned) }
    {
        put_refusal(
            b'G',
            log_gate_register(&mut self.state, &self.memory, list),
            out,
        )
    }
}
