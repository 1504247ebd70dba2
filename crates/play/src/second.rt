// The orders of the mill's controller: a frame at the second port.
ghost use Rattle.std.specs.Prelude.{◌≡◌};

use crate::gate::Gate;
use crate::lengths::LENT;
use crate::room::Room;
use crate::shown::put_written;
use log_gate::log_gate_modbus;
use script_lines::output::Output;
use std::io::{self, Write};

impl Gate {
    pub fn frame<W: Write>(
        &mut self,
        station: u16,
        room: Room<LENT>,
        frame: &[u8],
        out: &mut Output<W>,
    ) -> io::Result<()>
        ensures { (self.new.state ≡ self.old.state) × (self.new.concerned ≡ self.old.concerned) }
    {
        room.lend(|lent| {
            let written = log_gate_modbus(station, frame, &mut self.memory, lent);
            put_written(b'U', written.refusal, written.length, lent, out)
        })
    }
}
