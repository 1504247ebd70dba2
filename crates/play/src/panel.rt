// The orders of the front panel: the recorder prepared, and started.
ghost use Rattle.std.specs.Prelude.{◌≡◌};
ghost use Rattle.call_panel.specs.declared.Said.{Said};
ghost use Rattle.call_panel.specs.Promises.{PrepareDone, StartDone};

use crate::gate::Gate;
use crate::shown::put_said;
use log_gate::{log_gate_prepare, log_gate_start};
use script_lines::output::Output;
use std::io::{self, Write};

impl Gate {
    pub fn prepare<W: Write>(&mut self, setup: &[u8], out: &mut Output<W>) -> io::Result<()>
        ensures prepared { (said : Said) × PrepareDone self.old.state setup.now said self.new.state }
        ensures kept { (self.new.memory ≡ self.old.memory) × (self.new.concerned ≡ self.old.concerned) }
    {
        put_said(b'F', log_gate_prepare(&mut self.state, setup), out)
    }

    pub fn start<W: Write>(&mut self, out: &mut Output<W>) -> io::Result<()>
        ensures started { (said : Said) × StartDone self.old.state said self.new.state }
        ensures kept { (self.new.memory ≡ self.old.memory) × (self.new.concerned ≡ self.old.concerned) }
    {
        put_said(b'S', log_gate_start(&mut self.state), out)
    }
}
