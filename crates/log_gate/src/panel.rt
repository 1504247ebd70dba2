// The front panel: it prepares the recorder with the data part of a 0x09, and starts it.
ghost use Rattle.call_panel.specs.Promises.{PrepareDone, StartDone};

use call_panel::Said;

pub fn log_gate_prepare(state: &mut [u8], setup: &[u8]) -> Said
    ensures { PrepareDone state.old setup.now result state.new }
{
    call_panel::prepare(state, setup)
}

pub fn log_gate_start(state: &mut [u8]) -> Said
    ensures { StartDone state.old result state.new }
{
    call_panel::start(state)
}
