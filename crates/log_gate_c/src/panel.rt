// The front panel: it prepares the recorder with the data part of a 0x09, and starts it.
ghost use Rattle.call_panel.specs.Promises.{PrepareDone, StartDone};

use call_panel::Said;

#[unsafe(no_mangle)]
pub extern "C" fn log_gate_prepare(state: &mut [u8], setup: &[u8]) -> Said
    ensures { PrepareDone state.old setup.now result state.new }
{
    log_gate::log_gate_prepare(state, setup)
}

#[unsafe(no_mangle)]
pub extern "C" fn log_gate_start(state: &mut [u8]) -> Said
    ensures { StartDone state.old result state.new }
{
    log_gate::log_gate_start(state)
}
