// Names: the gate registers its tables.
ghost use Rattle.call_register.specs.Promises.{RegisterDone};

#[unsafe(no_mangle)]
pub extern "C" fn log_gate_register(state: &mut [u8], memory: &[u8], list: &[u8]) -> u8
    ensures { RegisterDone state.old memory.now list.now result state.new }
{
    log_gate::log_gate_register(state, memory, list)
}
