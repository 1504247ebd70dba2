// Names: the gate registers its tables.
ghost use Rattle.call_register.specs.Promises.{RegisterDone};

pub fn log_gate_register(state: &mut [u8], memory: &[u8], list: &[u8]) -> u8
    ensures { RegisterDone state.old memory.now list.now result state.new }
{
    call_register::register(state, memory, list)
}
