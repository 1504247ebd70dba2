// The second port: a whole frame, and the answer to it.
ghost use Rattle.call_modbus.specs.Promises.{ModbusDone};

use line_wire::Written;

#[unsafe(no_mangle)]
pub extern "C" fn log_gate_modbus(
    station: u16,
    frame: &[u8],
    memory: &mut [u8],
    out: &mut [u8],
) -> Written
    ensures { ModbusDone station frame.now memory.old out.old result memory.new out.new }
{
    log_gate::log_gate_modbus(station, frame, memory, out)
}
