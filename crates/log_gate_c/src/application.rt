// The gate's own program: it collects a command that 0x10 brought, and reports its result.
ghost use Rattle.call_application.specs.Promises.{CollectDone, ReportDone};

use call_application::Collected;

#[unsafe(no_mangle)]
pub extern "C" fn log_gate_collect(state: &mut [u8], out: &mut [u8]) -> Collected
    ensures { CollectDone state.old out.old result state.new out.new }
{
    log_gate::log_gate_collect(state, out)
}

#[unsafe(no_mangle)]
pub extern "C" fn log_gate_report(state: &mut [u8], res: u8) -> u8
    ensures { ReportDone state.old res result state.new }
{
    log_gate::log_gate_report(state, res)
}
