// The gate's own program: it collects a command that 0x10 brought, and reports its result.
ghost use Rattle.call_application.specs.Promises.{CollectDone, ReportDone};

use call_application::Collected;

pub fn log_gate_collect(state: &mut [u8], out: &mut [u8]) -> Collected
    ensures { CollectDone state.old out.old result state.new out.new }
{
    call_application::collect(state, out)
}

pub fn log_gate_report(state: &mut [u8], res: u8) -> u8
    ensures { ReportDone state.old res result state.new }
{
    call_application::report(state, res)
}
