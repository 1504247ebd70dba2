// The calls of the gate's own program over a block: it collects a command, and later reports a result.
#![tactic(auto)]

ghost use Rattle.call_application.specs.Promises.{CollectDone, ReportDone};

use call_checks::{collect_refusal, report_refusal};
use codes_table::TAKEN;

// What a collection gave: its number, and how many bytes the command has; 0 where none waits.
#[repr(C)]
#[derive(Clone, Copy)]
pub struct Collected {
    pub refusal: u8,
    pub length: usize,
}

pub fn collect(state: &mut [u8], out: &mut [u8]) -> Collected
    ensures { CollectDone state.old out.old result state.new out.new }
{
    match collect_refusal(state, out) {
        Ok(()) => Collected {
            refusal: TAKEN,
            length: application_block::collect(state, out),
        },
        Err(refusal) => Collected {
            refusal: u8::from(refusal),
            length: 0,
        },
    }
}

pub fn report(state: &mut [u8], res: u8) -> u8
    ensures { ReportDone state.old res result state.new }
{
    match report_refusal(state, res) {
        Ok(()) => {
            application_block::report(state, res);
            TAKEN
        }
        Err(refusal) => u8::from(refusal),
    }
}
