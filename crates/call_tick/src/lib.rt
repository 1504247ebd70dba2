// The gate's tick over a block: a set every (time divider + 1)th, into its place of the ring.
#![tactic(auto)]

ghost use Rattle.std.specs.Prelude.{◌≡◌, true, ◌≤◌, length};
ghost use Rattle.document.specs.Areas.{memory_end};
ghost use Rattle.state_parts.specs.Bounds.{sound};
ghost use Rattle.state_block.specs.Places.{state_length};
ghost use Rattle.state_block.specs.Layout.{decoded};
ghost use Rattle.call_tick.specs.Promises.{TickTaken};
ghost use Rattle.call_tick.specs.Parts.{Due, Took, Ticked};

use bytes_fields::Field;
use call_checks::tick_refusal;
use codes_table::TAKEN;
use recorder_runs::Run;
use recorder_taking::{take_set, trigger_value};
use state_block::{READY, RECORDED, RECORDED_DEFINITIONS, WAIT, plan_in, put_run, run_in};

// A set that is due goes to its place of the ring, by the plan and the definitions in the block. The result is the run after it.
fn take(state: &[u8], memory: &mut [u8], run: Run) -> Run
    requires { Due state.now run memory.old }
    ensures { Took state.now run memory.old result memory.new }
{
    let plan = plan_in(state);
    let value = trigger_value(plan, memory);
    let count = usize::from(state[RECORDED]);
    take_set(memory, run.place, state, RECORDED_DEFINITIONS, count);
    run.after_set(plan, value)
}

// A tick that nothing refuses: only the recorder's run changes, and while it waits only the wait.
fn tick_within(state: &mut [u8], memory: &mut [u8])
    requires { (state_length ≤ length state.old) × (sound (decoded state.old) ≡ true) × (length memory.old ≡ memory_end) }
    ensures { Ticked state.old memory.old state.new memory.new }
{
    if state[READY] == 0 {
        return;
    }
    let run = run_in(state);
    if run.running == 0 {
        return;
    }
    if 0 < run.wait {
        (run.wait - 1).put(state, WAIT);
        return;
    }
    let next = take(state, memory, run);
    put_run(state, next);
}

pub fn tick(state: &mut [u8], memory: &mut [u8]) -> u8
    ensures { TickTaken state.old memory.old result state.new memory.new }
{
    match tick_refusal(state, memory) {
        Ok(()) => {
            tick_within(state, memory);
            TAKEN
        }
        Err(refusal) => u8::from(refusal),
    }
}
