// The target: reset, check, a byte of the line or a block of them, a tick of the gate.
ghost use Rattle.call_checks.specs.Promises.{ResetDone, Checked};
ghost use Rattle.call_tick.specs.Promises.{TickTaken};
ghost use Rattle.call_byte.specs.Promises.{ByteTaken};
ghost use Rattle.call_block.specs.Promises.{BlockDone};

use call_block::BlockTaken;
use call_byte::Taken;

#[unsafe(no_mangle)]
pub extern "C" fn log_gate_reset(state: &mut [u8]) -> u8
    ensures { ResetDone state.old result state.new }
{
    log_gate::log_gate_reset(state)
}

#[unsafe(no_mangle)]
pub extern "C" fn log_gate_check(state: &[u8]) -> u8
    ensures { Checked state.now result }
{
    log_gate::log_gate_check(state)
}

#[unsafe(no_mangle)]
pub extern "C" fn log_gate_byte(
    state: &mut [u8],
    byte: u8,
    memory: &mut [u8],
    answer: &mut [u8],
) -> Taken
    ensures { ByteTaken state.old byte memory.old answer.old result state.new memory.new answer.new }
{
    log_gate::log_gate_byte(state, byte, memory, answer)
}

#[unsafe(no_mangle)]
pub extern "C" fn log_gate_block(
    state: &mut [u8],
    block: &[u8],
    memory: &mut [u8],
    answers: &mut [u8],
) -> BlockTaken
    ensures { BlockDone state.old block.now memory.old answers.old result state.new memory.new answers.new }
{
    log_gate::log_gate_block(state, block, memory, answers)
}

#[unsafe(no_mangle)]
pub extern "C" fn log_gate_tick(state: &mut [u8], memory: &mut [u8]) -> u8
    ensures { TickTaken state.old memory.old result state.new memory.new }
{
    log_gate::log_gate_tick(state, memory)
}
