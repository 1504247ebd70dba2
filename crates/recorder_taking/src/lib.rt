// What a tick takes of the memory when a set is due, and where it goes.
#![tactic(auto)]

ghost use Rattle.std.specs.Prelude.{◌≡◌, true, ◌+◌, ◌*◌, ◌^◌, ◌≤◌, ◌<◌, length};
ghost use Rattle.document.specs.Areas.{buffer_begin, memory_end};
ghost use Rattle.document.specs.Variables.{set_size};
ghost use Rattle.document.specs.Trigger.{trigger_value};
ghost use Rattle.variables_sets.specs.Recorded.{variables_at, Recordable, set_stored};
ghost use Rattle.recorder_plans.specs.State.{trigger_of};
ghost use Rattle.recorder_plans.specs.Bounds.{plan_sound};

use memory_ranges::{BUFFER_BEGIN, number_at};
use recorder_plans::Plan;
use variables_sets::{copy_set, set_size};

// What the trigger variable holds.
pub fn trigger_value(plan: Plan, memory: &[u8]) -> u32
    requires { (plan_sound plan ≡ true) × (length memory.now ≡ memory_end) }
    ensures { (result ≡ trigger_value (trigger_of plan) memory.now) × (result < 2 ^ (8 * plan.size)) }
{
    number_at(memory, plan.address as usize, usize::from(plan.size))
}

// The bytes of `count` variables, the first of which is defined at `from` in the block, go to a place of the ring.
pub fn take_set(memory: &mut [u8], place: u16, block: &[u8], from: usize, count: usize)
    requires recordable { Recordable block.now from count }
    requires count_bound { (buffer_begin + place * set_size (variables_at block.now from count) + set_size (variables_at block.now from count) ≤ memory_end) × (length memory.old ≡ memory_end) }
    ensures { memory.new ≡ set_stored memory.old place (variables_at block.now from count) }
{
    let size = set_size(block, from, count);
    let at = BUFFER_BEGIN + usize::from(place) * size;
    copy_set(memory, at, size, block, from, count);
}
