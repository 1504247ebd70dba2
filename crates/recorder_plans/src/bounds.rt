// The bounds of a trigger's numbers, tested by one call. What stands first in a test is what the later parts of it lean on.
ghost use Rattle.std.specs.Prelude.{◌≡◌, [], ◌∷◌, ◌*◌, ◌^◌, ◌≤◌};
ghost use Rattle.document.specs.Numbers.{is_in};
ghost use Rattle.recorder_plans.specs.Bounds.{fits, size_sound, trigger_sound};

use memory_ranges::may_be_recorded;
use recorder_triggers::Trigger;

// The first number that takes more than so many bytes.
fn too_large(size: usize) -> u64
    requires { size ≤ 4 }
    ensures { result ≡ 2 ^ (8 * size) }
{
    1u64 << (8 * size)
}

pub fn does_fit(size: usize, x: u32) -> bool
    requires { size ≤ 4 }
    ensures { result ≡ fits size x }
{
    u64::from(x) < too_large(size)
}

pub fn is_trigger_size(size: u8) -> bool
    ensures { result ≡ is_in size (1 ∷ 2 ∷ 4 ∷ []) }
{
    matches!(size, 1 | 2 | 4)
}

fn is_size_sound(mode: u8, size: u8) -> bool
    ensures { result ≡ size_sound mode size }
{
    if mode == 0 {
        size == 0
    } else {
        is_trigger_size(size)
    }
}

// A trigger of any numbers may come.
pub fn is_trigger_sound(trigger: Trigger) -> bool
    ensures { result ≡ trigger_sound trigger.mode trigger.size trigger.sign trigger.address trigger.threshold }
{
    let bytes = usize::from(trigger.size);
    trigger.mode <= 2
        && is_size_sound(trigger.mode, trigger.size)
        && trigger.sign <= 1
        && may_be_recorded(trigger.address, bytes)
        && does_fit(bytes, trigger.threshold)
}
