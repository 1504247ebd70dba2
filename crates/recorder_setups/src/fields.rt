// The fields of a setup's data part, in their order.
ghost use Rattle.std.specs.Prelude.{◌≡◌, [], ◌+◌, ◌*◌, ◌^◌, ◌≤◌, ◌<◌, length, take};
ghost use Rattle.document.specs.Areas.{bytes_at};
ghost use Rattle.document.specs.Values.{number};
ghost use Rattle.document.specs.Plan.{head_width, trigger_in, plan_in};
ghost use Rattle.variables_list.specs.State.{kept};
ghost use Rattle.recorder_triggers.specs.State.{meant};
ghost use Rattle.recorder_plans.specs.State.{plan_kept};

use bytes_fields::Field;
use memory_ranges::number_at;
use recorder_plans::Plan;
use recorder_triggers::Trigger;
use variables_definitions::address_width;
use variables_list::{MOST_VARIABLES, Variables};

// Only the first `size` of four bytes count.
fn threshold_at(body: &[u8], at: usize, size: usize) -> u32
    requires { at + 4 ≤ length body.now }
    ensures { (result ≡ number (take size (bytes_at body.now at 4))) × (size ≤ 4 → result < 2 ^ (8 * size)) }
{
    number_at(body, at, size.min(4))
}

// How many bytes stand before the count.
pub fn head_width(ex: bool) -> usize
    ensures { (result ≡ head_width ex) × (result ≤ 17) }
{
    13 + address_width(ex)
}

// With mode 0 the trigger's fields are not looked at.
fn read_trigger(ex: bool, body: &[u8]) -> Trigger
    requires { head_width ex ≤ length body.now }
    ensures { (meant result ≡ trigger_in ex body.now) × (result.size ≤ 4 → result.threshold < 2 ^ (8 * result.size)) }
{
    let mode = body[0];
    if mode == 0 {
        return Trigger::default();
    }
    let width = address_width(ex);
    let size = body[7 + width];
    Trigger {
        mode,
        size,
        sign: body[8 + width],
        address: number_at(body, 7, width),
        threshold: threshold_at(body, 9 + width, usize::from(size)),
    }
}

// The numbers before the count, without the variables.
pub fn read_plan(ex: bool, body: &[u8]) -> Plan
    requires { head_width ex ≤ length body.now }
    ensures { (result ≡ plan_kept (plan_in ex body.now) (kept [])) × (result.size ≤ 4 → result.threshold < 2 ^ (8 * result.size)) }
{
    let trigger = read_trigger(ex, body);
    Plan {
        samples: u16::at(body, 1),
        post_trigger: u16::at(body, 3),
        divider: u16::at(body, 5),
        mode: trigger.mode,
        size: trigger.size,
        sign: trigger.sign,
        address: trigger.address,
        threshold: trigger.threshold,
        variables: Variables {
            count: 0,
            list: [document::Variable {
                address: 0,
                size: 0,
            }; MOST_VARIABLES],
        },
    }
}
