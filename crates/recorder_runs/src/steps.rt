// What a set changes of a run: its place, its wait and its watch for the trigger.
ghost use Rattle.std.specs.Prelude.{◌≡◌, true, List, ℕ, ◌*◌, ◌^◌, ◌≤◌, ◌<◌, ltb};
ghost use Rattle.document.specs.Trigger.{trigger_value};
ghost use Rattle.document.specs.Run.{place_after, full_after, comes, watched, set_taken};
ghost use Rattle.recorder_plans.specs.State.{trigger_of, plan_of};
ghost use Rattle.recorder_runs.specs.State.{is_set, flag_of, watch_of, with_place, with_watch, watching, run_of, run_kept};
ghost use Rattle.recorder_plans.specs.Bounds.{plan_sound};
ghost use Rattle.recorder_runs.specs.Bounds.{run_sound, Looking};

use crate::run::{PREVIOUS, Run, TRIGGERED, UNPRIMED};
use recorder_plans::Plan;

impl Run {
    fn next_place(mut self, samples: u16) -> Run
        requires { (self.place < samples) × (self.full ≤ 1) }
        ensures { result ≡ with_place self (flag_of (full_after samples self.place (is_set self.full))) (place_after samples self.place) }
    {
        if self.place + 1 == samples {
            self.place = 0;
            self.full = 1;
        } else {
            self.place += 1;
        }
        self
    }

    // The trigger is still awaited.
    fn primed(mut self, value: u32) -> Run
        ensures { result ≡ with_watch self self.running 1 value }
    {
        self.watch = PREVIOUS;
        self.value = value;
        self
    }

    // So many further sets are to be taken, and with none left it stops.
    fn counting(mut self, left: u32) -> Run
        requires { self.running ≡ 1 }
        ensures { result ≡ with_watch self (flag_of (ltb 0 left)) 2 left }
    {
        self.watch = TRIGGERED;
        self.value = left;
        if left == 0 {
            self.running = 0;
        }
        self
    }

    // Whether the trigger, which is awaited, comes at a set with this value: the first set is looked at for itself.
    fn does_come(self, plan: Plan, value: u32) -> bool
        requires { Looking plan self value × (self.watch ≡ 2 → ⊥) }
        ensures { result ≡ comes (trigger_of plan) (watch_of self.watch self.value) value }
    {
        let trigger = plan.trigger();
        if self.watch == UNPRIMED {
            trigger.is_beyond(value)
        } else {
            trigger.comes(self.value, value)
        }
    }

    // The trigger variable held `value` at the set just taken.
    fn watch_on(self, plan: Plan, value: u32) -> Run
        requires { Looking plan self value × (self.running ≡ 1) }
        ensures { result ≡ watching self (watched (plan_of plan) (watch_of self.watch self.value) value) }
    {
        if self.watch == TRIGGERED {
            self.counting(self.value - 1)
        } else if self.does_come(plan, value) {
            self.counting(u32::from(plan.post_trigger))
        } else {
            self.primed(value)
        }
    }

    // A set is taken, at which the trigger variable held `value`. The tick, which calls this, has a state within its bounds.
    pub fn after_set(mut self, plan: Plan, value: u32) -> Run
        requires { (plan_sound plan ≡ true) × (run_sound plan self ≡ true) × (self.running ≡ 1) × (value < 2 ^ (8 * plan.size)) }
        ensures { (memory : List ℕ) → value ≡ trigger_value (trigger_of plan) memory → result ≡ run_kept (set_taken (plan_of plan) (run_of self) memory) }
    {
        self.wait = plan.divider;
        let placed = self.next_place(plan.samples);
        placed.watch_on(plan, value)
    }
}
