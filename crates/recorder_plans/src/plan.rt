// What a setup fixes: numbers alone, so that every bit pattern is a value and one outside the bounds can be refused.
ghost use Rattle.std.specs.Prelude.{◌≡◌};
ghost use Rattle.recorder_triggers.specs.State.{meant};
ghost use Rattle.recorder_plans.specs.State.{trigger_of};

use recorder_triggers::Trigger;

#[repr(C)]
#[derive(Clone, Copy)]
pub struct Plan {
    pub samples: u16,
    pub post_trigger: u16,
    pub divider: u16,
    pub mode: u8,
    pub size: u8,
    pub sign: u8,
    pub address: u32,
    pub threshold: u32,
    pub variables: variables_list::Variables,
}

impl Plan {
    pub fn trigger(self) -> Trigger
        ensures { meant result ≡ trigger_of self }
    {
        Trigger {
            mode: self.mode,
            size: self.size,
            sign: self.sign,
            address: self.address,
            threshold: self.threshold,
        }
    }
}
