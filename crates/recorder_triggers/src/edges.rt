// The threshold at 1, 2 and 4 bytes: at or beyond it, and the edge that reaches it.
ghost use Rattle.std.specs.Prelude.{◌≡◌, ◌*◌, ◌^◌, ◌<◌};
ghost use Rattle.document.specs.Trigger.{fires, is_beyond};
ghost use Rattle.recorder_triggers.specs.State.{meant, Comparable};

use crate::signed::signed_value;

const NO_TRIGGER: u8 = 0;

const RISING: u8 = 1;

const FALLING: u8 = 2;

// What a setup says of the trigger. Its mode is a number and no enum: it comes from a state whose byte may be any.
#[derive(Clone, Copy, Default)]
pub struct Trigger {
    pub mode: u8,
    pub size: u8,
    pub sign: u8,
    pub address: u32,
    pub threshold: u32,
}

impl Trigger {
    // Whether a value is at or beyond the threshold, as the mode looks. Without a trigger there is no size, and nothing to compare.
    pub fn is_beyond(self, this: u32) -> bool
        requires { Comparable self × (this < 2 ^ (8 * self.size)) }
        ensures { result ≡ is_beyond (meant self) this }
    {
        if self.mode == NO_TRIGGER {
            return false;
        }
        let size = usize::from(self.size);
        let edge = signed_value(self.sign, size, self.threshold);
        let now = signed_value(self.sign, size, this);
        match self.mode {
            RISING => edge <= now,
            FALLING => now <= edge,
            _ => false,
        }
    }

    // Whether the trigger comes at a set with this value: it is at or beyond the threshold, and the value at the previous set was not.
    pub fn comes(self, previous: u32, this: u32) -> bool
        requires { Comparable self × (previous < 2 ^ (8 * self.size)) × (this < 2 ^ (8 * self.size)) }
        ensures { result ≡ fires (meant self) previous this }
    {
        self.is_beyond(this) && !self.is_beyond(previous)
    }
}
