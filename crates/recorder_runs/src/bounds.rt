// The bounds of a run beside its plan's, part by part. What stands first in a test is what the later parts of it lean on.
ghost use Rattle.std.specs.Prelude.{◌≡◌, ◌≤◌};
ghost use Rattle.recorder_runs.specs.Bounds.{flags_sound, counts_sound, watch_sound, sound_beside};

use crate::run::{PREVIOUS, Run, TRIGGERED, UNPRIMED};
use recorder_plans::does_fit;

impl Run {
    fn are_flags_sound(self) -> bool
        ensures { result ≡ flags_sound self }
    {
        self.running <= 1 && self.full <= 1
    }

    fn are_counts_sound(self, samples: u16, divider: u16) -> bool
        ensures { result ≡ counts_sound samples divider self }
    {
        self.wait <= divider && self.place < samples
    }

    fn is_watch_sound(self, size: u8, post: u16) -> bool
        requires { size ≤ 4 }
        ensures { result ≡ watch_sound size post self.running self.watch self.value }
    {
        match self.watch {
            UNPRIMED => self.value == 0,
            PREVIOUS => does_fit(usize::from(size), self.value),
            TRIGGERED => self.value <= u32::from(post) && (self.running == 0 || 0 < self.value),
            _ => false,
        }
    }

    // Beside the numbers of a plan, whose trigger has this size.
    pub fn is_sound(self, samples: u16, divider: u16, size: u8, post: u16) -> bool
        requires { size ≤ 4 }
        ensures { result ≡ sound_beside samples divider size post self }
    {
        self.are_flags_sound()
            && self.are_counts_sound(samples, divider)
            && self.is_watch_sound(size, post)
    }
}
