// What changes while a recorder runs: numbers alone, so that every bit pattern is a value and one outside the bounds can be refused.
ghost use Rattle.std.specs.Prelude.{◌≡◌};
ghost use Rattle.document.specs.Run.{started, prepared};
ghost use Rattle.recorder_runs.specs.State.{run_kept};

// How far the trigger has come.
pub const UNPRIMED: u8 = 0;

pub const PREVIOUS: u8 = 1;

pub const TRIGGERED: u8 = 2;

#[repr(C)]
#[derive(Clone, Copy)]
pub struct Run {
    pub running: u8,
    // 'samples' sets are taken
    pub full: u8,
    pub watch: u8,
    // ticks that pass before the next set
    pub wait: u16,
    // the place that would be written next
    pub place: u16,
    // the trigger variable at the previous set, or the sets that are left
    pub value: u32,
}

impl Run {
    // It reads nothing of a run before, so that nothing of one is left.
    pub fn prepared() -> Run
        ensures { result ≡ run_kept prepared }
    {
        Run {
            running: 0,
            full: 0,
            watch: UNPRIMED,
            wait: 0,
            place: 0,
            value: 0,
        }
    }

    pub fn started() -> Run
        ensures { result ≡ run_kept started }
    {
        Run {
            running: 1,
            ..Run::prepared()
        }
    }
}
