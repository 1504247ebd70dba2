// What a recorder holds: numbers alone, so that every bit pattern is a value and one outside the bounds can be refused.

// `ready` is 0 until a setup is accepted, and while it is 0 nothing else is looked at.
#[repr(C)]
#[derive(Clone, Copy)]
pub struct Recorder {
    pub ready: u8,
    pub plan: recorder_plans::Plan,
    pub run: recorder_runs::Run,
}
