// Where a range of bytes may lie. Each question is one function, so that a rule that changes changes in one place.
ghost use Rattle.std.specs.Prelude.{◌≡◌, ◌+◌, leb};
ghost use Rattle.document.specs.Areas.{may_be_read, may_be_recorded};
ghost use Rattle.document.specs.Gate.{Gate};
ghost use Rattle.document.specs.Permission.{may_be_written};

pub const VARIABLES_END: usize = 8192;

// Registered tables end at or below it.
pub const CALIBRATION_END: usize = 12288;

pub const BUFFER_BEGIN: usize = 12288;

// Recorded variables and trigger end at or below it.
pub const RECORDED_END: usize = 12288;

pub const MEMORY_END: usize = 16384;

// What the sets of a recorder may fill.
pub const BUFFER_SIZE: usize = MEMORY_END - BUFFER_BEGIN;

// The size is taken off the end, since address and size may be too large to add.
pub fn within(address: u32, size: usize, end: usize) -> bool
    ensures { result ≡ leb (address + size) end }
{
    end.checked_sub(size)
        .is_some_and(|last| address as usize <= last)
}

pub fn may_be_read(address: u32, size: usize) -> bool
    ensures { result ≡ may_be_read address size }
{
    within(address, size, MEMORY_END)
}

// Whatever the gate holds: the one place where code asks whether a range may be written.
pub fn may_be_written(address: u32, size: usize) -> bool
    ensures { (g : Gate) → result ≡ may_be_written g address size }
{
    within(address, size, VARIABLES_END)
}

pub fn may_be_recorded(address: u32, size: usize) -> bool
    ensures { result ≡ may_be_recorded address size }
{
    within(address, size, RECORDED_END)
}
