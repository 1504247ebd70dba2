// When a frame gets silence.
ghost use Rattle.std.specs.Prelude.{◌≡◌, ◌<◌};
ghost use Rattle.document.specs.Frames.{is_silenced};

use modbus_check_sums::check_sum;

const SHORTEST: usize = 4;

const LONGEST: usize = 256;

const LAST_FUNCTION: u8 = 127;

// A station of its own is not 0, so a broadcast is a frame for another. The check sum comes last: such a frame costs no look at its
// other bytes.
pub fn is_silenced(station: u8, frame: &[u8]) -> bool
    requires { 0 < station }
    ensures { result ≡ is_silenced station frame.now }
{
    if frame.len() < SHORTEST {
        return true;
    }
    if frame.len() > LONGEST {
        return true;
    }
    if frame[0] != station {
        return true;
    }
    if frame[1] > LAST_FUNCTION {
        return true;
    }
    check_sum(frame) != 0
}
