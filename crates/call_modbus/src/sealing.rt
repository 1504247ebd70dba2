// The check sum behind an answer.
ghost use Rattle.std.specs.Prelude.{◌≡◌, ◌+◌, ◌≤◌, length, take};
ghost use Rattle.std.proofs.lemmas.List.Edits.{sets};
ghost use Rattle.document.specs.Values.{little_endian};
ghost use Rattle.document.specs.CheckSum.{check_sum};

use bytes_fields::Field;
use modbus_check_sums::check_sum;

fn sum_of_front(front: usize, out: &[u8]) -> u16
    requires { front ≤ length out.now }
    ensures { result ≡ check_sum (take front out.now) }
{
    check_sum(&out[..front])
}

// Low byte first; how long the whole answer is.
pub fn seal(told: usize, out: &mut [u8]) -> usize
    requires { told + 2 ≤ length out.old }
    ensures { (result ≡ told + 2) × (out.new ≡ sets out.old told (little_endian 2 (check_sum (take told out.old)))) }
{
    let sum = sum_of_front(told, out);
    sum.put(out, told);
    told + 2
}
