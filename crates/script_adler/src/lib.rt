// The checksum of RFC 1950, by which two runs compare a whole memory in one line.
#![tactic(auto)]

ghost use Rattle.std.specs.Prelude.{◌≡◌};
ghost use Rattle.script_adler.specs.Adler.{adler32};

// The largest prime below 65,536.
const MODULUS: u32 = 65521;

pub fn adler32(bytes: &[u8]) -> u32
    ensures { result ≡ adler32 bytes.now }
{
    let mut low: u32 = 1;
    let mut high: u32 = 0;
    for byte in bytes {
        low = (low + u32::from(*byte)) % MODULUS;
        high = (high + low) % MODULUS;
    }
    high * 65536 + low
}
