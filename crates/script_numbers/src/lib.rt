// What a word says: a byte in hex or a decimal number. A word that says neither is told apart.
#![tactic(auto)]

ghost use Rattle.std.specs.Prelude.{◌≡◌, ◌<◌, IfSome};
ghost use Rattle.script_numbers.specs.Numbers.{digit_of, hex_of, decimal_of};

// The value of a hex digit of either case.
fn digit(character: u8) -> Option<u8>
    ensures value { result ≡ digit_of character }
    ensures within { IfSome result (λ d. d < 16) }
{
    match character {
        b'0'..=b'9' => Some(character - b'0'),
        b'A'..=b'F' => Some(character - b'A' + 10),
        b'a'..=b'f' => Some(character - b'a' + 10),
        _ => None,
    }
}

// One or two hex digits.
pub fn hex(text: &[u8]) -> Option<u8>
    ensures { result ≡ hex_of text.now }
{
    match text {
        [only] => digit(*only),
        [high, low] => Some(digit(*high)? * 16 + digit(*low)?),
        _ => None,
    }
}

// Decimal digits only, as long as the number fits.
pub fn decimal(text: &[u8]) -> Option<u64>
    ensures { result ≡ decimal_of text.now }
{
    if text.is_empty() {
        return None;
    }
    let mut value: u64 = 0;
    for character in text {
        let next = digit(*character)?;
        if next > 9 {
            return None;
        }
        value = value.checked_mul(10)?.checked_add(u64::from(next))?;
    }
    Some(value)
}
