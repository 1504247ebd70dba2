// Strings in memory: a zero ends them, or memory's end.
#![tactic(auto)]

ghost use Rattle.std.specs.Prelude.{◌≡◌, ◌==◌, ◌+◌, ◌≤◌, length};
ghost use Rattle.std.specs.List.{position};
ghost use Rattle.document.specs.Strings.{string_length};

fn first_zero(bytes: &[u8]) -> Option<usize>
    ensures { result ≡ position (λ b. b == 0) bytes.now }
{
    bytes.iter().position(|byte| *byte == 0)
}

// The bytes from `at` on that stand before the first zero, or before memory's end where there is none; who asks has checked the address.
pub fn string_length(memory: &[u8], at: usize) -> usize
    requires { at ≤ length memory.now }
    ensures { (result ≡ string_length memory.now at) × (result + at ≤ length memory.now) }
{
    let bytes = &memory[at..];
    first_zero(bytes).unwrap_or(bytes.len())
}
