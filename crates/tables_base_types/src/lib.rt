// The base types: a table of their codes, and of how many bytes a value of each takes.
#![tactic(auto)]

ghost use Rattle.std.specs.Prelude.{◌≡◌};
ghost use Rattle.document.specs.BaseTypes.{size_of_code};

// A code and its size, in the document's order.
static BASE_TYPES: [(u8, u8); 14] = [
    (0xE0, 1),
    (0xF0, 1),
    (0xE1, 2),
    (0xF1, 2),
    (0xE5, 2),
    (0xF5, 2),
    (0xE2, 4),
    (0xF2, 4),
    (0xE6, 4),
    (0xF6, 4),
    (0xFA, 4),
    (0xE3, 8),
    (0xF3, 8),
    (0xFB, 8),
];

// The size of the base type with this code, or 0 for any other code, as the definition has it.
pub fn size_of(code: u8) -> u8
    ensures { result ≡ size_of_code code }
{
    for (base, size) in &BASE_TYPES {
        if *base == code {
            return *size;
        }
    }
    0
}
