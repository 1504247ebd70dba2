// What a part's definitions come to, in one pass over the bytes where they stand.
#![tactic(auto)]

ghost use Rattle.std.specs.Prelude.{◌≡◌, true, ◌+◌, ◌*◌, ◌≤◌, length, drop};
ghost use Rattle.document.specs.Variables.{definition_width, definitions_in, count_in, variables_in};
ghost use Rattle.variables_definitions.specs.Parts.{is_whole};
ghost use Rattle.variables_surveys.specs.Survey.{looked_at, surveyed};

use document::Variable;
use memory_ranges::within;
use variables_definitions::{Reader, address_width};

// Whether a size is 0, whether each variable ends at or below a limit, and the sum of the sizes.
#[derive(Clone, Copy)]
pub struct Surveyed {
    pub zero: bool,
    pub within: bool,
    pub size: usize,
}

// The length is the one that the count gives.
pub fn is_whole(part: &[u8], ex: bool) -> bool
    ensures { result ≡ is_whole ex part.now }
{
    !part.is_empty() && part.len() == 1 + usize::from(part[0]) * (1 + address_width(ex))
}

// With one definition more. Seven before it add up to no more than 1,785 bytes.
fn looked_at(before: Surveyed, found: Variable, limit: usize) -> Surveyed
    requires { before.size ≤ 1785 }
    ensures { (result ≡ looked_at limit before found) × (result.size ≤ before.size + 255) }
{
    let size = usize::from(found.size);
    Surveyed {
        zero: before.zero || size == 0,
        within: before.within && within(found.address, size, limit),
        size: before.size + size,
    }
}

// One reader reads all definitions of a part that holds them.
fn survey_all(part: &[u8], count: usize, ex: bool, limit: usize) -> Surveyed
    requires { (count ≤ 8) × (1 + count * definition_width ex ≤ length part.now) }
    ensures { (result ≡ surveyed limit (definitions_in ex count (drop 1 part.now))) × (result.size ≤ 2040) }
{
    let reader = Reader { part, at: 1, ex };
    let mut seen = Surveyed {
        zero: false,
        within: true,
        size: 0,
    };
    for found in reader.take(count) {
        seen = looked_at(seen, found, limit);
    }
    seen
}

// Who asks has found the part whole, and its count no more than eight.
pub fn survey(part: &[u8], ex: bool, limit: usize) -> Surveyed
    requires { (is_whole ex part.now ≡ true) × (count_in part.now ≤ 8) }
    ensures { (result ≡ surveyed limit (variables_in ex part.now)) × (result.size ≤ 2040) }
{
    survey_all(part, usize::from(part[0]), ex, limit)
}
