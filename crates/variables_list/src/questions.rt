// What is asked of the count of variables.
ghost use Rattle.std.specs.Prelude.{◌≡◌};
ghost use Rattle.document.specs.Variables.{count_wrong};

use crate::MOST_VARIABLES;

pub fn is_count_wrong(count: u8) -> bool
    ensures { result ≡ count_wrong count }
{
    count == 0 || usize::from(count) > MOST_VARIABLES
}
