// Why a call refuses, with the numbers that the document gives.
ghost use Rattle.std.specs.Prelude.{◌≡◌};
ghost use Rattle.codes_table.specs.Calls.{refusal_number, taken_number};

pub const TAKEN: u8 = 0;

// What a call finds wrong, lowest number first.
#[derive(Clone, Copy, PartialEq, Eq)]
pub enum Refusal {
    State = 1,
    Memory = 2,
    Room = 3,
    Form = 4,
    Expected = 5,
    Sum = 6,
    Report = 7,
    List = 8,
    Station = 9,
}

impl From<Refusal> for u8 {
    ghost from_gives = { λ refusal byte. byte ≡ refusal_number refusal };

    fn from(refusal: Refusal) -> u8 {
        refusal as u8
    }
}

// The number that a call gives at the C interface.
pub fn taken_number(taken: Result<(), Refusal>) -> u8
    ensures { result ≡ taken_number taken }
{
    match taken {
        Ok(()) => TAKEN,
        Err(refusal) => u8::from(refusal),
    }
}
