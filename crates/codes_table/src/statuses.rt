// The statuses of an answer, named as the definitions name them.
ghost use Rattle.std.specs.Prelude.{◌≡◌};
ghost use Rattle.codes_table.specs.Statuses.{status_number, outcome_number};

// The status where nothing else is to be said: it stands for an `Ok`.
pub const DONE: u8 = 0x00;

// What is told in place of done: why a command changes nothing, and, where it is asked, whether the recorder runs.
#[derive(Clone, Copy, PartialEq, Eq)]
pub enum Status {
    RecorderRuns = 0x01,
    RecorderStopped = 0x02,
    NotServed = 0x81,
    SumWrong = 0x82,
    MessageTooLong = 0x83,
    AnswerTooLong = 0x84,
    LayoutWrong = 0x85,
    SizeWrong = 0x86,
    Busy = 0x87,
    NotSetUp = 0x88,
    RangeWrong = 0x89,
}

// The ends of the two rows of statuses, successes from done on and errors, and one that is told where nothing else can go wrong.
pub const RECORDER_STOPPED: u8 = Status::RecorderStopped as u8;

pub const NOT_SERVED: u8 = Status::NotServed as u8;

pub const RANGE_WRONG: u8 = Status::RangeWrong as u8;

pub const LAYOUT_WRONG: u8 = Status::LayoutWrong as u8;

impl From<Status> for u8 {
    ghost from_gives = { λ status byte. byte ≡ status_number status };

    fn from(status: Status) -> u8 {
        status as u8
    }
}

// The status byte that tells what a command came to.
pub fn outcome_number(outcome: Result<(), Status>) -> u8
    ensures { result ≡ outcome_number outcome }
{
    match outcome {
        Ok(()) => DONE,
        Err(status) => u8::from(status),
    }
}
