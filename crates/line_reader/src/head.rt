// The head of a reader, its six bytes in front of the data: what a byte makes of it, and what it asks to be done with the data.
ghost use Rattle.std.specs.Prelude.{◌≡◌, true, List, [], ℕ, ◌≤◌, ◌<◌};
ghost use Rattle.document.specs.Numbers.{most_data};
ghost use Rattle.line_reader.specs.Reader.{sound, sound_at, data_length, phase_at, silent, opened, stored, finished, literal, stepped};
ghost use Rattle.line_reader.specs.Head.{with_body, reach, head_step};

use codes_table::MOST_DATA_BYTE;
use line_wire::doubling::PLUS;
use line_wire::sum::added;

// Outside an answer, in its data, at its sum byte. A phase is a number, and a flag that waits is one too, since a caller in C lends the
// head as bytes, which may hold anything: `is_sound` says which of them are right.
pub const IDLE: u8 = 0;

pub const DATA: u8 = 1;

pub const SUM: u8 = 2;

// The top bit of a status.
const ERROR: u8 = 0x80;

#[derive(Clone, Copy)]
pub struct Head {
    pub waiting: u8,
    pub phase: u8,
    pub status: u8,
    pub expected: u8,
    pub have: u8,
    pub sum: u8,
}

#[derive(Clone, Copy)]
pub enum Asked {
    Nothing,
    // This data byte goes to this place, 0 to 63.
    Keep { at: u8, byte: u8 },
    // A whole right answer: its data are the first so many.
    Right { status: u8, length: u8 },
    // A whole answer whose sum is wrong.
    Wrong,
}

#[derive(Clone, Copy)]
pub struct Stepped {
    pub next: Head,
    pub asks: Asked,
}

fn data_length(status: u8, expected: u8) -> u8
    ensures { result ≡ data_length status expected }
{
    if status >= ERROR { 0 } else { expected }
}

// Whether a reader that has so many of n data can be in this phase.
fn is_at(phase: u8, have: u8, n: u8) -> bool
    ensures { result ≡ sound_at phase have n }
{
    match phase {
        IDLE => true,
        DATA => have < n,
        SUM => have == n,
        _ => false,
    }
}

fn phase_at(have: u8, n: u8) -> u8
    ensures { result ≡ phase_at have n }
{
    if have < n { DATA } else { SUM }
}

impl Head {
    // Whether the reader is within its bounds; its data may be anything.
    #[tactic(auto, unfolding(crate::specs::Reader::sound))]
    pub fn is_sound(self) -> bool
        ensures { result ≡ sound (with_body self []) }
    {
        let n = data_length(self.status, self.expected);
        self.waiting <= 1 && self.expected <= MOST_DATA_BYTE && is_at(self.phase, self.have, n)
    }

    fn asking(self, asks: Asked) -> Stepped
        ensures { result ≡ record { next = self; asks = asks } }
    {
        Stepped { next: self, asks }
    }

    // A start, whose first literal is the status.
    fn open(mut self, status: u8) -> Head
        ensures { (body : List ℕ) → with_body result body ≡ opened (with_body self body) status }
    {
        self.waiting = 0;
        self.phase = phase_at(0, data_length(status, self.expected));
        self.status = status;
        self.have = 0;
        self.sum = status;
        self
    }

    fn store(mut self, byte: u8) -> Stepped
        requires { self.have < most_data }
        ensures { ((body : List ℕ) → silent (stored (with_body self body) byte) ≡ head_step result body) × (reach result.asks ≤ most_data) }
    {
        let at = self.have;
        self.waiting = 0;
        self.have = at + 1;
        self.sum = added(self.sum, byte);
        self.phase = phase_at(at + 1, data_length(self.status, self.expected));
        self.asking(Asked::Keep { at, byte })
    }

    // The sum byte: data are handed out only where all adds up.
    fn finish(mut self, byte: u8) -> Stepped
        requires { self.have ≤ most_data }
        ensures { ((body : List ℕ) → finished (with_body self body) byte ≡ head_step result body) × (reach result.asks ≤ most_data) }
    {
        self.waiting = 0;
        self.phase = IDLE;
        if added(self.sum, byte) != 0 {
            return self.asking(Asked::Wrong);
        }
        self.asking(Asked::Right {
            status: self.status,
            length: self.have,
        })
    }

    fn take_literal(mut self, byte: u8) -> Stepped
        requires { sound (with_body self []) ≡ true }
        ensures { ((body : List ℕ) → literal (with_body self body) byte ≡ head_step result body) × (reach result.asks ≤ most_data) }
    {
        match self.phase {
            DATA => self.store(byte),
            SUM => self.finish(byte),
            _ => {
                self.waiting = 0;
                self.asking(Asked::Nothing)
            }
        }
    }

    // Who asks has checked the bounds.
    pub fn step(mut self, byte: u8) -> Stepped
        requires { sound (with_body self []) ≡ true }
        ensures { ((body : List ℕ) → stepped (with_body self body) byte ≡ head_step result body) × (reach result.asks ≤ most_data) }
    {
        match (byte == PLUS, self.waiting == 1) {
            (true, false) => {
                self.waiting = 1;
                self.asking(Asked::Nothing)
            }
            (false, true) => self.open(byte).asking(Asked::Nothing),
            (true, true) => self.take_literal(PLUS),
            (false, false) => self.take_literal(byte),
        }
    }
}
