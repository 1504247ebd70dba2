// What the receiver does with a byte, whatever its state: it waits, opens a message, or takes a literal.
ghost use Rattle.std.specs.Prelude.{◌≡◌};
ghost use Rattle.line_receiver.specs.Step.{plus, next_phase, more, opened, measured, counted, closed, after_literal, literal_event, after_byte, byte_event, stepped};

use crate::{DATA_NEXT, Event, IDLE, LENGTH_NEXT, Reaction, Receiver, SUM_NEXT};
use codes_table::{FIRST_FAST, MOST_DATA_BYTE, fast_length};
use line_wire::doubling::PLUS;
use line_wire::sum::added;

// 1 for a 0x2B, 0 for any other byte.
fn plus_of(byte: u8) -> u8
    ensures { result ≡ plus byte }
{
    u8::from(byte == PLUS)
}

fn next_phase(have: u8, length: u8) -> u8
    ensures { result ≡ next_phase have length }
{
    if have < length { DATA_NEXT } else { SUM_NEXT }
}

// One more, where one is to come: within the bounds it is.
fn more(have: u8, length: u8) -> u8
    ensures { result ≡ more have length }
{
    if have < length { have + 1 } else { have }
}

impl Receiver {
    fn open(mut self, command: u8) -> Receiver
        ensures { result ≡ opened command }
    {
        self.waiting = 0;
        self.command = command;
        self.have = 0;
        self.sum = command;
        if command < FIRST_FAST {
            self.length = 0;
            self.phase = LENGTH_NEXT;
            return self;
        }
        self.length = fast_length(command);
        self.phase = next_phase(0, self.length);
        self
    }

    fn measure(mut self, length: u8) -> Receiver
        ensures { result ≡ measured self length }
    {
        self.sum = added(self.sum, length);
        self.length = length;
        self.phase = next_phase(self.have, length);
        self
    }

    fn count(mut self, byte: u8) -> Receiver
        ensures { result ≡ counted self byte }
    {
        self.sum = added(self.sum, byte);
        self.have = more(self.have, self.length);
        self.phase = next_phase(self.have, self.length);
        self
    }

    fn close(mut self, byte: u8) -> Receiver
        ensures { result ≡ closed self byte }
    {
        self.sum = added(self.sum, byte);
        self.phase = IDLE;
        self
    }

    fn after_literal(self, byte: u8) -> Receiver
        ensures { result ≡ after_literal self byte }
    {
        match self.phase {
            DATA_NEXT => self.count(byte),
            SUM_NEXT => self.close(byte),
            LENGTH_NEXT => self.measure(byte),
            _ => self,
        }
    }

    fn literal_event(self, byte: u8) -> Event
        ensures { result ≡ literal_event self byte }
    {
        match self.phase {
            DATA_NEXT if self.have < MOST_DATA_BYTE => Event::Keep {
                at: self.have,
                byte,
            },
            SUM_NEXT => Event::Whole {
                command: self.command,
                length: self.length,
                sum: added(self.sum, byte),
            },
            _ => Event::Nothing,
        }
    }

    #[tactic(auto, unfolding(crate::specs::Step::after_byte))]
    fn after_byte(mut self, byte: u8) -> Receiver
        ensures { result ≡ after_byte self byte }
    {
        let plus = plus_of(byte);
        if plus == self.waiting {
            self.waiting = 0;
            return self.after_literal(byte);
        }
        if plus == 1 {
            self.waiting = 1;
            return self;
        }
        self.open(byte)
    }

    #[tactic(auto, unfolding(crate::specs::Step::byte_event))]
    fn byte_event(self, byte: u8) -> Event
        ensures { result ≡ byte_event self byte }
    {
        if plus_of(byte) == self.waiting {
            return self.literal_event(byte);
        }
        Event::Nothing
    }

    // A byte of the line. Any state is safe; who holds the whole state has checked its bounds. State and event are made apart
    // and put together once: that compiles to half the instructions of an answer made in each branch.
    #[tactic(auto, unfolding(crate::specs::Step::stepped))]
    pub fn step(self, byte: u8) -> Reaction
        ensures { result ≡ stepped self byte }
    {
        Reaction {
            next: self.after_byte(byte),
            event: self.byte_event(byte),
        }
    }
}
