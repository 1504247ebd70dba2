// The target over lent blocks, and the answers that come back one behind the other.
ghost use Rattle.std.specs.Prelude.{◌≤◌};

use log_gate::{LOG_GATE_MEMORY, LOG_GATE_STATE, log_gate_byte, log_gate_reset, log_gate_tick};

// Room for all answers of a case.
const CAME: usize = 600;

#[derive(Drop)]
pub struct Target {
    state: [u8; LOG_GATE_STATE],
    pub memory: [u8; LOG_GATE_MEMORY],
    came: [u8; CAME],
    // where the answers end
    end: usize,
    ghost within: { end ≤ 600 },
}

impl Target {
    pub fn new() -> Self {
        let mut state = [0u8; LOG_GATE_STATE];
        log_gate_reset(&mut state);
        Target {
            state,
            memory: [0; LOG_GATE_MEMORY],
            came: [0; CAME],
            end: 0,
        }
    }

    fn give_byte(&mut self, byte: u8) {
        let rest = &mut self.came[self.end..];
        let taken = log_gate_byte(&mut self.state, byte, &mut self.memory, rest);
        self.end += taken.length.min(CAME - self.end);
    }

    // Bytes one by one, with their answers behind those that came before.
    pub fn give(&mut self, wire: &[u8]) {
        for byte in wire {
            self.give_byte(*byte);
        }
    }

    pub fn tick(&mut self) {
        log_gate_tick(&mut self.state, &mut self.memory);
    }

    pub fn answers(&self) -> &[u8] {
        &self.came[..self.end]
    }
}
