// How long the lent blocks are, under the names of the header.
pub const LOG_GATE_STATE: usize = state_block::STATE_LENGTH;

pub const LOG_GATE_READER: usize = call_reader::READER_LENGTH;

pub const LOG_GATE_MEMORY: usize = memory_ranges::MEMORY_END;

pub const LOG_GATE_ANSWER_ROOM: usize = codes_table::ANSWER_ROOM;

pub const LOG_GATE_MODBUS_ROOM: usize = call_modbus::ROOM;
