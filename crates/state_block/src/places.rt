// Where the parts of a target's state lie in its block: each begins where the one before it ends, and a new part is appended.
// docs/STATE.md has the same as a table.
use bytes_fields::DEFINITION_WIDTH;
use codes_table::MOST_DATA;
use tables_state::LIST_LENGTH;
use variables_list::MOST_VARIABLES;

const RECEIVER_LENGTH: usize = 6;

// A count, then eight definitions.
const VARIABLES_LENGTH: usize = 1 + MOST_VARIABLES * DEFINITION_WIDTH;

// The data of the message that the receiver is in.
pub const BODY: usize = RECEIVER_LENGTH;

pub const SCOPE: usize = BODY + MOST_DATA;

pub const SCOPE_DEFINITIONS: usize = SCOPE + 1;

// The recorder: whether it is ready, its plan, and its run.
pub const READY: usize = SCOPE + VARIABLES_LENGTH;

pub const MODE: usize = READY + 1;

pub const SAMPLES: usize = MODE + 1;

pub const POST_TRIGGER: usize = SAMPLES + 2;

pub const DIVIDER: usize = POST_TRIGGER + 2;

pub const TRIGGER_ADDRESS: usize = DIVIDER + 2;

pub const TRIGGER_SIZE: usize = TRIGGER_ADDRESS + 4;

pub const SIGN: usize = TRIGGER_SIZE + 1;

pub const THRESHOLD: usize = SIGN + 1;

pub const RECORDED: usize = THRESHOLD + 4;

pub const RECORDED_DEFINITIONS: usize = RECORDED + 1;

pub const RUNNING: usize = RECORDED + VARIABLES_LENGTH;

pub const FULL: usize = RUNNING + 1;

pub const WATCH: usize = FULL + 1;

pub const WAIT: usize = WATCH + 1;

pub const PLACE: usize = WAIT + 2;

pub const VALUE: usize = PLACE + 2;

// The application command: its phase, how many bytes it has, its result, and 64 bytes.
pub const APPLICATION: usize = VALUE + 4;

pub const COUNT: usize = APPLICATION + 1;

pub const RESULT: usize = COUNT + 1;

pub const COMMAND: usize = RESULT + 1;

// The registered tables: how many, and 64 bytes that begin with their list.
pub const TABLES: usize = COMMAND + MOST_DATA;

pub const LIST: usize = TABLES + 1;

// How many bytes a target's state takes.
pub const STATE_LENGTH: usize = LIST + LIST_LENGTH;
