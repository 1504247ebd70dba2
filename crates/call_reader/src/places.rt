// Where the parts of a reader's block begin; docs/STATE.md has the same as a table.
use codes_table::MOST_DATA;

// The data of an answer, behind the head.
pub const BODY: usize = 6;

pub const READER_LENGTH: usize = BODY + MOST_DATA;
