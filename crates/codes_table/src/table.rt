// The one table of all 256 commands: for each the number of its row. It is a static, in read-only memory, so that no look builds it,
// and each entry is a byte, since what a row says stands once, in crates/codes_rows.
ghost use Rattle.std.specs.Prelude.{◌≡◌};
ghost use Rattle.document.specs.Services.{service_of};
ghost use Rattle.codes_rows.specs.Rows.{row_number};
ghost use Rattle.codes_table.specs.Table.{length_of};
ghost use Rattle.codes_rows.specs.Rule.{entry_of};

use crate::reading::{length_in, service_in};
use codes_rows::row;
use codes_rows::rows::{
    BRIEF_DESCRIPTION, BUFFER_QUERY, BUFFER_QUERY_EX, COMMAND, DESCRIPTION, NONE, NONE_0, NONE_2,
    NONE_4, NONE_6, READ_1, READ_1_EX, READ_2, READ_2_EX, READ_4, READ_4_EX, READ_BLOCK,
    READ_BLOCK_EX, RECORDER_SETUP, RECORDER_SETUP_EX, RECORDER_START, RECORDER_STATUS,
    RECORDER_STOP, RESULT, SCOPE_READ, SCOPE_SETUP, SCOPE_SETUP_EX, STRING_LENGTH,
    STRING_LENGTH_EX, TABLE, WRITE_1, WRITE_2, WRITE_4, WRITE_BLOCK, WRITE_BLOCK_EX,
    WRITE_MASKED_1, WRITE_MASKED_2, WRITE_MASKED_BLOCK, WRITE_MASKED_BLOCK_EX,
};
use document::Service;

static ROWS: [u8; 256] = [
    NONE, // 0x00
    READ_BLOCK, // 0x01
    WRITE_BLOCK, // 0x02
    WRITE_MASKED_BLOCK, // 0x03
    READ_BLOCK_EX, // 0x04
    WRITE_BLOCK_EX, // 0x05
    WRITE_MASKED_BLOCK_EX, // 0x06
    NONE, // 0x07
    SCOPE_SETUP, // 0x08
    RECORDER_SETUP, // 0x09
    SCOPE_SETUP_EX, // 0x0A
    RECORDER_SETUP_EX, // 0x0B
    NONE, // 0x0C
    NONE, // 0x0D
    NONE, // 0x0E
    NONE, // 0x0F
    COMMAND, // 0x10
    TABLE, // 0x11
    NONE, // 0x12
    NONE, // 0x13
    NONE, // 0x14
    NONE, // 0x15
    NONE, // 0x16
    NONE, // 0x17
    NONE, // 0x18
    NONE, // 0x19
    NONE, // 0x1A
    NONE, // 0x1B
    NONE, // 0x1C
    NONE, // 0x1D
    NONE, // 0x1E
    NONE, // 0x1F
    NONE, // 0x20
    NONE, // 0x21
    NONE, // 0x22
    NONE, // 0x23
    NONE, // 0x24
    NONE, // 0x25
    NONE, // 0x26
    NONE, // 0x27
    NONE, // 0x28
    NONE, // 0x29
    NONE, // 0x2A
    NONE, // 0x2B
    NONE, // 0x2C
    NONE, // 0x2D
    NONE, // 0x2E
    NONE, // 0x2F
    NONE, // 0x30
    NONE, // 0x31
    NONE, // 0x32
    NONE, // 0x33
    NONE, // 0x34
    NONE, // 0x35
    NONE, // 0x36
    NONE, // 0x37
    NONE, // 0x38
    NONE, // 0x39
    NONE, // 0x3A
    NONE, // 0x3B
    NONE, // 0x3C
    NONE, // 0x3D
    NONE, // 0x3E
    NONE, // 0x3F
    NONE, // 0x40
    NONE, // 0x41
    NONE, // 0x42
    NONE, // 0x43
    NONE, // 0x44
    NONE, // 0x45
    NONE, // 0x46
    NONE, // 0x47
    NONE, // 0x48
    NONE, // 0x49
    NONE, // 0x4A
    NONE, // 0x4B
    NONE, // 0x4C
    NONE, // 0x4D
    NONE, // 0x4E
    NONE, // 0x4F
    NONE, // 0x50
    NONE, // 0x51
    NONE, // 0x52
    NONE, // 0x53
    NONE, // 0x54
    NONE, // 0x55
    NONE, // 0x56
    NONE, // 0x57
    NONE, // 0x58
    NONE, // 0x59
    NONE, // 0x5A
    NONE, // 0x5B
    NONE, // 0x5C
    NONE, // 0x5D
    NONE, // 0x5E
    NONE, // 0x5F
    NONE, // 0x60
    NONE, // 0x61
    NONE, // 0x62
    NONE, // 0x63
    NONE, // 0x64
    NONE, // 0x65
    NONE, // 0x66
    NONE, // 0x67
    NONE, // 0x68
    NONE, // 0x69
    NONE, // 0x6A
    NONE, // 0x6B
    NONE, // 0x6C
    NONE, // 0x6D
    NONE, // 0x6E
    NONE, // 0x6F
    NONE, // 0x70
    NONE, // 0x71
    NONE, // 0x72
    NONE, // 0x73
    NONE, // 0x74
    NONE, // 0x75
    NONE, // 0x76
    NONE, // 0x77
    NONE, // 0x78
    NONE, // 0x79
    NONE, // 0x7A
    NONE, // 0x7B
    NONE, // 0x7C
    NONE, // 0x7D
    NONE, // 0x7E
    NONE, // 0x7F
    NONE, // 0x80
    NONE, // 0x81
    NONE, // 0x82
    NONE, // 0x83
    NONE, // 0x84
    NONE, // 0x85
    NONE, // 0x86
    NONE, // 0x87
    NONE, // 0x88
    NONE, // 0x89
    NONE, // 0x8A
    NONE, // 0x8B
    NONE, // 0x8C
    NONE, // 0x8D
    NONE, // 0x8E
    NONE, // 0x8F
    NONE, // 0x90
    NONE, // 0x91
    NONE, // 0x92
    NONE, // 0x93
    NONE, // 0x94
    NONE, // 0x95
    NONE, // 0x96
    NONE, // 0x97
    NONE, // 0x98
    NONE, // 0x99
    NONE, // 0x9A
    NONE, // 0x9B
    NONE, // 0x9C
    NONE, // 0x9D
    NONE, // 0x9E
    NONE, // 0x9F
    NONE, // 0xA0
    NONE, // 0xA1
    NONE, // 0xA2
    NONE, // 0xA3
    NONE, // 0xA4
    NONE, // 0xA5
    NONE, // 0xA6
    NONE, // 0xA7
    NONE, // 0xA8
    NONE, // 0xA9
    NONE, // 0xAA
    NONE, // 0xAB
    NONE, // 0xAC
    NONE, // 0xAD
    NONE, // 0xAE
    NONE, // 0xAF
    NONE, // 0xB0
    NONE, // 0xB1
    NONE, // 0xB2
    NONE, // 0xB3
    NONE, // 0xB4
    NONE, // 0xB5
    NONE, // 0xB6
    NONE, // 0xB7
    NONE, // 0xB8
    NONE, // 0xB9
    NONE, // 0xBA
    NONE, // 0xBB
    NONE, // 0xBC
    NONE, // 0xBD
    NONE, // 0xBE
    NONE, // 0xBF
    DESCRIPTION, // 0xC0
    RECORDER_START, // 0xC1
    RECORDER_STOP, // 0xC2
    RECORDER_STATUS, // 0xC3
    BUFFER_QUERY, // 0xC4
    SCOPE_READ, // 0xC5
    RESULT, // 0xC6
    NONE_0, // 0xC7
    BRIEF_DESCRIPTION, // 0xC8
    BUFFER_QUERY_EX, // 0xC9
    NONE_0, // 0xCA
    NONE_0, // 0xCB
    NONE_0, // 0xCC
    NONE_0, // 0xCD
    NONE_0, // 0xCE
    NONE_0, // 0xCF
    READ_1, // 0xD0
    READ_2, // 0xD1
    READ_4, // 0xD2
    NONE_2, // 0xD3
    STRING_LENGTH, // 0xD4
    NONE_2, // 0xD5
    NONE_2, // 0xD6
    NONE_2, // 0xD7
    NONE_2, // 0xD8
    NONE_2, // 0xD9
    NONE_2, // 0xDA
    NONE_2, // 0xDB
    NONE_2, // 0xDC
    NONE_2, // 0xDD
    NONE_2, // 0xDE
    NONE_2, // 0xDF
    READ_1_EX, // 0xE0
    READ_2_EX, // 0xE1
    READ_4_EX, // 0xE2
    WRITE_1, // 0xE3
    WRITE_2, // 0xE4
    WRITE_MASKED_1, // 0xE5
    STRING_LENGTH_EX, // 0xE6
    NONE_4, // 0xE7
    NONE_4, // 0xE8
    NONE_4, // 0xE9
    NONE_4, // 0xEA
    NONE_4, // 0xEB
    NONE_4, // 0xEC
    NONE_4, // 0xED
    NONE_4, // 0xEE
    NONE_4, // 0xEF
    WRITE_4, // 0xF0
    WRITE_MASKED_2, // 0xF1
    NONE_6, // 0xF2
    NONE_6, // 0xF3
    NONE_6, // 0xF4
    NONE_6, // 0xF5
    NONE_6, // 0xF6
    NONE_6, // 0xF7
    NONE_6, // 0xF8
    NONE_6, // 0xF9
    NONE_6, // 0xFA
    NONE_6, // 0xFB
    NONE_6, // 0xFC
    NONE_6, // 0xFD
    NONE_6, // 0xFE
    NONE_6, // 0xFF
];

fn row_number(command: u8) -> u8
    ensures { result ≡ row_number command }
{
    ROWS[usize::from(command)]
}

fn entry(command: u8) -> u16
    ensures { result ≡ entry_of command }
{
    row(row_number(command))
}

// How many data bytes a command has, or None where the next literal tells it.
pub fn data_length(command: u8) -> Option<u8>
    ensures { result ≡ length_of command }
{
    length_in(entry(command))
}

pub fn service_of(command: u8) -> Service
    ensures { result ≡ service_of command }
{
    service_in(entry(command))
}
