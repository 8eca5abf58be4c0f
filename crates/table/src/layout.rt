// The layout of a record, the kinds by name, and the room that the largest table's records and pool need.
use refusals::limits::{POOL_LIMIT, RECORD_LIMIT};

// How many numbers a record has, their bytes, and the bytes before them: the mark, the kind and the flag.
const FIELD_COUNT: usize = 5;

const NUMBER_SIZE: usize = 4;

const HEAD_SIZE: usize = 4;

// Bytes of a record.
pub const RECORD_SIZE: usize = HEAD_SIZE + NUMBER_SIZE * FIELD_COUNT;

// Where its kind, its flag and its numbers stand.
pub const KIND_AT: usize = 2;

pub const FLAG_AT: usize = 3;

pub const A_AT: usize = HEAD_SIZE;

pub const B_AT: usize = A_AT + NUMBER_SIZE;

pub const C_AT: usize = B_AT + NUMBER_SIZE;

pub const D_AT: usize = C_AT + NUMBER_SIZE;

pub const E_AT: usize = D_AT + NUMBER_SIZE;

// The mark, as a number of 16 bits in the record's own order.
pub const MARK: u32 = 0xC0AD;

// The kinds of records.
pub const HEADER_KIND: u8 = 0;

pub const OBJECT_KIND: u8 = 1;

pub const ATTRIBUTE_KIND: u8 = 2;

pub const BOOLEAN_KIND: u8 = 3;

pub const INTEGER_KIND: u8 = 4;

pub const STRING_KIND: u8 = 5;

pub const DATE_PATTERN_KIND: u8 = 6;

pub const DATE_KIND: u8 = 7;

pub const TIME_PATTERN_KIND: u8 = 8;

pub const DURATION_PATTERN_KIND: u8 = 9;

// Bytes of the records and of the pool of the largest table.
pub const RECORDS_ROOM: usize = RECORD_SIZE * RECORD_LIMIT;

pub const POOL_ROOM: usize = POOL_LIMIT;
