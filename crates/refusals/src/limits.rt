// The limits of document 01, as specs/Limits.antt has them.

// Bytes of a text.
pub const TEXT_LIMIT: usize = 16_384;

// Levels of objects or of blocks.
pub const LEVEL_LIMIT: usize = 16;

// Items of a list.
pub const ITEM_LIMIT: usize = 16;

// Records of a table, its header among them: no record has this number.
pub const RECORD_LIMIT: usize = 2_048;

// Bytes of a table's pool.
pub const POOL_LIMIT: usize = 16_384;

// Bytes of a type or a name, of a code without its brackets, and of a string without its quotes.
pub const NAME_LIMIT: usize = 63;

pub const CODE_LIMIT: usize = 31;

pub const STRING_LIMIT: usize = 255;
