// The numbers of 01 that the code of every crate takes from here. The proofs tie each to its definition in specs/Limits, so
// that one that is left behind is refused.

// N = 2 to the n symbols, n from 0 to this.
pub const LARGEST_N: usize = 9;

// Bytes of a record's mask.
pub const MASK: usize = 64;

// Bytes of a record of the sheet.
pub const RECORD: usize = 4 + MASK;

// The most positions: one for each bit of a mask.
pub const POSITIONS: usize = 8 * MASK;

// The same numbers of the sheets before W-206, which are only converted.
pub const OLD_LARGEST_N: usize = 7;

// Bytes of the mask of an old record.
pub const OLD_MASK: usize = 16;

// Bytes of an old record.
pub const OLD_RECORD: usize = 4 + OLD_MASK;

// The most positions of an old sheet.
pub const OLD_POSITIONS: usize = 8 * OLD_MASK;

// The ceiling on unknowns is 0 to this.
pub const LARGEST_CEILING: usize = 255;

// Bytes of a strip of an answer record.
pub const WIDTH: usize = 512;

// Bytes of an answer record before its strips.
pub const HEAD: usize = 16;

// Bytes of the strips of an answer record.
pub const STRIPS: usize = 3 * WIDTH;

// Bytes of an answer record.
pub const ANSWER: usize = HEAD + STRIPS;
