// Every limit of document 01, once for the code; specs/Limits.antt has the same names for the definitions.
#![tactic(auto)]

// How many bytes a record has.
pub const RECORD: usize = 16;

// A file is at most this long.
pub const MOST_BYTES: usize = 8192;

// Blocks are numbered below this.
pub const NUMBERS: usize = 128;

// A file has at most this many arms.
pub const MOST_ARMS: usize = 384;

// The marks of an input block are below this: bit 7 is zero.
pub const MARKS: u8 = 128;

// Ends are below this.
pub const ENDS: u8 = 7;

// Tables by block number have this much room: the blocks and their bridges.
pub const BLOCKS: usize = 256;

// Tables by arm have this much room.
pub const ARMS: usize = 512;

// The split place that says that there is none.
pub const NO_SPLIT: u64 = 256;

// A line of the listing has at most this many bytes: four letters, three numbers of three digits, a weight of twenty,
// and what stands behind each.
pub const LINE: usize = 41;

// Its last line has at most this many.
pub const LAST_LINE: usize = 27;

// The listing has at most this many.
pub const TEXT: usize = BLOCKS * LINE + LAST_LINE;
