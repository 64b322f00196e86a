// The kinds of keys: the first of the cells that a key takes.
pub const ALL: u64 = 1;

pub const FLAG: u64 = 2;

pub const LARGER: u64 = 3;

pub const SMALLER: u64 = 4;

pub const UIDS: u64 = 5;

pub const NUMBERS: u64 = 6;

pub const UNSUPPORTED: u64 = 7;
// Those from here on hold keys.
pub const NOT: u64 = 8;

pub const OR: u64 = 9;

pub const LIST: u64 = 10;
