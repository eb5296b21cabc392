// The word of a shape, as a listing's row has it: the lowest 2 bits say which shape, the next 8 are K, and the others SIZE.
// Numbers and no enum: the word stands in the tables that C lends, and its tag is two bits of it.

pub const TOP: u64 = 0;

pub const SCALAR: u64 = 1;

pub const FLAT: u64 = 2;

// What one of K counts in the word: so many words there are of the lowest bits alone.
pub const KIND: u64 = 4;

// How many K there are.
pub const KINDS: u64 = 256;

// What one of SIZE counts.
pub const SIZE: u64 = KIND * KINDS;
