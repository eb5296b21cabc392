// The kinds of composites, by their tags: numbers, as those of scalars.
pub const TUPLE: u8 = 0;

pub const ARRAY: u8 = 1;

pub const STRUCT: u8 = 2;

pub const ENUM: u8 = 3;
