// The kinds of scalars, by their tags. Numbers and not an enum: any byte may come as a tag, one that is not known too, and instructions and the words of a state hold kinds as
// numbers, so each caller would only turn its number into the enum and back.
pub const UNIT: u8 = 0;

pub const BOOL: u8 = 1;

pub const BYTE: u8 = 2;

pub const INT: u8 = 3;

pub const FIXED: u8 = 4;

pub const FLOAT: u8 = 5;

pub const TEXT: u8 = 6;

pub const OPAQUE: u8 = 7;
