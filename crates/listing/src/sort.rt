// What may stand at a number of a format: one byte of the format says which numbers it admits. No enum: these bytes stand among those of texts,
// in constant tables.
pub const BITS_8: u8 = 128;

pub const BITS_16: u8 = 129;

pub const BITS_32: u8 = 130;

pub const WIDTH: u8 = 131;

pub const ADDRESS: u8 = 132;

pub const CONSTANT: u8 = 133;

pub const SCALAR: u8 = 134;

pub const COMPOSITE: u8 = 135;

pub const FLOAT_WIDTH: u8 = 136;

pub const SHAPE: u8 = 140;

pub const SHAPES: u8 = 141;
