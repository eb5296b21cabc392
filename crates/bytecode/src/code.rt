// The code of each op: the number of its row in the table of names. A name with variants has a code for each. They are numbers and no enum, since a
// rule of the project asks for one decision over codes and ranges of codes, giving need and net, and for a constant table of packed names.
pub const CONST: u8 = 0;

pub const GET_LOCAL: u8 = 1;

pub const GET_DATA: u8 = 2;

pub const PUSH_IMMEDIATE: u8 = 3;

pub const DUP: u8 = 4;

pub const SET_LOCAL: u8 = 5;

pub const SET_DATA: u8 = 6;

pub const GET_DATA_INDEXED: u8 = 7;

pub const SET_DATA_INDEXED: u8 = 8;

pub const BOUNDS_CHECK: u8 = 9;

pub const GET_INDEX_FLAT: u8 = 10;

pub const GET_INDEX_FLAT_NESTED: u8 = 11;

pub const GET_INDEX_BOXED: u8 = 12;

pub const ADD: u8 = 13;

pub const SUB: u8 = 14;

pub const MUL: u8 = 15;

pub const CMP_EQ: u8 = 16;

pub const CMP_NE: u8 = 17;

pub const CMP_LT: u8 = 18;

pub const CMP_GT: u8 = 19;

pub const CMP_LE: u8 = 20;

pub const CMP_GE: u8 = 21;

pub const BIT_AND: u8 = 22;

pub const BIT_OR: u8 = 23;

pub const BIT_XOR: u8 = 24;

pub const SHL: u8 = 25;

pub const SHR: u8 = 26;

pub const FIXED_MUL: u8 = 27;

pub const NEG: u8 = 28;

pub const NOT: u8 = 29;

pub const INT_TO_FLOAT: u8 = 30;

pub const FLOAT_TO_INT: u8 = 31;

pub const WORD_TO_BYTE: u8 = 32;

pub const BYTE_TO_WORD: u8 = 33;

pub const WORD_TO_FIXED: u8 = 34;

pub const FIXED_TO_WORD: u8 = 35;

pub const GET_FIELD_FLAT: u8 = 36;

pub const GET_FIELD_FLAT_NESTED: u8 = 37;

pub const GET_FIELD_BOXED: u8 = 38;

pub const GET_TUPLE_FIELD_FLAT: u8 = 39;

pub const GET_TUPLE_FIELD_FLAT_NESTED: u8 = 40;

pub const GET_TUPLE_FIELD_BOXED: u8 = 41;

pub const GET_ENUM_FIELD_FLAT: u8 = 42;

pub const GET_ENUM_FIELD_FLAT_NESTED: u8 = 43;

pub const GET_ENUM_FIELD_BOXED: u8 = 44;

pub const LEN: u8 = 45;

pub const YIELD: u8 = 46;

pub const IS_ENUM: u8 = 47;

pub const IS_STRUCT: u8 = 48;

pub const CALL: u8 = 49;

pub const CALL_VERIFIED_NATIVE: u8 = 50;

pub const CALL_EXTERNAL_NATIVE: u8 = 51;

pub const NEW_COMPOSITE_FLAT: u8 = 52;

pub const NEW_COMPOSITE_BOXED: u8 = 53;

pub const DIV: u8 = 54;

pub const MOD: u8 = 55;

pub const FIXED_DIV: u8 = 56;

pub const CHECKED_ADD: u8 = 57;

pub const CHECKED_SUB: u8 = 58;

pub const CHECKED_MOD: u8 = 59;

pub const CHECKED_MUL: u8 = 60;

pub const CHECKED_DIV: u8 = 61;

pub const CHECKED_NEG: u8 = 62;

pub const POP_N: u8 = 63;

pub const TRAP: u8 = 64;

pub const IF: u8 = 65;

pub const BREAK_IF: u8 = 66;

pub const ELSE: u8 = 67;

pub const END_IF: u8 = 68;

pub const LOOP: u8 = 69;

pub const END_LOOP: u8 = 70;

pub const BREAK: u8 = 71;

pub const STREAM: u8 = 72;

pub const RESET: u8 = 73;

pub const RETURN: u8 = 74;
