// The words of shapes and of op lines, for whoever reads or writes them; those of the other lines stand in the formats.
pub const TOP: [u8; 6] = *b" (top)";

pub const SCALAR: [u8; 8] = *b" (scalar";

pub const FLAT: [u8; 6] = *b" (flat";

pub const OP: [u8; 4] = *b"(op ";

pub const CLOSE: [u8; 1] = *b")";
