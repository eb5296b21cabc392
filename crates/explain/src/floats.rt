// Lines that name kind 5, the float, in a listing whose first line says F 0. Any bytes: a line of another form is taken for none.

// Where F stands in a first line, whose W has one digit.
const FLOAT_PLACE: usize = 10;

// How the flat reads of a field begin, up to their offset.
const FIELD_READS: [&[u8]; 3] = [
    b"(op GetField Flat ",
    b"(op GetTupleField Flat ",
    b"(op GetEnumField Flat ",
];

fn are_lacking(listing: &[u8]) -> bool {
    matches!(listing.get(FLOAT_PLACE), Some(b'0'))
}

fn without_digits(text: &[u8]) -> &[u8] {
    let digits = text.iter().position(|byte| !byte.is_ascii_digit());
    &text[digits.unwrap_or(text.len())..]
}

fn is_field_read(line: &[u8]) -> bool {
    let Some(offset) = FIELD_READS.iter().find_map(|read| line.strip_prefix(*read)) else {
        return false;
    };
    let kind = without_digits(offset);
    kind.len() < offset.len() && kind.starts_with(b" 5)\n")
}

// Whether a line is an op that names it. What follows the line may stand behind it.
pub fn is_op(listing: &[u8], line: &[u8]) -> bool {
    are_lacking(listing) && (line.starts_with(b"(op GetIndex Flat 5)\n") || is_field_read(line))
}

// Whether it is a shared entry of that kind.
pub fn is_entry(listing: &[u8], line: &[u8]) -> bool {
    let Some(offset) = line.strip_prefix(b"(shared ") else {
        return false;
    };
    are_lacking(listing) && without_digits(offset).starts_with(b" 5 ")
}
