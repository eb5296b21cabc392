// The lines of a listing, any bytes: each with its line feed, which the last may lack.
ghost use Rattle.std.specs.Prelude.{◌≡◌, ◌≤◌, ◌-◌, length};

use text_out::Text;

// The sorts of lines that the check keeps in tables, and all others.
#[derive(Clone, Copy, PartialEq, Eq)]
pub enum Sort {
    SlotShared,
    SlotPrivate,
    Shared,
    Private,
    Enum,
    Native,
    Sig,
    Chunk,
    Const,
    Op,
    Other,
}

pub const SORTS: usize = Sort::Other as usize + 1;

// How the lines of each sort begin. Said again here, as the numbers below: explain promises that it is safe alone and stands on text_out, so that no change
// of the check proves it again; and listing's texts have no space behind them, and none for an op.
// No form begins as another does, and most lines are ops.
const FORMS: [(&[u8], Sort); 10] = [
    (b"(op ", Sort::Op),
    (b"(slot shared)", Sort::SlotShared),
    (b"(slot private)", Sort::SlotPrivate),
    (b"(shared ", Sort::Shared),
    (b"(private ", Sort::Private),
    (b"(enum ", Sort::Enum),
    (b"(native ", Sort::Native),
    (b"(sig ", Sort::Sig),
    (b"(chunk ", Sort::Chunk),
    (b"(const ", Sort::Const),
];

// A sig line with 16 parameters opens 19 brackets: its own, two of its results, and those of the parameters.
const MOST_BRACKETS: usize = 19;

const MOST_LOCALS: u32 = 32;

// The most bytes of a line that are shown.
const SHOWN: usize = 120;

impl Sort {
    pub fn of(line: &[u8]) -> Sort {
        // The second byte first: most forms differ there.
        FORMS
            .iter()
            .find(|(form, _)| line.get(1) == form.get(1) && line.starts_with(*form))
            .map_or(Sort::Other, |(_, sort)| *sort)
    }

    // How many lines of it a listing may have, of both sorts of slot together.
    pub fn room(self) -> Option<u64> {
        match self {
            Sort::SlotShared | Sort::SlotPrivate | Sort::Shared | Sort::Private => Some(256),
            Sort::Enum | Sort::Native | Sort::Sig | Sort::Chunk => Some(64),
            Sort::Const => Some(1024),
            Sort::Op => Some(4096),
            Sort::Other => None,
        }
    }
}

pub fn is_line_feed(byte: &u8) -> bool {
    *byte == b'\n'
}

// What a line may have, and a terminal be sent.
fn is_printable(byte: u8) -> bool {
    matches!(byte, b' '..=b'~')
}

// A line, by the listing from it on: its end is looked for where it counts.
#[derive(Clone, Copy)]
pub struct Line<'a> {
    pub rest: &'a [u8],
    pub sort: Sort,
}

impl<'a> Line<'a> {
    pub fn new(rest: &'a [u8]) -> Self
        ensures { result.rest.now ≡ rest.now }
    {
        Line {
            rest,
            sort: Sort::of(rest),
        }
    }

    // What follows its line feed.
    pub fn after(&self) -> &'a [u8]
        ensures { length result.now ≤ length self.now.rest.now - 1 }
    {
        match self.rest.iter().position(is_line_feed) {
            Some(end) => &self.rest[end + 1..],
            None => &[],
        }
    }

    pub fn has_line_feed(&self) -> bool {
        self.rest.iter().any(is_line_feed)
    }

    pub fn is_printable(&self) -> bool {
        self.rest
            .iter()
            .copied()
            .take_while(|byte| *byte != b'\n')
            .all(is_printable)
    }

    fn count_brackets(&self) -> usize {
        self.rest
            .iter()
            .take_while(|byte| **byte != b'\n')
            .filter(|byte| **byte == b'(')
            .count()
    }

    // Whether it is a sig line with more parameters than a signature may have.
    pub fn has_parameters_over(&self) -> bool {
        self.sort == Sort::Sig && MOST_BRACKETS < self.count_brackets()
    }

    // The number that all its digits make.
    fn number(&self) -> u32 {
        let bytes = self.rest.iter().take_while(|byte| **byte != b'\n');
        let digits = bytes.filter(|byte| byte.is_ascii_digit());
        digits.fold(0, |number: u32, digit| {
            number
                .saturating_mul(10)
                .saturating_add(u32::from(*digit - b'0'))
        })
    }

    // Whether it is a chunk line with more locals than a chunk may have.
    pub fn has_locals_over(&self) -> bool {
        self.sort == Sort::Chunk && MOST_LOCALS < self.number()
    }

    // As a terminal may be sent it, and a line feed; of a long line the first bytes and two dots. Byte by byte, and no Display: a formatter takes twice as long.
    pub fn put(&self, text: &mut Text) {
        for byte in self.rest.iter().copied().take(SHOWN) {
            if byte == b'\n' {
                return text.byte(b'\n');
            }
            text.byte(if is_printable(byte) { byte } else { b'?' });
        }
        match self.rest.get(SHOWN) {
            None | Some(b'\n') => text.byte(b'\n'),
            Some(_) => text.bytes(b"..\n"),
        }
    }
}
