// The table of op names: a row for each name, or each of its variants, in the order of `op_depth_effect`.
ghost use Rattle.std.specs.Prelude.{◌≡◌, ◌<◌, ◌≤◌, get_or, take, drop};
ghost use Rattle.bytecode.specs.Names.{little, lookup, Packs, place_of, places, row_number};
ghost use Rattle.definition.specs.Format.{Bytes};

mod row;
mod rows;

pub use row::Row;

pub const ROWS: usize = 75;

// The most operands of an op.
pub const OPERANDS: usize = 3;

// Eight bytes from `at` on as one word, the first byte lowest; those past the end count as 0.
fn pack(s: &[u8], at: usize) -> u64
    requires { at ≤ 16 }
    ensures { result ≡ little (take 8 (drop at s.now)) }
{
    let end = s.len().min(at + 8);
    s[at.min(end)..end]
        .iter()
        .rfold(0, |word, byte| (word << 8) + u64::from(*byte))
}

// The words that a text of at most 24 bytes packs to. Two texts of one length are the same when their words are, whatever bytes they have.
#[derive(Clone, Copy, PartialEq, Eq)]
struct Packed {
    words: [u64; 3],
    length: usize,
}

// The place of a packed name. No two names have the same place.
#[tactic(auto, unfolding(crate::specs::Names::place_of))]
fn place(words: [u64; 3]) -> usize
    ensures value { result ≡ place_of (get_or words 0 0) (get_or words 1 0) (get_or words 2 0) }
    ensures low { result < 256 }
{
    let [first, second, third] = words;
    let sum = first % 84571 + second % 84571 + third % 84571;
    (sum % 256) as usize
}

// The one row whose name may have the place.
#[tactic(auto, using(crate::proofs::Names::place_is, crate::proofs::Names::place_low))]
fn row_at(place: usize) -> Row
    requires { place < 256 }
    ensures { result.number ≡ get_or places place 0 }
{
    Row {
        number: usize::from(rows::PLACES[place]),
    }
}

// The row of a packed name.
fn row_of(p: Packed) -> Option<Row>
    ensures { (text : Bytes) → Packs text p → row_number result ≡ lookup text }
{
    let row = row_at(place(p.words));
    (row.op().name == p).then_some(row)
}

// The row whose name the text is, if it is one.
pub fn find(s: &[u8]) -> Option<Row>
    ensures { row_number result ≡ lookup s.now }
{
    let length = s.len();
    if 24 < length {
        return None;
    }
    row_of(Packed {
        words: [pack(s, 0), pack(s, 8), pack(s, 16)],
        length,
    })
}
