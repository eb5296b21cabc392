// The tables of a module, in one lent slice of words: word k counts the rows of table k, whose rows stand from the table's base on.
#![tactic(auto)]

ghost use Rattle.std.specs.Prelude.{◌≡◌, ◌+◌, ◌*◌, ◌-◌, ◌%◌, ◌<◌, ◌≤◌, min, map, length, get_or, pos, ◌-ℤ◌};
ghost use Rattle.std.proofs.Math.ListN.{get_elem?};
ghost use Rattle.definition.specs.Basics.{is_member, saturating_add};
ghost use Rattle.definition.specs.Shapes.{from_wire, known_wire, unknown};
ghost use Rattle.definition.specs.Module.{no_sig, known_const};
ghost use Rattle.definition.specs.Effects.{shape_of, returned, returned_native};
ghost use Rattle.bytecode.specs.Tables.{tables, stride, cap, size, row_at, Appended};
ghost use Rattle.bytecode.specs.Lists.{maybe};
ghost use Rattle.bytecode.specs.Meaning.{count as count_of, table_header, slot_at, slot_of, shared_at, private_at, enum_at, word_wire, locals_at, first_at, end_at, known_natives, known_sigs, chunk_of, enum_sizes_of};
ghost use Rattle.shapes.specs.Model.{plain_of};
ghost use Rattle.bytecode.specs.Parts.{header_of, WidthsOf, shared_of, private_of, shape_at, LayoutIs, SpanIs, InstrIs, index_pushed, native_pushed, trap_need, EffectIs};

use ops::Row;
use shapes::Shape;
use value_layout::{Widths, scalar};

pub mod code;
pub mod ops;
pub mod wire;

// The words of all tables, and the most words of a row.
pub const SIZE: usize = 22232;

pub const WORDS: usize = 19;

// The tables, in the order in which a listing has their lines. They are numbers, since word k of what the caller in C lends counts table k, and loops
// go over ranges of them, which an enum has not.
pub const HEADER: usize = 0;

pub const SLOTS: usize = 1;

pub const SHARED: usize = 2;

pub const PRIVATE: usize = 3;

pub const ENUMS: usize = 4;

pub const NATIVES: usize = 5;

pub const SIGNATURES: usize = 6;

pub const CHUNKS: usize = 7;

pub const CONSTANTS: usize = 8;

pub const INSTRUCTIONS: usize = 9;
// How many there are.
pub const TABLES: usize = 10;

// The words of the header's one row.
const WORD_BYTES: usize = 1;

const FLOAT_BYTES: usize = 2;

const ADDRESS_LOG: usize = 3;

const SHARED_BYTES: usize = 4;

const POOL_BYTES: usize = 5;

pub const INDEX_TRAP: usize = 6;

pub const HOST_TRAP: usize = 7;

// Where that row begins: it is read at each shape, so without a look at the layouts.
const HEADER_ROW: usize = 16;

// The words of a chunk's row: LOCALS, and the numbers of its first constant and of its first instruction among all.
pub const LOCALS: usize = 1;

pub const FIRST_CONSTANT: usize = 2;

pub const FIRST_CODE: usize = 3;

// The code of the last op: a number past it counts as it.
const LAST_CODE: u64 = code::RETURN as u64;

// The largest number of so many bits, as a word.
pub const MOST_8: u64 = u8::MAX as u64;

pub const MOST_16: u64 = u16::MAX as u64;

pub const MOST_32: u64 = u32::MAX as u64;

// Where a table stands: how many words a row has, how many rows there may be, and where the first is.
#[derive(Clone, Copy)]
struct Layout {
    stride: usize,
    cap: u64,
    base: usize,
}

// In the order of the numbers above. A static is read where it stands; a constant array would be made anew at each call.
static LAYOUTS: [Layout; TABLES] = [
    Layout {
        stride: 8,
        cap: 1,
        base: HEADER_ROW,
    },
    Layout {
        stride: 1,
        cap: 256,
        base: 24,
    },
    Layout {
        stride: 4,
        cap: 256,
        base: 280,
    },
    Layout {
        stride: 3,
        cap: 256,
        base: 1304,
    },
    Layout {
        stride: 2,
        cap: 64,
        base: 2072,
    },
    Layout {
        stride: 2,
        cap: 64,
        base: 2200,
    },
    Layout {
        stride: 19,
        cap: 64,
        base: 2328,
    },
    Layout {
        stride: 4,
        cap: 64,
        base: 3544,
    },
    Layout {
        stride: 2,
        cap: 1024,
        base: 3800,
    },
    Layout {
        stride: 4,
        cap: 4096,
        base: 5848,
    },
];

fn layout_of(k: usize) -> Layout
    requires { k < tables }
    ensures { LayoutIs k result }
{
    LAYOUTS[k]
}

pub fn cap_of(k: usize) -> u64
    requires { k < tables }
    ensures { result ≡ cap k }
{
    layout_of(k).cap
}

// A word, or 0 past the end.
pub fn word(t: &[u64], i: usize) -> u64
    ensures { result ≡ get_or t.now i 0 }
{
    t.get(i).copied().unwrap_or(0)
}

// Where row i of table k stands. k < tables and i < cap k, or the number of a table's rows, are what an index asks, and no more: types of their own would be made at each call.
#[tactic(auto, using(crate::specs::Tables::row_in, crate::specs::Tables::region_in))]
pub fn row_place(k: usize, i: usize) -> usize
    requires { (k < tables) × (i < cap k) }
    ensures { (result ≡ row_at k i) × (result + stride k ≤ size) }
{
    let Layout { stride, base, .. } = layout_of(k);
    base + i * stride
}

// Word j of row i of table k.
pub fn cell(t: &[u64], k: usize, i: usize, j: usize) -> u64
    requires { (k < tables) × (i < cap k) × (j < 19) }
    ensures { result ≡ get_or t.now (row_at k i + j) 0 }
{
    word(t, row_place(k, i) + j)
}

// One more row of table k.
#[tactic(auto, using(crate::specs::Tables::stride_small, crate::specs::Tables::cap_small))]
pub fn append(t: &mut [u64], k: usize, row: &[u64; WORDS])
    requires { (k < tables) × (length t.old ≡ size) × (get_or t.old k 0 < cap k) }
    ensures { Appended t.old k row.now t.new }
{
    let count = t[k];
    let at = row_place(k, count as usize);
    let stride = layout_of(k).stride;
    t[at..at + stride].copy_from_slice(&row[..stride]);
    t[k] = count + 1;
}

// The rows of table k. A word of a table may be any number: here and below it is cut to the largest number that a listing may say there.
#[tactic(auto, unfolding(crate::specs::Meaning::count))]
pub fn count(t: &[u64], k: usize) -> usize
    requires { k < tables }
    ensures { result ≡ count_of t.now k }
{
    word(t, k).min(cap_of(k)) as usize
}

#[derive(Clone, Copy)]
pub struct Header {
    pub word: u8,
    pub float: u8,
    pub address_log: u8,
    pub shared_bytes: u32,
    pub pool_bytes: u32,
    pub index_trap: u16,
    pub host_trap: u16,
}

#[tactic(auto, unfolding(crate::specs::Meaning::table_header, crate::specs::Parts::header_of, crate::specs::Tables::base, crate::specs::Tables::stride))]
pub fn header_at(t: &[u64]) -> Header
    ensures { header_of result ≡ table_header t.now }
{
    Header {
        word: word(t, HEADER_ROW + WORD_BYTES).min(8) as u8,
        float: word(t, HEADER_ROW + FLOAT_BYTES).min(8) as u8,
        address_log: word(t, HEADER_ROW + ADDRESS_LOG).min(6) as u8,
        shared_bytes: word(t, HEADER_ROW + SHARED_BYTES).min(MOST_32) as u32,
        pool_bytes: word(t, HEADER_ROW + POOL_BYTES).min(MOST_32) as u32,
        index_trap: word(t, HEADER_ROW + INDEX_TRAP).min(MOST_16) as u16,
        host_trap: word(t, HEADER_ROW + HOST_TRAP).min(MOST_16) as u16,
    }
}

// Bytes of a word, a float and an address of the module.
#[tactic(auto, using(crate::proofs::Laws::log_low, crate::proofs::Laws::widths_of))]
pub fn widths(t: &[u64]) -> Widths
    ensures { WidthsOf (table_header t.now) result }
{
    let Header {
        word,
        float,
        address_log,
        ..
    } = header_at(t);
    let address = value_layout::address_bytes(address_log);
    Widths {
        word,
        float,
        address,
    }
}

// Bytes of a float alone; 0 where there are none, as F of the first line says it (02, S-1).
#[tactic(auto, unfolding(crate::specs::Meaning::table_header, crate::specs::Tables::base, crate::specs::Tables::stride))]
pub fn float_of(t: &[u64]) -> u8
    ensures { result ≡ (table_header t.now).float }
{
    word(t, HEADER_ROW + FLOAT_BYTES).min(8) as u8
}

// Whether slot i is shared; else it is private.
#[tactic(auto, unfolding(crate::specs::Tables::cap, crate::specs::Meaning::slot_at))]
pub fn slot_shared(t: &[u64], i: usize) -> bool
    requires { i < 256 }
    ensures { slot_of result ≡ slot_at t.now i }
{
    cell(t, SLOTS, i, 0) == 0
}

#[derive(Clone, Copy)]
pub struct SharedEntry {
    pub offset: u32,
    pub kind: u8,
    pub len: u16,
}

#[tactic(auto, unfolding(crate::specs::Tables::cap, crate::specs::Meaning::shared_at, crate::specs::Parts::shared_of))]
pub fn shared_at(t: &[u64], i: usize) -> SharedEntry
    requires { i < 256 }
    ensures { shared_of result ≡ shared_at t.now i }
{
    SharedEntry {
        offset: cell(t, SHARED, i, 1).min(MOST_32) as u32,
        kind: cell(t, SHARED, i, 2).min(MOST_8) as u8,
        len: cell(t, SHARED, i, 3).min(MOST_16) as u16,
    }
}

#[derive(Clone, Copy)]
pub struct PrivateEntry {
    pub slot: u16,
    pub offset: u32,
}

#[tactic(auto, unfolding(crate::specs::Tables::cap, crate::specs::Meaning::private_at, crate::specs::Parts::private_of))]
pub fn private_at(t: &[u64], i: usize) -> PrivateEntry
    requires { i < 256 }
    ensures { private_of result ≡ private_at t.now i }
{
    PrivateEntry {
        slot: cell(t, PRIVATE, i, 1).min(MOST_16) as u16,
        offset: cell(t, PRIVATE, i, 2).min(MOST_32) as u32,
    }
}

// The smallest payload of enum i.
#[tactic(auto, unfolding(crate::specs::Tables::cap, crate::specs::Meaning::enum_at))]
pub fn enum_min(t: &[u64], i: usize) -> u32
    requires { i < 64 }
    ensures { result ≡ enum_at t.now i }
{
    cell(t, ENUMS, i, 1).min(MOST_32) as u32
}

// The shape of a wire word, as the walk takes it: one of a tag that is not known, or a scalar of a kind that the module lacks, is unknown.
#[tactic(auto, using(crate::proofs::Laws::word_shapes), unfolding(shapes::specs::Model::shape_of))]
fn shape_of_word(float: u8, w: u64) -> Shape
    ensures { plain_of result ≡ from_wire (known_wire float (word_wire w)) }
{
    let kind = (w / wire::KIND % wire::KINDS) as u8;
    match w % wire::KIND {
        wire::SCALAR
            if !value_layout::is_lacking(float, kind) && value_layout::is_scalar_tag(kind) =>
            Shape::Scalar(kind),
        wire::FLAT if value_layout::is_composite_tag(kind) => Shape::Composite(
            kind,
            (w / wire::SIZE).min(MOST_32) as u32,
        ),
        _ => Shape::Unknown,
    }
}

// The shape that word j of row k of a table says; unknown where there is no such row.
#[tactic(auto, using(crate::specs::Meaning::count_low, crate::proofs::Laws::shape_out), unfolding(shapes::specs::Model::shape_of))]
fn shape_at(t: &[u64], table: usize, k: usize, j: usize) -> Shape
    requires { (table < tables) × (j < 19) }
    ensures { plain_of result ≡ shape_at t.now table k j }
{
    if k < count(t, table) {
        shape_of_word(float_of(t), cell(t, table, k, j))
    } else {
        Shape::Unknown
    }
}

// What native k is declared to return; unknown where there is none.
#[tactic(auto, using(crate::proofs::Laws::native_is))]
pub fn native_shape(t: &[u64], k: usize) -> Shape
    ensures { plain_of result ≡ shape_of (returned_native (get_elem? (known_natives t.now) k)) }
{
    shape_at(t, NATIVES, k, 1)
}

// What signature k returns; unknown where there is no such signature.
#[tactic(auto, using(crate::proofs::Laws::return_is))]
pub fn sig_return(t: &[u64], k: usize) -> Shape
    ensures { plain_of result ≡ shape_of (returned (get_elem? (known_sigs t.now) k)) }
{
    shape_at(t, SIGNATURES, k, 1)
}

// And what it resumes with.
#[tactic(auto, using(crate::proofs::Laws::resume_is))]
pub fn sig_resume(t: &[u64], k: usize) -> Shape
    ensures { plain_of result ≡ from_wire (get_or (known_sigs t.now) k no_sig).resume }
{
    shape_at(t, SIGNATURES, k, 2)
}

// The number of parameters of signature k; 0 where there is no such signature.
#[tactic(auto, using(crate::specs::Meaning::count_low, crate::proofs::Laws::params_in, crate::proofs::Laws::params_out), unfolding(crate::specs::Tables::cap, crate::specs::Meaning::params_at))]
pub fn sig_params(t: &[u64], k: usize) -> usize
    ensures { (result ≡ length (get_or (known_sigs t.now) k no_sig).params) × (result ≤ 16) }
{
    if k < count(t, SIGNATURES) {
        cell(t, SIGNATURES, k, 0).saturating_sub(2).min(16) as usize
    } else {
        0
    }
}

// Parameter j of signature k; unknown where there is none.
#[tactic(auto, using(crate::proofs::Laws::param_is, crate::proofs::Laws::param_none), unfolding(shapes::specs::Model::shape_of))]
pub fn sig_param(t: &[u64], k: usize, j: usize) -> Shape
    ensures { plain_of result ≡ get_or (map from_wire (get_or (known_sigs t.now) k no_sig).params) j unknown }
{
    if j < sig_params(t, k) {
        shape_at(t, SIGNATURES, k, j + 3)
    } else {
        Shape::Unknown
    }
}

// Whether a body of s bytes is an enum's: W + MIN of one.
pub fn has_enum_size(t: &[u64], s: u32) -> bool
    ensures { result ≡ is_member s (enum_sizes_of t.now) }
{
    let word = word(t, HEADER_ROW + WORD_BYTES).min(8) as u32;
    (0..count(t, ENUMS)).any(|i| s == enum_min(t, i).saturating_add(word))
}

// LOCALS of chunk k. A chunk's number is a plain one, as `0..count` gives it: a type of its own would be made at each call.
#[tactic(auto, unfolding(crate::specs::Tables::cap, crate::specs::Meaning::locals_at))]
pub fn locals(t: &[u64], k: usize) -> usize
    requires { k < 64 }
    ensures { result ≡ locals_at t.now k }
{
    cell(t, CHUNKS, k, LOCALS).min(32) as usize
}

// A stretch of a table: its first row, and how many rows.
#[derive(Clone, Copy)]
pub struct Span {
    pub first: usize,
    pub count: usize,
}

// A table whose rows are the chunks', one chunk's after another's, and the word of a chunk's row that says where they begin.
#[derive(Clone, Copy)]
struct Part {
    table: usize,
    word: usize,
    ghost is_table: { table < 10 },
    ghost in_row: { word < 19 },
}

// Where the rows of chunk k begin in a table.
#[tactic(auto, unfolding(crate::specs::Tables::cap, crate::specs::Meaning::first_at))]
fn first_at(t: &[u64], part: Part, k: usize) -> usize
    requires { k < 64 }
    ensures { result ≡ first_at t.now part.table part.word k }
{
    cell(t, CHUNKS, k, part.word).min(count(t, part.table) as u64) as usize
}

// They end where those of the next chunk begin, and those of the last chunk where the table ends.
#[tactic(auto, using(crate::specs::Meaning::count_low, crate::proofs::Laws::end_next, crate::proofs::Laws::end_last), unfolding(crate::specs::Tables::cap))]
fn end_at(t: &[u64], part: Part, k: usize) -> usize
    requires { k < 64 }
    ensures { result ≡ end_at t.now part.table part.word k }
{
    let next = k + 1;
    if next < count(t, CHUNKS) {
        first_at(t, part, next)
    } else {
        count(t, part.table)
    }
}

#[tactic(auto, using(crate::specs::Meaning::first_low, crate::specs::Meaning::end_low, crate::specs::Meaning::count_low))]
fn span_of(t: &[u64], part: Part, k: usize) -> Span
    requires { k < 64 }
    ensures { SpanIs t.now part.table part.word k result }
{
    let first = first_at(t, part, k);
    Span {
        first,
        count: end_at(t, part, k).saturating_sub(first),
    }
}

// The constants of chunk k among all: with the next, two names over one function.
pub fn constants_of(t: &[u64], k: usize) -> Span
    requires { k < 64 }
    ensures { SpanIs t.now 8 2 k result }
{
    span_of(
        t,
        Part {
            table: CONSTANTS,
            word: FIRST_CONSTANT,
        },
        k,
    )
}

// The instructions of chunk k among all.
pub fn instructions_of(t: &[u64], k: usize) -> Span
    requires { k < 64 }
    ensures { SpanIs t.now 9 3 k result }
{
    span_of(
        t,
        Part {
            table: INSTRUCTIONS,
            word: FIRST_CODE,
        },
        k,
    )
}

// K of a constant that is of no scalar's kind, as a listing says it.
const OTHER_CONSTANT: u8 = 255;

// K of a constant as the walk takes it: one of a kind that the module lacks counts as any other.
#[tactic(auto, unfolding(definition::specs::Module::known_const, definition::specs::Basics::choose))]
fn known_const(float: u8, k: u8) -> u8
    ensures { result ≡ known_const float k }
{
    if value_layout::is_lacking(float, k) {
        OTHER_CONSTANT
    } else {
        k
    }
}

// The kind of constant j of chunk k, if there is such a constant.
#[tactic(auto, using(crate::proofs::Laws::chunk_consts), unfolding(crate::specs::Tables::cap, crate::specs::Meaning::known_const_at, crate::specs::Meaning::const_at))]
pub fn constant_at(t: &[u64], k: usize, j: usize) -> Option<u8>
    requires { k < 64 }
    ensures { maybe result ≡ get_elem? (chunk_of t.now k).consts j }
{
    let Span { first, count } = constants_of(t, k);
    if j < count {
        let kind = cell(t, CONSTANTS, first + j, 1).min(MOST_8) as u8;
        Some(known_const(float_of(t), kind))
    } else {
        None
    }
}

#[derive(Clone, Copy)]
pub struct Instr {
    pub code: u8,
    pub a: u32,
    pub b: u32,
    pub c: u32,
}

// Instruction i of all.
#[tactic(auto, unfolding(crate::specs::Tables::cap))]
pub fn instr_at(t: &[u64], i: usize) -> Instr
    requires { i < 4096 }
    ensures { InstrIs t.now i result }
{
    let code = cell(t, INSTRUCTIONS, i, 0).min(LAST_CODE) as u8;
    let row = Row {
        number: usize::from(code),
    };
    Instr {
        code,
        a: cell(t, INSTRUCTIONS, i, 1).min(row.maximum(0)) as u32,
        b: cell(t, INSTRUCTIONS, i, 2).min(row.maximum(1)) as u32,
        c: cell(t, INSTRUCTIONS, i, 3).min(row.maximum(2)) as u32,
    }
}

// What an instruction needs on the operand stack, and the net change of its height.
#[derive(Clone, Copy)]
pub struct Effect {
    pub need: u32,
    pub net: i64,
}

// n operands are taken, and one, two or none pushed.
fn taking(n: u32, pushed: u8) -> Effect
    ensures { (result.need ≡ n) × (result.net ≡ pos pushed -ℤ pos n) }
{
    Effect {
        need: n,
        net: i64::from(pushed) - i64::from(n),
    }
}

// The kinds as an operand says them.
const BYTE: u32 = scalar::BYTE as u32;

const INT: u32 = scalar::INT as u32;

// GetIndex Flat has a bounds outcome for bytes and integers.
#[tactic(auto, unfolding(crate::specs::Parts::index_pushed, definition::specs::Basics::choose))]
fn index_effect(k: u32) -> Effect
    ensures { (result.need ≡ 2) × (result.net ≡ pos (index_pushed k) -ℤ pos 2) }
{
    taking(2, if matches!(k, BYTE | INT) { 7 } else { 1 })
}

// A native call's count has 7 bits; the eighth says that a flag is pushed after the result.
#[tactic(auto, unfolding(crate::specs::Parts::native_pushed, definition::specs::Basics::choose))]
fn native_effect(n: u32) -> Effect
    ensures { (result.need ≡ n % 128) × (result.net ≡ pos (native_pushed n) -ℤ pos (n % 128)) }
{
    taking(n % 128, if n < 128 { 1 } else { 2 })
}

// A trap takes what its code says.
#[tactic(auto, unfolding(crate::specs::Parts::trap_need, definition::specs::Basics::choose))]
fn trap_effect(k: u32, index_trap: u16, host_trap: u16) -> Effect
    ensures { (result.need ≡ trap_need k index_trap host_trap) × (result.net ≡ pos 0 -ℤ pos (trap_need k index_trap host_trap)) }
{
    if k == u32::from(index_trap) {
        taking(5, 0)
    } else if k == u32::from(host_trap) {
        taking(1, 0)
    } else {
        taking(0, 0)
    }
}

#[tactic(auto, using(crate::proofs::Effects::effects))]
pub fn op_depth_effect(i: Instr, index_trap: u16, host_trap: u16) -> Effect
    ensures { EffectIs i index_trap host_trap result }
{
    let Instr { code, a, b, .. } = i;
    match code {
        code::CONST..=code::PUSH_IMMEDIATE => Effect { need: 0, net: 1 },
        code::DUP => Effect { need: 1, net: 1 },
        code::SET_LOCAL..=code::SET_DATA => Effect { need: 1, net: -1 },
        code::GET_DATA_INDEXED => Effect { need: 2, net: 5 },
        code::SET_DATA_INDEXED => Effect { need: 2, net: 4 },
        code::BOUNDS_CHECK => Effect { need: 1, net: 5 },
        code::GET_INDEX_FLAT => index_effect(a),
        code::GET_INDEX_FLAT_NESTED..=code::GET_INDEX_BOXED => Effect { need: 2, net: 5 },
        code::ADD..=code::FIXED_MUL => Effect { need: 2, net: -1 },
        code::NEG..=code::YIELD => Effect { need: 1, net: 0 },
        code::IS_ENUM..=code::IS_STRUCT => Effect { need: 1, net: 1 },
        code::CALL => taking(b, 1),
        code::CALL_VERIFIED_NATIVE..=code::CALL_EXTERNAL_NATIVE => native_effect(b),
        code::NEW_COMPOSITE_FLAT..=code::NEW_COMPOSITE_BOXED => taking(b, 1),
        code::DIV..=code::CHECKED_DIV => Effect { need: 2, net: 1 },
        code::CHECKED_NEG => Effect { need: 1, net: 2 },
        code::POP_N => taking(a, 0),
        code::TRAP => trap_effect(a, index_trap, host_trap),
        code::IF..=code::BREAK_IF => Effect { need: 1, net: -1 },
        _ => Effect { need: 0, net: 0 },
    }
}
