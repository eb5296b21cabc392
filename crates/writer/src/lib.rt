// Writes a module back as its listing, into a lent buffer, over the reader's own formats and names. One function measures and writes: a byte past the
// buffer's end is not written, and counts. Where no listing says what the tables have, the answer is None, and what has been put of it is of no use.
// Text and tables are parameters of their own: of a struct of both each contract would have to say that its tables stay as they are.
#![tactic(auto)]

ghost use Rattle.std.specs.Prelude.{◌≡◌, [], ◌+◌, ◌≤◌, ◌<◌, length, get_or};
ghost use Rattle.definition.specs.Read.{line_forms};
ghost use Rattle.definition.specs.Write.{shape_text};
ghost use Rattle.definition.specs.Shapes.{scalar_w, flat_w};
ghost use Rattle.bytecode.specs.Tables.{tables, cap};
ghost use Rattle.bytecode.specs.Meaning.{count as count_of, maxima_of};
ghost use Rattle.bytecode.specs.Names.{name_at};
ghost use Rattle.listing.specs.Forms.{form_number};
ghost use Rattle.listing.specs.Scan.{form_codes};
ghost use Rattle.text_out.specs.Text.{with_text};
ghost use Rattle.writer.specs.Put.{Puts, Listed};
ghost use Rattle.writer.specs.Tables.{write_tables, answer_written, WrittenBack, ReadAgain};
ghost use Rattle.writer.specs.Say.{number_said, shape_said, shapes_said, value_said, say, Formed, line_said};
ghost use Rattle.writer.specs.Say.{operands_said, entry_said, rows_said, tables_said, close_said, chunk_said, chunk_follows, all_used, chunks_said};
ghost use Rattle.writer.specs.Say.{counts_fit, is_headed, module_said};

use answer::Refusal;
use bytecode::ops::{OPERANDS, Row};
use bytecode::{SIZE, Span, wire};
use listing::form::Form;
use listing::{sort, words};
use text_out::Text;

// ---- shapes

// A number that its code admits, with the space before it.
#[tactic(auto, using(crate::proofs::Laws::number))]
fn put_number(text: &mut Text, code: u8, n: u64) -> Option<()>
    ensures { Puts text.old (number_said code n) result text.new }
{
    if !listing::admits(code, n) {
        return None;
    }
    text.spaced_decimal(n);
    Some(())
}

fn put_scalar(text: &mut Text, kind: u64)
    ensures { text.new ≡ with_text text.old (shape_text (scalar_w kind)) }
{
    text.bytes(&words::SCALAR);
    text.spaced_decimal(kind);
    text.bytes(&words::CLOSE);
}

fn put_flat(text: &mut Text, kind: u64, size: u64)
    ensures { text.new ≡ with_text text.old (shape_text (flat_w kind size)) }
{
    text.bytes(&words::FLAT);
    text.spaced_decimal(kind);
    text.spaced_decimal(size);
    text.bytes(&words::CLOSE);
}

#[tactic(auto, using(crate::proofs::Laws::shape), unfolding(definition::specs::Format::bytes))]
fn put_shape(text: &mut Text, word: u64) -> Option<()>
    ensures { Puts text.old (shape_said word) result text.new }
{
    let kind = word / wire::KIND % wire::KINDS;
    let size = word / wire::SIZE;
    match word % wire::KIND {
        wire::TOP if word == 0 => text.bytes(&words::TOP),
        wire::SCALAR if size == 0 => put_scalar(text, kind),
        wire::FLAT if listing::admits(sort::BITS_32, size) => put_flat(text, kind, size),
        _ => return None,
    }
    Some(())
}

#[tactic(auto, using(crate::proofs::Laws::shapes, crate::proofs::Putting::putting_start))]
fn put_shapes(text: &mut Text, shapes: &[u64]) -> Option<()>
    ensures { Puts text.old (shapes_said shapes.now) result text.new }
{
    for word in shapes {
        put_shape(text, *word)?;
    }
    Some(())
}

// ---- lines

// A shape's word, or a number that the code admits.
#[tactic(auto, using(crate::proofs::Laws::value))]
fn put_value(text: &mut Text, code: u8, word: u64) -> Option<()>
    ensures { Puts text.old (value_said code word) result text.new }
{
    match code {
        sort::SHAPE | sort::SHAPES => put_shape(text, word),
        _ => put_number(text, code, word),
    }
}

// The words by a form.
#[tactic(auto, using(crate::proofs::Formats::forms))]
fn put_form(text: &mut Text, form: Form, words: &[u64]) -> Option<()>
    ensures { Puts text.old (say (get_or (form_codes line_forms) (form_number form) []) words.now) result text.new }
{
    text.bytes(form.text());
    let codes = form.codes();
    let mut left = words;
    for code in codes {
        match *code {
            sort::SHAPES => {
                put_shapes(text, left)?;
                left = &[];
            }
            letter if letter < sort::BITS_8 => text.byte(letter),
            code => {
                let (word, rest) = left.split_first()?;
                put_value(text, code, *word)?;
                left = rest;
            }
        }
    }
    Some(())
}

// The shapes of a signature: what it returns, what it resumes with, and at most 16 parameters.
const FEWEST_SHAPES: u64 = 2;

const MOST_SHAPES: u64 = listing::MOST_VALUES as u64;

// The form of the line that a row of table k says, and how many values it has, by the row's first word.
#[tactic(auto, unfolding(crate::specs::Say::row_form, crate::specs::Say::slot_form, crate::specs::Say::sig_form, crate::specs::Say::row_values, definition::specs::Basics::choose, bytecode::specs::Tables::stride))]
fn form_of(k: usize, head: u64) -> Option<(Form, usize)>
    requires { k < 9 }
    ensures { Formed k head result }
{
    match k {
        bytecode::HEADER => Some((Form::Module, 7)),
        bytecode::SLOTS if head == 0 => Some((Form::SharedSlot, 0)),
        bytecode::SLOTS if head == 1 => Some((Form::PrivateSlot, 0)),
        bytecode::SHARED => Some((Form::Shared, 3)),
        bytecode::PRIVATE => Some((Form::Private, 2)),
        bytecode::ENUMS => Some((Form::Enum, 1)),
        bytecode::NATIVES => Some((Form::Native, 1)),
        bytecode::SIGNATURES if FEWEST_SHAPES <= head && head <= MOST_SHAPES => Some((
            Form::Signature,
            head as usize,
        )),
        bytecode::CHUNKS => Some((Form::Chunk, 1)),
        bytecode::CONSTANTS => Some((Form::Constant, 1)),
        _ => None,
    }
}

// The line that row i of table k says, and its LF.
#[tactic(auto, using(crate::proofs::Steps::line))]
fn put_line(text: &mut Text, t: &[u64; SIZE], k: usize, i: usize) -> Option<()>
    requires { (k < 9) × (i < cap k) }
    ensures { Puts text.old (line_said t.now k i) result text.new }
{
    let (form, values) = form_of(k, bytecode::cell(t, k, i, 0))?;
    let first = bytecode::row_place(k, i) + 1;
    put_form(text, form, &t[first..first + values])?;
    text.byte(b'\n');
    Some(())
}

// The closing line has no words.
#[tactic(auto, using(crate::proofs::Steps::close))]
fn put_close(text: &mut Text) -> Option<()>
    ensures { Puts text.old close_said result text.new }
{
    put_form(text, Form::Close, &[])?;
    text.byte(b'\n');
    Some(())
}

// ---- instructions

// The name is packed in words, so there is no slice of it to go over.
#[tactic(auto, using(text_out::proofs::Laws::with_text_more, crate::proofs::Steps::with_name), unfolding(text_out::specs::Text::laid, text_out::specs::Text::after_text))]
fn put_name(text: &mut Text, row: Row)
    ensures { text.new ≡ with_text text.old (name_at row.number) }
{
    for j in 0..row.name_length() {
        text.byte(row.name_letter(j));
    }
}

// The operands of a row, in the words from the first on.
#[tactic(auto, using(crate::proofs::Steps::operands))]
fn put_operands(text: &mut Text, float: u8, row: Row, words: &[u64]) -> Option<()>
    requires { length words.now ≡ 3 }
    ensures { Puts text.old (operands_said float (maxima_of row.number) words.now) result text.new }
{
    for (most, word) in row.maxima().iter().zip(words) {
        if listing::names_lacking(float, *most, *word) {
            return None;
        }
        put_number(text, listing::maximum_code(*most), *word)?;
    }
    Some(())
}

// Instruction i of all.
#[tactic(auto, using(crate::proofs::Steps::op), unfolding(definition::specs::Format::bytes, bytecode::specs::Tables::cap, bytecode::specs::Tables::stride))]
fn put_op(text: &mut Text, t: &[u64; SIZE], i: usize) -> Option<()>
    requires { i < 4096 }
    ensures { Puts text.old (entry_said t.now 9 i) result text.new }
{
    let code = bytecode::cell(t, bytecode::INSTRUCTIONS, i, 0) as usize;
    let row = Row::of_code(code)?;
    text.bytes(&words::OP);
    put_name(text, row);
    let first = bytecode::row_place(bytecode::INSTRUCTIONS, i) + 1;
    put_operands(
        text,
        bytecode::float_of(t),
        row,
        &t[first..first + OPERANDS],
    )?;
    text.bytes(&words::CLOSE);
    text.byte(b'\n');
    Some(())
}

// ---- tables

#[tactic(auto, using(crate::proofs::Steps::puts_entry), unfolding(bytecode::specs::Tables::cap))]
fn put_entry(text: &mut Text, t: &[u64; SIZE], k: usize, i: usize) -> Option<()>
    requires { (k < tables) × (i < cap k) }
    ensures { Puts text.old (entry_said t.now k i) result text.new }
{
    match k {
        bytecode::INSTRUCTIONS => put_op(text, t, i),
        _ => put_line(text, t, k, i),
    }
}

// Rows of table k.
#[tactic(auto, using(crate::proofs::Steps::rows))]
fn put_rows(text: &mut Text, t: &[u64; SIZE], k: usize, rows: Span) -> Option<()>
    requires { (k < tables) × (rows.first + rows.count ≤ cap k) }
    ensures { Puts text.old (rows_said t.now k rows.first rows.count) result text.new }
{
    let Span { first, count } = rows;
    for i in first..first + count {
        put_entry(text, t, k, i)?;
    }
    Some(())
}

// The tables whose lines come before the chunks.
#[tactic(auto, using(crate::proofs::Steps::all_tables, bytecode::specs::Meaning::count_low))]
fn put_tables(text: &mut Text, t: &[u64; SIZE]) -> Option<()>
    ensures { Puts text.old (tables_said t.now 1 6) result text.new }
{
    for k in bytecode::SLOTS..bytecode::CHUNKS {
        let count = bytecode::count(t, k);
        put_rows(text, t, k, Span { first: 0, count })?;
    }
    Some(())
}

// ---- chunks

// Chunk k, from its first line to its last.
#[tactic(auto, using(crate::proofs::Steps::chunk), unfolding(bytecode::specs::Tables::cap))]
fn put_chunk(text: &mut Text, t: &[u64; SIZE], k: usize) -> Option<()>
    requires { k < 64 }
    ensures { Puts text.old (chunk_said t.now k) result text.new }
{
    put_line(text, t, bytecode::CHUNKS, k)?;
    put_rows(text, t, bytecode::CONSTANTS, bytecode::constants_of(t, k))?;
    put_rows(
        text,
        t,
        bytecode::INSTRUCTIONS,
        bytecode::instructions_of(t, k),
    )?;
    put_close(text)
}

// Whether chunk k has at most 32 locals, and its constants and instructions begin where those of the chunks before it end.
#[tactic(auto, unfolding(crate::specs::Say::chunk_follows, bytecode::specs::Tables::cap))]
fn chunk_follows(t: &[u64], k: usize, constants: u64, instructions: u64) -> bool
    requires { k < 64 }
    ensures { result ≡ chunk_follows t.now k constants instructions }
{
    bytecode::cell(t, bytecode::CHUNKS, k, bytecode::LOCALS) <= listing::MOST_LOCALS
        && bytecode::cell(t, bytecode::CHUNKS, k, bytecode::FIRST_CONSTANT) == constants
        && bytecode::cell(t, bytecode::CHUNKS, k, bytecode::FIRST_CODE) == instructions
}

// Whether the tables have so many constants and instructions.
#[tactic(auto, unfolding(crate::specs::Say::all_used))]
fn all_used(t: &[u64], constants: u64, instructions: u64) -> bool
    ensures { result ≡ all_used t.now constants instructions }
{
    bytecode::word(t, bytecode::CONSTANTS) == constants
        && bytecode::word(t, bytecode::INSTRUCTIONS) == instructions
}

// All chunks, and the line that closes the module.
#[tactic(auto, using(crate::proofs::Steps::chunks, bytecode::specs::Meaning::count_low), unfolding(bytecode::specs::Tables::cap))]
fn put_chunks(text: &mut Text, t: &[u64; SIZE]) -> Option<()>
    ensures { Puts text.old (chunks_said t.now 0 0 0 (count_of t.now 7)) result text.new }
{
    let mut constants: u64 = 0;
    let mut instructions: u64 = 0;
    for k in 0..bytecode::count(t, bytecode::CHUNKS) {
        if !chunk_follows(t, k, constants, instructions) {
            return None;
        }
        put_chunk(text, t, k)?;
        constants += bytecode::constants_of(t, k).count as u64;
        instructions += bytecode::instructions_of(t, k).count as u64;
    }
    if !all_used(t, constants, instructions) {
        return None;
    }
    put_close(text)
}

// ---- the module

// Whether no table has more rows than it holds.
fn counts_fit(t: &[u64]) -> bool
    ensures { result ≡ counts_fit t.now 1 9 }
{
    (bytecode::SLOTS..bytecode::TABLES).all(|k| bytecode::word(t, k) <= bytecode::cap_of(k))
}

// Whether there is one header, whose traps differ.
#[tactic(auto, unfolding(crate::specs::Say::is_headed, bytecode::specs::Tables::cap))]
fn is_headed(t: &[u64]) -> bool
    ensures { result ≡ is_headed t.now }
{
    bytecode::word(t, bytecode::HEADER) == 1
        && bytecode::cell(t, bytecode::HEADER, 0, bytecode::INDEX_TRAP)
            != bytecode::cell(t, bytecode::HEADER, 0, bytecode::HOST_TRAP)
}

// The module that the tables say.
#[tactic(auto, using(crate::proofs::Steps::module_parts), unfolding(bytecode::specs::Tables::cap))]
fn put_module(text: &mut Text, t: &[u64; SIZE]) -> Option<()>
    ensures { Puts text.old (module_said t.now) result text.new }
{
    if !(is_headed(t) && counts_fit(t)) {
        return None;
    }
    put_line(text, t, bytecode::HEADER, 0)?;
    put_tables(text, t)?;
    put_chunks(text, t)
}

// Puts the listing that the tables say from the buffer's start on, as far as the buffer goes; its length, or None where there is none.
#[tactic(auto, using(crate::proofs::Whole::listing))]
fn put_listing(t: &[u64; SIZE], out: &mut [u8]) -> Option<usize>
    ensures { Listed (module_said t.now) out.old result out.new }
{
    let mut text = Text::new(out);
    put_module(&mut text, t)?;
    let length = text.length();
    (length <= listing::MOST_BYTES).then_some(length)
}

// Writes the module that the tables say as its listing, which is measured first, where the buffer has room for it; else, and where no listing gives it, the buffer is left as it is.
#[tactic(auto, using(crate::proofs::Whole::writing))]
pub fn write(t: &[u64; SIZE], out: &mut [u8]) -> Result<u64, Refusal>
    ensures equal { answer_written result out.new ≡ write_tables t.now out.old }
    ensures written_back { WrittenBack t.now out.old result out.new × ReadAgain t.now result out.new }
{
    let length = put_listing(t, &mut []).ok_or(Refusal::CannotFollow(0))?;
    if out.len() < length {
        return Err(Refusal::BufferTooShort(length as u64));
    }
    put_listing(t, out);
    Ok(length as u64)
}
