// Reads a listing into the tables, line by line, each by the form whose text it begins with.
#![tactic(auto)]

ghost use Rattle.std.specs.Prelude.{◌≡◌, List, [], length, ℕ, ◌+◌, ◌*◌, ◌-◌, ◌<◌, ◌≤◌, ◌&&◌, eqb};
ghost use Rattle.definition.specs.Format.{digits_from, begins_number, number_at, numbers_at};
ghost use Rattle.definition.specs.Shapes.{is_lacking};
ghost use Rattle.theorems.specs.KindOf.{has_kinds};
ghost use Rattle.bytecode.specs.Meaning.{maxima_of};
ghost use Rattle.listing.specs.Scan.{admitted, shape_word, max_code, scan};
ghost use Rattle.definition.specs.Read.{line_forms, read_line};
ghost use Rattle.definition.specs.Read.{Reader, at_start, next_line};
ghost use Rattle.listing.specs.Reads.{ReadIs, FirstLine, read_all};
ghost use Rattle.listing.specs.Answer.{result_of, LeftIn};
ghost use Rattle.definition.specs.Read.{read as read_listing};
ghost use Rattle.definition.specs.Module.{Module};
ghost use Rattle.bytecode.specs.Tables.{size};
ghost use Rattle.bytecode.specs.Held.{Held, lists, Sound};
ghost use Rattle.listing.specs.Forms.{head_number, place_number, may_stand, own_limit, head_word, row_words};
ghost use Rattle.listing.specs.Step.{StepIs, RowIs, limit_of};
ghost use Rattle.listing.specs.OpLines.{name_ends, name_of, named_line};
ghost use Rattle.listing.specs.Find.{Entered, whole_line};
ghost use Rattle.listing.specs.Stored.{Stored};
ghost use Rattle.listing.specs.Rows.{Rowed, shapes_over, value_at};
ghost use Rattle.listing.specs.Shape.{end_at, top_at, scalar_at, flat_at};
ghost use Rattle.listing.specs.Num.{number_of, at_most};

use answer::Refusal;
use answer::limit::Limit;
use bytecode::ops::{self, Row};
use bytecode::{MOST_8, MOST_16, MOST_32, wire};
use entry::{Entry, Head, Values};
use form::Form;
use place::Place;

mod entry;
pub mod form;
mod place;
pub mod sort;
pub mod words;

// The bytes of the longest listing.
pub const MOST_BYTES: usize = 65536;

// The most values of a line: the two shapes and 16 parameters of a signature; and the most LOCALS.
pub const MOST_VALUES: usize = 18;

pub const MOST_LOCALS: u64 = 32;

// The largest K: an operand that may be so much is a kind of scalar.
const MOST_KIND: u64 = 7;

// The numbers that a code admits, found by the code: it is a byte of a form's constant table, as `sort` says.
#[tactic(auto, unfolding(crate::specs::Scan::admitted, definition::specs::Basics::is_member, definition::specs::Basics::choose))]
pub fn admits(code: u8, n: u64) -> bool
    ensures { result ≡ admitted code n }
{
    match code {
        sort::WIDTH => matches!(n, 1 | 2 | 4 | 8),
        sort::FLOAT_WIDTH => matches!(n, 0 | 1 | 2 | 4 | 8),
        sort::ADDRESS => matches!(n, 3 | 4 | 5 | 6),
        sort::CONSTANT => matches!(n, 0 | 1 | 2 | 3 | 4 | 5 | 6 | 255),
        sort::BITS_8 => n <= MOST_8,
        sort::BITS_16 => n <= MOST_16,
        sort::BITS_32 => n <= MOST_32,
        sort::SCALAR => n <= MOST_KIND,
        _ => n <= 3,
    }
}

// Whether a number comes first: a digit, and after a first 0 no other.
#[tactic(auto, unfolding(definition::specs::Format::begins_number, definition::specs::Format::begins_digit, definition::specs::Format::is_digit))]
fn begins_number(bytes: &[u8]) -> bool
    ensures { result ≡ begins_number bytes.now }
{
    matches!(bytes, [b'0'..=b'9', ..]) && !matches!(bytes, [b'0', b'0'..=b'9', ..])
}

// The number that the digits at the front give, if it has at most 32 bits, and what follows them. std's `parse` takes a sign and leading zeros, and
// wants to be told where the digits end.
#[tactic(auto, using(crate::specs::Num::digit_laws))]
fn digits(mut bytes: &[u8]) -> Option<(u64, &[u8])>
    ensures { number_of result ≡ at_most 4294967295 (digits_from 0 bytes.entry.now) }
{
    let mut number: u32 = 0;
    while let [digit @ b'0'..=b'9', rest @ ..] = bytes {
        number = number
            .checked_mul(10)?
            .checked_add(u32::from(*digit - b'0'))?;
        bytes = rest;
    }
    Some((u64::from(number), bytes))
}

// One space and a number that a code admits, and what follows them.
#[tactic(auto, using(crate::specs::Num::number_laws))]
fn number(bytes: &[u8], code: u8) -> Option<(u64, &[u8])>
    ensures { number_of result ≡ number_at (admitted code) bytes.now }
{
    let [b' ', bytes @ ..] = bytes else {
        return None;
    };
    if !begins_number(bytes) {
        return None;
    }
    let (n, rest) = digits(bytes)?;
    admits(code, n).then_some((n, rest))
}

// The closing parenthesis after the word of a shape.
#[tactic(auto, using(crate::proofs::Texts::texts, crate::specs::Shape::closed_laws))]
fn closed(word: u64, bytes: &[u8]) -> Option<(u64, &[u8])>
    ensures { number_of result ≡ end_at word bytes.now }
{
    Some((word, bytes.strip_prefix(&words::CLOSE)?))
}

#[tactic(auto, using(crate::proofs::Texts::texts, crate::specs::Shape::top_laws))]
fn shape_top(bytes: &[u8]) -> Option<(u64, &[u8])>
    ensures { number_of result ≡ top_at bytes.now }
{
    Some((wire::TOP, bytes.strip_prefix(&words::TOP)?))
}

#[tactic(auto, using(crate::proofs::Texts::texts, crate::specs::Shape::scalar_laws))]
fn shape_scalar(bytes: &[u8]) -> Option<(u64, &[u8])>
    ensures { number_of result ≡ scalar_at bytes.now }
{
    let bytes = bytes.strip_prefix(&words::SCALAR)?;
    let (kind, bytes) = number(bytes, sort::BITS_8)?;
    closed(wire::SCALAR + wire::KIND * kind, bytes)
}

#[tactic(auto, using(crate::proofs::Texts::texts, crate::specs::Shape::flat_laws))]
fn shape_flat(bytes: &[u8]) -> Option<(u64, &[u8])>
    ensures { number_of result ≡ flat_at bytes.now }
{
    let bytes = bytes.strip_prefix(&words::FLAT)?;
    let (kind, bytes) = number(bytes, sort::BITS_8)?;
    let (size, bytes) = number(bytes, sort::BITS_32)?;
    closed(wire::FLAT + wire::KIND * kind + wire::SIZE * size, bytes)
}

// A shape with the space before it, as its word.
#[tactic(auto, using(crate::specs::Shape::shape_laws))]
fn shape(bytes: &[u8]) -> Option<(u64, &[u8])>
    ensures { number_of result ≡ shape_word bytes.now }
{
    shape_top(bytes)
        .or_else(|| shape_scalar(bytes))
        .or_else(|| shape_flat(bytes))
}

// Whether the code is that of shapes, and no space comes next.
#[tactic(auto, unfolding(crate::specs::Rows::shapes_over, definition::specs::Format::begins_with))]
fn shapes_over(code: u8, bytes: &[u8]) -> bool
    ensures { result ≡ shapes_over code bytes.now }
{
    code == sort::SHAPES && !matches!(bytes, [b' ', ..])
}

// A shape's word, or a number that the code admits.
#[tactic(auto, unfolding(crate::specs::Rows::value_at))]
fn value(bytes: &[u8], code: u8) -> Option<(u64, &[u8])>
    ensures { number_of result ≡ value_at code bytes.now }
{
    match code {
        sort::SHAPE | sort::SHAPES => shape(bytes),
        _ => number(bytes, code),
    }
}

// A line by codes: its values after those that there are, and what is left of it.
#[tactic(auto, using(crate::proofs::Texts::texts, crate::specs::Rows::rows_laws))]
fn scan<'a>(mut line: &'a [u8], mut codes: &[u8], values: &mut Values) -> Option<&'a [u8]>
    ensures { Rowed (scan codes.entry.now line.entry.now) values.old result values.new }
{
    while let [code, rest @ ..] = codes {
        if *code < sort::BITS_8 {
            line = line.strip_prefix(&[*code])?;
            codes = rest;
        } else if shapes_over(*code, line) {
            codes = rest;
        } else {
            let (value, left) = value(line, *code)?;
            values.push(value);
            line = left;
            if *code != sort::SHAPES {
                codes = rest;
            }
        }
    }
    Some(line)
}

// A line that is no op, by the form whose text it begins with.
#[tactic(auto, using(crate::proofs::Texts::texts, crate::specs::Find::line_laws))]
fn line_entry(line: &[u8]) -> Option<Entry>
    ensures { Entered (whole_line line_forms line.now) result }
{
    for form in form::LINES.iter() {
        if let Some(rest) = line.strip_prefix(form.text()) {
            let mut values = Values::new();
            let rest = scan(rest, form.codes(), &mut values)?;
            return rest.is_empty().then_some(Entry {
                head: Head::Form(*form),
                values,
            });
        }
    }
    None
}

// Whether an op's name ends here: before `)`, before a space and a digit, or with the line.
#[tactic(auto, unfolding(crate::specs::OpLines::name_ends, definition::specs::Format::begins_digit, definition::specs::Format::is_digit))]
fn name_ends(bytes: &[u8]) -> bool
    ensures { result ≡ name_ends bytes.now }
{
    matches!(bytes, [] | [b')', ..] | [b' ', b'0'..=b'9', ..])
}

fn name_length(bytes: &[u8]) -> usize
    ensures { result ≡ length (name_of bytes.now) }
{
    (0..bytes.len())
        .find(|i| name_ends(&bytes[*i..]))
        .unwrap_or(bytes.len())
}

// The code of the numbers up to a maximum.
#[tactic(auto, unfolding(crate::specs::Scan::max_code, definition::specs::Basics::choose))]
pub fn maximum_code(m: u64) -> u8
    ensures { result ≡ max_code m }
{
    match m {
        MOST_8 => sort::BITS_8,
        MOST_16 => sort::BITS_16,
        MOST_32 => sort::BITS_32,
        MOST_KIND => sort::SCALAR,
        _ => sort::COMPOSITE,
    }
}

// The operands of a row.
#[tactic(auto, using(crate::specs::OpRead::operand_laws))]
fn operands<'a>(mut bytes: &'a [u8], row: Row, values: &mut Values) -> Option<&'a [u8]>
    ensures { Rowed (numbers_at (maxima_of row.number) bytes.entry.now) values.old result values.new }
{
    for most in row.maxima() {
        let (value, rest) = number(bytes, maximum_code(*most))?;
        values.push(value);
        bytes = rest;
    }
    Some(bytes)
}

// An op, from its name on, by the row of the name.
#[tactic(auto, using(crate::specs::OpRead::op_laws))]
fn op_entry(bytes: &[u8]) -> Option<Entry>
    ensures { Entered (named_line bytes.now) result }
{
    let (name, rest) = bytes.split_at(name_length(bytes));
    let row = ops::find(name)?;
    let mut values = Values::new();
    let rest = operands(rest, row, &mut values)?;
    (rest == words::CLOSE.as_slice()).then_some(Entry {
        head: Head::Op(row),
        values,
    })
}

// What the line that the bytes say is.
#[tactic(auto, using(crate::proofs::Texts::texts, crate::specs::OpRead::entry_laws))]
fn read_entry(line: &[u8]) -> Option<Entry>
    ensures { Entered (read_line line.now) result }
{
    match line.strip_prefix(&words::OP) {
        Some(rest) => op_entry(rest),
        None => line_entry(line),
    }
}

// Whether an operand names a kind that a module lacks: it is a kind by the largest number that it may be. No kind has more than 8 bits.
#[tactic(auto, unfolding(definition::specs::Shapes::is_lacking))]
pub fn names_lacking(float: u8, most: u64, value: u64) -> bool
    ensures { result ≡ (eqb most 7 && is_lacking float value) }
{
    most == MOST_KIND && value <= MOST_8 && value_layout::is_lacking(float, value as u8)
}

// Whether no operand of a row names a kind that a module lacks. One with floats lacks none, and is spared the loop.
fn has_kinds(float: u8, row: Row, values: &Values) -> bool
    ensures { ((vs : List ℕ) → Stored values.now vs → result ≡ has_kinds float (maxima_of row.number) vs) }
{
    float != 0
        || row
            .maxima()
            .iter()
            .zip(&values.words[1..])
            .all(|(most, value)| !names_lacking(float, *most, *value))
}

// Whether a line may follow at a place. I and H of the first line are unequal, and an op names no kind that the module lacks.
#[tactic(auto, using(crate::specs::Step::stand_laws))]
fn may_stand(float: u8, place: Place, entry: &Entry) -> bool
    ensures { ((vs : List ℕ) → Stored entry.now.values vs → result ≡ may_stand float (place_number place) (head_number entry.now.head) vs) }
{
    place.allows(entry.head)
        && match entry.head {
            Head::Form(Form::Module) => entry.values.words[bytecode::INDEX_TRAP]
                != entry.values.words[bytecode::HOST_TRAP],
            Head::Op(row) => has_kinds(float, row, &entry.values),
            Head::Form(_) => true,
        }
}

// The limit that a line meets by itself: a signature of more than 16 parameters, or LOCALS over 32.
#[tactic(auto, using(crate::specs::Step::limit_laws))]
fn own_limit(entry: &Entry) -> Option<Limit>
    ensures { ((vs : List ℕ) → Stored entry.now.values vs → own_limit (head_number entry.now.head) vs ≡ limit_of result) }
{
    match entry.head {
        Head::Form(Form::Signature) if MOST_VALUES < entry.values.count => Some(Limit::Table),
        Head::Form(Form::Chunk) if MOST_LOCALS < entry.values.words[bytecode::LOCALS] => Some(
            Limit::Locals,
        ),
        _ => None,
    }
}

// The first word of a line's row: 0 or 1 for a slot, the op's number, else how many values follow.
#[tactic(auto, unfolding(crate::specs::Forms::head_word, definition::specs::Basics::choose))]
fn head_word(head: Head, count: usize) -> u64
    ensures { result ≡ head_word (head_number head) count }
{
    match head {
        Head::Op(row) => row.number as u64,
        Head::Form(Form::SharedSlot) => 0,
        Head::Form(Form::PrivateSlot) => 1,
        Head::Form(_) => count as u64,
    }
}

// The words of a line's row; a chunk's row says besides how many constants and instructions come before it.
fn row_words(entry: &Entry, constants: u64, instructions: u64) -> [u64; bytecode::WORDS]
    ensures { RowIs entry.now.head entry.now.values constants instructions result }
{
    let mut words = entry.values.words;
    words[0] = head_word(entry.head, entry.values.count);
    if let Head::Form(Form::Chunk) = entry.head {
        words[bytecode::FIRST_CONSTANT] = constants;
        words[bytecode::FIRST_CODE] = instructions;
    }
    words
}

// One line after so many others, from the tables before it to the tables after it, and where it leaves the reader.
fn one_line(t: &mut [u64], lines: u64, place: Place, line: &[u8]) -> Result<Place, Refusal>
    requires { length t.old ≡ size }
    ensures step { (q : Reader) → q.place ≡ place_number place → Held t.old (lists q) → Sound q → StepIs (next_line lines q line.now) result t.new }
    ensures long { length t.new ≡ size }
{
    let entry = read_entry(line).ok_or(Refusal::CannotFollow(lines))?;
    if !may_stand(bytecode::float_of(t), place, &entry) {
        return Err(Refusal::CannotFollow(lines));
    }
    let next = place.after(entry.head);
    let Some(table) = entry.head.table() else {
        return Ok(next);
    };
    if bytecode::cap_of(table) <= t[table] {
        return Err(Refusal::LimitPassed(0, Limit::Table));
    }
    if let Some(limit) = own_limit(&entry) {
        return Err(Refusal::LimitPassed(0, limit));
    }
    let row = row_words(&entry, t[bytecode::CONSTANTS], t[bytecode::INSTRUCTIONS]);
    bytecode::append(t, table, &row);
    Ok(next)
}

// The first line, and what follows its LF, if an LF ends it.
pub fn first_line(bytes: &[u8]) -> Option<(&[u8], &[u8])>
    ensures { FirstLine bytes.now result }
{
    let end = bytes.iter().position(|byte| *byte == b'\n')?;
    Some((&bytes[..end], &bytes[end + 1..]))
}

// Lines from the first on, each after the tables of those before it.
#[tactic(auto, using(crate::specs::Reads::going_start))]
fn read_lines(mut bytes: &[u8], t: &mut [u64]) -> Result<(), Refusal>
    requires { (length bytes.now ≤ 65536) × Held t.old (lists at_start) }
    ensures { ReadIs (read_all bytes.entry.now) result t.new }
{
    let mut place = Place::Start;
    let mut lines: u64 = 0;
    while !bytes.is_empty() {
        let (line, rest) = first_line(bytes).ok_or(Refusal::CannotFollow(lines))?;
        place = one_line(t, lines, place, line)?;
        lines += 1;
        bytes = rest;
    }
    if place == Place::End {
        Ok(())
    } else {
        Err(Refusal::CannotFollow(lines))
    }
}

// Reads a listing into lent tables, whatever they hold.
pub fn read(bytes: &[u8], t: &mut [u64; bytecode::SIZE]) -> Result<(), Refusal>
    ensures { (read_listing bytes.now ≡ result_of result t.new) × LeftIn result t.new }
{
    if MOST_BYTES < bytes.len() {
        return Err(Refusal::LimitPassed(0, Limit::Bytes));
    }
    t[..bytecode::TABLES].fill(0);
    read_lines(bytes, t)
}
