// The check, the reader and the writer for callers in C and Rust: include/stagecheck.h declares them and says what their numbers mean. Their parameters stand one by one, as C lends them.
#![tactic(auto)]

ghost use Rattle.std.specs.Prelude.{◌≡◌, length};
ghost use Rattle.definition.specs.Check.{check};
ghost use Rattle.typed_check.specs.Equal.{Sound};
ghost use Rattle.definition.specs.Read.{read as read_listing};
ghost use Rattle.writer.specs.Tables.{write_tables};
ghost use Rattle.stagecheck_c.specs.Row.{Given, ReadInto, ReadGiven, WriteGiven, BackGiven, AgainGiven};
ghost use Rattle.definition.specs.Printed.{printed};
ghost use Rattle.printed.specs.Writes.{Holds};

use answer::{Accepted, Numbers, Refused};
use printed::ROOM;

// An answer's words, into words that the caller lends; gives how many there are.
fn give(numbers: Numbers, answer: &mut [u64; 8]) -> usize
    ensures { (result ≡ numbers.count) × (answer.new ≡ numbers.words) }
{
    let Numbers { count, words } = numbers;
    answer.copy_from_slice(&words);
    count
}

// Checks any bytes, with any two sheets; gives how many words the answer has. The tables are lent too, whatever they hold.
#[unsafe(no_mangle)]
pub extern "C" fn stagecheck_check_in(
    listing: &[u8],
    tables: &mut [u64; bytecode::SIZE],
    heights: &mut [u8],
    blinds: &mut [u8],
    answer: &mut [u64; 8],
) -> usize
    ensures given { Given (check listing.now (length heights.old) (length blinds.old)) result answer.new heights.new blinds.new }
    ensures sound { Sound (check listing.now (length heights.old) (length blinds.old)).answer listing.now heights.new blinds.new }
{
    let checked = typed_check::check_into(listing, tables, heights, blinds);
    give(Numbers::from(checked), answer)
}

// The same with tables of its own, on the stack.
#[unsafe(no_mangle)]
pub extern "C" fn stagecheck_check(
    listing: &[u8],
    heights: &mut [u8],
    blinds: &mut [u8],
    answer: &mut [u64; 8],
) -> usize
    ensures given { Given (check listing.now (length heights.old) (length blinds.old)) result answer.new heights.new blinds.new }
    ensures sound { Sound (check listing.now (length heights.old) (length blinds.old)).answer listing.now heights.new blinds.new }
{
    let mut tables = [0u64; bytecode::SIZE];
    stagecheck_check_in(listing, &mut tables, heights, blinds, answer)
}

// Reading, and how much was read. A listing that does not read leaves no header, and tables without a header say no module.
fn read_into(listing: &[u8], tables: &mut [u64; bytecode::SIZE]) -> Result<Accepted, Refused>
    ensures { ReadInto (read_listing listing.now) result tables.new }
{
    match listing::read(listing, tables) {
        Ok(()) => Ok(typed_check::counts(tables)),
        Err(refusal) => {
            tables[bytecode::HEADER] = 0;
            Err(Refused::from(refusal))
        }
    }
}

// Reads any bytes into lent tables, whatever they hold; gives how many words the answer has.
#[unsafe(no_mangle)]
pub extern "C" fn stagecheck_read(
    listing: &[u8],
    tables: &mut [u64; bytecode::SIZE],
    answer: &mut [u64; 8],
) -> usize
    ensures { ReadGiven (read_listing listing.now) result answer.new tables.new }
{
    let read = read_into(listing, tables);
    give(Numbers::from(read), answer)
}

// Writes the module that the tables say as its listing, for any words and any buffer; gives how many words the answer has.
#[unsafe(no_mangle)]
pub extern "C" fn stagecheck_write(
    tables: &[u64; bytecode::SIZE],
    out: &mut [u8],
    answer: &mut [u64; 8],
) -> usize
    ensures write_given { WriteGiven (write_tables tables.now out.old) result answer.new out.new }
    ensures back_given { BackGiven tables.now out.old result answer.new out.new }
    ensures again_given { AgainGiven tables.now (write_tables tables.now out.old) out.new }
{
    let written = writer::write(tables, out);
    give(Numbers::from(written), answer)
}

// The text that the program `stagecheck` prints for any bytes; answers its length.
#[unsafe(no_mangle)]
pub extern "C" fn stagecheck_text(listing: &[u8], text: &mut [u8; ROOM]) -> usize
    ensures { Holds text.new result (printed listing.now) }
{
    stagecheck_text::check_text(listing, text)
}

// Words for an answer; answers the length of the whole text, of which as much is written as there is room for.
#[unsafe(no_mangle)]
pub extern "C" fn stagecheck_explain(
    listing: &[u8],
    heights: &[u8],
    blinds: &[u8],
    answer: &[u64; 8],
    text: &mut [u8],
) -> usize {
    explain::explain(listing, heights, blinds, answer, text)
}

// The line at fault, counted from 1; 0 where none is.
#[unsafe(no_mangle)]
pub extern "C" fn stagecheck_line(listing: &[u8], answer: &[u64; 8]) -> usize {
    explain::line_of(listing, answer)
}

// The name that goes with word 0 of an answer.
#[unsafe(no_mangle)]
pub extern "C" fn stagecheck_name(number: u64, text: &mut [u8]) -> usize {
    explain::name_of(number, text)
}
