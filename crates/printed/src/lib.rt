// The text that the program `stagecheck` prints, put into a lent buffer.
#![tactic(auto)]

ghost use Rattle.std.specs.Prelude.{◌≡◌, ◌∷◌, map, ◌+◌, ◌≤◌, ◌<◌, ◌^◌, length, get_or};
ghost use Rattle.std.specs.List.{flat_map};
ghost use Rattle.definition.specs.Format.{bytes, decimal};
ghost use Rattle.definition.specs.Module.{all_ops};
ghost use Rattle.definition.specs.Write.{spaced};
ghost use Rattle.definition.specs.Printed.{words, height_word, blind_word, sizes, print_ops, print_chunks};
ghost use Rattle.bytecode.specs.Meaning.{module_of};
ghost use Rattle.text_out.specs.Text.{with_text};
ghost use Rattle.printed.specs.Texts.{header, line, checked, accepted_text};
ghost use Rattle.printed.specs.Writes.{Holds};

use text_out::Text;

// A chunk's number has at most 2 bytes, an index 4, a height 3, the mark 5, and 4 are between and after them.
const LONGEST_LINE: usize = 18;

// The first line, and one for each instruction.
const MOST_LINES: usize = 4097;

pub const ROOM: usize = LONGEST_LINE * MOST_LINES;

#[tactic(auto, using(crate::proofs::Lines::with_more_numbers), unfolding(text_out::specs::Text::laid, text_out::specs::Text::after_text))]
fn put_numbers(text: &mut Text, numbers: &[u64])
    ensures { text.new ≡ with_text text.old (flat_map spaced numbers.now) }
{
    for n in numbers {
        text.spaced_decimal(*n);
    }
}

// From an entry of the height sheet: 0 where the walk did not examine the instruction, else 1 + its height.
#[tactic(auto, using(crate::proofs::Lines::height_none, crate::proofs::Lines::height_some))]
fn put_height(text: &mut Text, entry: u8)
    ensures { text.new ≡ with_text text.old (height_word entry) }
{
    match entry.checked_sub(1) {
        None => text.byte(b'-'),
        Some(height) => text.decimal(u64::from(height)),
    }
}

// From an entry of the blind sheet.
#[tactic(auto, using(crate::proofs::Lines::blind_none, crate::proofs::Lines::blind_some), unfolding(definition::specs::Format::bytes))]
fn put_blind(text: &mut Text, entry: u8)
    ensures { text.new ≡ with_text text.old (blind_word entry) }
{
    match entry {
        0 => text.bytes(b"plain"),
        _ => text.bytes(b"blind"),
    }
}

// The line of instruction i of chunk k, from its entries of both sheets.
fn put_line(text: &mut Text, k: usize, i: usize, height: u8, blind: u8)
    ensures { text.new ≡ with_text text.old (line k i height blind) }
{
    text.decimal(k as u64);
    text.spaced_decimal(i as u64);
    text.byte(b' ');
    put_height(text, height);
    text.byte(b' ');
    put_blind(text, blind);
    text.byte(b'\n');
}

// An entry of a sheet; past the end it is 0.
fn entry(sheet: &[u8], i: usize) -> u8
    ensures { result ≡ get_or sheet.now i 0 }
{
    sheet.get(i).copied().unwrap_or(0)
}

#[derive(Clone, Copy)]
struct Sheets<'a> {
    heights: &'a [u8],
    blinds: &'a [u8],
}

impl Sheets<'_> {
    // The lines of the n instructions of chunk k, whose entries begin at `base`.
    #[tactic(auto, using(crate::proofs::Lines::with_more_ops), unfolding(definition::specs::Printed::print_ops, text_out::specs::Text::laid, text_out::specs::Text::after_text))]
    fn put_ops(&self, text: &mut Text, k: usize, base: usize, n: usize)
        requires { base + n < 2 ^ 64 }
        ensures { text.new ≡ with_text text.old (print_ops (checked self.now) k base 0 n) }
    {
        // By number: a sheet may be too short, and then says 0.
        for i in 0..n {
            let height = entry(self.heights, base + i);
            let blind = entry(self.blinds, base + i);
            put_line(text, k, i, height, blind);
        }
    }

    // The lines of all chunks. A chunk's entries begin where those of the chunks before it end.
    fn put_chunks(&self, text: &mut Text, t: &[u64])
        ensures { text.new ≡ with_text text.old (print_chunks (checked self.now) 0 0 (sizes (module_of t.now).chunks)) }
    {
        let mut base = 0;
        for k in 0..bytecode::count(t, bytecode::CHUNKS) {
            let count = bytecode::instructions_of(t, k).count;
            self.put_ops(text, k, base, count);
            base += count;
        }
    }
}

fn put_header(text: &mut Text, chunks: usize, instructions: usize)
    ensures { text.new ≡ with_text text.old (header chunks instructions) }
{
    text.bytes(b"accepted");
    text.spaced_decimal(chunks as u64);
    text.spaced_decimal(instructions as u64);
    text.byte(b'\n');
}

// For an accepted module, whose tables and sheets are lent: how many bytes are written.
pub fn print_accepted(t: &[u64], heights: &[u8], blinds: &[u8], out: &mut [u8; ROOM]) -> usize
    requires { length (all_ops (module_of t.now).chunks) ≤ 4096 }
    ensures { Holds out.new result (accepted_text t.now heights.now blinds.now) }
{
    let chunks = bytecode::count(t, bytecode::CHUNKS);
    let instructions = sheets::all_instructions(t);
    let mut text = Text::new(out);
    put_header(&mut text, chunks, instructions);
    Sheets { heights, blinds }.put_chunks(&mut text, t);
    text.length()
}

// For a refusal, its number and values: how many bytes are written.
pub fn print_refused(fields: &[u64], out: &mut [u8; ROOM]) -> usize
    requires { length fields.now ≤ 8 }
    ensures { Holds out.new result (words (bytes "refused" ∷ map decimal fields.now)) }
{
    let mut text = Text::new(out);
    text.bytes(b"refused");
    put_numbers(&mut text, fields);
    text.byte(b'\n');
    text.length()
}
