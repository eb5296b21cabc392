// Reads the listings of standard input one after another, and prints what reading each gives. A line `= NAME` begins a listing. In a listing a line
// `*COUNT TEXT` stands for so many lines TEXT, and a line that ends with `\` for its text without an LF; any other line stands for itself.
#![tactic(auto)]

ghost use Rattle.std.specs.Prelude.{◌≤◌, ◌<◌, length};
ghost use Rattle.listing_cases.specs.declared.TheConstants.{ROOM};

use std::io;
use std::io::Write;

const ROOM: usize = 70000;

// A listing, as far as there is room for it. Bytes and their number, and no vector of the kit's `arrayvec`: this stands on std alone (README).
#[derive(Drop)]
struct Listing {
    bytes: [u8; ROOM],
    length: usize,
    ghost in_room: { length ≤ ROOM },
}

impl Listing {
    fn put(&mut self, bytes: &[u8]) {
        let room = &mut self.bytes[self.length..];
        let count = bytes.len().min(room.len());
        room[..count].copy_from_slice(&bytes[..count]);
        self.length += count;
    }

    // A line with its LF; a last `\` stands for no LF.
    fn put_line(&mut self, line: &[u8]) {
        if let Some(text) = line.strip_suffix(b"\\") {
            self.put(text);
        } else {
            self.put(line);
            self.put(b"\n");
        }
    }

    // One line of input, as what it stands for.
    fn put_input(&mut self, line: &[u8]) {
        let (count, text) = repeated(line).unwrap_or((1, line));
        for _ in 0..count {
            self.put_line(text);
        }
    }
}

// A count that has five digits takes no more of them.
const FOUR_DIGITS: u32 = 9999;

// The COUNT and the TEXT of a line `*COUNT TEXT`. By hand: std's `parse` takes numbers alone, and in a count that is none what is no digit is 0.
fn repeated(line: &[u8]) -> Option<(u32, &[u8])> {
    let line = line.strip_prefix(b"*")?;
    let end = line.iter().position(|byte| *byte == b' ')?;
    let mut count: u32 = 0;
    for byte in &line[..end] {
        if FOUR_DIGITS < count {
            break;
        }
        let digit = char::from(*byte).to_digit(10).unwrap_or(0);
        count = count.saturating_mul(10).saturating_add(digit);
    }
    Some((count, &line[end + 1..]))
}

// What reading the listing gives: the counts of its chunks and instructions, or the refusal.
fn report(rt: &impl Print, listing: &[u8]) -> io::Result<()> {
    let mut tables = [0; bytecode::SIZE];
    match listing::read(listing, &mut tables) {
        Ok(()) => {
            let chunks = bytecode::count(&tables, bytecode::CHUNKS);
            let instructions = bytecode::count(&tables, bytecode::INSTRUCTIONS);
            println!(rt; "read {chunks} {instructions}")
        }
        Err(refusal) => {
            print!(rt; "refused")?;
            let numbers = refusal.numbers(0);
            for number in numbers.words.iter().take(numbers.count) {
                print!(rt; " {number}")?;
            }
            println!(rt)
        }
    }
}

// The lines up to the next name. Answers what is left.
fn read_lines<'a>(mut input: &'a [u8], listing: &mut Listing) -> &'a [u8]
    ensures { length result.now ≤ length input.entry.now }
{
    while !input.is_empty() && !input.starts_with(b"=") {
        let (line, rest) = listing::first_line(input).unwrap_or((input, b""));
        listing.put_input(line);
        input = rest;
    }
    input
}

fn run(rt: &impl Print, mut input: &[u8]) -> io::Result<()> {
    let mut listing = Listing {
        bytes: [0; ROOM],
        length: 0,
    };
    while !input.is_empty() {
        let (name, rest) = listing::first_line(input).unwrap_or((input, b""));
        io::writer(rt).write_all(name)?;
        print!(rt; ": ")?;
        listing.length = 0;
        input = read_lines(rest, &mut listing);
        report(rt, &listing.bytes[..listing.length])?;
    }
    Ok(())
}

fn main(rt: HostRuntime) -> io::Result<()> {
    let mut input = [0u8; 65536];
    let n = reading::read_full(&mut rt.stdin(), &mut input)?;
    run(&rt, &input[..n])
}
