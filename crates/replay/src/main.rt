// Runs the fixed list of calls that stands on standard input: the check's answer and both sheets are compared with those of the list. What the list is, and where its
// answers are from, is said in oracle/README.md, "The fixed list".
#![tactic(auto)]

ghost use Rattle.std.specs.Prelude.{◌≤◌, IfOk, length};

use answer::Numbers;
use std::io::Read;
use std::{fmt, io};
use typed_check::{LISTING, SHEET};

// Room for a line, of which the longest has the entries of a sheet.
const LINE: usize = 4 * SHEET;

// More calls than a list has: the loop over them ends.
const CALLS: usize = 1_000_000;

// ---- lines of the list

// A number of a list has at most one digit more than this.
const LONG: u64 = 999_999_999_999;

// The words of a line that are still to be read.
#[derive(Clone, Copy)]
struct Words<'a> {
    rest: &'a [u8],
}

impl<'a> Words<'a> {
    // All words of a line but the first.
    fn after_first(line: &'a [u8]) -> Words<'a> {
        let rest = match line.iter().position(|byte| *byte == b' ') {
            Some(end) => &line[end + 1..],
            None => &[],
        };
        Words { rest }
    }

    // The next number, which a byte below the digits ends. Whatever the list holds is taken: where there is no digit, it is 0. std's `parse` takes numbers alone.
    fn next_number(&mut self) -> u64 {
        let mut number: u64 = 0;
        while let [byte, rest @ ..] = self.rest {
            self.rest = rest;
            if *byte < b'0' || LONG < number {
                break;
            }
            let digit = char::from(*byte).to_digit(10).unwrap_or(0);
            number = number.saturating_mul(10).saturating_add(u64::from(digit));
        }
        number
    }

    // How many numbers an answer has, and those, of which eight are kept.
    fn answer(&mut self) -> Numbers {
        let count = self.next_number() as usize;
        let mut words = [0; 8];
        for word in words.iter_mut().take(count) {
            *word = self.next_number();
        }
        Numbers { count, words }
    }
}

// The first line of an entry: whether the answer is the original's, the entry's number, the bytes of the listing, the lengths of the sheets, and the answer.
#[derive(Clone, Copy)]
struct Head {
    of_original: bool,
    number: u64,
    bytes: usize,
    heights: usize,
    blinds: usize,
    answer: Numbers,
}

impl From<&[u8]> for Head {
    fn from(line: &[u8]) -> Head {
        let mut words = Words::after_first(line);
        Head {
            of_original: line.starts_with(b"o"),
            number: words.next_number(),
            bytes: words.next_number() as usize,
            heights: words.next_number() as usize,
            blinds: words.next_number() as usize,
            answer: words.answer(),
        }
    }
}

impl Head {
    // The entries of each sheet: as many as there are instructions, and none where the listing is refused.
    fn entries(&self) -> usize {
        match self.answer.words {
            [0, _, instructions, ..] => instructions as usize,
            _ => 0,
        }
    }
}

// Reads a line, as much of it as has room, and answers its length without the LF. The end of the input ends a line too. std's `read_line` fills a String: programs
// ask for no memory.
fn read_line(input: &mut impl Read, line: &mut [u8]) -> io::Result<usize>
    ensures { IfOk result (λ n. n ≤ length line.new) }
{
    for (length, place) in line.iter_mut().enumerate() {
        match input.by_ref().bytes().next().transpose()? {
            None | Some(b'\n') => return Ok(length),
            Some(byte) => *place = byte,
        }
    }
    Ok(line.len())
}

// The list, and room for a line of it.
#[derive(Drop)]
struct List<R> {
    input: R,
    line: [u8; LINE],
}

impl<R: Read> List<R> {
    // Past the last line it is empty.
    fn next_line(&mut self) -> io::Result<&[u8]> {
        let length = read_line(&mut self.input, &mut self.line)?;
        Ok(&self.line[..length])
    }

    // The first line of the next entry; past the last one there is none.
    fn next_head(&mut self) -> io::Result<Option<Head>> {
        let line = self.next_line()?;
        if line.is_empty() {
            return Ok(None);
        }
        Ok(Some(Head::from(line)))
    }

    // Whether a sheet begins with so many entries, those of the next line, and has zeros after them. For no entries there is no line.
    fn is_next_sheet(&mut self, sheet: &[u8], entries: usize) -> io::Result<bool> {
        let rest_right = sheet.iter().skip(entries).all(|entry| *entry == 0);
        if entries == 0 {
            return Ok(rest_right);
        }
        let mut words = Words {
            rest: self.next_line()?,
        };
        let Some(front) = sheet.get(..entries) else {
            return Ok(false);
        };
        for entry in front {
            if words.next_number() != u64::from(*entry) {
                return Ok(false);
            }
        }
        Ok(rest_right)
    }
}

// ---- calls

// The check of the next listing of the list, over sheets full of what is not 0. Says what differs from the list, and answers whether nothing does.
fn is_right<R: Read>(rt: &impl Print, list: &mut List<R>, head: &Head) -> io::Result<bool> {
    let number = head.number;
    let mut listing = [0; LISTING];
    let mut heights = [0xaa; SHEET];
    let mut blinds = [0x55; SHEET];
    let listing = &mut listing[..head.bytes.min(LISTING)];
    let heights = &mut heights[..head.heights.min(SHEET)];
    let blinds = &mut blinds[..head.blinds.min(SHEET)];
    let read = reading::read_full(&mut list.input, listing)?;
    let found = Numbers::from(typed_check::typed_check(&listing[..read], heights, blinds));
    let answer_right = found == head.answer;
    if !answer_right {
        println!(rt; "call {number}: another answer")?;
    }
    let heights_right = list.is_next_sheet(heights, head.entries())?;
    let blinds_right = list.is_next_sheet(blinds, head.entries())?;
    let sheets_right = heights_right && blinds_right;
    if !sheets_right {
        println!(rt; "call {number}: other sheets")?;
    }
    Ok(answer_right && sheets_right)
}

// How many calls were run, and how many of them were right.
#[derive(Clone, Copy, Default)]
struct Tally {
    run: u64,
    right: u64,
}

impl Tally {
    fn add(&mut self, right: bool) {
        self.run = self.run.saturating_add(1);
        self.right = self.right.saturating_add(u64::from(right));
    }
}

impl fmt::Display for Tally {
    fn fmt<W: fmt::Write>(&self, f: &mut fmt::Formatter<W>) -> fmt::Result {
        let Tally { run, right } = *self;
        write!(f, "{run} run, {right} right")
    }
}

fn main(rt: HostRuntime) -> io::Result<()> {
    let mut list = List {
        input: rt.stdin(),
        line: [0; LINE],
    };
    let mut all = Tally::default();
    let mut of_original = Tally::default();
    for _ in 0..CALLS {
        let Some(head) = list.next_head()? else {
            break;
        };
        let right = is_right(&rt, &mut list, &head)?;
        all.add(right);
        if head.of_original {
            of_original.add(right);
        }
    }
    println!(rt; "calls: {all}")?;
    println!(rt; "with the original's answer: {of_original}")
}
