// Words for an answer, for people. Each function takes any bytes and any words, writes as much of its text as fits, and answers the
// length of the whole.
#![tactic(auto)]

mod counted;
mod find;
mod floats;
mod lines;
mod refusal;
mod sentences;

use crate::counted::Counted;
use crate::find::Place;
use crate::lines::{Line, Sort};
use crate::refusal::NAMES;
use crate::sentences::Refused;
use std::fmt;
use std::fmt::Write;
use text_out::Text;

// Word 0 of an acceptance, as C has it.
const ACCEPTED: u64 = 0;

// As wide as the height and the mark of an instruction.
const NO_MARKS: &[u8] = b"                 ";

// How many digits the columns of lines and of heights have.
const LINE_WIDTH: u32 = 7;

const HEIGHT_WIDTH: u32 = 8;

// The line at fault, counted from 1; 0 where no line is, as C has it.
pub fn line_of(listing: &[u8], answer: &[u64; 8]) -> usize {
    let refused = Refused::new(listing, answer);
    refused.place.map_or(0, |place| place.number as usize)
}

// The name that goes with word 0.
#[derive(Clone, Copy)]
struct Name(u64);

impl fmt::Display for Name {
    fn fmt<W: fmt::Write>(&self, f: &mut fmt::Formatter<W>) -> fmt::Result {
        let Name(number) = *self;
        match NAMES.get(number as usize) {
            Some(name) => f.write_str(name),
            None => write!(f, "refusal {number}"),
        }
    }
}

// The name of a refusal, and of acceptance.
pub fn name_of(number: u64, text: &mut [u8]) -> usize {
    let mut text = Text::new(text);
    let _ = write!(text, "{}", Name(number));
    text.length()
}

fn put_refused(text: &mut Text<'_>, listing: &[u8], answer: &[u64; 8]) -> fmt::Result {
    let refused = Refused::new(listing, answer);
    if let Some(Place { number, line }) = refused.place {
        write!(text, "line {number}: ")?;
        line.put(text);
    }
    writeln!(text, "{}: {refused}", Name(answer[0]))?;
    if let Some(at) = refused.refusal.at() {
        writeln!(text, "{at}")?;
    }
    Ok(())
}

// A number in a column of so many digits, or wider. By hand: a formatter takes twice as long.
fn put_column(text: &mut Text<'_>, n: u64, width: u32) {
    let mut more: u64 = 1;
    for _ in 1..width {
        more = more.saturating_mul(10);
        if n < more {
            text.byte(b' ');
        }
    }
    text.decimal(n);
}

fn put_marks(text: &mut Text<'_>, height: u8, mark: u8) {
    match height.checked_sub(1) {
        Some(operands) => put_column(text, u64::from(operands), HEIGHT_WIDTH),
        None => text.bytes(b"       -"),
    }
    text.bytes(if mark == 0 {
        b"  plain  "
    } else {
        b"  blind  "
    });
}

// An accepted listing, with its sheets.
#[derive(Clone, Copy)]
struct Accepted<'a> {
    listing: &'a [u8],
    heights: &'a [u8],
    blinds: &'a [u8],
    chunks: u64,
    instructions: u64,
}

impl Accepted<'_> {
    fn put_lines(&self, text: &mut Text<'_>) {
        // Past the end of a sheet there is no height, and no read is blind.
        let mut heights = self.heights.iter().copied();
        let mut blinds = self.blinds.iter().copied();
        for (number, bytes) in (1u64..).zip(self.listing.split_inclusive(lines::is_line_feed)) {
            let line = Line::new(bytes);
            put_column(text, number, LINE_WIDTH);
            if line.sort == Sort::Op {
                put_marks(
                    text,
                    heights.next().unwrap_or(0),
                    blinds.next().unwrap_or(0),
                );
            } else {
                text.bytes(NO_MARKS);
            }
            line.put(text);
        }
    }

    fn put_blind_reads(&self, text: &mut Text<'_>) -> fmt::Result {
        let count = self.blinds.iter().filter(|mark| **mark != 0).count();
        if count == 0 {
            return Ok(());
        }
        let reads = Counted(count as u64, "blind read");
        writeln!(
            text,
            "{reads}: the shape of what is read is not known there, so the check says nothing of it"
        )
    }

    fn put(&self, text: &mut Text<'_>) -> fmt::Result {
        let chunks = Counted(self.chunks, "chunk");
        let instructions = Counted(self.instructions, "instruction");
        writeln!(text, "accepted: {chunks}, {instructions}")?;
        self.put_blind_reads(text)?;
        text.write_str("   line  height  mark   listing\n")?;
        self.put_lines(text);
        Ok(())
    }
}

// Of a refusal: the line at fault, the refusal's name, and a sentence. Of an acceptance: the listing, with the height and the mark of each
// instruction beside it. The sheets stand one by one, as C lends them.
pub fn explain(
    listing: &[u8],
    heights: &[u8],
    blinds: &[u8],
    answer: &[u64; 8],
    text: &mut [u8],
) -> usize {
    let mut text = Text::new(text);
    let _ = match *answer {
        [ACCEPTED, chunks, instructions, ..] => Accepted {
            listing,
            heights,
            blinds,
            chunks,
            instructions,
        }
        .put(&mut text),
        _ => put_refused(&mut text, listing, answer),
    };
    text.length()
}
