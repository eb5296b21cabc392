// The line of a listing that an answer means.
use crate::lines::{Line, SORTS, Sort};
use std::fmt;

#[derive(Clone, Copy)]
pub enum Wanted {
    // the line after so many
    Line(u64),
    Instruction(At),
    // of a sort, the line after so many of it
    Entry(Sort, u64),
    // the first that overfills a table
    Overfull,
    // the first chunk with too many locals
    Locals,
    // the first shared slot after a private one
    SharedLate,
}

// An instruction: the chunk, and the place in it.
#[derive(Clone, Copy)]
pub struct At {
    pub chunk: u64,
    pub instruction: u64,
}

impl fmt::Display for At {
    fn fmt<W: fmt::Write>(&self, f: &mut fmt::Formatter<W>) -> fmt::Result {
        let At { chunk, instruction } = *self;
        write!(
            f,
            "chunk {chunk}, instruction {instruction}, both counted from 0"
        )
    }
}

// A line, and its number, counted from 1.
#[derive(Clone, Copy)]
pub struct Place<'a> {
    pub number: u64,
    pub line: Line<'a>,
}

// How many lines stand before a line, in all and of each sort, and how many instructions of the last chunk.
#[derive(Default, Drop)]
struct Before {
    lines: u64,
    of_sort: [u64; SORTS],
    instructions: u64,
}

impl Before {
    fn count(&self, sort: Sort) -> u64 {
        self.of_sort[sort as usize]
    }

    fn add(&mut self, sort: Sort) {
        self.lines = self.lines.saturating_add(1);
        self.of_sort[sort as usize] = self.count(sort).saturating_add(1);
        self.instructions = match sort {
            Sort::Chunk => 0,
            Sort::Op => self.instructions.saturating_add(1),
            _ => self.instructions,
        };
    }

    // Whether the table of a sort has no place left; both sorts of slot share one.
    fn is_full(&self, sort: Sort) -> bool {
        let count = match sort {
            Sort::SlotShared | Sort::SlotPrivate => self
                .count(Sort::SlotShared)
                .saturating_add(self.count(Sort::SlotPrivate)),
            _ => self.count(sort),
        };
        sort.room().is_some_and(|room| room <= count)
    }

    fn is_instruction(&self, at: At) -> bool {
        self.count(Sort::Chunk) == at.chunk.saturating_add(1) && self.instructions == at.instruction
    }

    fn is_wanted(&self, wanted: Wanted, line: Line<'_>) -> bool {
        let sort = line.sort;
        match wanted {
            Wanted::Line(lines) => self.lines == lines,
            Wanted::Instruction(at) => sort == Sort::Op && self.is_instruction(at),
            Wanted::Entry(of, index) => sort == of && self.count(of) == index,
            Wanted::Overfull => self.is_full(sort) || line.has_parameters_over(),
            Wanted::Locals => line.has_locals_over(),
            Wanted::SharedLate => sort == Sort::SlotShared && 0 < self.count(Sort::SlotPrivate),
        }
    }
}

pub fn find(listing: &[u8], wanted: Wanted) -> Option<Place<'_>> {
    let mut before = Before::default();
    let mut rest = listing;
    // By what is left, and not by `split_inclusive`: that looks for a line's end first, and the line that is wanted may be as long as a listing.
    while !rest.is_empty() {
        let line = Line::new(rest);
        if before.is_wanted(wanted, line) {
            return Some(Place {
                number: before.lines.saturating_add(1),
                line,
            });
        }
        before.add(line.sort);
        rest = line.after();
    }
    None
}
