ghost use Rattle.std.specs.Prelude.{◌+◌, ◌≤◌};

use crate::part::Part;

// The instructions of a chunk: rows of the instruction table, of which there are at most 4,096.
#[derive(Clone, Copy)]
pub(crate) struct Code<'a> {
    pub(crate) tables: &'a [u64],
    pub(crate) first: usize,
    pub(crate) size: u16,
    pub(crate) ghost inside: { first + size ≤ 4096 },
}

impl<'a> Code<'a> {
    ghost use Rattle.std.specs.Prelude.{◌≡◌, ◌<◌};
    ghost use Rattle.nesting.specs.Codes.{part_in, CodeIs};

    pub(crate) fn of_chunk(tables: &'a [u64], k: usize) -> Code<'a>
        requires { k < 64 }
        ensures { CodeIs tables.now k result }
    {
        let span = bytecode::instructions_of(tables, k);
        Code {
            tables,
            first: span.first,
            size: span.count as u16,
        }
    }

    // The part of the instruction at p; past the chunk's end there is none.
    pub(crate) fn part_at(&self, p: u16) -> Part
        ensures { result ≡ part_in self.now p }
    {
        if p < self.size {
            Part::of(bytecode::instr_at(self.tables, self.first + usize::from(p)))
        } else {
            Part::Other
        }
    }
}
