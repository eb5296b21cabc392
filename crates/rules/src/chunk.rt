// The chunk under check.
ghost use Rattle.std.specs.Prelude.{◌≡◌, ◌<◌};
ghost use Rattle.rules.specs.Chunk.{Of};

use bytecode::Span;
use frame::Locals;
use value_layout::Widths;

// The tables, and the numbers of one of their chunks, read once for all its instructions.
#[derive(Clone, Copy)]
pub struct Context<'a> {
    pub tables: &'a [u64],
    pub chunk: usize,
    pub locals: Locals,
    pub code: Span,
    pub widths: Widths,
    pub index_trap: u16,
    pub host_trap: u16,
    pub ghost of: { Of tables.now chunk locals.count code.first code.count widths index_trap host_trap },
}

impl Context<'_> {
    // Of chunk k.
    pub fn new(tables: &[u64], k: usize) -> Context
        requires { k < 64 }
        ensures tables { result.tables.now ≡ tables.now }
        ensures chunk { result.chunk ≡ k }
    {
        let header = bytecode::header_at(tables);
        let locals = Locals {
            count: bytecode::locals(tables, k),
        };
        let code = bytecode::instructions_of(tables, k);
        Context {
            tables,
            chunk: k,
            locals,
            code,
            widths: bytecode::widths(tables),
            index_trap: header.index_trap,
            host_trap: header.host_trap,
        }
    }
}
