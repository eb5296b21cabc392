// Nesting: the rule of each instruction, checked in one pass over a chunk with a stack of the open blocks, and the limit on open blocks.
// What is open innermost decides the rule of an instruction, so no earlier opener is searched for.
#![tactic(auto)]

ghost use Rattle.std.specs.Prelude.{◌≡◌, ◌<◌, ◌≤◌, length};
ghost use Rattle.definition.specs.Instructions.{Chunk};
ghost use Rattle.definition.specs.Check.{nesting_test};
ghost use Rattle.bytecode.specs.Meaning.{chunk_of, table_chunks};
ghost use Rattle.answer.specs.Answer.{found};
ghost use Rattle.nesting.specs.Codes.{Coded};
ghost use Rattle.nesting.specs.Answer.{NestingIs};

mod code;
mod part;
mod place;

use answer::limit::Limit;
use answer::{Refusal, Refused};
use code::Code;
use place::{Open, Place, Step};

// So many blocks may be open.
const MOST_OPEN: usize = 8;

// Room for the open blocks of a chunk and the chunk itself: of a short one, and of the longest that a listing can have.
const SHORT: usize = 256;

const LONGEST: usize = 4097;

// Of one chunk: the first instruction that breaks a rule, as an error; else the first opener making too many open blocks, if there is one.
type ChunkNesting = Result<Option<u16>, u16>;

// One chunk. `stack` is room for the open blocks, the whole chunk below them. A slice and a depth, and no vector of fixed room: with the kit's
// `arrayvec` what comes after reading took 28 microseconds for 4,096 times Return, and takes 14 with these; and it would be one more crate to
// trust, where this stands on std alone (README).
fn check_code<'a>(code: &'a Code<'a>, stack: &mut [Open]) -> ChunkNesting
    requires { code.now.size < length stack.old }
    ensures { (c : Chunk) → Coded c code.now → NestingIs c result }
{
    stack[0] = Open {
        middle: code.size,
        closer: code.size,
        target: None,
    };
    let mut depth = 0;
    let mut too_deep = None;
    for p in 0..code.size {
        let place = Place {
            code,
            inner: stack[depth],
            at: p,
        };
        let step = place.step().ok_or(p)?;
        match step {
            Step::Stay => {}
            Step::Pop => depth -= 1,
            Step::Push(open) => {
                depth += 1;
                stack[depth] = open;
                too_deep = too_deep.or((MOST_OPEN < depth).then_some(p));
            }
        }
    }
    Ok(too_deep)
}

// One chunk, with room for fewer than N open blocks.
fn check_in<'a, const N: usize>(code: &'a Code<'a>) -> ChunkNesting
    requires room { code.now.size < N }
    requires bounded { N ≤ LONGEST }
    ensures { (c : Chunk) → Coded c code.now → NestingIs c result }
{
    let mut stack = [Open {
        middle: 0,
        closer: 0,
        target: None,
    }; N];
    check_code(code, &mut stack)
}

// The nesting of chunk k. A short one has little room, since room is set to zero first.
fn check_chunk(t: &[u64], k: usize) -> ChunkNesting
    requires { k < 64 }
    ensures { NestingIs (chunk_of t.now k) result }
{
    let code = Code::of_chunk(t, k);
    if usize::from(code.size) < SHORT {
        check_in::<SHORT>(&code)
    } else {
        check_in::<LONGEST>(&code)
    }
}

// The nesting of all chunks: the first instruction that breaks a rule, chunk by chunk; then the first opener making more than eight open blocks.
// A call of its own: put in where it is asked, its room for open blocks would lie on the stack while the chunks are walked.
#[inline(never)]
pub fn check_nesting(t: &[u64]) -> Result<(), Refused>
    ensures { found result ≡ nesting_test (table_chunks t.now) }
{
    let mut too_deep = None;
    for k in 0..bytecode::count(t, bytecode::CHUNKS) {
        let chunk = k as u64;
        let deep = check_chunk(t, k).map_err(|ip| Refused {
            chunk,
            refusal: Refusal::NotNested(u64::from(ip)),
        })?;
        too_deep = too_deep.or(deep.map(|ip| Refused {
            chunk,
            refusal: Refusal::LimitPassed(u64::from(ip), Limit::Blocks),
        }));
    }
    too_deep.map_or(Ok(()), Err)
}
