// Walks a chunk with a loop, and then makes the last pass over that loop alone: no listing brings the walk to a last pass. The loop keeps the shape of local 0
// and changes that of local 1. The walk needs two passes and reads local 0 plainly in both; the last pass forgets both locals, so its read is blind.
#![tactic(auto)]

ghost use Rattle.std.specs.Prelude.{◌≡◌, ◌+◌, ◌≤◌, ◌<◌};
ghost use Rattle.definition.specs.Instructions.{control, loop_to};
ghost use Rattle.blocks.specs.Visits.{Placed, instr_in};
ghost use Rattle.walk.specs.Ready.{Roomy};

use answer::Refusal;
use blocks::{Breaks, Flow, Visit};
use bytecode::{Instr, SIZE, code};
use frame::{Floor, Frame};
use rules::Context;
use std::io;

const LISTING: &[u8] = b"\
(module 8 8 6 0 0 8 9
(sig (top) (top) (flat 0 16) (scalar 3))
(chunk 2
(op Loop 7)
(op GetLocal 0)
(op Dup)
(op GetField Flat 8 1)
(op SetLocal 1)
(op SetLocal 0)
(op EndLoop 0)
(op Return)
)
)
";

// Room for an entry of each instruction of the chunk.
const SHEET: usize = 16;

fn print_sheet(rt: &impl Print, name: &str, sheet: &[u8]) -> io::Result<()> {
    print!(rt; "{name}")?;
    for entry in sheet {
        print!(rt; " {entry}")?;
    }
    println!(rt; "")
}

fn print_sheets(rt: &impl Print, heights: &[u8], blinds: &[u8]) -> io::Result<()> {
    print_sheet(rt, "heights", heights)?;
    print_sheet(rt, "blinds", blinds)
}

// The whole walk of chunk 0.
fn show_walk(rt: &impl Print, t: &[u64], heights: &mut [u8], blinds: &mut [u8]) -> io::Result<()>
    requires { Roomy t.now heights.old blinds.old 0 }
{
    let outcome = match walk::walk_chunk(t, heights, blinds, 0).map(|end| end.flow) {
        Ok(Flow::Ended) => "ended",
        Ok(Flow::Falls) => "fell through",
        Err(_) => "refused",
    };
    println!(rt; "walk {outcome}")?;
    print_sheets(rt, heights, blinds)
}

// The last pass over the loop at ip, from the state in which its chunk begins.
fn last_pass(
    x: &Context,
    heights: &mut [u8],
    blinds: &mut [u8],
    ip: usize,
    exit: usize,
) -> Result<(), Refusal>
    requires placed { Placed x.now heights.old blinds.old }
    requires inside { (ip + 1 < exit) × (exit ≤ x.now.code.count) × (control (instr_in x.now ip) ≡ loop_to exit) }
{
    let mut s = Frame::new();
    let mut b = Breaks::new();
    let mut head = Frame::new();
    blocks::start_locals(x.tables, x.chunk, &mut head, x.locals);
    let v = Visit {
        x,
        ip,
        target: exit,
        floor: Floor { height: 0 },
    };
    walk::last_pass(&v, heights, blinds, &mut s, &mut b, &mut head)
}

// The last pass over the loop at ip of chunk 0.
fn show_last(
    rt: &impl Print,
    t: &[u64],
    heights: &mut [u8],
    blinds: &mut [u8],
    ip: usize,
) -> io::Result<()>
    requires { Roomy t.now heights.old blinds.old 0 }
{
    let x = Context::new(t, 0);
    if x.code.count <= ip {
        return Ok(());
    }
    let Instr { code, a, .. } = bytecode::instr_at(x.tables, x.code.first + ip);
    let exit = a as usize;
    if code != code::LOOP || exit <= ip + 1 || x.code.count < exit {
        return Ok(());
    }
    let outcome = match last_pass(&x, heights, blinds, ip, exit) {
        Ok(()) => "made",
        Err(_) => "refused",
    };
    println!(rt; "last pass {outcome}")?;
    print_sheets(rt, heights, blinds)
}

#[tactic(auto, using(crate::proofs::Rooms::roomy), unfolding(answer::specs::Answer::found, bytecode::specs::Tables::cap))]
fn run(rt: &impl Print, t: &[u64; SIZE]) -> io::Result<()> {
    let Ok(()) = nesting::check_nesting(t) else {
        return println!(rt; "not nested");
    };
    if bytecode::count(t, bytecode::CHUNKS) == 0 {
        return Ok(());
    }
    let code = bytecode::instructions_of(t, 0);
    let end = code.first + code.count;
    if SHEET < end {
        return Ok(());
    }
    let mut heights = [0; SHEET];
    let mut blinds = [0; SHEET];
    show_walk(rt, t, &mut heights[..end], &mut blinds[..end])?;
    let mut heights = [0; SHEET];
    let mut blinds = [0; SHEET];
    show_last(rt, t, &mut heights[..end], &mut blinds[..end], 0)
}

fn main(rt: HostRuntime) -> io::Result<()> {
    let mut tables = [0; SIZE];
    let Ok(()) = listing::read(LISTING, &mut tables) else {
        return println!(rt; "not read");
    };
    run(&rt, &tables)
}
