// The walk of chunks over the tables: the stretch walker and the loop walker, which call each other. The state is lent, and so are the breaks of the loop around; a walker of
// arms or of a loop keeps what it needs again. The sheets are two lent slices and no struct of two: each contract would have to say that its borrows are at exit the same two. The
// same holds of the sheets with the state and the breaks; what is only read goes on as one `Visit`. `Placed` stands in each walker's contract for the same reason: it speaks
// of the chunk and of both lent sheets.
#![tactic(auto)]

ghost use Rattle.std.specs.Prelude.{◌≡◌, false, ◌+◌, ◌≤◌, ◌<◌, ℕ};
ghost use Rattle.std.proofs.Math.Option.{none, some};
ghost use Rattle.definition.specs.Instructions.{if_to, loop_to};
ghost use Rattle.definition.specs.Nesting.{else_at};
ghost use Rattle.definition.specs.Check.{walk_all};
ghost use Rattle.bytecode.specs.Meaning.{table_chunks, count};
ghost use Rattle.rules.specs.Answers.{chunk_in};
ghost use Rattle.stretch.specs.Stretch.{straight, sheets_of, leads};
ghost use Rattle.blocks.specs.Visits.{Placed, Coded, Leads, falling_to, stands};
ghost use Rattle.walk.specs.Ready.{Ready, Walks, Sees, Loops, Arms, left_at, looped_at, last_at, Roomy, WalkedChunk, results_of};

use answer::{Refusal, Refused};
use blocks::{Breaks, Flow, Pending, Visit};
use bytecode::code;
use frame::{Floor, Frame};
use rules::Context;
use std::ops::Range;

// Where a walk goes on that falls through to a place.
fn onward(flow: Flow, next: usize) -> Option<usize>
    ensures { result ≡ falling_to flow next }
{
    match flow {
        Flow::Ended => None,
        Flow::Falls => Some(next),
    }
}

// The walk of the instructions of a range. A path that comes to its end falls through.
#[cycle(walkers)]
fn interp_region(
    x: &Context,
    heights: &mut [u8],
    blinds: &mut [u8],
    s: &mut Frame,
    b: &mut Breaks,
    ips: Range<usize>,
    floor: Floor,
) -> Result<Flow, Refusal>
    requires { Ready x.now heights.old blinds.old ips.start ips.end floor.height }
    ensures { Walks x.now ips.start ips.end floor.height (stands x.now s.old.state b.old heights.old blinds.old) result (stands x.now s.new.state b.new heights.new blinds.new) }
{
    let mut ip = ips.start;
    // A block leads on to where it ends, so this counts nothing.
    while ip < ips.end {
        let i = bytecode::instr_at(x.tables, x.code.first + ip);
        if stretch::is_straight(i.code) {
            ip = stretch::step(x, heights, blinds, s, ip..ips.end, floor)?;
        } else {
            let target = i.a as usize;
            let v = Visit {
                x,
                ip,
                target,
                floor,
            };
            let Some(next) = block_at(&v, heights, blinds, s, b, i.code)? else {
                return Ok(Flow::Ended);
            };
            ip = next;
        }
    }
    Ok(Flow::Falls)
}

// The instruction at ip that does not simply lead onward, with the blocks that it opens: where the walk goes on, or none where its path ends. It is found by its code, as
// bytecode `code` says why.
#[cycle(walkers)]
fn block_at(
    v: &Visit,
    heights: &mut [u8],
    blinds: &mut [u8],
    s: &mut Frame,
    b: &mut Breaks,
    code: u8,
) -> Result<Option<usize>, Refusal>
    requires placed { Placed v.now.x.now heights.old blinds.old }
    requires here { (code < 75) × (straight code ≡ false) × Coded v.now.x.now v.now.ip code v.now.target }
    ensures { let x = v.now.x.now in Sees v.now (stands x s.old.state b.old heights.old blinds.old) (leads code v.now.target) result (stands x s.new.state b.new heights.new blinds.new) }
{
    match code {
        code::LOOP => loop_at(v, heights, blinds, s),
        code::IF => if_at(v, heights, blinds, s, b),
        _ => {
            let flow = blocks::leaf_at(v, heights, s, b, code)?;
            Ok(onward(flow, v.ip + 1))
        }
    }
}

// An If: its condition, then its arms.
#[cycle(walkers)]
fn if_at(
    v: &Visit,
    heights: &mut [u8],
    blinds: &mut [u8],
    s: &mut Frame,
    b: &mut Breaks,
) -> Result<Option<usize>, Refusal>
    requires placed { Placed v.now.x.now heights.old blinds.old }
    requires here { Leads v.now (if_to v.now.target) }
    ensures { let x = v.now.x.now in Sees v.now (stands x s.old.state b.old heights.old blinds.old) (if_to v.now.target) result (stands x s.new.state b.new heights.new blinds.new) }
{
    let Visit {
        x,
        ip,
        target,
        floor,
    } = *v;
    blocks::guard_at(heights, x.code.first + ip, 1, ip, floor, s.state.height)?;
    s.pop();
    match blocks::else_of(x.tables, x.code, ip, target) {
        None => one_arm(v, heights, blinds, s, b),
        Some(closer) => two_arms(v, heights, blinds, s, b, closer),
    }
}

// The arm of an If without Else, joined with the state that passes it by.
#[cycle(walkers)]
fn one_arm(
    v: &Visit,
    heights: &mut [u8],
    blinds: &mut [u8],
    s: &mut Frame,
    b: &mut Breaks,
) -> Result<Option<usize>, Refusal>
    requires placed { Placed v.now.x.now heights.old blinds.old }
    requires here { Leads v.now (if_to v.now.target) × (none ≡ else_at (chunk_in v.now.x.now) v.now.ip v.now.target) }
    ensures { let x = v.now.x.now in Arms x v.now.target v.now.ip v.now.floor.height (stands x s.old.state b.old heights.old blinds.old) result (stands x s.new.state b.new heights.new blinds.new) }
{
    let Visit {
        x,
        ip,
        target,
        floor,
    } = *v;
    let passed = *s;
    let flow = interp_region(x, heights, blinds, s, b, ip + 1..target, floor)?;
    let met = blocks::join_ends(s, &passed, flow, Flow::Falls, ip, x.locals)?;
    Ok(onward(met, target + 1))
}

// The arms of an If with an Else, whose EndIf is the closer; the breaks of the first go on into the second.
#[cycle(walkers)]
fn two_arms(
    v: &Visit,
    heights: &mut [u8],
    blinds: &mut [u8],
    s: &mut Frame,
    b: &mut Breaks,
    closer: usize,
) -> Result<Option<usize>, Refusal>
    requires placed { Placed v.now.x.now heights.old blinds.old }
    requires here { Leads v.now (if_to v.now.target) × (some closer ≡ else_at (chunk_in v.now.x.now) v.now.ip v.now.target) }
    ensures { let x = v.now.x.now in Arms x v.now.target v.now.ip v.now.floor.height (stands x s.old.state b.old heights.old blinds.old) result (stands x s.new.state b.new heights.new blinds.new) }
{
    let Visit {
        x,
        ip,
        target,
        floor,
    } = *v;
    let mut other = *s;
    let first = interp_region(x, heights, blinds, s, b, ip + 1..target - 1, floor)?;
    let second = interp_region(x, heights, blinds, &mut other, b, target..closer, floor)?;
    let met = blocks::join_ends(s, &other, first, second, ip, x.locals)?;
    Ok(onward(met, closer + 1))
}

// A loop: examined without a test, then the passes over its body, with breaks of its own.
#[cycle(walkers)]
fn loop_at(
    v: &Visit,
    heights: &mut [u8],
    blinds: &mut [u8],
    s: &mut Frame,
) -> Result<Option<usize>, Refusal>
    requires placed { Placed v.now.x.now heights.old blinds.old }
    requires here { Leads v.now (loop_to v.now.target) }
    ensures { Loops v.now s.old.state heights.old blinds.old result s.new.state heights.new blinds.new }
{
    let mut inner = Breaks::new();
    stretch::mark_height(heights, v.x.code.first + v.ip, s.state.height);
    passes_at(v, heights, blinds, s, &mut inner)?;
    Ok(Some(v.target))
}

// The passes over the body of a loop: the head is stable, the body has no end, or the last pass is made. A `loop` that counts down: 01 asks for passes left by labelled
// breaks with what they yield, and a `for` yields nothing.
#[tactic(auto, using(crate::proofs::Cycle::passing_start))]
#[cycle(walkers)]
fn passes_at(
    v: &Visit,
    heights: &mut [u8],
    blinds: &mut [u8],
    s: &mut Frame,
    b: &mut Breaks,
) -> Result<(), Refusal>
    requires placed { Placed v.now.x.now heights.old blinds.old }
    requires inside { (v.now.ip + 1 < v.now.target) × (v.now.target ≤ v.now.x.now.code.count) × Leads v.now (loop_to v.now.target) }
    ensures { left_at v.now result s.new.state heights.new blinds.new ≡ looped_at v.now s.old.state heights.old blinds.old }
{
    let Visit { x, ip, target, .. } = *v;
    // Its body is walked over a floor of its own.
    let floor = Floor {
        height: s.state.height,
    };
    let mut head = *s;
    let mut left = x.locals.count + 2;
    'passes: loop {
        b.pending = Pending::Nothing;
        let flow = interp_region(x, heights, blinds, s, b, ip + 1..target - 1, floor)?;
        let Flow::Falls = flow else {
            break 'passes blocks::leave_head(s, &head, b, ip, x.locals);
        };
        if !s.same_stack(&head.state) {
            return Err(blocks::not_neutral(ip, floor.height, s.state.height));
        }
        if head.state.covers_locals(&s.state, x.locals) {
            break 'passes blocks::leave_loop(s, b, ip, x.locals);
        }
        if left == 0 {
            let last = Visit {
                x,
                ip,
                target,
                floor,
            };
            break 'passes last_pass(&last, heights, blinds, s, b, &mut head);
        }
        head.join_locals(&s.state, x.locals);
        s.copy(&head, x.locals);
        left -= 1;
    }
}

// The last pass over the body of a loop, from a head in which each local that the body writes is forgotten first, and over the visit's floor.
#[cycle(walkers)]
pub fn last_pass(
    v: &Visit,
    heights: &mut [u8],
    blinds: &mut [u8],
    s: &mut Frame,
    b: &mut Breaks,
    head: &mut Frame,
) -> Result<(), Refusal>
    requires placed { Placed v.now.x.now heights.old blinds.old }
    requires inside { (v.now.ip + 1 < v.now.target) × (v.now.target ≤ v.now.x.now.code.count) × Leads v.now (loop_to v.now.target) }
    ensures { left_at v.now result s.new.state heights.new blinds.new ≡ last_at v.now head.old.state heights.old blinds.old }
{
    let Visit {
        x,
        ip,
        target,
        floor,
    } = *v;
    blocks::invalidate_written_locals(x.tables, x.code, head, x.locals, ip + 1..target - 1);
    s.copy(head, x.locals);
    b.pending = Pending::Nothing;
    let flow = interp_region(x, heights, blinds, s, b, ip + 1..target - 1, floor)?;
    blocks::last_end(flow, s, head, b, ip, x.locals)
}

// How the walk of a chunk ends, its height there, and the breaks around the chunk, of which a nested chunk has none: which, and the height of those that are joined.
#[derive(Clone, Copy)]
pub struct ChunkEnd {
    pub flow: Flow,
    pub height: usize,
    pub pending: Pending,
    pub break_height: usize,
}

// The walk of chunk k.
#[tactic(auto, using(crate::proofs::Start::chunk_ready))]
pub fn walk_chunk(
    t: &[u64],
    heights: &mut [u8],
    blinds: &mut [u8],
    k: usize,
) -> Result<ChunkEnd, Refusal>
    requires { Roomy t.now heights.old blinds.old k }
    ensures { WalkedChunk t.now k heights.old blinds.old result heights.new blinds.new }
{
    let x = Context::new(t, k);
    let mut s = Frame::new();
    let mut b = Breaks::new();
    blocks::start_locals(t, k, &mut s, x.locals);
    let flow = interp_region(
        &x,
        heights,
        blinds,
        &mut s,
        &mut b,
        0..x.code.count,
        Floor { height: 0 },
    )?;
    Ok(ChunkEnd {
        flow,
        height: s.state.height,
        pending: b.pending,
        break_height: b.frame.state.height,
    })
}

// The walk of all chunks: the first that is refused, with its number. A call of its own, as `nesting::check_nesting` is: neither's room lies on the stack beside the other's.
#[inline(never)]
#[tactic(auto, using(crate::proofs::Start::walked_none, crate::proofs::Start::walked_all), unfolding(crate::specs::Ready::results_of))]
pub fn walk_chunks(t: &[u64], heights: &mut [u8], blinds: &mut [u8]) -> Result<(), Refused>
    requires { (k : ℕ) → k < count t.now 7 → Roomy t.now heights.old blinds.old k }
    ensures { results_of result (sheets_of heights.new blinds.new) ≡ walk_all 0 (table_chunks t.now) (sheets_of heights.old blinds.old) }
{
    for k in 0..bytecode::count(t, bytecode::CHUNKS) {
        let chunk = k as u64;
        walk_chunk(t, heights, blinds, k).map_err(|refusal| Refused { chunk, refusal })?;
    }
    Ok(())
}
