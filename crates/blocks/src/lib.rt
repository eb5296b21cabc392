// What the walk does at one instruction that does not lead straight onward, and where paths meet: breaks, joins, leaving a loop, forgetting.
#![tactic(auto)]

ghost use Rattle.std.specs.Prelude.{◌≡◌, false, ◌≢◌, List, [], ℕ, ◌+◌, ◌-◌, ◌≤◌, ◌<◌, length, replicate, Ok};
ghost use Rattle.definition.specs.Effects.{need};
ghost use Rattle.definition.specs.Nesting.{else_at};
ghost use Rattle.definition.specs.Shapes.{unknown};
ghost use Rattle.definition.specs.Walk.{params, start_locals, Sheets, add_break, leave, join_ends};
ghost use Rattle.bytecode.specs.declared.code.TheConstants.{IF, LOOP};
ghost use Rattle.bytecode.specs.Lists.{maybe};
ghost use Rattle.bytecode.specs.Meaning.{chunk_of};
ghost use Rattle.frame.specs.declared.TheConstants.{OPERANDS};
ghost use Rattle.frame.specs.Model.{state_of};
ghost use Rattle.frame.specs.Slots.{SameOperands};
ghost use Rattle.rules.specs.Answers.{chunk_in};
ghost use Rattle.stretch.specs.Stretch.{straight, sheets_of};
ghost use Rattle.answer.specs.declared.Refusal.TheVariants.{LoopNotNeutral};

mod visiting;

use answer::Refusal;
use bytecode::{Span, code};
use frame::{Floor, Frame, Locals};
use rules::Context;
use shapes::Value;
use std::ops::Range;
pub use visiting::Visit;

// How a stretch was walked: no path comes to its end, or it falls through. A refused one is an error.
#[derive(Clone, Copy)]
pub enum Flow {
    Ended,
    Falls,
}

// The breaks of a loop so far: none, one joined state, or the first unequal pair of heights. Three cases and no Result: the unequal pair is no failure until the loop is left.
#[derive(Clone, Copy)]
pub enum Pending {
    Nothing,
    Joined,
    Unequal(usize, usize),
}

// The frame is that of the joined state, and counts only where there is one. It stands beside the case and not in it: a frame is written as far as it is in use, and one
// in the case would be moved whole.
#[derive(Clone, Copy)]
pub struct Breaks {
    pub pending: Pending,
    pub frame: Frame,
}

impl Breaks {
    ghost use Rattle.blocks.specs.Outcomes.{breaks_of};
    ghost use Rattle.blocks.specs.declared.Pending.TheVariants.{Nothing};

    pub fn new() -> Breaks
        ensures { result.pending ≡ Nothing }
    {
        Breaks {
            pending: Pending::Nothing,
            frame: Frame::new(),
        }
    }

    // One more break, in order.
    #[tactic(auto, using(crate::proofs::Laws::add_same, crate::proofs::Laws::add_other), unfolding(definition::specs::Walk::add_break))]
    pub fn add(&mut self, s: &Frame, locals: Locals)
        ensures { breaks_of locals.count self.new ≡ add_break (breaks_of locals.count self.old) (state_of locals.count s.now.state) }
    {
        match self.pending {
            Pending::Nothing => {
                self.frame.copy(s, locals);
                self.pending = Pending::Joined;
            }
            Pending::Joined => {
                let height = self.frame.state.height;
                if height == s.state.height {
                    self.frame.join_with(s, locals);
                } else {
                    self.pending = Pending::Unequal(height, s.state.height);
                }
            }
            Pending::Unequal(_, _) => {}
        }
    }
}

ghost use Rattle.blocks.specs.Outcomes.{breaks_of, standing, fall_of, end_of, walked_of, left_of, after_last, forgotten};
ghost use Rattle.blocks.specs.Visits.{SpanOf, instr_in, Guarded, Leaf, stands, Kept};

// ---- the ends of two arms

// The ends of two arms of the If at ip, and how each was walked. The first's state becomes the one where they meet.
#[tactic(auto, using(crate::proofs::Laws::join_same, crate::proofs::Laws::join_other), unfolding(definition::specs::Walk::join_ends, answer::specs::Answer::fields))]
pub fn join_ends(
    s: &mut Frame,
    other: &Frame,
    first: Flow,
    second: Flow,
    ip: usize,
    locals: Locals,
) -> Result<Flow, Refusal>
    ensures { end_of result (state_of locals.count s.new.state) ≡ join_ends ip (fall_of first (state_of locals.count s.old.state)) (fall_of second (state_of locals.count other.now.state)) }
{
    match (first, second) {
        (Flow::Ended, _) => {
            s.copy(other, locals);
            Ok(second)
        }
        (Flow::Falls, Flow::Ended) => Ok(Flow::Falls),
        (Flow::Falls, Flow::Falls) => {
            let (then_height, else_height) = (s.state.height, other.state.height);
            if then_height != else_height {
                return Err(Refusal::BranchHeightMismatch(
                    ip as u64,
                    then_height as u64,
                    else_height as u64,
                ));
            }
            s.join_with(other, locals);
            Ok(Flow::Falls)
        }
    }
}

// ---- after a loop

// After the loop at ip: its breaks, or the state as it is.
#[tactic(auto, unfolding(definition::specs::Walk::leave, answer::specs::Answer::fields))]
pub fn leave_loop(s: &mut Frame, b: &Breaks, ip: usize, locals: Locals) -> Result<(), Refusal>
    ensures { (sh : Sheets) → left_of result (state_of locals.count s.new.state) sh ≡ leave ip (breaks_of locals.count b.now) sh (state_of locals.count s.old.state) }
{
    match b.pending {
        Pending::Nothing => Ok(()),
        Pending::Joined => {
            s.copy(&b.frame, locals);
            Ok(())
        }
        Pending::Unequal(x, y) => Err(Refusal::BranchHeightMismatch(ip as u64, x as u64, y as u64)),
    }
}

// After the loop at ip whose body has no end: its breaks, or the head.
pub fn leave_head(
    s: &mut Frame,
    head: &Frame,
    b: &Breaks,
    ip: usize,
    locals: Locals,
) -> Result<(), Refusal>
    ensures { (sh : Sheets) → left_of result (state_of locals.count s.new.state) sh ≡ leave ip (breaks_of locals.count b.now) sh (state_of locals.count head.now.state) }
{
    s.copy(head, locals);
    leave_loop(s, b, ip, locals)
}

// The end of a body that does not have the operands of its head.
pub fn not_neutral(ip: usize, head: usize, end: usize) -> Refusal
    ensures { result ≡ LoopNotNeutral ip head end }
{
    Refusal::LoopNotNeutral(ip as u64, head as u64, end as u64)
}

// After the last pass over the loop at ip, from a head.
#[tactic(auto, using(crate::proofs::Laws::last_none, crate::proofs::Laws::last_stable, crate::proofs::Laws::last_other), unfolding(answer::specs::Answer::fields))]
pub fn last_end(
    flow: Flow,
    s: &mut Frame,
    head: &Frame,
    b: &Breaks,
    ip: usize,
    locals: Locals,
) -> Result<(), Refusal>
    ensures { let n = locals.count in (h bl : List ℕ) → left_of result (state_of n s.new.state) (sheets_of h bl) ≡ after_last ip (state_of n head.now.state) (walked_of (Ok flow) (standing n s.old.state b.now h bl)) }
{
    if matches!(flow, Flow::Ended) {
        return leave_head(s, head, b, ip, locals);
    }
    if !s.same_stack(&head.state) {
        return Err(not_neutral(ip, head.state.height, s.state.height));
    }
    leave_loop(s, b, ip, locals)
}

// ---- one instruction

// The mark, at its place in the sheet, and the tests of an If, a BreakIf or a Trap, which looks at the height alone.
pub fn guard_at(
    heights: &mut [u8],
    at: usize,
    need: usize,
    ip: usize,
    floor: Floor,
    height: usize,
) -> Result<(), Refusal>
    requires { (at < length heights.old) × (height ≤ OPERANDS) × (need < 4294967296) }
    ensures { Guarded at need ip floor.height height heights.old heights.new result }
{
    stretch::mark_height(heights, at, height);
    rules::check_need(height, need, floor, ip)
}

// Where the Else of the If at ip of a chunk closes; none where it has no Else.
pub fn else_of(t: &[u64], chunk: Span, ip: usize, target: usize) -> Option<usize>
    requires { (chunk.first + chunk.count ≤ 4096) × (ip < chunk.count) }
    ensures { (k : ℕ) → SpanOf t.now k chunk → maybe result ≡ else_at (chunk_of t.now k) ip target }
{
    if target <= ip + 1 || chunk.count < target {
        return None;
    }
    let i = bytecode::instr_at(t, chunk.first + (target - 1));
    (i.code == code::ELSE).then_some(i.a as usize)
}

// How many operands the instruction at ip needs.
#[tactic(auto, using(crate::proofs::Codes::need_is))]
fn need_at(x: &Context, ip: usize) -> usize
    requires { ip < x.now.code.count }
    ensures need { result ≡ need (chunk_in x.now) (instr_in x.now ip) }
    ensures low { result < 4294967296 }
{
    let i = bytecode::instr_at(x.tables, x.code.first + ip);
    bytecode::op_depth_effect(i, x.index_trap, x.host_trap).need as usize
}

// An instruction that leads elsewhere, or nowhere, and opens no block: by its code, as bytecode `code` says why. code < 75 is asked, and it is no
// `ops::Row`: the code is the number that the instruction has.
#[tactic(auto, using(crate::proofs::Steps::break_passed, crate::proofs::Steps::returns_passed, crate::proofs::Steps::closer_refused, crate::proofs::Steps::break_if_passed), unfolding(answer::specs::Answer::fields))]
pub fn leaf_at(
    v: &Visit,
    heights: &mut [u8],
    s: &mut Frame,
    b: &mut Breaks,
    code: u8,
) -> Result<Flow, Refusal>
    requires room { v.now.x.now.code.first + v.now.x.now.code.count ≤ length heights.old }
    requires coded { (code < 75) × (straight code ≡ false) × (code ≢ IF) × (code ≢ LOOP) }
    ensures leads { let x = v.now.x.now in Leaf v.now code (stands x s.old.state b.old heights.old) result (stands x s.new.state b.new heights.new) }
    ensures kept { Kept result s.old.state s.new.state }
{
    let Visit { x, ip, floor, .. } = *v;
    let at = x.code.first + ip;
    match code {
        code::TRAP => {
            guard_at(heights, at, need_at(x, ip), ip, floor, s.state.height)?;
            Ok(Flow::Ended)
        }
        // The state after it is a break, and goes on.
        code::BREAK_IF => {
            guard_at(heights, at, 1, ip, floor, s.state.height)?;
            s.pop();
            b.add(s, x.locals);
            Ok(Flow::Falls)
        }
        // Examined without a test, as a Return.
        code::BREAK => {
            stretch::mark_height(heights, at, s.state.height);
            b.add(s, x.locals);
            Ok(Flow::Ended)
        }
        code::RETURN => {
            stretch::mark_height(heights, at, s.state.height);
            Ok(Flow::Ended)
        }
        // A closer: no walk of a nested chunk comes to one.
        _ => Err(Refusal::NotNested(ip as u64)),
    }
}

// ---- locals

// Each local that an instruction of a range of the chunk's writes becomes unknown.
pub fn invalidate_written_locals(
    t: &[u64],
    chunk: Span,
    s: &mut Frame,
    locals: Locals,
    ips: Range<usize>,
)
    requires { (chunk.first + chunk.count ≤ 4096) × (ips.end ≤ chunk.count) }
    ensures state { (k : ℕ) → SpanOf t.now k chunk → state_of locals.count s.new.state ≡ forgotten (chunk_of t.now k) ips.start ips.end (state_of locals.count s.old.state) }
    ensures operands { SameOperands s.old.state s.new.state }
{
    for p in ips.start..ips.end {
        let i = bytecode::instr_at(t, chunk.first + p);
        if i.code == code::SET_LOCAL {
            s.set_local(i.a as usize, shapes::unknown_value(), locals);
        }
    }
}

// The locals in which the walk of chunk k begins: the parameters, and the rest unknown, as a new frame has them.
#[tactic(auto, using(crate::proofs::Start::starting_none, crate::proofs::Start::starting_more, crate::proofs::Start::starting_all, crate::proofs::Start::param_is))]
pub fn start_locals(t: &[u64], k: usize, s: &mut Frame, locals: Locals)
    requires { state_of locals.count s.old.state ≡ record { stack = []; locals = replicate locals.count unknown } }
    ensures { state_of locals.count s.new.state ≡ record { stack = []; locals = start_locals locals.count (params (chunk_of t.now k)) } }
{
    for i in 0..locals.count {
        let v = Value::from(bytecode::sig_param(t, k, i));
        s.set_local(i, v, locals);
    }
}
