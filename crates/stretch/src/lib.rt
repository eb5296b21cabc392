// The step of the walk over instructions that lead straight onward: the state and both sheets are lent, and changed in place by one instruction after the other.
#![tactic(auto)]

ghost use Rattle.std.specs.Prelude.{◌≡◌, suc, ◌+◌, ◌≤◌, ◌<◌, length, set};
ghost use Rattle.frame.specs.declared.TheConstants.{OPERANDS};
ghost use Rattle.stretch.specs.Stretch.{straight, sheets_of, marked, RanIs, StoppedIn};

use answer::Refusal;
use bytecode::code;
use frame::{Floor, Frame};
use rules::Context;
use std::ops::Range;

// Whether a code leads onward and opens nothing.
#[tactic(auto, unfolding(crate::specs::Stretch::straight))]
pub fn is_straight(code: u8) -> bool
    ensures { result ≡ straight code }
{
    code < code::TRAP || matches!(code, code::STREAM | code::RESET)
}

// The height sheet holds 1 + the height before an instruction that is examined, and 0 elsewhere, as include/stagecheck.h says.
pub fn mark_height(heights: &mut [u8], at: usize, h: usize)
    requires { (at < length heights.old) × (h ≤ OPERANDS) }
    ensures { heights.new ≡ set heights.old at (suc h) }
{
    heights[at] = (h + 1) as u8;
}

// The marks of an instruction before which there are h operands. A mark in the blind sheet is never cleared.
#[tactic(auto, unfolding(crate::specs::Stretch::marked, definition::specs::Walk::mark_blind))]
fn mark(heights: &mut [u8], blinds: &mut [u8], at: usize, h: usize, blind: bool)
    requires { (at < length heights.old) × (at < length blinds.old) × (h ≤ OPERANDS) }
    ensures { sheets_of heights.new blinds.new ≡ marked at h blind (sheets_of heights.old blinds.old) }
{
    mark_height(heights, at, h);
    if blind {
        blinds[at] = 1;
    }
}

// The thin step: the straight instructions of a range, up to the first that is not, that is refused, or to the end. It says where it stopped, and what it leaves
// is left in the state.
pub fn step(
    x: &Context,
    heights: &mut [u8],
    blinds: &mut [u8],
    s: &mut Frame,
    ips: Range<usize>,
    floor: Floor,
) -> Result<usize, Refusal>
    requires sheets { (x.now.code.first + x.now.code.count ≤ length heights.old) × (x.now.code.first + x.now.code.count ≤ length blinds.old) }
    requires inside { (ips.start ≤ ips.end) × (ips.end ≤ x.now.code.count) }
    ensures ran { RanIs x.now ips.start ips.end floor.height s.old.state (sheets_of heights.old blinds.old) result s.new.state (sheets_of heights.new blinds.new) }
    ensures stopped { StoppedIn ips.start ips.end result }
{
    for ip in ips.start..ips.end {
        let i = bytecode::instr_at(x.tables, x.code.first + ip);
        if !is_straight(i.code) {
            return Ok(ip);
        }
        let height = s.state.height;
        let blind = apply::met_unknown(s, i);
        apply::examine(x, s, i, ip, floor)?;
        mark(heights, blinds, x.code.first + ip, height, blind);
    }
    Ok(ips.end)
}
