ghost use Rattle.std.specs.Prelude.{◌≡◌, ◌<◌, ◌≤◌, get_or};
ghost use Rattle.definition.specs.Instructions.{control};
ghost use Rattle.bytecode.specs.Meaning.{maxima_of};
ghost use Rattle.bytecode.specs.Parts.{any_instr_of};
ghost use Rattle.nesting.specs.Codes.{part_of};

use bytecode::{Instr, code};

// An instruction's part in nesting, with its target.
#[derive(Clone, Copy, PartialEq, Eq)]
pub(crate) enum Part {
    Other,
    If(u16),
    Else(u16),
    EndIf,
    Loop(u16),
    EndLoop,
    Break(u16),
}

impl Part {
    // BreakIf has the part of Break. No `From`: it asks for a code of the table, and `from` may ask nothing.
    pub(crate) fn of(instr: Instr) -> Part
        requires { (instr.code < 75) × (instr.a ≤ get_or (maxima_of instr.code) 0 0) }
        ensures { result ≡ part_of (control (any_instr_of instr)) }
    {
        match instr.code {
            code::IF => Part::If(instr.a as u16),
            code::ELSE => Part::Else(instr.a as u16),
            code::END_IF => Part::EndIf,
            code::LOOP => Part::Loop(instr.a as u16),
            code::END_LOOP => Part::EndLoop,
            code::BREAK | code::BREAK_IF => Part::Break(instr.a as u16),
            _ => Part::Other,
        }
    }
}
