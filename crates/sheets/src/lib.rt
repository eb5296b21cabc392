// The number of all instructions, and whether the two lent sheets have room for them.
#![tactic(auto)]

ghost use Rattle.std.specs.Prelude.{◌≡◌, length};
ghost use Rattle.definition.specs.Module.{all_ops};
ghost use Rattle.definition.specs.Check.{sheets_test};
ghost use Rattle.bytecode.specs.Meaning.{module_of};
ghost use Rattle.answer.specs.Answer.{found_in_none};

use answer::Refusal;

// The instructions of all chunks: at most 4,096 to each of 64, whatever the tables hold.
pub fn all_instructions(t: &[u64]) -> usize
    ensures { result ≡ length (all_ops (module_of t.now).chunks) }
{
    (0..bytecode::count(t, bytecode::CHUNKS))
        .map(|k| bytecode::instructions_of(t, k).count)
        .sum()
}

// The sheets' lengths against the number of all instructions.
pub fn check_sheets(t: &[u64], heights: usize, blinds: usize) -> Result<(), Refusal>
    ensures { found_in_none result ≡ sheets_test (length (all_ops (module_of t.now).chunks)) heights blinds }
{
    let instructions = all_instructions(t);
    let length = heights.min(blinds);
    if length < instructions {
        return Err(Refusal::SheetTooShort(instructions as u64, length as u64));
    }
    Ok(())
}
