// The check of a listing: `typed_check_module`, from bytes to the answer and both sheets.
#![tactic(auto)]

ghost use Rattle.std.specs.Prelude.{◌≡◌, length, replicate};
ghost use Rattle.definition.specs.Basics.{pass};
ghost use Rattle.definition.specs.Check.{check, check_module};
ghost use Rattle.bytecode.specs.Meaning.{module_of};
ghost use Rattle.listing.specs.Answer.{StandsIn};
ghost use Rattle.answer.specs.Answer.{found, answer_of};
ghost use Rattle.stretch.specs.Stretch.{sheets_of};
ghost use Rattle.typed_check.specs.Equal.{checked_of, counted, CheckedIs, Sound, Tabled, tests_of};

use answer::{Accepted, Refused};

// One byte more than a listing may have. What follows does not change the answer.
pub const LISTING: usize = 65_537;

// A listing has no more instructions, so a sheet has zeros behind these entries.
pub const SHEET: usize = 4096;

// ---- the module in the tables

// The tests before the walk, in 01's order.
#[tactic(auto, unfolding(answer::specs::Answer::found, answer::specs::Answer::found_in_none, definition::specs::Basics::first, crate::specs::Equal::tests_of))]
fn test_module(t: &[u64], heights: usize, blinds: usize) -> Result<(), Refused>
    ensures { found result ≡ tests_of heights blinds t.now }
{
    sheets::check_sheets(t, heights, blinds)?;
    nesting::check_nesting(t)?;
    data_layout::validate_data_layout(t)?;
    Ok(())
}

// All tests and the walk of a module that was read, over sheets of zeros. What a refused walk leaves in them is not said.
fn check_module(t: &[u64], heights: &mut [u8], blinds: &mut [u8]) -> Result<(), Refused>
    requires stands_in { StandsIn t.now }
    requires cleared { (heights.old ≡ replicate (length heights.old) 0) × (blinds.old ≡ replicate (length blinds.old) 0) }
    ensures { pass (found result) (sheets_of heights.new blinds.new) ≡ check_module (length heights.old) (length blinds.old) (module_of t.now) }
{
    test_module(t, heights.len(), blinds.len())?;
    walk::walk_chunks(t, heights, blinds)
}

// How many chunks and instructions the module in the tables has.
pub fn counts(t: &[u64]) -> Accepted
    ensures { result ≡ counted t.now }
{
    Accepted {
        chunks: bytecode::count(t, bytecode::CHUNKS) as u64,
        instructions: bytecode::count(t, bytecode::INSTRUCTIONS) as u64,
    }
}

// ---- the entry: the tables and the sheets stand one by one, as C lends them

// The check of a listing; what a refusal leaves in the sheets is not said.
fn checked(
    listing: &[u8],
    t: &mut [u64; bytecode::SIZE],
    heights: &mut [u8],
    blinds: &mut [u8],
) -> Result<Accepted, Refused>
    ensures { CheckedIs listing.now (length heights.old) (length blinds.old) result t.new heights.new blinds.new }
{
    listing::read(listing, t)?;
    heights.fill(0);
    blinds.fill(0);
    check_module(t, heights, blinds)?;
    Ok(counts(t))
}

// The check with lent tables, whatever they and the sheets hold. Where the listing is accepted, the tables hold its module.
pub fn check_into(
    listing: &[u8],
    t: &mut [u64; bytecode::SIZE],
    heights: &mut [u8],
    blinds: &mut [u8],
) -> Result<Accepted, Refused>
    ensures equal { checked_of result heights.new blinds.new ≡ check listing.now (length heights.old) (length blinds.old) }
    ensures sound { Sound (answer_of result) listing.now heights.new blinds.new × Tabled result listing.now t.new }
{
    let answer = checked(listing, t, heights, blinds);
    if answer.is_err() {
        // "Both sheets become zero."
        heights.fill(0);
        blinds.fill(0);
    }
    answer
}

// The check of any bytes, with any two sheets.
pub fn typed_check(
    listing: &[u8],
    heights: &mut [u8],
    blinds: &mut [u8],
) -> Result<Accepted, Refused>
    ensures equal { checked_of result heights.new blinds.new ≡ check listing.now (length heights.old) (length blinds.old) }
    ensures sound { Sound (answer_of result) listing.now heights.new blinds.new }
{
    let mut tables = [0u64; bytecode::SIZE];
    check_into(listing, &mut tables, heights, blinds)
}
