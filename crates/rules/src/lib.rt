// The rule of one instruction on a lent state: its own tests in the Rust's order, and what it takes and pushes.
#![tactic(auto, using(crate::proofs::Tests::enum_decided, crate::proofs::Tests::sizes_length, crate::proofs::Tests::few_places, crate::proofs::Tests::many_places), unfolding(answer::specs::Answer::refusal, answer::specs::Answer::fields, definition::specs::Basics::first, definition::specs::Basics::unless, definition::specs::Tests::is_unknown, definition::specs::Tests::fits_declared, definition::specs::Walk::floor_test, definition::specs::Walk::need_test, definition::specs::Walk::height_test, shapes::specs::Model::shape_of, shapes::specs::Text::Means))]

ghost use Rattle.std.specs.Prelude.{◌≡◌, ◌≢◌, List, ℕ, ◌^◌, ◌≤◌, ◌<◌, OnOk};
ghost use Rattle.std.proofs.Math.Option.{Option};
ghost use Rattle.definition.specs.Basics.{first};
ghost use Rattle.definition.specs.Tests.{is_unknown, fits_declared, enum_test};
ghost use Rattle.definition.specs.Walk.{floor_test, need_test};
ghost use Rattle.bytecode.specs.Meaning.{enum_sizes_of};
ghost use Rattle.bytecode.specs.declared.code.TheConstants.{SET_LOCAL, CALL, NEW_COMPOSITE_FLAT};
ghost use Rattle.bytecode.specs.Parts.{any_instr_of, EffectIs};
ghost use Rattle.shapes.specs.Text.{Means};
ghost use Rattle.shapes.specs.Model.{shape_of};
ghost use Rattle.frame.specs.Model.{state_of};
ghost use Rattle.answer.specs.Answer.{refusal};
ghost use Rattle.rules.specs.Answers.{Within, chunk_in};
ghost use Rattle.rules.specs.Rules.{Rules, Roomed, Body, passing_of};

mod chunk;
mod flat;
mod quiet;

use answer::Refusal;
use answer::limit::Limit;
use bytecode::{Effect, Instr, code};
pub use chunk::Context;
use frame::{Floor, Frame, OPERANDS};
use shapes::{Built, Shape, Value};

// ---- what a rule says

// What an instruction does where its tests pass: it takes operands, then pushes a value so many times, and numbers of kind 3 above it.
#[derive(Clone, Copy)]
pub struct Moves {
    pub take: usize,
    pub value: Value,
    pub times: u8,
    pub ints: u8,
}

// How many numbers a bounds outcome pushes above an element.
const BOUNDS_OUTCOME: u8 = 6;

// The rule of an instruction whose tests pass.
fn passing(take: usize, value: Value, times: u8, ints: u8) -> Result<Moves, Refusal>
    ensures { result ≡ passing_of take value times ints }
{
    Ok(Moves {
        take,
        value,
        times,
        ints,
    })
}

// ---- new composites

// An enum's body has the size of one that is declared; without an enum form every size passes.
pub fn check_enum_size(tables: &[u64], size: u32, ip: usize) -> Result<(), Refusal>
    ensures { refusal result ≡ enum_test ip size (enum_sizes_of tables.now) }
{
    if bytecode::count(tables, bytecode::ENUMS) == 0 || bytecode::has_enum_size(tables, size) {
        Ok(())
    } else {
        Err(Refusal::EnumBodySizeMismatch(ip as u64, u64::from(size)))
    }
}

// The composite with the text places that were built; over sixteen are refused (limit 6).
pub fn new_body(built: Built, kind: u8, n: usize, size: u32, ip: usize) -> Result<Moves, Refusal>
    ensures { (t : Option (List ℕ)) → Means built t → Body ip kind n size t result }
{
    let Ok(places) = built else {
        return Err(Refusal::LimitPassed(ip as u64, Limit::Places));
    };
    passing(n, shapes::composite_value(kind, size, places), 1, 0)
}

// ---- calls and locals

// Whether a value's shape fits a declared one.
pub fn shapes_compatible(value: Shape, declared: Shape) -> bool
    ensures { (t u : Option (List ℕ)) → result ≡ fits_declared (shape_of value t) (shape_of declared u) }
{
    match (value, declared) {
        (Shape::Unknown, _) | (_, Shape::Unknown) | (Shape::Scalar(_), Shape::Scalar(_)) => true,
        _ => value == declared,
    }
}

// Whether the walk knows nothing of a value of this shape.
pub fn is_unknown(shape: Shape) -> bool
    ensures { (t : Option (List ℕ)) → result ≡ is_unknown (shape_of shape t) }
{
    matches!(shape, Shape::Unknown)
}

// ---- the decision

// The rule of every name but SetLocal, Call and NewComposite Flat, on a state: one decision over the codes, which are numbers as the op table has them.
pub fn rule_by(x: &Context, s: &Frame, i: Instr, e: Effect, ip: usize) -> Result<Moves, Refusal>
    requires within { Within i }
    requires other { (i.code ≢ SET_LOCAL) × (i.code ≢ CALL) × (i.code ≢ NEW_COMPOSITE_FLAT) }
    requires effect { EffectIs i x.now.index_trap x.now.host_trap e }
    ensures { Rules (chunk_in x.now) ip (any_instr_of i) (state_of x.now.locals.count s.now.state) result }
{
    let Instr { code, a, b, c } = i;
    match code {
        code::CONST => quiet::constant(x, a),
        code::GET_LOCAL => quiet::get_local(x, s, a),
        code::DUP => quiet::dup(s),
        code::GET_DATA_INDEXED | code::GET_INDEX_BOXED => quiet::unknown_element(),
        code::SET_DATA_INDEXED => quiet::set_data_indexed(),
        code::BOUNDS_CHECK => quiet::bounds_check(),
        code::GET_INDEX_FLAT => flat::get_index(x, s, a as u8, ip),
        code::GET_INDEX_FLAT_NESTED => flat::get_index_nested(s, a, b as u8, ip),
        code::GET_FIELD_FLAT | code::GET_TUPLE_FIELD_FLAT | code::GET_ENUM_FIELD_FLAT =>
            flat::get_flat(x, s, a, b as u8, ip),
        code::GET_FIELD_FLAT_NESTED
        | code::GET_TUPLE_FIELD_FLAT_NESTED
        | code::GET_ENUM_FIELD_FLAT_NESTED => flat::get_flat_nested(s, a, b, c as u8, ip),
        code::YIELD => quiet::yields(x),
        code::IS_ENUM | code::IS_STRUCT => quiet::is_instance(),
        code::CALL_VERIFIED_NATIVE | code::CALL_EXTERNAL_NATIVE => quiet::native(x, a, b),
        _ => quiet::generic(e),
    }
}

// ---- tests of every instruction

// 12, before every rule: the operands from the floor up are the loop's own.
fn check_floor(height: usize, need: usize, floor: Floor, ip: usize) -> Result<(), Refusal>
    requires { need < 2 ^ 32 }
    ensures { refusal result ≡ floor_test ip floor.height height need }
{
    if floor.height == 0 || floor.height + need <= height {
        Ok(())
    } else {
        Err(Refusal::LoopFloorBreach(ip as u64, floor.height as u64, height as u64, need as u64))
    }
}

// 12 and 5, before every rule.
pub fn check_need(height: usize, need: usize, floor: Floor, ip: usize) -> Result<(), Refusal>
    requires { need < 2 ^ 32 }
    ensures tests { refusal result ≡ first (floor_test ip floor.height height need) (need_test ip height need) }
    ensures ok { OnOk result (need ≤ height) }
{
    check_floor(height, need, floor, ip)?;
    if need <= height {
        Ok(())
    } else {
        Err(Refusal::StackUnderflow(ip as u64))
    }
}

// Limit 5, after an instruction's own tests: whether 64 operands are enough for what it pushes.
pub fn check_room(moves: &Moves, height: usize, ip: usize) -> Result<(), Refusal>
    requires taken { moves.now.take ≤ height }
    requires low { height ≤ OPERANDS }
    ensures { Roomed moves.now height ip result }
{
    let pushed = usize::from(moves.times) + usize::from(moves.ints);
    if height - moves.take + pushed <= OPERANDS {
        Ok(())
    } else {
        Err(Refusal::LimitPassed(ip as u64, Limit::Operands))
    }
}
