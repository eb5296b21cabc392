// The rules of names without a test of their own. A function for each name, since each promises that name's rule.
#![tactic(auto, using(crate::proofs::Tests::flagged, bytecode::specs::Meaning::chunk_sig, bytecode::specs::Meaning::chunk_natives, shapes::proofs::Lists::get_d_up, frame::proofs::Stores::get_past), unfolding(answer::specs::Answer::refusal, definition::specs::Basics::first, definition::specs::Shapes::if_same, definition::specs::Tests::reading, definition::specs::Tests::reading_test, definition::specs::Tests::other_tests, definition::specs::Effects::set_local, definition::specs::Effects::takes, definition::specs::Effects::pushes, definition::specs::Effects::shaped_need, definition::specs::Effects::shaped_pushes, definition::specs::Effects::shape_of, definition::specs::Effects::const_shape, definition::specs::Effects::with_bounds))]

ghost use Rattle.std.specs.Prelude.{◌≡◌, true, ℕ, ◌<◌, get_or, pos, ◌-ℤ◌};
ghost use Rattle.definition.specs.Shapes.{unknown};
ghost use Rattle.definition.specs.Instructions.{Chunk, Instr as AnyInstr, shaped, Const, GetLocal, Dup, IndexBoxed, GetDataIndexed, SetDataIndexed, BoundsCheck, IsEnum, IsStruct, Yield, Native};
ghost use Rattle.definition.specs.Effects.{need, net, const_shape};
ghost use Rattle.definition.specs.Walk.{State as AnyState};
ghost use Rattle.bytecode.specs.Lists.{maybe};
ghost use Rattle.shapes.specs.Model.{value_of};
ghost use Rattle.frame.specs.Model.{state_of, locals_of};
ghost use Rattle.rules.specs.Answers.{chunk_in};
ghost use Rattle.rules.specs.Rules.{Rules, is_generic};

use crate::{BOUNDS_OUTCOME, Context, Moves, passing};
use answer::Refusal;
use bytecode::Effect;
use frame::{Frame, OPERANDS};
use shapes::Value;
use value_layout::scalar;

// The shape of a constant of the pool.
fn const_abs(kind: Option<u8>) -> Value
    ensures { value_of result ≡ const_shape (maybe kind) }
{
    match kind {
        Some(kind) if kind <= scalar::TEXT => shapes::scalar_value(kind),
        _ => shapes::unknown_value(),
    }
}

pub(crate) fn constant(x: &Context, k: u32) -> Result<Moves, Refusal>
    ensures { (ip : ℕ) (s : AnyState) → Rules (chunk_in x.now) ip (shaped (Const k)) s result }
{
    let value = const_abs(bytecode::constant_at(x.tables, x.chunk, k as usize));
    passing(0, value, 1, 0)
}

// An element that the walk does not know, with its bounds outcome: GetDataIndexed and GetIndex Boxed.
pub(crate) fn unknown_element() -> Result<Moves, Refusal>
    ensures boxed { (c : Chunk) (ip : ℕ) (s : AnyState) → Rules c ip (shaped IndexBoxed) s result }
    ensures data { (c : Chunk) (ip a b : ℕ) (s : AnyState) → Rules c ip (shaped (GetDataIndexed a b)) s result }
{
    passing(2, shapes::unknown_value(), 1, BOUNDS_OUTCOME)
}

pub(crate) fn set_data_indexed() -> Result<Moves, Refusal>
    ensures { (c : Chunk) (ip a b : ℕ) (s : AnyState) → Rules c ip (shaped (SetDataIndexed a b)) s result }
{
    passing(2, shapes::unknown_value(), 0, BOUNDS_OUTCOME)
}

// BoundsCheck leaves the index number, and with it there are as many numbers as in a bounds outcome.
pub(crate) fn bounds_check() -> Result<Moves, Refusal>
    ensures { (c : Chunk) (ip k : ℕ) (s : AnyState) → Rules c ip (shaped (BoundsCheck k)) s result }
{
    passing(0, shapes::unknown_value(), 0, BOUNDS_OUTCOME - 1)
}

// IsEnum and IsStruct keep their operand and push a Bool.
pub(crate) fn is_instance() -> Result<Moves, Refusal>
    ensures of_enum { (c : Chunk) (ip a b d : ℕ) (s : AnyState) → Rules c ip (shaped (IsEnum a b d)) s result }
    ensures of_struct { (c : Chunk) (ip k : ℕ) (s : AnyState) → Rules c ip (shaped (IsStruct k)) s result }
{
    passing(0, shapes::scalar_value(scalar::BOOL), 1, 0)
}

// A yield takes the output, and the resume pushes the input.
pub(crate) fn yields(x: &Context) -> Result<Moves, Refusal>
    ensures { (ip : ℕ) (s : AnyState) → Rules (chunk_in x.now) ip (shaped Yield) s result }
{
    let value = Value::from(bytecode::sig_resume(x.tables, x.chunk));
    passing(1, value, 1, 0)
}

// The bit of a native call's count, above the seven that count, that says that a flag is pushed above the result.
const FLAG: u32 = 128;

pub(crate) fn native(x: &Context, k: u32, n: u32) -> Result<Moves, Refusal>
    ensures { (ip : ℕ) (s : AnyState) → Rules (chunk_in x.now) ip (shaped (Native k n)) s result }
{
    let value = Value::from(bytecode::native_shape(x.tables, k as usize));
    passing((n % FLAG) as usize, value, 1, u8::from(n >= FLAG))
}

// How many an instruction pushes: net and need together.
fn produced(e: Effect) -> u8
    requires { (p : ℕ) × (p < 256) × (e.net ≡ pos p -ℤ pos e.need) }
    ensures { e.net ≡ pos result -ℤ pos e.need }
{
    (i64::from(e.need) + e.net) as u8
}

// Every other name takes what it needs and pushes unknowns.
pub(crate) fn generic(e: Effect) -> Result<Moves, Refusal>
    requires { (p : ℕ) × (p < 256) × (e.net ≡ pos p -ℤ pos e.need) }
    ensures { (c : Chunk) (ip : ℕ) (i : AnyInstr) (s : AnyState) → is_generic i ≡ true → e.need ≡ need c i → e.net ≡ net c i → Rules c ip i s result }
{
    passing(e.need as usize, shapes::unknown_value(), produced(e), 0)
}

// A local; one past the last is unknown.
fn local(x: &Context, s: &Frame, k: usize) -> Value
    ensures { value_of result ≡ get_or (locals_of x.now.locals.count s.now.state) k unknown }
{
    if k < x.locals.count {
        s.state.value_at(OPERANDS + k)
    } else {
        shapes::unknown_value()
    }
}

pub(crate) fn get_local(x: &Context, s: &Frame, k: u32) -> Result<Moves, Refusal>
    ensures { (ip : ℕ) → Rules (chunk_in x.now) ip (shaped (GetLocal k)) (state_of x.now.locals.count s.now.state) result }
{
    passing(0, local(x, s, k as usize), 1, 0)
}

pub(crate) fn dup(s: &Frame) -> Result<Moves, Refusal>
    ensures { (c : Chunk) (locals ip : ℕ) → Rules c ip (shaped Dup) (state_of locals s.now.state) result }
{
    passing(0, s.operand(0), 1, 0)
}
