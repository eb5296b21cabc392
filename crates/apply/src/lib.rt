// The examination of one instruction: its tests in the Rust's order, the state after it, and whether a flat access met an unknown operand.
#![tactic(auto, using(crate::proofs::Calls::call_is, bytecode::specs::Meaning::chunk_sig, bytecode::specs::Meaning::chunk_sigs, bytecode::specs::Meaning::chunk_enum_sizes), unfolding(answer::specs::Answer::refusal, answer::specs::Answer::fields, definition::specs::Basics::first, definition::specs::Basics::unless, definition::specs::Basics::pass, definition::specs::Tests::reading, definition::specs::Tests::reading_test, definition::specs::Tests::other_tests, definition::specs::Tests::test_if, definition::specs::Tests::size_test, definition::specs::Tests::places_test, definition::specs::Tests::call_test, definition::specs::Tests::is_unknown, definition::specs::Tests::is_blind, definition::specs::Effects::set_local, definition::specs::Effects::takes, definition::specs::Effects::pushes, definition::specs::Effects::shape_of, definition::specs::Effects::write, definition::specs::Effects::set_top, definition::specs::Walk::after, definition::specs::Walk::height_test, definition::specs::Effects::text_unless_enum, definition::specs::Effects::if_places, shapes::specs::Model::shape_of, shapes::specs::Model::places_of, shapes::specs::Text::packed_of, frame::specs::Model::valued))]

ghost use Rattle.std.specs.Prelude.{◌≡◌, ◌≢◌, reverse, ◌≤◌, ◌<◌, take, get_or};
ghost use Rattle.definition.specs.Shapes.{unknown};
ghost use Rattle.definition.specs.Instructions.{Chunk, SetLocal, Call, NewFlat};
ghost use Rattle.definition.specs.Module.{no_sig};
ghost use Rattle.definition.specs.Effects.{packed};
ghost use Rattle.definition.specs.Tests.{is_blind, is_unknown, reading, size_test, args_test};
ghost use Rattle.value_layout.specs.Sizes.{Wide};
ghost use Rattle.bytecode.specs.Meaning.{known_sigs};
ghost use Rattle.bytecode.specs.declared.code.TheConstants.{SET_LOCAL};
ghost use Rattle.bytecode.specs.Parts.{any_instr_of, EffectIs};
ghost use Rattle.frame.specs.Model.{state_of, stack_of};
ghost use Rattle.answer.specs.Answer.{refusal};
ghost use Rattle.rules.specs.Answers.{Within, Examined, chunk_in};
ghost use Rattle.rules.specs.Rules.{Rules, Stepped};

use answer::Refusal;
use bytecode::{Effect, Instr, code};
use frame::{Floor, Frame};
use rules::{Context, Moves};
use shapes::Value;
use value_layout::{Widths, composite, scalar};

// ---- new composites

// That n operands are there stands in four clauses: it is what these functions need of n and the state together, and no more.

// The baked size against the bytes of the n operands, where they are known.
fn check_packed_size(s: &Frame, n: usize, size: u32, w: Widths, ip: usize) -> Result<(), Refusal>
    requires { n ≤ s.now.state.height }
    ensures { (c : Chunk) → Wide w c → refusal result ≡ size_test ip size (packed c (take n (stack_of s.now.state))) }
{
    match s.packed_size(n, w) {
        Some(bytes) if bytes != size => Err(Refusal::NewCompositeSizeMismatch(
            ip as u64,
            u64::from(size),
            u64::from(bytes),
        )),
        _ => Ok(()),
    }
}

// NewComposite Flat over the n top operands. The places of an enum's body are not known.
fn new_flat(
    x: &Context,
    s: &Frame,
    kind: u8,
    n: usize,
    size: u32,
    ip: usize,
) -> Result<Moves, Refusal>
    requires { n ≤ s.now.state.height }
    ensures { Rules (chunk_in x.now) ip (NewFlat kind n size) (state_of x.now.locals.count s.now.state) result }
{
    if kind == composite::ENUM {
        rules::check_enum_size(x.tables, size, ip)?;
        return Ok(Moves {
            take: n,
            value: shapes::composite_value(kind, size, None),
            times: 1,
            ints: 0,
        });
    }
    check_packed_size(s, n, size, x.widths, ip)?;
    let built = s.built_text_layout(n, x.widths);
    rules::new_body(built, kind, n, size, ip)
}

// ---- calls

// The first of the n top operands, in the order of the parameters, that does not fit its own.
fn check_args(x: &Context, s: &Frame, callee: u32, n: usize, ip: usize) -> Result<(), Refusal>
    requires { n ≤ s.now.state.height }
    ensures { refusal result ≡ args_test ip callee 0 (reverse (take n (stack_of s.now.state))) (get_or (known_sigs x.now.tables.now) callee no_sig).params }
{
    let k = callee as usize;
    for arg in 0..n.min(bytecode::sig_params(x.tables, k)) {
        let shape = s.operand(n - 1 - arg).shape;
        let declared = bytecode::sig_param(x.tables, k, arg);
        if !rules::shapes_compatible(shape, declared) {
            return Err(Refusal::CallArgMismatch(ip as u64, u64::from(callee), arg as u64));
        }
    }
    Ok(())
}

fn call(x: &Context, s: &Frame, callee: u32, n: usize, ip: usize) -> Result<Moves, Refusal>
    requires { n ≤ s.now.state.height }
    ensures { Rules (chunk_in x.now) ip (Call callee n) (state_of x.now.locals.count s.now.state) result }
{
    check_args(x, s, callee, n, ip)?;
    Ok(Moves {
        take: n,
        value: Value::from(bytecode::sig_return(x.tables, callee as usize)),
        times: 1,
        ints: 0,
    })
}

// ---- the state after

// `Within i` is asked and is no ghost field of Instr, since `op_depth_effect` takes any. The effect e is made once an instruction, in `examine`, and handed down with `EffectIs`,
// which says of what instruction it is: two of these look at it, and the last rule takes and pushes by it.

// SetLocal is tested against the parameter of its number, and writes no local outside the frame.
fn set_local(x: &Context, s: &mut Frame, k: u32, ip: usize) -> Result<(), Refusal>
    requires { 1 ≤ s.old.state.height }
    ensures { Stepped (chunk_in x.now) x.now.locals.count ip (SetLocal k) (state_of x.now.locals.count s.old.state) result s.new.state }
{
    let local = k as usize;
    let v = s.operand(0);
    let declared = bytecode::sig_param(x.tables, x.chunk, local);
    if !rules::shapes_compatible(v.shape, declared) {
        return Err(Refusal::LocalTypeMismatch(ip as u64, u64::from(k)));
    }
    s.set_local(local, v, x.locals);
    s.pop();
    Ok(())
}

// The rule of every name but SetLocal.
fn rule_of(x: &Context, s: &Frame, i: Instr, e: Effect, ip: usize) -> Result<Moves, Refusal>
    requires within { Within i }
    requires other { i.code ≢ SET_LOCAL }
    requires effect { EffectIs i x.now.index_trap x.now.host_trap e }
    requires need { e.need ≤ s.now.state.height }
    ensures { Rules (chunk_in x.now) ip (any_instr_of i) (state_of x.now.locals.count s.now.state) result }
{
    match i.code {
        code::CALL => call(x, s, i.a, i.b as usize, ip),
        code::NEW_COMPOSITE_FLAT => new_flat(x, s, i.a as u8, i.b as usize, i.c, ip),
        _ => rules::rule_by(x, s, i, e, ip),
    }
}

// The instruction's own tests, and its effect.
fn apply_op(x: &Context, s: &mut Frame, i: Instr, e: Effect, ip: usize) -> Result<(), Refusal>
    requires within { Within i }
    requires effect { EffectIs i x.now.index_trap x.now.host_trap e }
    requires need { e.need ≤ s.old.state.height }
    ensures { Stepped (chunk_in x.now) x.now.locals.count ip (any_instr_of i) (state_of x.now.locals.count s.old.state) result s.new.state }
{
    if i.code == code::SET_LOCAL {
        return set_local(x, s, i.a, ip);
    }
    let moves = rule_of(x, s, i, e, ip)?;
    rules::check_room(&moves, s.state.height, ip)?;
    let int = shapes::scalar_value(scalar::INT);
    s.replace(
        moves.take,
        moves.value,
        usize::from(moves.times),
        int,
        usize::from(moves.ints),
    );
    Ok(())
}

// ---- one instruction

// Whether the operand under some top ones is unknown, or missing.
fn is_unknown_under(s: &Frame, above: usize) -> bool
    ensures { result ≡ is_unknown (get_or (stack_of s.now.state) above unknown) }
{
    above >= s.state.height || rules::is_unknown(s.state.shape_at(s.state.height - 1 - above))
}

// Whether an instruction is a flat access of an unknown operand, one that is missing included.
#[tactic(auto, using(rules::proofs::Codes::field_mark, rules::proofs::Codes::index_mark, rules::proofs::Codes::unmarked, std::proofs::lemmas::Bool::Decides::nat_tests), unfolding(definition::specs::Basics::is_member))]
pub fn met_unknown(s: &Frame, i: Instr) -> bool
    requires { Within i }
    ensures { (c : Chunk) → result ≡ is_blind (reading c (any_instr_of i)) (stack_of s.now.state) }
{
    match i.code {
        code::GET_INDEX_FLAT | code::GET_INDEX_FLAT_NESTED => is_unknown_under(s, 1),
        code::GET_FIELD_FLAT
        | code::GET_FIELD_FLAT_NESTED
        | code::GET_TUPLE_FIELD_FLAT
        | code::GET_TUPLE_FIELD_FLAT_NESTED
        | code::GET_ENUM_FIELD_FLAT
        | code::GET_ENUM_FIELD_FLAT_NESTED => is_unknown_under(s, 0),
        _ => false,
    }
}

// The examination of one instruction on a state, which becomes the one after it where the instruction passes.
pub fn examine(x: &Context, s: &mut Frame, i: Instr, ip: usize, floor: Floor) -> Result<(), Refusal>
    requires { Within i }
    ensures { Examined x.now i ip floor.height s.old.state result s.new.state }
{
    let e = bytecode::op_depth_effect(i, x.index_trap, x.host_trap);
    rules::check_need(s.state.height, e.need as usize, floor, ip)?;
    apply_op(x, s, i, e, ip)
}
