// The rules of flat accesses: reads of a field or of a part of a composite, and of an element of an array.
#![tactic(auto, using(crate::proofs::Tests::elements_next, crate::proofs::Tests::elements_end, value_layout::proofs::Laws::width_is), unfolding(answer::specs::Answer::refusal, answer::specs::Answer::fields, definition::specs::Basics::first, definition::specs::Basics::unless, definition::specs::Basics::choose, definition::specs::Tests::reading, definition::specs::Tests::reading_test, definition::specs::Tests::other_tests, definition::specs::Tests::test_if, definition::specs::Tests::field_test, definition::specs::Tests::index_test, definition::specs::Tests::text_field_test, definition::specs::Tests::text_index_test, definition::specs::Effects::set_local, definition::specs::Effects::takes, definition::specs::Effects::pushes, definition::specs::Effects::shape_of, definition::specs::Effects::with_bounds, shapes::specs::Model::shape_of, shapes::specs::Model::places_of, crate::specs::Rules::Otherwise))]

ghost use Rattle.std.specs.Prelude.{◌≡◌, ◌&&◌, ◌||◌, ℕ, ◌+◌, ◌/◌, ◌<◌, eqb, ltb};
ghost use Rattle.definition.specs.Basics.{choose};
ghost use Rattle.definition.specs.Instructions.{Chunk, Owner, GetFlat, Flat, FlatNested, GetIndex, ElemFlat, ElemNested};
ghost use Rattle.definition.specs.Tests.{field_test, text_field_test, test_if, index_test, text_index_test, text_elements};
ghost use Rattle.shapes.specs.Model.{list_of, value_of};
ghost use Rattle.frame.specs.Model.{state_of};
ghost use Rattle.answer.specs.Answer.{refusal};
ghost use Rattle.rules.specs.Answers.{chunk_in};
ghost use Rattle.rules.specs.Rules.{Otherwise, Rules};

use crate::{BOUNDS_OUTCOME, Context, Moves, passing};
use answer::Refusal;
use frame::Frame;
use shapes::{Places, Shape, Value};
use value_layout::scalar;

// ---- flat field reads

// A flat access of what is no composite: a scalar is refused, and an unknown passes.
fn not_composite(shape: Shape, ip: usize) -> Result<(), Refusal>
    ensures { Otherwise ip shape result }
{
    if matches!(shape, Shape::Scalar(_)) {
        Err(Refusal::ExpectedComposite(ip as u64))
    } else {
        Ok(())
    }
}

// A flat read of size bytes at an offset of a composite.
fn check_flat(v: &Value, offset: u32, size: u32, ip: usize) -> Result<(), Refusal>
    ensures { refusal result ≡ field_test ip offset (offset + size) (value_of v.now) }
{
    let Shape::Composite(_, all) = v.shape else {
        return not_composite(v.shape, ip);
    };
    let (at, all) = (u64::from(offset), u64::from(all));
    let end = at + u64::from(size);
    if end <= all {
        Ok(())
    } else {
        Err(Refusal::OffsetOutOfBounds(ip as u64, at, end, all))
    }
}

// A text read at an offset of a body whose places are known to be elsewhere.
fn check_text_field(v: &Value, offset: u32, kind: u8, ip: usize) -> Result<(), Refusal>
    ensures { refusal result ≡ test_if (eqb kind 6) (text_field_test ip offset (value_of v.now)) }
{
    if kind != scalar::TEXT {
        return Ok(());
    }
    let Shape::Composite(_, _) = v.shape else {
        return Ok(());
    };
    let Some(places) = &v.places else {
        return Ok(());
    };
    if places.contains(offset) {
        Ok(())
    } else {
        Err(Refusal::TextFieldMismatch(ip as u64, u64::from(offset)))
    }
}

// GetField, GetTupleField and GetEnumField, Flat, of the top operand.
pub(crate) fn get_flat(
    x: &Context,
    s: &Frame,
    offset: u32,
    kind: u8,
    ip: usize,
) -> Result<Moves, Refusal>
    ensures { (o : Owner) → Rules (chunk_in x.now) ip (GetFlat o (Flat offset kind)) (state_of x.now.locals.count s.now.state) result }
{
    let v = s.operand(0);
    check_flat(&v, offset, x.widths.size_in_bytes(kind), ip)?;
    check_text_field(&v, offset, kind, ip)?;
    passing(1, shapes::scalar_value(kind), 1, 0)
}

// The three field reads, FlatNested.
pub(crate) fn get_flat_nested(
    s: &Frame,
    offset: u32,
    size: u32,
    kind: u8,
    ip: usize,
) -> Result<Moves, Refusal>
    ensures { (c : Chunk) (o : Owner) (locals : ℕ) → Rules c ip (GetFlat o (FlatNested offset size kind)) (state_of locals s.now.state) result }
{
    let v = s.operand(0);
    check_flat(&v, offset, size, ip)?;
    let places = v.nested_text_layout(offset, size);
    passing(1, shapes::composite_value(kind, size, places), 1, 0)
}

// ---- flat indices

// Elements of some bytes of an array; those of none pass.
fn check_flat_array_stride(v: &Value, element: u32, ip: usize) -> Result<(), Refusal>
    ensures { refusal result ≡ index_test ip element (value_of v.now) }
{
    let Shape::Composite(_, all) = v.shape else {
        return not_composite(v.shape, ip);
    };
    if element == 0 || all % element == 0 {
        Ok(())
    } else {
        Err(Refusal::ArrayStrideMismatch(ip as u64, u64::from(element), u64::from(all)))
    }
}

// Whether each element of an array of so many bytes is a text place.
fn check_elements(places: &Places, element: u32, all: u32, ip: usize) -> Result<(), Refusal>
    requires { 0 < element }
    ensures { refusal result ≡ text_elements ip element 0 (all / element) (list_of places.now) }
{
    for i in 0..all / element {
        let at = i * element;
        if !places.contains(at) {
            return Err(Refusal::TextFieldMismatch(ip as u64, u64::from(at)));
        }
    }
    Ok(())
}

// Text elements of an array whose places are known to be elsewhere.
fn check_text_elements(v: &Value, element: u32, kind: u8, ip: usize) -> Result<(), Refusal>
    ensures { refusal result ≡ test_if (eqb kind 6 && ltb 0 element) (text_index_test ip element (value_of v.now)) }
{
    if kind != scalar::TEXT || element == 0 {
        return Ok(());
    }
    let Shape::Composite(_, all) = v.shape else {
        return Ok(());
    };
    let Some(places) = &v.places else {
        return Ok(());
    };
    check_elements(places, element, all, ip)
}

// How many numbers a bounds outcome pushes above an element of this kind.
fn bounds_outcome(kind: u8) -> u8
    ensures { result ≡ choose (eqb kind 2 || eqb kind 3) 6 0 }
{
    match kind {
        scalar::BYTE | scalar::INT => BOUNDS_OUTCOME,
        _ => 0,
    }
}

// GetIndex Flat; the array is under the index number.
pub(crate) fn get_index(x: &Context, s: &Frame, kind: u8, ip: usize) -> Result<Moves, Refusal>
    ensures { Rules (chunk_in x.now) ip (GetIndex (ElemFlat kind)) (state_of x.now.locals.count s.now.state) result }
{
    let v = s.operand(1);
    let element = x.widths.size_in_bytes(kind);
    check_flat_array_stride(&v, element, ip)?;
    check_text_elements(&v, element, kind, ip)?;
    passing(2, shapes::scalar_value(kind), 1, bounds_outcome(kind))
}

// GetIndex FlatNested.
pub(crate) fn get_index_nested(s: &Frame, size: u32, kind: u8, ip: usize) -> Result<Moves, Refusal>
    ensures { (c : Chunk) (locals : ℕ) → Rules c ip (GetIndex (ElemNested size kind)) (state_of locals s.now.state) result }
{
    let v = s.operand(1);
    check_flat_array_stride(&v, size, ip)?;
    let places = v.element_text_layout(size);
    passing(
        2,
        shapes::composite_value(kind, size, places),
        1,
        BOUNDS_OUTCOME,
    )
}
