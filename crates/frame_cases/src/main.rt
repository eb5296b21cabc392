// Joins and covers of the same two states in three ways: by value (`State::join`, `State::covers`), on lent frames as the walk does it, and value by value. A line for each pair of
// states says how many values the join changes, whether the first state covers the second, and whether the three ways agree.
#![tactic(auto)]

ghost use Rattle.std.specs.Prelude.{◌≡◌, ◌+◌, ◌≤◌, ◌<◌, length};

use frame::{Frame, LOCALS, Locals, OPERANDS, State};
use shapes::{Places, Value};
use std::io;
use std::ops::Range;
use value_layout::{composite, scalar};

// ---- states

// A tuple of 32 bytes with these places.
fn tuple(places: &[u32]) -> Value
    requires { length places.now ≤ 16 }
{
    shapes::composite_value(composite::TUPLE, 32, Some(Places::from_slice(places)))
}

// A few values, so that equal ones meet, and ones that differ in their places alone, or in their kind alone.
fn value_of(n: u64) -> Value {
    match n % 8 {
        0 => shapes::unknown_value(),
        1 => shapes::scalar_value(scalar::INT),
        2 => shapes::scalar_value(scalar::TEXT),
        3 => shapes::composite_value(composite::TUPLE, 32, None),
        4 => tuple(&[]),
        5 => tuple(&[0]),
        6 => tuple(&[0, 16]),
        _ => shapes::composite_value(composite::ARRAY, 32, Some(Places::new())),
    }
}

// The next of a row of numbers that looks like chance.
fn next(x: u64) -> u64 {
    (x % 65537 * 75 + 74) % 65537
}

// How the second state differs from the first: wherever chance has it, nowhere, in one slot, or in that slot from unknown.
#[derive(Clone, Copy)]
enum Way {
    Anywhere,
    Nowhere,
    InOne,
    FromUnknown,
}

// The slot in which states differ that differ in one: the first local.
const ONE: usize = OPERANDS;

impl Way {
    // The numbers of the values in slot i of the first state, and of the second.
    fn numbers(self, i: usize, x: u64) -> (u64, u64) {
        match self {
            Way::Anywhere => (x, x / 8),
            Way::InOne if i == ONE => (x, x % 8 + 1),
            Way::FromUnknown if i == ONE => (0, x % 8 + 1),
            _ => (x, x),
        }
    }
}

// A pair of states of these heights.
fn frames(seed: u64, way: Way, heights: (usize, usize)) -> (Frame, Frame)
    requires low { (heights.0 ≤ OPERANDS) × (heights.1 ≤ OPERANDS) }
    ensures first { result.0.state.height ≡ heights.0 }
    ensures second { result.1.state.height ≡ heights.1 }
{
    let mut first = Frame::new();
    let mut second = first;
    let mut x = seed;
    for i in 0..OPERANDS + LOCALS {
        x = next(x);
        let (a, b) = way.numbers(i, x);
        first.state.write(i, value_of(a));
        second.state.write(i, value_of(b));
    }
    first.state.height = heights.0;
    second.state.height = heights.1;
    (first, second)
}

// ---- the three ways

// The join as the walk makes it, in place.
fn join_lent(a: &Frame, b: &Frame, locals: Locals) -> State
    requires { a.now.state.height ≡ b.now.state.height }
{
    let mut joined = *a;
    joined.join_with(b, locals);
    joined.state
}

// Whether a state is the join of two in each of these slots.
fn is_join_in(a: &State, b: &State, joined: &State, mut slots: Range<usize>) -> bool
    requires { slots.end ≤ OPERANDS + LOCALS }
{
    slots.all(|i| a.value_at(i).join(b.value_at(i)).same(joined.value_at(i)))
}

// Whether a state covers another in each of these slots.
fn is_covered_in(a: &State, b: &State, mut slots: Range<usize>) -> bool
    requires { slots.end ≤ OPERANDS + LOCALS }
{
    slots.all(|i| a.value_at(i).covers(b.value_at(i)))
}

// In how many of these slots two states differ.
fn changed_in(a: &State, b: &State, slots: Range<usize>) -> usize
    requires { slots.end ≤ OPERANDS + LOCALS }
{
    slots
        .filter(|&i| !a.value_at(i).same(b.value_at(i)))
        .count()
}

// Whether a state is the join of two value by value.
fn is_join(a: &Frame, b: &Frame, joined: &State, locals: Locals) -> bool {
    is_join_in(&a.state, &b.state, joined, 0..a.state.height)
        && is_join_in(
            &a.state,
            &b.state,
            joined,
            OPERANDS..OPERANDS + locals.count,
        )
}

// Whether both joins are the join value by value.
fn joins_agree(a: &Frame, b: &Frame, locals: Locals) -> bool
    requires { a.now.state.height ≡ b.now.state.height }
{
    is_join(a, b, &a.state.join(b.state, locals), locals)
        && is_join(a, b, &join_lent(a, b, locals), locals)
}

// Whether both covers are the cover value by value.
fn covers_agree(a: &Frame, b: &Frame, locals: Locals) -> bool {
    let (a, b, height) = (&a.state, &b.state, a.state.height);
    let are_covered = is_covered_in(a, b, OPERANDS..OPERANDS + locals.count);
    a.covers_locals(b, locals) == are_covered
        && a.covers(*b, locals) == (is_covered_in(a, b, 0..height) && are_covered)
}

// ---- the cases

fn show(rt: &impl Print, seed: u64, way: Way, height: usize, locals: Locals) -> io::Result<()>
    requires { height ≤ OPERANDS }
{
    let count = locals.count;
    let (a, b) = frames(seed, way, (height, height));
    let joined = join_lent(&a, &b, locals);
    let operands_changed = changed_in(&a.state, &joined, 0..height);
    let locals_changed = changed_in(&a.state, &joined, OPERANDS..OPERANDS + count);
    let covered = if a.state.covers(b.state, locals) {
        "covered"
    } else {
        "not covered"
    };
    let joins = if joins_agree(&a, &b, locals) {
        "joins agree"
    } else {
        "JOINS DIFFER"
    };
    let covers = if covers_agree(&a, &b, locals) {
        "covers agree"
    } else {
        "COVERS DIFFER"
    };
    print!(rt;
        "operands {height} locals {count}: changed {operands_changed} and {locals_changed}"
    )?;
    println!(rt; ", {covered}, {joins}, {covers}")
}

// States of different heights never cover each other.
fn show_heights(rt: &impl Print) -> io::Result<()> {
    let (low, high) = frames(1, Way::Nowhere, (2, 3));
    let covered = if low.state.covers(high.state, Locals { count: 0 }) {
        "COVERED"
    } else {
        "not covered"
    };
    println!(rt; "operands 2 and 3: {covered}")
}

fn main(rt: HostRuntime) -> io::Result<()> {
    let mut seed = 0;
    for way in [Way::Anywhere, Way::Nowhere, Way::InOne, Way::FromUnknown] {
        for count in [0, 1, 7, LOCALS] {
            for height in [0, 1, 9, OPERANDS] {
                seed += 1;
                show(&rt, seed, way, height, Locals { count })?;
            }
        }
    }
    show_heights(&rt)
}
