// The state of the walk: the shape of each operand and local in a word, with its text places beside it. It is lent, and the methods here change it in place.
#![tactic(auto)]

ghost use Rattle.std.specs.Prelude.{◌≡◌, ◌==◌, ◌&&◌, true, reverse, ℕ, ◌+◌, ◌-◌, ◌≤◌, ◌<◌, [], take, get_or, replicate};
ghost use Rattle.definition.specs.Shapes.{unknown, same_shape, same_shapes, join};
ghost use Rattle.definition.specs.Walk.{join_states};
ghost use Rattle.definition.specs.Instructions.{Chunk};
ghost use Rattle.definition.specs.Effects.{built_places, packed};
ghost use Rattle.value_layout.specs.Sizes.{Wide};
ghost use Rattle.shapes.specs.Model.{value_of};
ghost use Rattle.shapes.specs.Cover.{covers, covers_all, covers_state};
ghost use Rattle.shapes.specs.Text.{packed_of, Means};
ghost use Rattle.frame.specs.Words.{slot_of};
ghost use Rattle.frame.specs.declared.TheConstants.{OPERANDS, LOCALS};

mod slot;

use shapes::{Built, MOST_PLACES, Places, Shape, Value};
use slot::{Held, Slot};
use value_layout::Widths;

// As many operands and locals as there is room for.
pub const OPERANDS: usize = 64;

pub const LOCALS: usize = 32;

const SLOTS: usize = OPERANDS + LOCALS;

const PLACES: usize = SLOTS * MOST_PLACES;

// How many locals a chunk has, of those that there is room for.
#[derive(Clone, Copy)]
pub struct Locals {
    pub count: usize,
    ghost few: { count ≤ LOCALS },
}

// How many operands there were where the loop around was entered: what is walked in it may not reach below. A floor of 0 tests nothing, as in the Rust (docs/DECISIONS.md 13).
#[derive(Clone, Copy)]
pub struct Floor {
    pub height: usize,
    ghost low: { height ≤ OPERANDS },
}

// Of each operand and then of each local a word, and its text places in an array beside the words: two words are compared at once, a state is copied only as far as it is in use, and the flat
// array of offsets is a form that the check is asked for. What lies above the height, or past a count of places, means nothing. i < SLOTS and hi ≤ SLOTS are what an index and a range ask, and no more.
#[derive(Clone, Copy)]
pub struct State {
    pub height: usize,
    pub slots: [u64; SLOTS],
    pub places: [u32; PLACES],
}

impl State {
    ghost use Rattle.frame.specs.Model.{valued, value_at, locals_of, state_of};
    ghost use Rattle.frame.specs.Slots.{Written, Changed};

    // ---- one slot

    // What slot i holds.
    #[tactic(auto, using(crate::proofs::Words::few_counted))]
    fn held_at(&self, i: usize) -> Held<'_>
        requires { i < SLOTS }
        ensures word { result.word ≡ get_or self.now.slots i 0 }
        ensures value { valued (slot_of result.word) result.places.now ≡ value_at self.now i }
    {
        let word = self.slots[i];
        let at = i * MOST_PLACES;
        let places = &self.places[at..at + Slot::from(word).counted()];
        Held { word, places }
    }

    // The value of slot i.
    pub fn value_at(&self, i: usize) -> Value
        requires { i < SLOTS }
        ensures { value_of result ≡ value_at self.now i }
    {
        Value::from(self.held_at(i))
    }

    // The shape of slot i alone.
    pub fn shape_at(&self, i: usize) -> Shape
        requires { i < SLOTS }
        ensures { result ≡ (slot_of (get_or self.now.slots i 0)).shape }
    {
        Slot::from(self.slots[i]).shape
    }

    // Slot i gets a word with its places. Where there are none, which is so of most, even a copy of nothing would be a call. Put in where it is asked: there it is seen that the
    // places are a value's own.
    #[tactic(auto, using(crate::proofs::Words::few_counted))]
    #[inline(always)]
    fn put(&mut self, i: usize, held: Held<'_>)
        requires { i < SLOTS }
        ensures { Written self.old i (valued (slot_of held.entry.word) held.entry.places.now) self.new }
    {
        let Held { word, places } = held;
        let at = i * MOST_PLACES;
        self.slots[i] = word;
        if !places.is_empty() {
            self.places[at..at + places.len()].copy_from_slice(places);
        }
    }

    // Slot i becomes v, and the others stay.
    pub fn write(&mut self, i: usize, v: Value)
        requires { i < SLOTS }
        ensures { Written self.old i (value_of v) self.new }
    {
        self.put(i, Held::from(&v));
    }

    // The slots from lo up to hi become v. This loop and those of `copy_slots` and `join_slots` stay three: one that is given the step would have to ask in its contract what the step writes.
    #[tactic(auto, using(crate::proofs::Stores::changes))]
    fn fill(&mut self, lo: usize, hi: usize, v: &Value)
        requires { (lo ≤ hi) × (hi ≤ SLOTS) }
        ensures { Changed self.old lo hi (λ j. value_of v.now) self.new }
    {
        for i in lo..hi {
            self.put(i, Held::from(v));
        }
    }

    // ---- another state's slots

    // Slot i becomes that of another state. Places go through a value: a copy from one lent array to another would ask the C library for `memmove`, and its callers are asked for
    // `memcpy` and `memset` alone.
    fn copy_slot(&mut self, other: &State, i: usize)
        requires { i < SLOTS }
        ensures { Written self.old i (value_at other.now i) self.new }
    {
        let held = other.held_at(i);
        if held.places.is_empty() {
            self.put(i, held);
        } else {
            self.write(i, Value::from(held));
        }
    }

    // The slots from lo up to hi become those of another state.
    #[tactic(auto, using(crate::proofs::Stores::changes))]
    fn copy_slots(&mut self, other: &State, lo: usize, hi: usize)
        requires { (lo ≤ hi) × (hi ≤ SLOTS) }
        ensures { Changed self.old lo hi (value_at other.now) self.new }
    {
        for i in lo..hi {
            self.copy_slot(other, i);
        }
    }

    // Whether the words of slot i here and in another state are one, which says by itself what its value is: it counts no places.
    #[tactic(auto, using(crate::proofs::Words::plain_same))]
    fn is_one_word(&self, other: &State, i: usize) -> bool
        requires { i < SLOTS }
        ensures { result ≡ true → value_at self.now i ≡ value_at other.now i }
    {
        let word = self.slots[i];
        word == other.slots[i] && Slot::from(word).counted() == 0
    }

    // Whether slot i is that of another state. This and `covers_at` stay two, and not one that is given the test: its contract would ask what the test says, as at `fill`. So do
    // `same_stack` and `covers_stack`.
    #[tactic(auto, using(crate::proofs::Joins::same_equal))]
    fn same_at(&self, other: &State, i: usize) -> bool
        requires { i < SLOTS }
        ensures { result ≡ same_shape (value_at self.now i) (value_at other.now i) }
    {
        self.is_one_word(other, i) || self.value_at(i).same(other.value_at(i))
    }

    // Whether slot i covers that of another state. Put in where it is asked, since most words are one and are seen to be so at once.
    #[tactic(auto, using(crate::proofs::Joins::covers_equal))]
    #[inline(always)]
    fn covers_at(&self, other: &State, i: usize) -> bool
        requires { i < SLOTS }
        ensures { result ≡ covers (value_at self.now i) (value_at other.now i) }
    {
        self.is_one_word(other, i) || self.value_at(i).covers(other.value_at(i))
    }

    // Slot i becomes the join with that of another state.
    #[tactic(auto, using(crate::proofs::Joins::join_covered))]
    fn join_slot(&mut self, other: &State, i: usize)
        requires { i < SLOTS }
        ensures { Written self.old i (join (value_at self.old i) (value_at other.now i)) self.new }
    {
        if !self.covers_at(other, i) {
            let v = self.value_at(i).join(other.value_at(i));
            self.write(i, v);
        }
    }

    // In the slots from lo up to hi the join with those of another state.
    #[tactic(auto, using(crate::proofs::Stores::changes))]
    fn join_slots(&mut self, other: &State, lo: usize, hi: usize)
        requires { (lo ≤ hi) × (hi ≤ SLOTS) }
        ensures { Changed self.old lo hi (λ j. join (value_at self.old j) (value_at other.now j)) self.new }
    {
        for i in lo..hi {
            self.join_slot(other, i);
        }
    }

    // Whether a join with another state's locals would leave these as they are.
    pub fn covers_locals(&self, other: &State, locals: Locals) -> bool
        ensures { result ≡ covers_all (locals_of locals.count self.now) (locals_of locals.count other.now) }
    {
        (OPERANDS..OPERANDS + locals.count).all(|i| self.covers_at(other, i))
    }

    // ---- whole states by value

    // The join of two states of one height.
    pub fn join(self, other: State, locals: Locals) -> State
        requires low { self.height ≤ OPERANDS }
        requires one_height { self.height ≡ other.height }
        ensures height { result.height ≡ self.height }
        ensures state { state_of locals.count result ≡ join_states (state_of locals.count self) (state_of locals.count other) }
    {
        let mut joined = Frame { state: self };
        joined.join_with(&Frame { state: other }, locals);
        joined.state
    }

    // Whether a join with another state, of any height, would leave this one as it is.
    #[tactic(auto, using(crate::proofs::Joins::state_covers))]
    pub fn covers(self, other: State, locals: Locals) -> bool
        requires low { self.height ≤ OPERANDS }
        ensures { result ≡ covers_state (state_of locals.count self) (state_of locals.count other) }
    {
        let frame = Frame { state: self };
        frame.covers_stack(&other) && frame.state.covers_locals(&other, locals)
    }
}

// The state as it is lent: its operands are in the slots that are theirs.
#[derive(Clone, Copy)]
pub struct Frame {
    pub state: State,
    ghost low: { state.height ≤ OPERANDS },
}

impl Frame {
    ghost use Rattle.frame.specs.Model.{stack_of, state_of, popped, replaced, with_local, widened};
    ghost use Rattle.frame.specs.Slots.{SameOperands};

    // No operands, and every local unknown.
    pub fn new() -> Frame
        ensures height { result.state.height ≡ 0 }
        ensures state { (locals : ℕ) → locals ≤ LOCALS → state_of locals result.state ≡ record { stack = []; locals = replicate locals unknown } }
    {
        let state = State {
            height: 0,
            slots: [0; SLOTS],
            places: [0; PLACES],
        };
        Frame { state }
    }

    // ---- operands

    // The operand under the i top ones; unknown where there is none.
    #[tactic(auto, using(crate::proofs::Stores::tops))]
    pub fn operand(&self, i: usize) -> Value
        ensures { value_of result ≡ get_or (stack_of self.now.state) i unknown }
    {
        if i < self.state.height {
            self.state.value_at(self.state.height - 1 - i)
        } else {
            shapes::unknown_value()
        }
    }

    // Takes the top operand.
    #[tactic(auto, using(crate::proofs::Stores::pop_law))]
    pub fn pop(&mut self)
        requires { 0 < self.old.state.height }
        ensures height { self.new.state.height + 1 ≡ self.old.state.height }
        ensures state { (locals : ℕ) → state_of locals self.new.state ≡ popped 1 (state_of locals self.old.state) }
        ensures words { (self.new.state.slots ≡ self.old.state.slots) × (self.new.state.places ≡ self.old.state.places) }
    {
        self.state.height -= 1;
    }

    // Takes operands, then pushes v so many times and above it so many of another.
    pub fn replace(&mut self, take: usize, v: Value, times: usize, above: Value, more: usize)
        requires taken { take ≤ self.old.state.height }
        requires room { self.old.state.height - take + times + more ≤ OPERANDS }
        ensures height { self.new.state.height ≡ self.old.state.height - take + times + more }
        ensures state { (locals : ℕ) → locals ≤ LOCALS → state_of locals self.new.state ≡ replaced take (value_of v) times (value_of above) more (state_of locals self.old.state) }
    {
        let s = &mut self.state;
        let a = s.height - take;
        let b = a + times;
        s.fill(a, b, &v);
        s.fill(b, b + more, &above);
        s.height = b + more;
    }

    // ---- locals

    // A local past the last is not written.
    #[tactic(auto, using(crate::proofs::Stores::locals, crate::proofs::Stores::operands))]
    pub fn set_local(&mut self, i: usize, v: Value, locals: Locals)
        ensures height { self.new.state.height ≡ self.old.state.height }
        ensures operands { SameOperands self.old.state self.new.state }
        ensures state { state_of locals.count self.new.state ≡ with_local i (value_of v) (state_of locals.count self.old.state) }
    {
        if i < locals.count {
            self.state.write(OPERANDS + i, v);
        }
    }

    // ---- another frame's state

    // The operands and locals become those of another.
    pub fn copy(&mut self, other: &Frame, locals: Locals)
        ensures height { self.new.state.height ≡ other.now.state.height }
        ensures state { state_of locals.count self.new.state ≡ state_of locals.count other.now.state }
    {
        let s = &mut self.state;
        let from = &other.state;
        s.copy_slots(from, 0, from.height);
        s.copy_slots(from, OPERANDS, OPERANDS + locals.count);
        s.height = from.height;
    }

    // The join with another of the same height.
    pub fn join_with(&mut self, other: &Frame, locals: Locals)
        requires { self.old.state.height ≡ other.now.state.height }
        ensures height { self.new.state.height ≡ self.old.state.height }
        ensures state { state_of locals.count self.new.state ≡ join_states (state_of locals.count self.old.state) (state_of locals.count other.now.state) }
    {
        let s = &mut self.state;
        s.join_slots(&other.state, 0, s.height);
        s.join_slots(&other.state, OPERANDS, OPERANDS + locals.count);
    }

    // The operands stay, and each local becomes its join with another state's.
    #[tactic(auto, using(crate::proofs::Joins::widen_law, crate::proofs::Stores::operands))]
    pub fn join_locals(&mut self, other: &State, locals: Locals)
        ensures height { self.new.state.height ≡ self.old.state.height }
        ensures operands { SameOperands self.old.state self.new.state }
        ensures state { state_of locals.count self.new.state ≡ widened (state_of locals.count self.old.state) (state_of locals.count other.now) }
    {
        self.state
            .join_slots(other, OPERANDS, OPERANDS + locals.count);
    }

    // Whether the operands are those of another state, of any height.
    pub fn same_stack(&self, other: &State) -> bool
        ensures { result ≡ same_shapes (stack_of self.now.state) (stack_of other.now) }
    {
        let s = &self.state;
        s.height == other.height && (0..s.height).all(|i| s.same_at(other, i))
    }

    // Whether there are as many operands as in another state, and a join with those would leave these as they are.
    fn covers_stack(&self, other: &State) -> bool
        ensures { result ≡ (self.now.state.height == other.now.height && covers_all (stack_of self.now.state) (stack_of other.now)) }
    {
        let s = &self.state;
        s.height == other.height && (0..s.height).all(|i| s.covers_at(other, i))
    }

    // ---- new composites

    // The bytes of the n top operands, packed, where they are known.
    pub fn packed_size(&self, n: usize, w: Widths) -> Option<u32>
        requires { n ≤ self.now.state.height }
        ensures { (c : Chunk) → Wide w c → packed_of result ≡ packed c (take n (stack_of self.now.state)) }
    {
        let s = &self.state;
        let mut size = 0u32;
        for i in s.height - n..s.height {
            size = size.saturating_add(s.shape_at(i).packed_size(w)?);
        }
        Some(size)
    }

    // The text places of a body packed from the n top operands.
    pub fn built_text_layout(&self, n: usize, w: Widths) -> Built
        requires { n ≤ self.now.state.height }
        ensures { (c : Chunk) → Wide w c → Means result (built_places c 0 (reverse (take n (stack_of self.now.state)))) }
    {
        let s = &self.state;
        let mut at = 0u32;
        let mut held = Places::new();
        let mut whole = Ok(());
        for i in s.height - n..s.height {
            let v = s.value_at(i);
            let Some(added) = held.add_text(at, v) else {
                return Ok(None);
            };
            let Some(bytes) = v.shape.packed_size(w) else {
                return Ok(None);
            };
            whole = whole.and(added);
            at = at.saturating_add(bytes);
        }
        whole?;
        Ok(Some(held))
    }
}
