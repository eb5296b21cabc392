// The word in which the shape of an operand or local is kept.

ghost use Rattle.std.specs.Prelude.{◌≡◌, ◌≤◌, length, IfSome};
ghost use Rattle.frame.specs.Words.{slot_of, counted};

use shapes::{Places, Shape, Value};

// The shape of an operand or local, and how many text places it has, where they are known: at most sixteen.
#[derive(Clone, Copy)]
pub struct Slot {
    pub shape: Shape,
    pub count: Option<u8>,
}

// Where the parts of a word begin, above two bits that say which shape it is: eight bits of its kind, eight of the count of places, and the size. Numbers here and in no other place:
// 01 asks for an array of shapes beside one of offsets, and a word is one of these shapes; `Slot` is what it says.
const KIND: u64 = 1 << 2;

const COUNT: u64 = 1 << 10;

const SIZE: u64 = 1 << 18;

// A count that says that the places are not known. In the word only: `Slot` has an Option.
const UNKNOWN_PLACES: u8 = 255;

impl From<Slot> for u64 {
    ghost from_gives = { λ slot w. IfSome slot.count (λ n. n ≤ 16) → slot_of w ≡ slot };

    #[tactic(auto, unfolding(crate::specs::Words::slot_of, crate::specs::Words::shape_in, crate::specs::Words::count_in))]
    fn from(slot: Slot) -> u64 {
        let count = COUNT * u64::from(slot.count.unwrap_or(UNKNOWN_PLACES));
        match slot.shape {
            Shape::Unknown => count,
            Shape::Scalar(kind) => 1 + KIND * u64::from(kind) + count,
            Shape::Composite(kind, size) => 2
                + KIND * u64::from(kind)
                + count
                + SIZE * u64::from(size),
        }
    }
}

impl From<u64> for Slot {
    ghost from_gives = { λ w slot. slot ≡ slot_of w };

    #[tactic(auto, unfolding(crate::specs::Words::slot_of, crate::specs::Words::shape_in, crate::specs::Words::count_in))]
    fn from(w: u64) -> Slot {
        let kind = (w / KIND % 256) as u8;
        let count = (w / COUNT % 256) as u8;
        let size = (w / SIZE % (1 << 32)) as u32;
        let shape = match w % KIND {
            0 => Shape::Unknown,
            1 => Shape::Scalar(kind),
            _ => Shape::Composite(kind, size),
        };
        let count = (count <= 16).then_some(count);
        Slot { shape, count }
    }
}

impl Slot {
    // How many of the sixteen places count.
    pub fn counted(self) -> usize
        ensures { result ≡ counted self.count }
    {
        self.count.map_or(0, usize::from)
    }
}

// What a slot holds: its word, and the places that this counts.
#[derive(Clone, Copy)]
pub struct Held<'a> {
    pub word: u64,
    pub places: &'a [u32],
    ghost counted: { length places.now ≡ counted (slot_of word).count },
}

impl<'a> From<&'a Value> for Held<'a> {
    ghost use Rattle.std.specs.Prelude.{◌≡◌};
    ghost use Rattle.shapes.specs.Model.{value_of};
    ghost use Rattle.frame.specs.Words.{slot_of};
    ghost use Rattle.frame.specs.Model.{valued};

    ghost from_gives = { λ v held. valued (slot_of held.word) held.places.now ≡ value_of v.now };

    fn from(v: &'a Value) -> Held<'a> {
        let Some(places) = &v.places else {
            let slot = Slot {
                shape: v.shape,
                count: None,
            };
            return Held {
                word: u64::from(slot),
                places: &[],
            };
        };
        let places = places.as_slice();
        let slot = Slot {
            shape: v.shape,
            count: Some(places.len() as u8),
        };
        Held {
            word: u64::from(slot),
            places,
        }
    }
}

// Places are copied only as far as they are known.
impl From<Held<'_>> for Value {
    ghost use Rattle.std.specs.Prelude.{◌≡◌};
    ghost use Rattle.shapes.specs.Model.{value_of};
    ghost use Rattle.frame.specs.Words.{slot_of};
    ghost use Rattle.frame.specs.Model.{valued};

    ghost from_gives = { λ held v. value_of v ≡ valued (slot_of held.word) held.places.now };

    fn from(held: Held<'_>) -> Value {
        let Slot { shape, count } = Slot::from(held.word);
        match count {
            None => Value::from(shape),
            Some(_) => Value {
                shape,
                places: Some(Places::from_slice(held.places)),
            },
        }
    }
}
