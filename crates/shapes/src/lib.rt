// Shapes of operands and locals, with their text places.
#![tactic(auto)]

ghost use Rattle.std.specs.Prelude.{◌≡◌, List, ℕ};
ghost use Rattle.std.proofs.Math.Option.{Option};
ghost use Rattle.definition.specs.Shapes.{unknown, scalar, composite, same_shape, join};
ghost use Rattle.definition.specs.Instructions.{Chunk};
ghost use Rattle.definition.specs.Effects.{nested_places, element_places};
ghost use Rattle.value_layout.specs.Sizes.{Wide};
ghost use Rattle.shapes.specs.Model.{is_composite, shape_of, plain_of, places_of, value_of, has_places};
ghost use Rattle.shapes.specs.Cover.{covers};
ghost use Rattle.shapes.specs.Text.{packed_of, bytes};

pub mod places;

pub use places::{MOST_PLACES, ManyPlaces, Places};
use value_layout::Widths;

// ---- shapes

#[derive(Clone, Copy, PartialEq, Eq)]
pub enum Shape {
    Unknown,
    Scalar(u8),
    Composite(u8, u32),
}

impl Shape {
    // Whether it may have text places.
    fn is_composite(self) -> bool
        ensures { result ≡ is_composite self }
    {
        matches!(self, Shape::Composite(_, _))
    }

    // Equal shapes join to themselves, all else to unknown.
    #[tactic(auto, using(crate::proofs::Joins::plain_same, crate::proofs::Joins::plain_apart))]
    pub fn join(self, other: Shape) -> Shape
        ensures { plain_of result ≡ join (plain_of self) (plain_of other) }
    {
        if self == other { self } else { Shape::Unknown }
    }

    // Unknown covers all, the rest exactly themselves.
    #[tactic(auto, using(crate::proofs::Joins::covers_by))]
    pub fn covers(self, other: Shape) -> bool
        ensures { result ≡ covers (plain_of self) (plain_of other) }
    {
        self.join(other) == self
    }

    // The bytes of a value of this shape in a packed body, where they are known.
    #[tactic(auto, using(value_layout::proofs::Laws::width_is), unfolding(crate::specs::Model::shape_of, crate::specs::Text::packed_of, crate::specs::Text::bytes))]
    pub fn packed_size(self, w: Widths) -> Option<u32>
        ensures { (c : Chunk) (t : Option (List ℕ)) → Wide w c → packed_of result ≡ bytes c (shape_of self t) }
    {
        match self {
            Shape::Unknown => None,
            Shape::Scalar(kind) => Some(w.size_in_bytes(kind)),
            Shape::Composite(_, size) => Some(size),
        }
    }
}

// The text places of a new composite: more than a value holds, or those that are known.
pub type Built = Result<Option<Places>, ManyPlaces>;

// ---- values

// A shape with its text places, where they are known. Only a composite has places.
#[derive(Clone, Copy)]
pub struct Value {
    pub shape: Shape,
    pub places: Option<Places>,
}

#[tactic(auto, unfolding(crate::specs::Model::shape_of))]
pub fn unknown_value() -> Value
    ensures { value_of result ≡ unknown }
{
    Value::from(Shape::Unknown)
}

// A value of a scalar kind.
#[tactic(auto, unfolding(crate::specs::Model::shape_of))]
pub fn scalar_value(kind: u8) -> Value
    ensures { value_of result ≡ scalar kind }
{
    Value::from(Shape::Scalar(kind))
}

// A composite of a kind and size with these places, where they are known.
#[tactic(auto, unfolding(crate::specs::Model::shape_of))]
pub fn composite_value(kind: u8, size: u32, places: Option<Places>) -> Value
    ensures { value_of result ≡ composite kind size (places_of places) }
{
    Value {
        shape: Shape::Composite(kind, size),
        places,
    }
}

// A value whose places are unknown, as a listing declares it.
impl From<Shape> for Value {
    ghost from_gives = { λ shape value. value_of value ≡ plain_of shape };

    #[tactic(auto, unfolding(crate::specs::Model::places_of))]
    fn from(shape: Shape) -> Value {
        Value {
            shape,
            places: None,
        }
    }
}

impl Value {
    // Whether its places are known and tell it from others of its shape.
    #[tactic(auto, unfolding(crate::specs::Model::shape_of, crate::specs::Model::places_of, crate::specs::Model::has_places))]
    fn has_places(self) -> bool
        ensures { result ≡ has_places (value_of self) }
    {
        self.shape.is_composite() && self.places.is_some()
    }

    // Equal shapes, with equal places where they are composites. A method and not `==`: what else holds places holds them without meaning.
    #[tactic(auto, using(crate::proofs::Joins::same_apart, crate::proofs::Joins::same_kept, crate::proofs::Joins::same_plain, crate::proofs::Joins::same_moved))]
    pub fn same(self, other: Value) -> bool
        ensures { result ≡ same_shape (value_of self) (value_of other) }
    {
        self.shape == other.shape && (self.places == other.places || !self.shape.is_composite())
    }

    // Equal values join to themselves; composites of one kind and size with different places to that composite, places unknown; all else to
    // unknown.
    #[tactic(auto, using(crate::proofs::Joins::join_same, crate::proofs::Joins::join_apart))]
    pub fn join(self, other: Value) -> Value
        ensures { value_of result ≡ join (value_of self) (value_of other) }
    {
        if self.same(other) {
            self
        } else {
            Value::from(self.shape.join(other.shape))
        }
    }

    // Unknown covers all, a composite with unknown places each of its kind and size, and every value itself.
    #[tactic(auto, using(crate::proofs::Joins::known_covers, crate::proofs::Joins::plain_covers))]
    pub fn covers(self, other: Value) -> bool
        ensures { result ≡ covers (value_of self) (value_of other) }
    {
        if self.has_places() {
            self.same(other)
        } else {
            self.shape.covers(other.shape)
        }
    }

    // The places of a composite of size bytes at `at` in this value, where they are known.
    #[tactic(auto, unfolding(crate::specs::Model::shape_of, crate::specs::Model::places_of, definition::specs::Effects::nested_places))]
    pub fn nested_text_layout(self, at: u32, size: u32) -> Option<Places>
        ensures { places_of result ≡ nested_places (value_of self) at size }
    {
        let Shape::Composite(_, _) = self.shape else {
            return None;
        };
        Some(self.places?.within(at, size))
    }

    // The places that all elements of size bytes of this array share, where they are known.
    #[tactic(auto, unfolding(crate::specs::Model::shape_of, crate::specs::Model::places_of, definition::specs::Effects::element_places, definition::specs::Effects::if_places))]
    pub fn element_text_layout(self, size: u32) -> Option<Places>
        ensures { places_of result ≡ element_places (value_of self) size }
    {
        let Shape::Composite(_, all) = self.shape else {
            return None;
        };
        let places = self.places?;
        if size != 0 && all % size == 0 && places.elements_alike(all / size, size) {
            Some(places.within(0, size))
        } else {
            None
        }
    }
}
