// Text places: where texts lie in the bytes of a composite.

ghost use Rattle.std.specs.Prelude.{◌≡◌, ◌↔◌, ◌∷◌, ◌++◌, [], ◌*◌, ◌-◌, ◌≤◌, ◌<◌, ◌^◌, length, IsErr, OnOk, OnErr};
ghost use Rattle.definition.specs.Basics.{is_member};
ghost use Rattle.definition.specs.Shapes.{same_places};
ghost use Rattle.definition.specs.Effects.{places_within, shift, elements_alike};
ghost use Rattle.shapes.specs.Padded.{IsPadded};

use crate::{Shape, Value};
use value_layout::scalar;

// As many text places as a value holds.
pub const MOST_PLACES: usize = 16;

// More text places were met than a value holds.
#[derive(Clone, Copy, Debug, PartialEq, Eq)]
pub struct ManyPlaces;

// Text places of one body, first to last: sixteen and how many count, and no vector of fixed room, since this stands on std alone (README), and a value is copied with its places.
// Past the count all are 0, so that equal places are equal fields. A ghost field and not an impl Model: of a value that holds a struct with
// a model the check proves no copy yet.
#[derive(Clone, Copy, PartialEq, Eq)]
pub struct Places {
    count: u8,
    at: [u32; MOST_PLACES],
    ghost padded: { IsPadded count at },
}

impl Places {
    ghost use Rattle.shapes.specs.Model.{list_of, value_of};
    ghost use Rattle.shapes.specs.Text.{Adds, Keeps, Took};

    pub fn new() -> Places
        ensures { list_of result ≡ [] }
    {
        Places {
            count: 0,
            at: [0; MOST_PLACES],
        }
    }

    pub fn from_slice(places: &[u32]) -> Places
        requires { length places.now ≤ MOST_PLACES }
        ensures { list_of result ≡ places.now }
    {
        let mut at = [0; MOST_PLACES];
        at[..places.len()].copy_from_slice(places);
        Places {
            count: places.len() as u8,
            at,
        }
    }

    pub fn as_slice(&self) -> &[u32]
        ensures value { result.now ≡ list_of self.now }
        ensures few { length (list_of self.now) ≤ MOST_PLACES }
    {
        &self.at[..self.count as usize]
    }

    pub fn contains(&self, offset: u32) -> bool
        ensures { result ≡ is_member offset (list_of self.now) }
    {
        self.as_slice().contains(&offset)
    }

    fn push(&mut self, offset: u32)
        requires { length (list_of self.old) < MOST_PLACES }
        ensures { list_of self.new ≡ list_of self.old ++ offset ∷ [] }
    {
        self.at[self.count as usize] = offset;
        self.count += 1;
    }

    // One place more.
    pub fn add(&mut self, offset: u32) -> Result<(), ManyPlaces>
        ensures ok { OnOk result (list_of self.new ≡ list_of self.old ++ offset ∷ []) }
        ensures many { IsErr result ↔ (length (list_of self.old) ≡ MOST_PLACES) }
        ensures err { OnErr result (list_of self.new ≡ list_of self.old) }
    {
        if self.as_slice().len() == MOST_PLACES {
            return Err(ManyPlaces);
        }
        self.push(offset);
        Ok(())
    }

    // So many places more, each moved by `by`.
    fn add_all(&mut self, more: &Places, by: u32) -> Result<(), ManyPlaces>
        ensures added { Adds (list_of self.old) (shift by (list_of more.now)) result (list_of self.new) }
        ensures kept { Keeps (list_of self.old) (list_of self.new) }
    {
        for &offset in more.as_slice() {
            self.add(by.saturating_add(offset))?;
        }
        Ok(())
    }

    // The text places of an element at `at` more; none where that element's are unknown.
    #[tactic(auto, unfolding(crate::specs::Model::shape_of, crate::specs::Model::places_of, crate::specs::Text::own, definition::specs::Effects::keep_if))]
    pub fn add_text(&mut self, at: u32, element: Value) -> Option<Result<(), ManyPlaces>>
        ensures took { Took at (value_of element) (list_of self.old) result (list_of self.new) }
        ensures kept { Keeps (list_of self.old) (list_of self.new) }
    {
        match element.shape {
            Shape::Unknown => None,
            Shape::Scalar(scalar::TEXT) => Some(self.add(at)),
            Shape::Scalar(_) => Some(Ok(())),
            Shape::Composite(_, _) => Some(self.add_all(&element.places?, at)),
        }
    }

    // Those in the size bytes from `at` on, counted from there.
    pub(crate) fn within(&self, at: u32, size: u32) -> Places
        ensures { list_of result ≡ places_within at size (list_of self.now) }
    {
        let end = at.saturating_add(size);
        let mut inside = Places::new();
        for &offset in self.as_slice() {
            if (at..end).contains(&offset) {
                inside.push(offset - at);
            }
        }
        inside
    }

    // Whether an element of size bytes at `at` has the places of the first.
    #[tactic(auto, using(crate::proofs::Held::places_test))]
    fn has_at(&self, at: u32, size: u32, first: &Places) -> bool
        ensures { result ≡ same_places (places_within at size (list_of self.now)) (list_of first.now) }
    {
        self.within(at, size) == *first
    }

    // Whether each of so many elements of size bytes has the places of the first. More elements than places are alike only where no place lies inside them.
    pub(crate) fn elements_alike(&self, elements: u32, size: u32) -> bool
        requires { elements * size < 2 ^ 32 }
        ensures { result ≡ elements_alike elements size (list_of self.now) }
    {
        if u32::from(self.count) < elements {
            return self.within(0, elements * size).as_slice().is_empty();
        }
        let first = self.within(0, size);
        (0..elements).all(|number| self.has_at(number * size, size, &first))
    }
}
