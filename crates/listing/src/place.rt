// Where the reader stands.
ghost use Rattle.std.specs.Prelude.{◌≡◌, get_or};
ghost use Rattle.definition.specs.Read.{within};
ghost use Rattle.listing.specs.Forms.{form_kind, head_number, place_number, lows, highs, place_after};

use crate::entry::Head;
use crate::form::Form;

// Before the first line; after a line of a table; after a chunk; in a chunk, among its constants or its instructions; after the last line.
#[derive(Clone, Copy, PartialEq, Eq, PartialOrd, Ord)]
pub enum Place {
    Start,
    Slots,
    Shared,
    Private,
    Enums,
    Natives,
    Signatures,
    Chunks,
    Constants,
    Instructions,
    End,
}

impl Place {
    #[tactic(auto, using(crate::proofs::Places::le_is), unfolding(definition::specs::Read::within))]
    fn is_within(self, first: Place, last: Place) -> bool
        ensures { result ≡ within (place_number first) (place_number last) (place_number self) }
    {
        (first..=last).contains(&self)
    }

    // Whether a line of a form may stand here: from one place to another.
    #[tactic(auto, using(crate::specs::Step::kind_op), unfolding(crate::specs::Forms::form_kind))]
    pub fn allows(self, head: Head) -> bool
        ensures { result ≡ within (get_or lows (form_kind (head_number head)) 0) (get_or highs (form_kind (head_number head)) 0) (place_number self) }
    {
        match head {
            Head::Form(Form::Module) => self.is_within(Place::Start, Place::Start),
            Head::Form(Form::SharedSlot | Form::PrivateSlot) => self.is_within(
                Place::Slots,
                Place::Slots,
            ),
            Head::Form(Form::Shared) => self.is_within(Place::Slots, Place::Shared),
            Head::Form(Form::Private) => self.is_within(Place::Slots, Place::Private),
            Head::Form(Form::Enum) => self.is_within(Place::Slots, Place::Enums),
            Head::Form(Form::Native) => self.is_within(Place::Slots, Place::Natives),
            Head::Form(Form::Signature) => self.is_within(Place::Slots, Place::Signatures),
            Head::Form(Form::Chunk) => self.is_within(Place::Slots, Place::Chunks),
            Head::Form(Form::Constant) => self.is_within(Place::Constants, Place::Constants),
            Head::Op(_) => self.is_within(Place::Constants, Place::Instructions),
            Head::Form(Form::Close) => self.is_within(Place::Slots, Place::Instructions),
        }
    }

    // The place after such a line.
    #[tactic(auto, using(crate::specs::Step::kind_op, crate::proofs::Places::le_is), unfolding(crate::specs::Forms::form_kind, crate::specs::Forms::place_after, definition::specs::Basics::choose))]
    pub fn after(self, head: Head) -> Place
        ensures { place_number result ≡ place_after (form_kind (head_number head)) (place_number self) }
    {
        match head {
            Head::Form(Form::Module | Form::SharedSlot | Form::PrivateSlot) => Place::Slots,
            Head::Form(Form::Shared) => Place::Shared,
            Head::Form(Form::Private) => Place::Private,
            Head::Form(Form::Enum) => Place::Enums,
            Head::Form(Form::Native) => Place::Natives,
            Head::Form(Form::Signature) => Place::Signatures,
            Head::Form(Form::Chunk | Form::Constant) => Place::Constants,
            Head::Op(_) => Place::Instructions,
            Head::Form(Form::Close) if Place::Constants <= self => Place::Chunks,
            Head::Form(Form::Close) => Place::End,
        }
    }
}
