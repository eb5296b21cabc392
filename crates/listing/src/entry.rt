// A line that is read: how it begins, and its values.
ghost use Rattle.std.specs.Prelude.{◌≡◌, List, ◌∷◌, [], ◌++◌, ℕ};

use crate::MOST_VALUES;
use crate::form::Form;
use bytecode::ops::Row;

// The values of a line, from place 1 on, and how many there are: 19 for more than 18, of which 18 are kept. The 19th is not kept, but has to be known:
// it makes limit 2, which comes after all tests of the line's form. No vector of fixed room: the words are the row as it goes into the table, with
// place 0 for its first word, and a vector would be copied into it.
#[derive(Clone, Copy)]
pub struct Values {
    pub count: usize,
    pub words: [u64; bytecode::WORDS],
}

impl Values {
    ghost use Rattle.listing.specs.Stored.{Stored};

    pub fn new() -> Values
        ensures { Stored result [] }
    {
        Values {
            count: 0,
            words: [0; bytecode::WORDS],
        }
    }

    pub fn push(&mut self, value: u64)
        ensures { (vs : List ℕ) → Stored self.old vs → Stored self.new (vs ++ value ∷ []) }
    {
        if self.count < MOST_VALUES {
            self.count += 1;
            self.words[self.count] = value;
        } else {
            self.count = MOST_VALUES + 1;
        }
    }
}

// How a line begins: with the text of a form, or as an op, with the name of a row.
#[derive(Clone, Copy)]
pub enum Head {
    Form(Form),
    Op(Row),
}

impl Head {
    ghost use Rattle.std.specs.Prelude.{◌≡◌, ◌<◌, MatchOption};
    ghost use Rattle.listing.specs.Forms.{form_kind, head_number};

    // The table in which such a line stands; the closing line stands in none.
    #[tactic(auto, using(crate::specs::Step::kind_op), unfolding(crate::specs::Forms::form_kind))]
    pub(crate) fn table(self) -> Option<usize>
        ensures { MatchOption result (form_kind (head_number self) ≡ 10) (λ k. (k ≡ form_kind (head_number self)) × (k < 10)) }
    {
        match self {
            Head::Form(Form::Module) => Some(bytecode::HEADER),
            Head::Form(Form::SharedSlot | Form::PrivateSlot) => Some(bytecode::SLOTS),
            Head::Form(Form::Shared) => Some(bytecode::SHARED),
            Head::Form(Form::Private) => Some(bytecode::PRIVATE),
            Head::Form(Form::Enum) => Some(bytecode::ENUMS),
            Head::Form(Form::Native) => Some(bytecode::NATIVES),
            Head::Form(Form::Signature) => Some(bytecode::SIGNATURES),
            Head::Form(Form::Chunk) => Some(bytecode::CHUNKS),
            Head::Form(Form::Constant) => Some(bytecode::CONSTANTS),
            Head::Op(_) => Some(bytecode::INSTRUCTIONS),
            Head::Form(Form::Close) => None,
        }
    }
}

#[derive(Clone, Copy)]
pub struct Entry {
    pub head: Head,
    pub values: Values,
}
