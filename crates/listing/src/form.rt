// The forms of lines.
ghost use Rattle.std.specs.Prelude.{◌≡◌, ◌++◌, [], get_or};
ghost use Rattle.definition.specs.Read.{line_forms};
ghost use Rattle.theorems.specs.Keys.{keys};
ghost use Rattle.listing.specs.Scan.{form_codes};
ghost use Rattle.listing.specs.Forms.{form_number};

// The forms of all lines but ops.
#[derive(Clone, Copy)]
pub enum Form {
    Module,
    SharedSlot,
    PrivateSlot,
    Shared,
    Private,
    Enum,
    Native,
    Signature,
    Chunk,
    Constant,
    Close,
}

pub static LINES: [Form; 11] = [
    Form::Module,
    Form::SharedSlot,
    Form::PrivateSlot,
    Form::Shared,
    Form::Private,
    Form::Enum,
    Form::Native,
    Form::Signature,
    Form::Chunk,
    Form::Constant,
    Form::Close,
];

impl Form {
    // The text that a line begins with.
    #[tactic(auto, unfolding(theorems::specs::Keys::keys, theorems::specs::Keys::key, definition::specs::Read::line_forms, definition::specs::Format::form, definition::specs::Format::bytes))]
    pub fn text(self) -> &'static [u8]
        ensures { result.now ≡ get_or (keys line_forms) (form_number self) [] }
    {
        match self {
            Form::Module => b"(module",
            Form::SharedSlot => b"(slot shared)",
            Form::PrivateSlot => b"(slot private)",
            Form::Shared => b"(shared",
            Form::Private => b"(private",
            Form::Enum => b"(enum",
            Form::Native => b"(native",
            Form::Signature => b"(sig",
            Form::Chunk => b"(chunk",
            Form::Constant => b"(const",
            Form::Close => b")",
        }
    }

    // What follows it: a code for each value, as `sort` has them, and the text after the values.
    #[tactic(auto, unfolding(theorems::specs::Keys::keys, theorems::specs::Keys::key, definition::specs::Read::line_forms, definition::specs::Format::form, definition::specs::Format::bytes, crate::specs::Scan::form_codes, crate::specs::Scan::codes, crate::specs::Scan::max_code, crate::specs::Scan::among_code, definition::specs::Basics::choose, definition::specs::Basics::is_member))]
    pub fn codes(self) -> &'static [u8]
        ensures { get_or (keys line_forms) (form_number self) [] ++ result.now ≡ get_or (form_codes line_forms) (form_number self) [] }
    {
        match self {
            Form::Module => b"\x83\x88\x84\x82\x82\x81\x81",
            Form::Shared => b"\x82\x80\x81)",
            Form::Private => b"\x81\x82)",
            Form::Enum => b"\x82)",
            Form::Native => b"\x8c)",
            Form::Signature => b"\x8c\x8c\x8d)",
            Form::Chunk => b"\x81",
            Form::Constant => b"\x85)",
            _ => b"",
        }
    }
}
