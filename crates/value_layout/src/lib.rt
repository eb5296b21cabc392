// Widths of values: the bytes of a scalar of each kind, the tags that are known, and the bytes of an address.
#![tactic(auto)]

ghost use Rattle.std.specs.Prelude.{◌≡◌, ◌≤◌, ◌/◌, ◌^◌, leb};
ghost use Rattle.definition.specs.Shapes.{is_lacking};
ghost use Rattle.value_layout.specs.Sizes.{width_of};

pub mod composite;
pub mod scalar;

// Bytes of a word, of a float and of an address.
#[derive(Clone, Copy)]
pub struct Widths {
    pub word: u8,
    pub float: u8,
    pub address: u8,
}

impl Widths {
    // Bytes of a scalar of a kind; a kind that is not known has none. Without floats theirs is not known either: who may meet it asks is_lacking first.
    #[tactic(auto, unfolding(definition::specs::Shapes::scalar_widths))]
    pub fn size_in_bytes(self, kind: u8) -> u32
        ensures { result ≡ width_of self kind }
    {
        match kind {
            scalar::BOOL | scalar::BYTE => 1,
            scalar::INT | scalar::FIXED => u32::from(self.word),
            scalar::FLOAT => u32::from(self.float),
            scalar::TEXT => 2 * u32::from(self.word),
            scalar::OPAQUE => u32::from(self.address),
            _ => 0,
        }
    }
}

// Whether a tag is that of a scalar kind.
pub fn is_scalar_tag(tag: u8) -> bool
    ensures { result ≡ leb tag 7 }
{
    tag <= scalar::OPAQUE
}

// Whether a module lacks a kind of scalar, from the bytes of its float: without floats their kind is a tag not known.
#[tactic(auto, unfolding(definition::specs::Shapes::is_lacking))]
pub fn is_lacking(float: u8, kind: u8) -> bool
    ensures { result ≡ is_lacking float kind }
{
    float == 0 && kind == scalar::FLOAT
}

// Whether a tag is that of a composite kind.
pub fn is_composite_tag(tag: u8) -> bool
    ensures { result ≡ leb tag 3 }
{
    tag <= composite::ENUM
}

// Bytes of an address, from the base-two logarithm of its bits.
pub fn address_bytes(log: u8) -> u8
    requires { log ≤ 6 }
    ensures { result ≡ 2 ^ log / 8 }
{
    (1 << log) / 8
}
