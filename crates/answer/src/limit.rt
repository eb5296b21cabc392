ghost use Rattle.std.specs.Prelude.{◌≡◌};
ghost use Rattle.answer.specs.Codes.{limit_number};

// The limits of refusal 2.
#[derive(Clone, Copy)]
pub enum Limit {
    Bytes,
    Table,
    Locals,
    Blocks,
    Operands,
    Places,
}

impl From<Limit> for u64 {
    ghost from_gives = { λ limit number. number ≡ limit_number limit };

    fn from(limit: Limit) -> u64 {
        match limit {
            Limit::Bytes => 1,
            Limit::Table => 2,
            Limit::Locals => 3,
            Limit::Blocks => 4,
            Limit::Operands => 5,
            Limit::Places => 6,
        }
    }
}
