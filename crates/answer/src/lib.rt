// The answer of a call: of the check acceptance, of the writer the length written, of both a refusal with its values.
#![tactic(auto)]

ghost use Rattle.std.specs.Prelude.{◌≡◌, ◌≤◌};
ghost use Rattle.answer.specs.Answer.{numbers, refused_numbers, answer_of, written_of};
ghost use Rattle.answer.specs.Numbers.{values_of, values_of_written, row_of};

pub mod limit;
pub mod reason;

use limit::Limit;
use reason::{PrivateReason, SharedReason};

// A fault, made where it is found: in the order of the numbers of 01, 1 to 19, with the Rust's fields, and of 02, from 20 on. The chunk stands
// beside it.
#[derive(Clone, Copy)]
pub enum Refusal {
    // 1: lines before the one that cannot follow
    CannotFollow(u64),
    // 2: ip, limit
    LimitPassed(u64, Limit),
    // 3: ip
    NotNested(u64),
    // 4: instructions, the shorter length
    SheetTooShort(u64, u64),
    // 5: ip
    StackUnderflow(u64),
    // 6: ip, offset, need, size
    OffsetOutOfBounds(u64, u64, u64, u64),
    // 7: ip
    ExpectedComposite(u64),
    // 8: ip, baked, computed
    NewCompositeSizeMismatch(u64, u64, u64),
    // 9: ip, offset
    TextFieldMismatch(u64, u64),
    // 10: ip, then_height, else_height
    BranchHeightMismatch(u64, u64, u64),
    // 11: ip, entry_height, exit_height
    LoopNotNeutral(u64, u64, u64),
    // 12: ip, floor, available, required
    LoopFloorBreach(u64, u64, u64, u64),
    // 13: ip, slot
    LocalTypeMismatch(u64, u64),
    // 14: ip, callee, arg
    CallArgMismatch(u64, u64, u64),
    // 15: ip, element_size, array_size
    ArrayStrideMismatch(u64, u64, u64),
    // 16: slot, offset, size, buffer
    SharedSlotOutOfBounds(u64, u64, u64, u64),
    // 17: ip, baked
    EnumBodySizeMismatch(u64, u64),
    // 18: index, slot, reason
    PrivateCompositeLayoutInvalid(u64, u64, PrivateReason),
    // 19: shared_slots, layout_len, reason
    SharedLayoutCountMismatch(u64, u64, SharedReason),
    // 20: the length needed
    BufferTooShort(u64),
}

// A refusal with its chunk. 01 says: the chunk, 0 if none.
#[derive(Clone, Copy)]
pub struct Refused {
    pub chunk: u64,
    pub refusal: Refusal,
}

impl From<Refusal> for Refused {
    ghost from_gives = { λ refusal refused. refused ≡ record { chunk = 0; refusal = refusal } };

    fn from(refusal: Refusal) -> Refused {
        Refused { chunk: 0, refusal }
    }
}

// What an acceptance says: the number of chunks and of all instructions.
#[derive(Clone, Copy)]
pub struct Accepted {
    pub chunks: u64,
    pub instructions: u64,
}

// An answer's numbers: as many as count says, and zeros after them. C gives eight words, zeros behind those that count, and their number.
#[derive(Clone, Copy, PartialEq, Eq)]
pub struct Numbers {
    pub count: usize,
    pub words: [u64; 8],
}

// The values, and zeros after them.
fn row<const N: usize>(values: [u64; N]) -> Numbers
    requires { N ≤ 8 }
    ensures { result ≡ row_of values.entry }
{
    let mut words = [0u64; 8];
    words[..N].copy_from_slice(&values);
    Numbers { count: N, words }
}

impl Refusal {
    // Its number, the chunk and its values.
    #[tactic(auto, unfolding(crate::specs::Answer::fields, crate::specs::Answer::with_chunk, crate::specs::Answer::numbers))]
    pub fn numbers(self, k: u64) -> Numbers
        ensures { result ≡ row_of (numbers k self) }
    {
        match self {
            Refusal::CannotFollow(n) => row([1, k, n]),
            Refusal::LimitPassed(p, l) => row([2, k, p, u64::from(l)]),
            Refusal::NotNested(p) => row([3, k, p]),
            Refusal::SheetTooShort(n, l) => row([4, k, n, l]),
            Refusal::StackUnderflow(p) => row([5, k, p]),
            Refusal::OffsetOutOfBounds(p, o, n, s) => row([6, k, p, o, n, s]),
            Refusal::ExpectedComposite(p) => row([7, k, p]),
            Refusal::NewCompositeSizeMismatch(p, b, c) => row([8, k, p, b, c]),
            Refusal::TextFieldMismatch(p, o) => row([9, k, p, o]),
            Refusal::BranchHeightMismatch(p, t, e) => row([10, k, p, t, e]),
            Refusal::LoopNotNeutral(p, e, x) => row([11, k, p, e, x]),
            Refusal::LoopFloorBreach(p, f, a, r) => row([12, k, p, f, a, r]),
            Refusal::LocalTypeMismatch(p, s) => row([13, k, p, s]),
            Refusal::CallArgMismatch(p, c, a) => row([14, k, p, c, a]),
            Refusal::ArrayStrideMismatch(p, e, a) => row([15, k, p, e, a]),
            Refusal::SharedSlotOutOfBounds(s, o, n, b) => row([16, k, s, o, n, b]),
            Refusal::EnumBodySizeMismatch(p, b) => row([17, k, p, b]),
            Refusal::PrivateCompositeLayoutInvalid(i, s, r) => row([18, k, i, s, u64::from(r)]),
            Refusal::SharedLayoutCountMismatch(s, n, r) => row([19, k, s, n, u64::from(r)]),
            Refusal::BufferTooShort(n) => row([20, k, n]),
        }
    }
}

impl From<Refused> for Numbers {
    ghost from_gives = { λ refused numbers. numbers ≡ row_of (refused_numbers refused) };

    fn from(refused: Refused) -> Numbers {
        refused.refusal.numbers(refused.chunk)
    }
}

// 0, chunks and instructions for acceptance, or the refusal's numbers.
impl From<Result<Accepted, Refused>> for Numbers {
    ghost from_gives = { λ answer numbers. numbers ≡ row_of (values_of (answer_of answer)) };

    #[tactic(auto, unfolding(crate::specs::Answer::answer_of, crate::specs::Numbers::values_of))]
    fn from(answer: Result<Accepted, Refused>) -> Numbers {
        match answer {
            Ok(
                Accepted {
                    chunks,
                    instructions,
                },
            ) => row([0, chunks, instructions]),
            Err(refused) => Numbers::from(refused),
        }
    }
}

// 0 and the length written, or the refusal's numbers.
impl From<Result<u64, Refusal>> for Numbers {
    ghost from_gives = { λ written numbers. numbers ≡ row_of (values_of_written (written_of written)) };

    #[tactic(auto, unfolding(crate::specs::Answer::written_of, crate::specs::Numbers::values_of_written))]
    fn from(written: Result<u64, Refusal>) -> Numbers {
        match written {
            Ok(length) => row([0, length]),
            Err(refusal) => refusal.numbers(0),
        }
    }
}
