// What the words of a refusal say, which C gives: their order and numbers are those of include/stagecheck.h. They may be any words: what no
// check gives is Unknown. No twins of answer's enums: any words come here, and each case has what its sentence says.
use crate::find::{At, Wanted};
use crate::lines::Sort;

// The names that go with word 0.
pub const NAMES: [&str; 21] = [
    "accepted",
    "CannotFollow",
    "LimitPassed",
    "NotNested",
    "SheetTooShort",
    "StackUnderflow",
    "OffsetOutOfBounds",
    "ExpectedComposite",
    "NewCompositeSizeMismatch",
    "TextFieldMismatch",
    "BranchHeightMismatch",
    "LoopNotNeutral",
    "LoopFloorBreach",
    "LocalTypeMismatch",
    "CallArgMismatch",
    "ArrayStrideMismatch",
    "SharedSlotOutOfBounds",
    "EnumBodySizeMismatch",
    "PrivateCompositeLayoutInvalid",
    "SharedLayoutCountMismatch",
    "BufferTooShort",
];

#[derive(Clone, Copy)]
pub enum Refusal {
    // lines before the one that cannot follow
    CannotFollow(u64),
    LimitPassed(Limit),
    NotNested(At),
    // instructions, the shorter length
    SheetTooShort(u64, u64),
    Height(At, HeightFault),
    Read(At, ReadFault),
    Shape(At, ShapeFault),
    // the entry, counted from 0
    SharedSlotOutOfBounds(u64, Span),
    PrivateCompositeLayoutInvalid(u64, EntryReason),
    SharedLayoutCountMismatch(CountReason),
    // the length needed
    BufferTooShort(u64),
    Unknown,
}

// An instruction meets a wrong number of operands.
#[derive(Clone, Copy)]
pub enum HeightFault {
    StackUnderflow,
    // two heights
    BranchHeightMismatch(u64, u64),
    // at the begin, at the end
    LoopNotNeutral(u64, u64),
    // floor, available, required
    LoopFloorBreach(u64, u64, u64),
}

// An instruction reads a part that is not there.
#[derive(Clone, Copy)]
pub enum ReadFault {
    // end of the read, size
    OffsetOutOfBounds(u64, u64),
    ExpectedComposite,
    // offset
    TextFieldMismatch(u64),
}

// An instruction takes or makes a value of a wrong shape or size.
#[derive(Clone, Copy)]
pub enum ShapeFault {
    // baked, computed
    NewCompositeSizeMismatch(u64, u64),
    // slot
    LocalTypeMismatch(u64),
    // signature, argument
    CallArgMismatch(u64, u64),
    // element, array
    ArrayStrideMismatch(u64, u64),
    // size
    EnumBodySizeMismatch(u64),
}

#[derive(Clone, Copy)]
pub enum Limit {
    Bytes,
    Table,
    Locals,
    Blocks(At),
    Operands(At),
    TextPlaces(At),
    Unknown(u64),
}

// The bytes of a shared entry, and how many shared bytes there are.
#[derive(Clone, Copy)]
pub struct Span {
    pub offset: u64,
    pub size: u64,
    pub buffer: u64,
}

#[derive(Clone, Copy)]
pub enum EntryReason {
    // slot
    NoSlot(u64),
    OutsideThePool,
    // slot
    SlotNotAbove(u64),
    OffsetNotAbove,
    Unknown(u64),
}

#[derive(Clone, Copy)]
pub enum CountReason {
    SharedLate,
    // shared slots, entries
    CountsDiffer(u64, u64),
    Unknown(u64),
}

impl Limit {
    fn of(limit: u64, at: At) -> Self {
        match limit {
            1 => Limit::Bytes,
            2 => Limit::Table,
            3 => Limit::Locals,
            4 => Limit::Blocks(at),
            5 => Limit::Operands(at),
            6 => Limit::TextPlaces(at),
            _ => Limit::Unknown(limit),
        }
    }
}

impl EntryReason {
    fn of(reason: u64, slot: u64) -> Self {
        match reason {
            1 => EntryReason::NoSlot(slot),
            2 => EntryReason::OutsideThePool,
            3 => EntryReason::SlotNotAbove(slot),
            4 => EntryReason::OffsetNotAbove,
            _ => EntryReason::Unknown(reason),
        }
    }
}

impl CountReason {
    fn of(reason: u64, slots: u64, entries: u64) -> Self {
        match reason {
            1 => CountReason::SharedLate,
            2 => CountReason::CountsDiffer(slots, entries),
            _ => CountReason::Unknown(reason),
        }
    }
}

impl From<&[u64; 8]> for Refusal {
    fn from(words: &[u64; 8]) -> Self {
        let [number, chunk, word_2, word_3, word_4, word_5, ..] = *words;
        let at = At {
            chunk,
            instruction: word_2,
        };
        let span = Span {
            offset: word_3,
            size: word_4,
            buffer: word_5,
        };
        match number {
            1 => Refusal::CannotFollow(word_2),
            2 => Refusal::LimitPassed(Limit::of(word_3, at)),
            3 => Refusal::NotNested(at),
            4 => Refusal::SheetTooShort(word_2, word_3),
            5 => Refusal::Height(at, HeightFault::StackUnderflow),
            6 => Refusal::Read(at, ReadFault::OffsetOutOfBounds(word_4, word_5)),
            7 => Refusal::Read(at, ReadFault::ExpectedComposite),
            8 => Refusal::Shape(at, ShapeFault::NewCompositeSizeMismatch(word_3, word_4)),
            9 => Refusal::Read(at, ReadFault::TextFieldMismatch(word_3)),
            10 => Refusal::Height(at, HeightFault::BranchHeightMismatch(word_3, word_4)),
            11 => Refusal::Height(at, HeightFault::LoopNotNeutral(word_3, word_4)),
            12 => Refusal::Height(at, HeightFault::LoopFloorBreach(word_3, word_4, word_5)),
            13 => Refusal::Shape(at, ShapeFault::LocalTypeMismatch(word_3)),
            14 => Refusal::Shape(at, ShapeFault::CallArgMismatch(word_3, word_4)),
            15 => Refusal::Shape(at, ShapeFault::ArrayStrideMismatch(word_3, word_4)),
            16 => Refusal::SharedSlotOutOfBounds(word_2, span),
            17 => Refusal::Shape(at, ShapeFault::EnumBodySizeMismatch(word_3)),
            18 => Refusal::PrivateCompositeLayoutInvalid(word_2, EntryReason::of(word_4, word_3)),
            19 => Refusal::SharedLayoutCountMismatch(CountReason::of(word_4, word_2, word_3)),
            20 => Refusal::BufferTooShort(word_2),
            _ => Refusal::Unknown,
        }
    }
}

impl Refusal {
    // The instruction at fault.
    pub fn at(self) -> Option<At> {
        match self {
            Refusal::NotNested(at)
            | Refusal::Height(at, _)
            | Refusal::Read(at, _)
            | Refusal::Shape(at, _) => Some(at),
            Refusal::LimitPassed(Limit::Blocks(at) | Limit::Operands(at) | Limit::TextPlaces(at)) =>
                Some(at),
            _ => None,
        }
    }

    // The line at fault.
    pub fn wanted(self) -> Option<Wanted> {
        match self {
            Refusal::CannotFollow(lines) => Some(Wanted::Line(lines)),
            Refusal::LimitPassed(Limit::Table) => Some(Wanted::Overfull),
            Refusal::LimitPassed(Limit::Locals) => Some(Wanted::Locals),
            Refusal::SharedSlotOutOfBounds(entry, ..) => Some(Wanted::Entry(Sort::Shared, entry)),
            Refusal::PrivateCompositeLayoutInvalid(entry, ..) => Some(Wanted::Entry(
                Sort::Private,
                entry,
            )),
            Refusal::SharedLayoutCountMismatch(CountReason::SharedLate) => Some(Wanted::SharedLate),
            _ => self.at().map(Wanted::Instruction),
        }
    }
}
