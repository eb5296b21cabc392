// What a refusal says after its name: one sentence.
use crate::counted::Counted;
use crate::find::{Place, find};
use crate::floats;
use crate::refusal::{
    CountReason, EntryReason, HeightFault, Limit, ReadFault, Refusal, ShapeFault, Span,
};
use std::fmt;
use std::fmt::Write;

fn bytes(count: u64) -> Counted {
    Counted(count, "byte")
}

fn operands(count: u64) -> Counted {
    Counted(count, "operand")
}

impl fmt::Display for HeightFault {
    fn fmt<W: fmt::Write>(&self, f: &mut fmt::Formatter<W>) -> fmt::Result {
        match *self {
            HeightFault::StackUnderflow => f.write_str(
                "this instruction needs more operands than there are",
            ),
            HeightFault::BranchHeightMismatch(one, other) => write!(
                f,
                "one way out of this block leaves {}, another leaves {other}",
                operands(one)
            ),
            HeightFault::LoopNotNeutral(begin, end) => write!(
                f,
                "the body of this loop begins with {} and ends with {end}",
                operands(begin)
            ),
            HeightFault::LoopFloorBreach(floor, available, required) => write!(
                f,
                "the loop began with {} and may take none of these; this instruction finds {available} and needs {required}",
                operands(floor)
            ),
        }
    }
}

impl fmt::Display for ReadFault {
    fn fmt<W: fmt::Write>(&self, f: &mut fmt::Formatter<W>) -> fmt::Result {
        match *self {
            ReadFault::OffsetOutOfBounds(end, size) => write!(
                f,
                "the read ends at byte {end} of a composite of {}",
                bytes(size)
            ),
            ReadFault::ExpectedComposite => f.write_str(
                "this reads a part of a composite, but its operand is a scalar",
            ),
            ReadFault::TextFieldMismatch(offset) => write!(
                f,
                "a text is read at byte {offset}, where the composite has none"
            ),
        }
    }
}

impl fmt::Display for ShapeFault {
    fn fmt<W: fmt::Write>(&self, f: &mut fmt::Formatter<W>) -> fmt::Result {
        match *self {
            ShapeFault::NewCompositeSizeMismatch(baked, computed) => write!(
                f,
                "the new composite says {}, but its operands have {computed}",
                bytes(baked)
            ),
            ShapeFault::LocalTypeMismatch(slot) => write!(
                f,
                "local {slot} is a parameter; the value stored in it has another shape than the signature says"
            ),
            ShapeFault::CallArgMismatch(signature, argument) => write!(
                f,
                "argument {argument} has another shape than signature {signature} says (both are counted from 0)"
            ),
            ShapeFault::ArrayStrideMismatch(element, array) => write!(
                f,
                "an array of {} has no whole number of elements of {}",
                bytes(array),
                bytes(element)
            ),
            ShapeFault::EnumBodySizeMismatch(size) => write!(
                f,
                "a new enum of {} fits no enum line: it has the bytes of a word and MIN more",
                bytes(size)
            ),
        }
    }
}

impl fmt::Display for EntryReason {
    fn fmt<W: fmt::Write>(&self, f: &mut fmt::Formatter<W>) -> fmt::Result {
        match *self {
            EntryReason::NoSlot(slot) => write!(f, "there is no slot {slot}"),
            EntryReason::OutsideThePool => f.write_str(
                "the offset of this entry is outside the persistent pool",
            ),
            EntryReason::SlotNotAbove(slot) => write!(
                f,
                "slot {slot} is not above the slot of the entry before"
            ),
            EntryReason::OffsetNotAbove => f.write_str(
                "the offset of this entry is not above that of the entry before",
            ),
            EntryReason::Unknown(reason) => write!(f, "this check knows no reason {reason}"),
        }
    }
}

impl fmt::Display for CountReason {
    fn fmt<W: fmt::Write>(&self, f: &mut fmt::Formatter<W>) -> fmt::Result {
        match *self {
            CountReason::SharedLate => f.write_str(
                "a shared slot stands after a private one, and all shared slots come first",
            ),
            CountReason::CountsDiffer(slots, entries) => write!(
                f,
                "{}, but {} `(shared OFFSET KIND LEN)`; each shared slot needs one",
                Counted(slots, "shared slot"),
                Counted(entries, "line")
            ),
            CountReason::Unknown(reason) => write!(f, "this check knows no reason {reason}"),
        }
    }
}

// A refusal, and the line of the listing at fault.
#[derive(Clone, Copy)]
pub struct Refused<'a> {
    pub refusal: Refusal,
    pub place: Option<Place<'a>>,
    listing: &'a [u8],
}

impl<'a> Refused<'a> {
    pub fn new(listing: &'a [u8], words: &[u64; 8]) -> Self {
        let refusal = Refusal::from(words);
        let place = refusal.wanted().and_then(|wanted| find(listing, wanted));
        Refused {
            refusal,
            place,
            listing,
        }
    }

    fn put_cannot_follow<W: fmt::Write>(
        &self,
        f: &mut fmt::Formatter<W>,
        before: u64,
    ) -> fmt::Result {
        let lines_before = Counted(before, "line");
        let Some(Place { line, .. }) = self.place else {
            return write!(
                f,
                "the listing ends after {lines_before}, before the `)` that closes the module"
            );
        };
        if !line.is_printable() {
            f.write_str(
                "a byte of this line, shown as `?`, may not stand in a listing; a line ends with a line feed alone",
            )
        } else if !line.has_line_feed() {
            f.write_str(
                "the listing ends within this line, and each line has to end with a line feed",
            )
        } else if before == 0 {
            f.write_str("the first line has to be `(module W F A S P I H`, with numbers that fit")
        } else if floats::is_op(self.listing, line.rest) {
            f.write_str("no op may name kind 5, the float, where the first line says F 0")
        } else {
            write!(
                f,
                "this line cannot follow the {lines_before} before it: its form, a number in it or its place is wrong"
            )
        }
    }

    fn put_overfull<W: fmt::Write>(&self, f: &mut fmt::Formatter<W>) -> fmt::Result {
        if self
            .place
            .is_some_and(|place| place.line.has_parameters_over())
        {
            return f.write_str("a signature has at most 16 parameters");
        }
        match self.place.and_then(|place| place.line.sort.room()) {
            Some(room) => write!(
                f,
                "a listing has at most {room} lines that begin with this word"
            ),
            None => f.write_str("a listing has too many lines of one form"),
        }
    }

    fn put_limit<W: fmt::Write>(&self, f: &mut fmt::Formatter<W>, limit: Limit) -> fmt::Result {
        match limit {
            Limit::Bytes => f.write_str("the listing has more than 65,536 bytes"),
            Limit::Table => self.put_overfull(f),
            Limit::Locals => f.write_str("a chunk has at most 32 locals"),
            Limit::Blocks(_) => f.write_str(
                "this opens a ninth block, and at most 8 may be open at once",
            ),
            Limit::Operands(_) => f.write_str(
                "after this instruction there are more than 64 operands",
            ),
            Limit::TextPlaces(_) => f.write_str(
                "the new composite has texts at more than 16 places",
            ),
            Limit::Unknown(limit) => write!(f, "this check knows no limit {limit}"),
        }
    }

    // Where the entry ends in time its kind is at fault. Of an entry that is not there the listing's begin is looked at.
    fn put_shared_entry<W: fmt::Write>(
        &self,
        f: &mut fmt::Formatter<W>,
        span: Span,
    ) -> fmt::Result {
        let Span {
            offset,
            size,
            buffer,
        } = span;
        let entry = self.place.map_or(self.listing, |place| place.line.rest);
        if floats::is_entry(self.listing, entry) {
            f.write_str("the KIND of this entry is 5, the float, and the first line says F 0")
        } else if size == 0 && offset <= buffer {
            f.write_str(
                "the KIND of this entry is neither that of a scalar nor that of a composite",
            )
        } else {
            let shared = Counted(buffer, "shared byte");
            write!(
                f,
                "this entry has {} from byte {offset} on, and there are {shared}",
                bytes(size)
            )
        }
    }
}

impl fmt::Display for Refused<'_> {
    fn fmt<W: fmt::Write>(&self, f: &mut fmt::Formatter<W>) -> fmt::Result {
        match self.refusal {
            Refusal::CannotFollow(before) => self.put_cannot_follow(f, before),
            Refusal::LimitPassed(limit) => self.put_limit(f, limit),
            Refusal::NotNested(_) => f.write_str(
                "this instruction does not fit the blocks around it: its place or its target is wrong",
            ),
            Refusal::SheetTooShort(count, length) => {
                let instructions = Counted(count, "instruction");
                write!(
                    f,
                    "each of {instructions} needs an entry in both sheets, and the shorter sheet has {length}"
                )
            }
            Refusal::Height(_, fault) => write!(f, "{fault}"),
            Refusal::Read(_, fault) => write!(f, "{fault}"),
            Refusal::Shape(_, fault) => write!(f, "{fault}"),
            Refusal::SharedSlotOutOfBounds(_, span) => self.put_shared_entry(f, span),
            Refusal::PrivateCompositeLayoutInvalid(_, reason) => write!(f, "{reason}"),
            Refusal::SharedLayoutCountMismatch(reason) => write!(f, "{reason}"),
            Refusal::BufferTooShort(needed) => write!(
                f,
                "the buffer is shorter than the listing, which needs {}",
                bytes(needed)
            ),
            Refusal::Unknown => f.write_str("this check knows no such refusal"),
        }
    }
}
