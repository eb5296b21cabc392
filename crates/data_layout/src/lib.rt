// The data layout of a module, tested in the order of `validate_data_layout`.
#![tactic(auto)]

ghost use Rattle.std.specs.Prelude.{◌≡◌, length};
ghost use Rattle.std.proofs.Math.Option.{none};
ghost use Rattle.definition.specs.Module.{Header as AnyHeader};
ghost use Rattle.definition.specs.Layout.{shared_prefix, shared_count, count_test, shared_size, shared_fits, shared_test, entry_test, order_test, private_test, layout_test};
ghost use Rattle.bytecode.specs.Lists.{maybe};
ghost use Rattle.bytecode.specs.Meaning.{table_header, slots_of, shareds_of, privates_of, module_of};
ghost use Rattle.bytecode.specs.Parts.{WidthsOf, shared_of, private_of};
ghost use Rattle.answer.specs.Answer.{found_in_none};
ghost use Rattle.data_layout.specs.Answer.{before_of};

use answer::Refusal;
use answer::reason::{PrivateReason, SharedReason};
use bytecode::{PrivateEntry, SharedEntry};
use value_layout::Widths;

// The shared slots before the first private one.
fn prefix_shared(t: &[u64]) -> usize
    ensures { result ≡ shared_prefix (slots_of t.now) }
{
    (0..bytecode::count(t, bytecode::SLOTS))
        .take_while(|&i| bytecode::slot_shared(t, i))
        .count()
}

// All shared slots.
fn total_shared(t: &[u64]) -> usize
    ensures { result ≡ shared_count (slots_of t.now) }
{
    (0..bytecode::count(t, bytecode::SLOTS))
        .filter(|&i| bytecode::slot_shared(t, i))
        .count()
}

fn count_mismatch(t: &[u64]) -> Result<(), Refusal>
    ensures { found_in_none result ≡ count_test (slots_of t.now) (shareds_of t.now) }
{
    let total = total_shared(t);
    let entries = bytecode::count(t, bytecode::SHARED);
    let reason = if prefix_shared(t) != total {
        SharedReason::NotAPrefix
    } else if entries != total {
        SharedReason::CountsDiffer
    } else {
        return Ok(());
    };
    Err(Refusal::SharedLayoutCountMismatch(total as u64, entries as u64, reason))
}

// From this KIND on a shared entry is a composite of LEN bytes.
const FIRST_COMPOSITE: u8 = 128;

// Bytes of a shared entry; a kind that is not known has no size.
fn size_of(widths: Widths, entry: SharedEntry) -> Option<u32>
    ensures { (h : AnyHeader) → WidthsOf h widths → maybe result ≡ shared_size h (shared_of entry) }
{
    match entry.kind {
        FIRST_COMPOSITE.. => Some(u32::from(entry.len)),
        kind if value_layout::is_lacking(widths.float, kind) => None,
        kind => value_layout::is_scalar_tag(kind).then(|| widths.size_in_bytes(kind)),
    }
}

// Shared entry i. The sum is made at 64 bits, where it is exact; where there is no size it is refused with 0 for it.
fn shared_slot(buffer: u32, i: usize, entry: SharedEntry, size: Option<u32>) -> Result<(), Refusal>
    ensures { found_in_none result ≡ shared_fits buffer i (shared_of entry) (maybe size) }
{
    let offset = u64::from(entry.offset);
    let bytes = u64::from(buffer);
    match size {
        Some(n) if offset + u64::from(n) <= bytes => Ok(()),
        _ => Err(Refusal::SharedSlotOutOfBounds(
            i as u64,
            offset,
            u64::from(size.unwrap_or(0)),
            bytes,
        )),
    }
}

fn shared_slots(t: &[u64]) -> Result<(), Refusal>
    ensures { found_in_none result ≡ shared_test (table_header t.now) 0 (shareds_of t.now) }
{
    let buffer = bytecode::header_at(t).shared_bytes;
    let widths = bytecode::widths(t);
    for i in 0..bytecode::count(t, bytecode::SHARED) {
        let entry = bytecode::shared_at(t, i);
        shared_slot(buffer, i, entry, size_of(widths, entry))?;
    }
    Ok(())
}

// Private entry i against all slots and the pool.
fn private_entry(slots: usize, pool: u32, i: usize, entry: PrivateEntry) -> Result<(), Refusal>
    ensures { found_in_none result ≡ entry_test slots pool i (private_of entry) }
{
    let reason = if usize::from(entry.slot) >= slots {
        PrivateReason::NoSlot
    } else if entry.offset >= pool {
        PrivateReason::OutsideThePool
    } else {
        return Ok(());
    };
    Err(Refusal::PrivateCompositeLayoutInvalid(i as u64, u64::from(entry.slot), reason))
}

// Private entry i against the one before, if there is one.
fn private_order(i: usize, before: Option<PrivateEntry>, entry: PrivateEntry) -> Result<(), Refusal>
    ensures { found_in_none result ≡ order_test i (before_of before) (private_of entry) }
{
    let reason = match before {
        Some(before) if entry.slot <= before.slot => PrivateReason::SlotNotAbove,
        Some(before) if entry.offset <= before.offset => PrivateReason::OffsetNotAbove,
        _ => return Ok(()),
    };
    Err(Refusal::PrivateCompositeLayoutInvalid(i as u64, u64::from(entry.slot), reason))
}

fn private_entries(t: &[u64]) -> Result<(), Refusal>
    ensures { found_in_none result ≡ private_test (length (slots_of t.now)) (table_header t.now).pool_bytes 0 none (privates_of t.now) }
{
    let pool = bytecode::header_at(t).pool_bytes;
    let slots = bytecode::count(t, bytecode::SLOTS);
    let mut before = None;
    for i in 0..bytecode::count(t, bytecode::PRIVATE) {
        let entry = bytecode::private_at(t, i);
        private_entry(slots, pool, i, entry)?;
        private_order(i, before, entry)?;
        before = Some(entry);
    }
    Ok(())
}

pub fn validate_data_layout(t: &[u64]) -> Result<(), Refusal>
    ensures { found_in_none result ≡ layout_test (module_of t.now) }
{
    count_mismatch(t)?;
    shared_slots(t)?;
    private_entries(t)
}
