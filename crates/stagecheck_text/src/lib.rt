// From a listing to the text that the program `stagecheck` prints for it.
#![tactic(auto)]

ghost use Rattle.definition.specs.Printed.{printed};
ghost use Rattle.printed.specs.Writes.{Holds};

use answer::Numbers;
use printed::ROOM;
use typed_check::SHEET;

// With lent tables, whatever they hold.
fn check_text_into(listing: &[u8], t: &mut [u64; bytecode::SIZE], out: &mut [u8; ROOM]) -> usize
    ensures { Holds out.new result (printed listing.now) }
{
    let mut heights = [0u8; SHEET];
    let mut blinds = [0u8; SHEET];
    match typed_check::check_into(listing, t, &mut heights, &mut blinds) {
        Ok(_) => printed::print_accepted(t, &heights, &blinds, out),
        Err(refused) => {
            let Numbers { count, words } = Numbers::from(refused);
            printed::print_refused(&words[..count], out)
        }
    }
}

// 01, "Printed by the program `stagecheck`": the text for any bytes. Answers how many bytes of `out` it has; what follows them is not said.
pub fn check_text(listing: &[u8], out: &mut [u8; ROOM]) -> usize
    ensures { Holds out.new result (printed listing.now) }
{
    let mut tables = [0u64; bytecode::SIZE];
    check_text_into(listing, &mut tables, out)
}
