// Where the walk is at an instruction that does not simply lead onward.
ghost use Rattle.std.specs.Prelude.{◌<◌};

use frame::Floor;
use rules::Context;

// The instruction at ip of the chunk under check, the place that its first operand names, and the floor of what is walked there: of the stretch in which it stands or, in the last
// pass over a loop, of the loop's body. It is lent, and made by its four fields where the walk comes to the instruction.
#[derive(Clone, Copy)]
pub struct Visit<'a, 'b> {
    pub x: &'a Context<'b>,
    pub ip: usize,
    pub target: usize,
    pub floor: Floor,
    ghost inside: { ip < x.now.code.count },
}
