// What the table of op names says, by the row of a name.
ghost use Rattle.std.specs.Prelude.{◌<◌};

use super::ROWS;
use super::rows::{OPS, Op};

// The row of a name: the op's code, and no code is as large as the number of rows.
#[derive(Clone, Copy)]
pub struct Row {
    pub number: usize,
    ghost low: { number < 75 },
}

impl Row {
    ghost use Rattle.std.specs.Prelude.{◌≡◌, ◌≤◌, length, get_or, MatchOption};
    ghost use Rattle.bytecode.specs.Meaning.{maxima_of};
    ghost use Rattle.bytecode.specs.Names.{name_at, plain_need, plain_net, told};

    // The row of a code, where there is such a code.
    pub fn of_code(code: usize) -> Option<Row>
        ensures { MatchOption result (75 ≤ code) (λ row. row.number ≡ code) }
    {
        if code < ROWS {
            Some(Row { number: code })
        } else {
            None
        }
    }

    // The table is a static: what it says of the row is read where it stands.
    #[tactic(auto, using(crate::proofs::Table::op_is))]
    pub(super) fn op(self) -> &'static Op
        ensures { result.now ≡ told self.number }
    {
        &OPS[self.number]
    }

    // The largest numbers of its operands.
    #[tactic(auto, using(crate::proofs::Table::three_all, crate::proofs::Table::three_long, crate::proofs::Table::maxima_few), unfolding(crate::specs::Names::told))]
    pub fn maxima(self) -> &'static [u64]
        ensures { result.now ≡ maxima_of self.number }
    {
        let op = self.op();
        &op.maxima[..usize::from(op.operands)]
    }

    // The largest number that operand j may be; 0 where there is none.
    #[tactic(auto, using(crate::proofs::Table::three_at, crate::proofs::Table::largest_small), unfolding(crate::specs::Names::told))]
    pub fn maximum(self, j: usize) -> u64
        requires { j < 3 }
        ensures value { result ≡ get_or (maxima_of self.number) j 0 }
        ensures fits { result < 4294967296 }
    {
        self.op().maxima[j]
    }

    #[tactic(auto, unfolding(crate::specs::Names::told, crate::specs::Names::packed_of))]
    pub fn name_length(self) -> usize
        ensures { result ≡ length (name_at self.number) }
    {
        self.op().name.length
    }

    // Letter j of the name. A packed word has its first letter lowest.
    #[tactic(auto, using(crate::proofs::Names::name_short, crate::proofs::Names::name_letter, crate::proofs::Table::word_at), unfolding(crate::specs::Names::told, crate::specs::Names::packed_of))]
    pub fn name_letter(self, j: usize) -> u8
        requires { j < length (name_at self.number) }
        ensures { result ≡ get_or (name_at self.number) j 0 }
    {
        let word = self.op().name.words[j / 8];
        ((word >> (8 * (j % 8))) % 256) as u8
    }

    // What a plain name needs.
    #[tactic(auto, unfolding(crate::specs::Names::told))]
    pub fn plain_need(self) -> u8
        ensures { result ≡ plain_need self.number }
    {
        self.op().need
    }

    // The net change of the height by a plain name.
    #[tactic(auto, unfolding(crate::specs::Names::told))]
    pub fn plain_net(self) -> i8
        ensures { result ≡ plain_net self.number }
    {
        self.op().net
    }
}
