ghost use Rattle.std.specs.Prelude.{◌≡◌, ◌↔◌, IsTrue};

use crate::code::Code;
use crate::part::Part;

// An open block: where its first arm ends, where it closes, and the target of the innermost loop that is open in it, if there is one.
#[derive(Clone, Copy)]
pub(crate) struct Open {
    pub(crate) middle: u16,
    pub(crate) closer: u16,
    pub(crate) target: Option<u16>,
}

// What an instruction does to the stack of open blocks.
#[derive(Clone, Copy)]
pub(crate) enum Step {
    Stay,
    Pop,
    Push(Open),
}

// An instruction's place in a chunk, and the innermost block that is open there; where none is open the whole chunk stands for one.
#[derive(Clone, Copy)]
pub(crate) struct Place<'a> {
    pub(crate) code: &'a Code<'a>,
    pub(crate) inner: Open,
    pub(crate) at: u16,
}

// Of an instruction that breaks its rule there is no block and no step.
impl Place<'_> {
    ghost use Rattle.nesting.specs.Blocks.{Fits};
    ghost use Rattle.nesting.specs.Steps.{Right, RightTwo, RightOne, RightIf, RightLoop, Closes};

    // Whether q lies before the end of the block's arm that holds this place.
    fn holds(&self, q: u16) -> bool
        ensures { IsTrue result ↔ Fits self.now.at self.now.inner.middle self.now.inner.closer q }
    {
        if self.at < self.inner.middle {
            q < self.inner.middle
        } else {
            q < self.inner.closer
        }
    }

    // Whether q lies there, and has this part.
    fn ends(&self, part: Part, q: u16) -> bool
        ensures { IsTrue result ↔ Closes self.now part q }
    {
        self.code.part_at(q) == part && self.holds(q)
    }

    // The block of an If whose Else stands at `middle` and leads to `closer`.
    fn two_arms(&self, middle: u16, closer: u16) -> Option<Open>
        ensures { RightTwo self.now middle closer result }
    {
        (middle < closer && self.ends(Part::EndIf, closer)).then_some(Open {
            middle,
            closer,
            ..self.inner
        })
    }

    // The block of an If without an Else.
    fn one_arm(&self, closer: u16) -> Option<Open>
        ensures { RightOne self.now closer result }
    {
        self.ends(Part::EndIf, closer).then_some(Open {
            middle: closer,
            closer,
            ..self.inner
        })
    }

    fn if_block(&self, target: u16) -> Option<Open>
        ensures { RightIf self.now target result }
    {
        if target <= self.at {
            return None;
        }
        let middle = target - 1;
        match self.code.part_at(middle) {
            Part::Else(closer) => self.two_arms(middle, closer),
            _ => self.one_arm(target),
        }
    }

    fn loop_block(&self, target: u16) -> Option<Open>
        ensures { RightLoop self.now target result }
    {
        if self.at >= target {
            return None;
        }
        let closer = target - 1;
        self.ends(Part::EndLoop, closer).then_some(Open {
            middle: closer,
            closer,
            target: Some(target),
        })
    }

    pub(crate) fn step(&self) -> Option<Step>
        ensures right { Right self.now.code.now self.now.inner self.now.at result }
        ensures pops_at_closer { result ≡ Some Step.Pop → self.now.inner.closer ≡ self.now.at }
    {
        let Open {
            middle,
            closer,
            target: around,
        } = self.inner;
        match self.code.part_at(self.at) {
            Part::Other => Some(Step::Stay),
            Part::If(target) => self.if_block(target).map(Step::Push),
            Part::Else(_) => (middle == self.at).then_some(Step::Stay),
            Part::EndIf | Part::EndLoop => (closer == self.at).then_some(Step::Pop),
            Part::Loop(target) => self.loop_block(target).map(Step::Push),
            Part::Break(target) => (around == Some(target)).then_some(Step::Stay),
        }
    }
}
