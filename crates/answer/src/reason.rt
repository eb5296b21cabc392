ghost use Rattle.std.specs.Prelude.{◌≡◌};
ghost use Rattle.answer.specs.Codes.{private_number, shared_number};

// The reasons of refusal 18.
#[derive(Clone, Copy)]
pub enum PrivateReason {
    NoSlot,
    OutsideThePool,
    SlotNotAbove,
    OffsetNotAbove,
}

impl From<PrivateReason> for u64 {
    ghost from_gives = { λ reason number. number ≡ private_number reason };

    fn from(reason: PrivateReason) -> u64 {
        match reason {
            PrivateReason::NoSlot => 1,
            PrivateReason::OutsideThePool => 2,
            PrivateReason::SlotNotAbove => 3,
            PrivateReason::OffsetNotAbove => 4,
        }
    }
}

// The reasons of refusal 19.
#[derive(Clone, Copy)]
pub enum SharedReason {
    NotAPrefix,
    CountsDiffer,
}

impl From<SharedReason> for u64 {
    ghost from_gives = { λ reason number. number ≡ shared_number reason };

    fn from(reason: SharedReason) -> u64 {
        match reason {
            SharedReason::NotAPrefix => 1,
            SharedReason::CountsDiffer => 2,
        }
    }
}
