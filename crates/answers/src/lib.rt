// What a call tells beside its refusal, so that a host needs no word of its state for it.
#![tactic(auto)]

ghost use Rattle.std.specs.Prelude.{◌≡◌};
ghost use Rattle.answers.specs.Told.{tells};

// 01's number of the refusal, 0 where the call is done; and what the call says it did, 0 where it is refused.
#[repr(C)]
#[derive(Clone, Copy)]
pub struct HuskTold {
    pub refusal: u8,
    pub told: u8,
}

pub fn told(refusal: u8, told: u8) -> HuskTold
    ensures { result ≡ tells refusal told }
{
    HuskTold {
        refusal: refusal,
        told: told,
    }
}
