// Why what a record asks for is refused.
ghost use Rattle.std.specs.Prelude.{◌≡◌};
ghost use Rattle.player.specs.Faults.{step_number};
ghost use Rattle.player.specs.declared.fault.StepFault.TheVariants.{Begin, Settle, Abandon, Release, Protect, Touch};

use space::{AbandonFault, BeginFault, ProtectFault, ReleaseFault, SettleFault, TouchFault};

#[derive(Clone, Copy, PartialEq, Eq, Debug)]
pub(crate) enum StepFault {
    Begin(BeginFault),
    Settle(SettleFault),
    Abandon(AbandonFault),
    Release(ReleaseFault),
    Protect(ProtectFault),
    Touch(TouchFault),
}

impl From<BeginFault> for StepFault {
    ghost from_gives = { λ fault step. step ≡ Begin fault };

    fn from(fault: BeginFault) -> StepFault {
        StepFault::Begin(fault)
    }
}

impl From<SettleFault> for StepFault {
    ghost from_gives = { λ fault step. step ≡ Settle fault };

    fn from(fault: SettleFault) -> StepFault {
        StepFault::Settle(fault)
    }
}

impl From<AbandonFault> for StepFault {
    ghost from_gives = { λ fault step. step ≡ Abandon fault };

    fn from(fault: AbandonFault) -> StepFault {
        StepFault::Abandon(fault)
    }
}

impl From<ReleaseFault> for StepFault {
    ghost from_gives = { λ fault step. step ≡ Release fault };

    fn from(fault: ReleaseFault) -> StepFault {
        StepFault::Release(fault)
    }
}

impl From<ProtectFault> for StepFault {
    ghost from_gives = { λ fault step. step ≡ Protect fault };

    fn from(fault: ProtectFault) -> StepFault {
        StepFault::Protect(fault)
    }
}

impl From<TouchFault> for StepFault {
    ghost from_gives = { λ fault step. step ≡ Touch fault };

    fn from(fault: TouchFault) -> StepFault {
        StepFault::Touch(fault)
    }
}

impl From<StepFault> for u32 {
    ghost from_gives = { λ fault n. n ≡ step_number fault };

    #[tactic(auto, using(crate::proofs::Numbers::is_small))]
    fn from(fault: StepFault) -> u32 {
        let number = match fault {
            StepFault::Begin(fault) => u64::from(fault),
            StepFault::Settle(fault) => u64::from(fault),
            StepFault::Abandon(fault) => u64::from(fault),
            StepFault::Release(fault) => u64::from(fault),
            StepFault::Protect(fault) => u64::from(fault),
            StepFault::Touch(fault) => u64::from(fault),
        };
        number as u32
    }
}
