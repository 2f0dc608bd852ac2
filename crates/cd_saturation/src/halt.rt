//! Why a run has no answers.
use cd_base::{LimitKind, Memory};
use cd_core::Stop;
use thiserror::Error;

/// Why a run has no answers.
#[derive(Clone, Copy, Debug, PartialEq, Eq, Error)]
pub enum Halt {
    /// A maximum was reached: which, and the count that has reached it.
    #[error("the maximum was reached ({0:?}: {1})")]
    Limit(LimitKind, u64),
    /// Memory ran out.
    #[error("out of memory")]
    Memory,
}

impl From<Memory> for Halt {
    ghost use Rattle.std.specs.Prelude.{◌≡◌};
    ghost use Rattle.cd_saturation.specs.declared.halt.Halt.{Halt};

    ghost from_gives = { λ _ halt. halt ≡ Halt.Memory };

    fn from(_: Memory) -> Halt {
        Halt::Memory
    }
}

/// The cells of the run are let go of.
impl<A: Drop> From<Stop<A>> for Halt {
    ghost use Rattle.std.specs.Prelude.{◌≡◌};
    ghost use Rattle.cd_saturation.specs.Limit.{halt_of};

    ghost from_gives = { λ stop halt. halt ≡ halt_of stop };

    fn from(stop: Stop<A>) -> Halt {
        match stop {
            Stop::Limit(kind, number, _) => Halt::Limit(kind, number),
            Stop::Memory => Halt::Memory,
        }
    }
}
