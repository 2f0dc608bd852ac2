//! Why a command has no text to write.
ghost use Rattle.std.specs.Prelude.{◌≡◌};
ghost use Rattle.cd_top.specs.Stops.{status_of};

use crate::status::Status;
use cd_base::{LimitKind, Memory};
use cd_grammar::ReadRefusal;
use cd_saturation::Halt;
use cd_syntax::Refusal;
use cd_words::AskFault;
use thiserror::Error;

/// Why a run stops before there is a text to write.
#[derive(Clone, Copy, Debug, PartialEq, Eq, Error)]
pub(crate) enum Stop {
    /// The input is no document: its first fault.
    #[error("{0}")]
    Refused(Refusal),
    /// The words are outside the form.
    #[error("the words ask for no command")]
    Usage,
    /// A maximum was reached: which, and the count that has reached it.
    #[error("the maximum was reached ({0:?}: {1})")]
    Limit(LimitKind, u64),
    /// A read failed.
    #[error("reading failed")]
    ReadFault,
    /// Memory ran out.
    #[error("out of memory")]
    Memory,
}

impl Stop {
    /// The status that the run ends with.
    pub(crate) fn status(self) -> Status
        ensures { result ≡ status_of self }
    {
        match self {
            Stop::Refused(refusal) => Status::Refused(refusal),
            Stop::Usage => Status::Usage,
            Stop::Limit(kind, number) => Status::Limit(kind, number),
            Stop::ReadFault => Status::ReadFault,
            Stop::Memory => Status::Memory,
        }
    }
}

impl From<AskFault> for Stop {
    ghost use Rattle.std.specs.Prelude.{◌≡◌};
    ghost use Rattle.cd_top.specs.Stops.{stop_of_words};

    ghost from_gives = { λ fault stop. stop ≡ stop_of_words fault };

    fn from(fault: AskFault) -> Stop {
        match fault {
            AskFault::Usage => Stop::Usage,
            AskFault::Memory => Stop::Memory,
        }
    }
}

impl From<ReadRefusal> for Stop {
    ghost use Rattle.std.specs.Prelude.{◌≡◌};
    ghost use Rattle.cd_top.specs.Stops.{stop_of_reading};

    ghost from_gives = { λ refusal stop. stop ≡ stop_of_reading refusal };

    fn from(refusal: ReadRefusal) -> Stop {
        match refusal {
            ReadRefusal::Refused(refusal) => Stop::Refused(refusal),
            ReadRefusal::ReadFault => Stop::ReadFault,
            ReadRefusal::Memory => Stop::Memory,
        }
    }
}

impl From<Halt> for Stop {
    ghost use Rattle.std.specs.Prelude.{◌≡◌};
    ghost use Rattle.cd_top.specs.Stops.{stop_of_halt};

    ghost from_gives = { λ halt stop. stop ≡ stop_of_halt halt };

    fn from(halt: Halt) -> Stop {
        match halt {
            Halt::Limit(kind, number) => Stop::Limit(kind, number),
            Halt::Memory => Stop::Memory,
        }
    }
}

impl From<Memory> for Stop {
    ghost use Rattle.std.specs.Prelude.{◌≡◌};
    ghost use Rattle.cd_top.specs.declared.stop.Stop.{Stop};

    ghost from_gives = { λ _ stop. stop ≡ Stop.Memory };

    fn from(_: Memory) -> Stop {
        Stop::Memory
    }
}
