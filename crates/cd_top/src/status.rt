//! How a run ends: the number for the shell, and the line for the notes.
ghost use Rattle.std.specs.Prelude.{◌≡◌};
ghost use Rattle.cd_top.specs.Status.{code_of};

use cd_base::LimitKind;
use cd_syntax::Refusal;

/// How a run ended. Each status but `Done` puts one line on the notes.
#[derive(Clone, Copy, Debug, PartialEq, Eq)]
pub enum Status {
    /// The answer was written and handed on.
    Done,
    /// The input is no document: its first fault.
    Refused(Refusal),
    /// The words are outside the form.
    Usage,
    /// A maximum was reached: which, and the count that has reached it.
    Limit(LimitKind, u64),
    /// A read failed.
    ReadFault,
    /// A write failed. What was written is a front of the answer, or of the summary at a trial.
    WriteFault,
    /// Memory ran out.
    Memory,
}

impl Status {
    /// The number that the process ends with.
    pub fn code(&self) -> u8
        ensures { result ≡ code_of self.now }
    {
        match self {
            Status::Done => 0,
            Status::Refused(_) => 1,
            Status::Usage => 2,
            Status::Limit(_, _) => 3,
            Status::ReadFault => 4,
            Status::WriteFault => 5,
            Status::Memory => 6,
        }
    }
}
