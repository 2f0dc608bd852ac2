//! Requests: a command, and the limits under which it is to run.
use cd_base::Limits;
use thiserror::Error;

/// What the program is to do.
#[derive(Clone, Copy, Debug, PartialEq, Eq)]
pub enum Command {
    /// Classifies the document on the input.
    Classify,
    /// Classifies the generated document of this size, from 1 to 20,000.
    Trial(u32),
}

/// A command, and the limits under which it is to run.
#[derive(Clone, Copy, Debug, PartialEq, Eq)]
pub struct Ask {
    pub command: Command,
    pub limits: Limits,
}

/// Why words ask for nothing.
#[derive(Clone, Copy, Debug, PartialEq, Eq, Error)]
pub enum AskFault {
    /// The words are outside the form.
    #[error("the words ask for no command")]
    Usage,
    /// Memory ran out, at words of the form.
    #[error("out of memory")]
    Memory,
}
