//! Runs over cells: messages are delivered, one at a time, until none pends or a limit is reached.
//!
//! A `Core` has cells that know nothing of each other, and the messages that pend. A step takes one of these out, whichever the caller
//! likes, and delivers it to its cell (`turn`), which may append messages to what pends. `finish` delivers the oldest until nothing
//! pends, and stops where the sum of the contexts or of the facts of the cells has reached its maximum. A core is made of cells that may
//! have come far already: what they owe each other and have not is found anew, so that cells alone can be kept and resumed.
//!
//! What a message is and why a run ends are left to the laws of `Actor`: a message that a cell had changes nothing and sends nothing, and
//! one that it had not makes a count rise. A core keeps that each message that is owed is had or pends (`specs/State.antt`). So where
//! nothing pends, all that is owed is had, in whichever order the messages were delivered (`laws`).
//!
//! Its tests stand in `cd_sample`: cores over cells of numbers, and over those of the engine.
#![tactic(auto)]

mod cores;
mod laws;
mod stops;
mod turn;

pub use cores::Core;
pub use laws::every_order;
pub use stops::{Step, Stop};
