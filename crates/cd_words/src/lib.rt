//! The words of the command line, and what they ask.
//!
//! `ask` reads them with `clap`, as one simple command: four options, and words of their own. What `clap` takes is wider than the form of
//! the words (`specs/Form.antt`): it takes an option twice, any text as a value, any words of their own, and `--`. So `ask` narrows it.
//!
//! - `numeral` reads numerals, and `setting` has the options by their names.
//! - `heard` goes over the words once, and keeps what they ask so far: a number of each option, and the words of their own. It takes no
//!   memory. So `form` tests the words before `clap` asks for memory, and want of memory never hides that words are outside the form.
//! - `command_line` has the command for `clap`, and reads off what it found.
//! - `form` makes the request of that: the command, and limits in their ranges.
//!
//! That the words are of the form exactly where `heard` takes them, and that `clap` takes those and finds in them what was heard, is
//! proved on the contract of `ask`.
//!
//! Its tests are in `cd_calls`.
#![tactic(auto)]

mod command_line;
mod form;
mod heard;
mod numeral;
mod request;
mod setting;

pub use form::ask;
pub use request::{Ask, AskFault, Command};
