//! The commands: one that classifies an ontology, from the bytes of a document to the bytes of its answer, and one that tries this on a
//! document made by rule.
//!
//! `run` is all that a program has to call. A caller that has limits of its own calls `classify_here`.
//!
//! The road of a document, by modules: `cd_grammar` reads it, `cd_saturation` has the superclasses of each class, and `answer` has
//! `cd_taxonomy` write the text. `commands` has a file a command, each a function to the bytes that are to be written: `classify` reads and
//! answers, and `trial` takes the same road with the document that `cd_gen` makes, up to the taxonomy, to its summary. `conclude` is the
//! one place that writes them, and `notes` puts a line on the notes. `stop` has why there may be none, and `status` the ways in which a
//! run ends. `command` has `cd_words` look at the words before all this. `laws` says of the definitions that an answer is a document that
//! says the same as the input.
//!
//! Nothing is written before the whole answer is there. So the output is as it was where the input is refused, a read fails or
//! memory runs out, and after a write that failed it has a front of the one right text, never a part of another.
//!
//! Each status has its cause. `ReadFault` and `WriteFault` come only where the stream's count of faults rose in this run, `Refused`
//! only where the input is too long or has that first fault, `Limit` only where the contexts of the document, or their facts, are as
//! many as a maximum, and `Usage` exactly where the words are outside the form. So an accepted document that reaches no maximum is
//! answered where no fault rose, unless memory runs out: of `Memory` alone the contracts name no cause. A trial leaves the input as it
//! was, and ends with neither `Refused` nor `ReadFault`.
//!
//! Its tests are in `cd_runs`.
#![tactic(auto)]

mod answer;
mod command;
mod commands;
mod conclude;
mod laws;
mod notes;
mod status;
mod stop;

pub use command::run;
pub use commands::classify::classify_here;
pub use laws::{
    answer_is_restated, has_one_text, is_below_in_every_structure, names_are_answered,
    same_have_same_answer,
};
pub use status::Status;
