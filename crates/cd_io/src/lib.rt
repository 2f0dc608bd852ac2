//! Bytes in and out, and their faults.
//!
//! All that the program reads comes from a `Source`, and all that it writes goes to a `Sink`. Their contracts say which bytes came
//! and went, whether the end was found and whether the bytes were handed on, so a contract above can speak of a whole run by the
//! bytes before it and after it.
//!
//! An error is one word, `Failed`, and each stream counts its faults beside it. The count lets a contract say *when* a failure may
//! be told: where the count rose in this call, and nowhere else. It rose where it is greater than at entry, or stood at the last u64
//! already. So no call above can give up with a fault of its own making.
//!
//! `ReadSource` and `WriteSink` make a source of any reader of std, and a sink of any writer. `MemSource` and `MemSink` lie in
//! memory, give and take a piece at a time, and fail at just the calls that they are told: a test reaches each fault by its number.
//! `write_all` stands here because std's says nothing of what is out when it fails.
//!
//! What the outside does no contract can say: where a source or a sink does not tell its bytes, its clauses hold of nothing but
//! counts and flags. `specs/Streams.antt` and `specs/Causes.antt` have the words that the contracts use.
//!
//! Its tests are in `cd_calls`.
#![tactic(auto)]

mod adapters;
mod memory_sink;
mod memory_source;
mod streams;
mod writing;

pub use adapters::{ReadSource, WriteSink};
pub use memory_sink::MemSink;
pub use memory_source::MemSource;
pub use streams::{Failed, Sink, Source, WriteFault};
pub use writing::write_all;
