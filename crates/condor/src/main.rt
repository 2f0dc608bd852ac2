//! condor, the program: it hands the words and the streams of the process to the top call, and ends with the status's number.
#![tactic(auto)]

use cd_io::{ReadSource, WriteSink, write_all};
use cd_top::run;
use std::process::ExitCode;
use std::{env, io};

/// The process's status where the system does not hand over the words, as for one that is not UTF-8.
const NO_WORDS: u8 = 11;

fn main(rt: HostRuntime) -> ExitCode {
    let mut notes = WriteSink::new(rt.stderr());
    let Ok(words) = command_words(&rt) else {
        // The status tells all the same where nobody reads the notes.
        let _ = write_all(&mut notes, b"condor: no command words\n");
        return ExitCode::from(NO_WORDS);
    };
    let mut source = ReadSource::new(rt.stdin());
    let mut out = WriteSink::new(rt.stdout());
    let status = run(rt.alloc(), &words, &mut source, &mut out, &mut notes);
    ExitCode::from(status.code())
}

/// The words after the program's name.
fn command_words(rt: &HostRuntime) -> io::Result<Vec<String>> {
    let mut words = Vec::new(rt.alloc());
    for word in env::args(rt)?.skip(1) {
        words.push(word)?;
    }
    Ok(words)
}
