//! `drop`: runs the program with its arguments and standard streams.
#![tactic(auto)]

use dropoffice::{Machine, Unknown, perform};
use std::io::ErrorKind;
use std::process::ExitCode;
use std::{env, io};

fn perform_words(rt: &HostRuntime) -> io::Result<u8> {
    let words: Vec<String> = env::args(rt)?.collect(rt.alloc())?;
    let words: Vec<&str> = words.iter().map(|word| word.as_str()).collect(rt.alloc())?;
    let (input, out, err) = (rt.stdin(), rt.stdout(), rt.stderr());
    let performed = perform(rt, &words, input, out, err, Unknown, Machine { rt });
    Ok(performed.into_status())
}

fn main(rt: HostRuntime) -> ExitCode {
    match perform_words(&rt) {
        Ok(status) => ExitCode::from(status),
        Err(error) => {
            let fault = match error.kind() {
                ErrorKind::OutOfMemory => "out of memory",
                _ => "the words are not text",
            };
            // If standard error fails too, only the status tells.
            let _ = eprintln!(rt; "drop: {fault}");
            ExitCode::FAILURE
        }
    }
}
