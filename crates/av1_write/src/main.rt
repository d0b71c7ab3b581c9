//! The program: its words and its streams, handed to `av1_program`.
#![tactic(auto)]

use av1_bits::{StdSink, StdSource};
use av1_program::run::{report_status, run};
use av1_program::status::Status;
use std::process::ExitCode;
use std::{env, io};

// A word that isn't UTF-8 is none that the program knows.
fn words(rt: &HostRuntime) -> Result<Vec<String>, Status> {
    match env::args(rt) {
        Ok(args) => args
            .skip(1)
            .collect(rt.alloc())
            .map_err(|_| Status::OutOfMemory),
        Err(error) if error.kind() == io::ErrorKind::OutOfMemory => Err(Status::OutOfMemory),
        Err(_) => Err(Status::Usage),
    }
}

fn main(rt: HostRuntime) -> ExitCode {
    let alloc = rt.alloc();
    let mut source = StdSource::new(rt.stdin());
    let mut out = StdSink::new(rt.stdout());
    let mut err = StdSink::new(rt.stderr());
    let status = match words(&rt) {
        Ok(words) => run(alloc, &words, &mut source, &mut out, &mut err),
        Err(status) => report_status(alloc, status, &mut err),
    };
    ExitCode::from(status.number())
}
