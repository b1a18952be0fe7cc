//! A checker of proof documents.
//!
//! `isarvm check` reads a document from standard input and writes a line for each theorem that it proves and
//! for each command that is refused; `isarvm count` writes one line that counts them. What it promises stands on
//! [`iv_run::run_isar`], which `main` calls over standard input and output.
#![tactic(auto)]

use iv_io::{StdSink, StdSource};
use iv_kernel::Theorems;
use iv_run::{Status, run_isar};
use std::env;
use std::io::{ErrorKind, writer};
use std::process::ExitCode;
use std::rt::Env;

/// The words after the program's name. One that isn't UTF-8 is no word of any command.
fn words(rt: &(impl Env + AllocGlobal)) -> Result<Vec<String>, Status> {
    let mut words = Vec::new(rt.alloc());
    match env::args(rt) {
        Ok(given) => {
            for word in given.skip(1) {
                words.push(word).map_err(|_full| Status::Memory)?;
            }
            Ok(words)
        }
        Err(error) if error.kind() == ErrorKind::InvalidData => Err(Status::Usage),
        Err(_error) => Err(Status::Memory),
    }
}

/// Runs the document of standard input, writes to standard output, and lets the theorems go.
fn run(rt: &HostRuntime, words: &[String]) -> Status {
    let mut source = StdSource::new(rt.reader());
    let mut sink = StdSink::new(writer(rt));
    let mut proved = Theorems::new(rt.alloc());
    let status = run_isar(rt.alloc(), words, &mut source, &mut sink, &mut proved);
    drop(proved);
    drop(sink);
    drop(source);
    status
}

fn main(rt: HostRuntime) -> ExitCode {
    let status = match words(&rt) {
        Ok(words) => run(&rt, words.as_slice()),
        Err(status) => status,
    };
    if status == Status::Usage {
        let _ = eprintln!(rt; "usage: isarvm check|count");
    }
    ExitCode::from(status.code())
}
