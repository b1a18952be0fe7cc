//! Runs the rows that standard input has, and prints each one's report and status.
//!
//! A row is a line `LENGTH WORD ..`, a document of LENGTH bytes behind it, and a line feed. Each is run over memory by
//! [`iv_run::run_isar`], as the program `isarvm` runs it over standard input and output. What comes of it is a line that
//! begins with `== ` and has the row's number, counted from 1, and its words; the report; and a line with the status.
//! `tools/rows.py` makes the rows and what must come.
#![tactic(auto)]

use iv_io::{MemSink, MemSource, StdSink, StdSource, read_all, write_all};
use iv_kernel::Theorems;
use iv_report::LIMIT;
use iv_run::{Status, run_isar};
use std::alloc::Global;
use std::io::writer;
use std::process::ExitCode;

/// The words of a command line and a document.
#[derive(Clone, Copy)]
struct Row<'a> {
    words: &'a str,
    document: &'a [u8],
}

/// How a run over memory ended: its report and status.
#[derive(Drop)]
struct Ended {
    report: Vec<u8>,
    status: Status,
}

/// Why the rows aren't run to their end.
#[derive(Clone, Copy, Debug, PartialEq, Eq)]
enum Stop {
    /// Memory ran out, or standard input or output failed.
    Failed,
    /// What stands at a row's place is no row.
    NoRow,
}

/// The words behind the length in a row's first line, and the length. `None` where it has no length.
fn header(line: &[u8]) -> Option<(usize, &str)> {
    let line = str::from_utf8(line).ok()?;
    let (length, words) = line.split_once(' ')?;
    let length: usize = length.parse().ok()?;
    Some((length, words))
}

/// The first row, and what stands behind it. `None` where no row stands there.
fn next_row(rows: &[u8]) -> Option<(Row<'_>, &[u8])> {
    let at = rows.iter().position(|byte| *byte == b'\n')?;
    let (line, rest) = rows.split_at(at);
    let (length, words) = header(line)?;
    let document = rest.get(1..)?;
    if document.len() <= length {
        return None;
    }
    let (document, rest) = document.split_at(length);
    Some((Row { words, document }, rest.get(1..)?))
}

/// The words of a line, which are apart by one space. Fails where memory runs out.
fn words_of(alloc: Global, line: &str) -> Result<Vec<String>, Stop> {
    let mut words = Vec::new(alloc);
    for word in line.split(' ') {
        if !word.is_empty() {
            let word = String::from_str(alloc, word).map_err(|_full| Stop::Failed)?;
            words.push(word).map_err(|_full| Stop::Failed)?;
        }
    }
    Ok(words)
}

/// Runs a row. Fails where memory runs out.
fn run(alloc: Global, row: &Row<'_>) -> Result<Ended, Stop> {
    let words = words_of(alloc, row.words)?;
    let document = Vec::from_slice(alloc, row.document).map_err(|_full| Stop::Failed)?;
    let mut source = MemSource::new(document, 4096, Vec::new(alloc));
    let made = MemSink::new(alloc, 1_048_576, 4096, Vec::new(alloc));
    let mut sink = made.map_err(|_want| Stop::Failed)?;
    let mut proved = Theorems::new(alloc);
    let status = run_isar(alloc, words.as_slice(), &mut source, &mut sink, &mut proved);
    let report = Vec::from_slice(alloc, sink.written()).map_err(|_full| Stop::Failed)?;
    Ok(Ended { report, status })
}

/// What is printed of a row.
fn printed(alloc: Global, number: usize, row: &Row<'_>, ended: &Ended) -> Result<Vec<u8>, Stop> {
    let words = row.words;
    let code = ended.status.code();
    let head = format!(in alloc; "== {number} {words}\n").map_err(|_full| Stop::Failed)?;
    let foot = format!(in alloc; "status {code}\n").map_err(|_full| Stop::Failed)?;
    let mut text = Vec::new(alloc);
    for part in [head.as_bytes(), ended.report.as_slice(), foot.as_bytes()] {
        text.extend_from_slice(part).map_err(|_full| Stop::Failed)?;
    }
    Ok(text)
}

/// Runs all rows, and prints what comes of each.
fn run_all(rt: &HostRuntime) -> Result<(), Stop> {
    let alloc = rt.alloc();
    let mut source = StdSource::new(rt.reader());
    let rows = read_all(alloc, &mut source, LIMIT).map_err(|_error| Stop::Failed)?;
    let mut sink = StdSink::new(writer(rt));
    let mut rest = rows.as_slice();
    for number in 1..LIMIT {
        if rest.is_empty() {
            return Ok(());
        }
        let Some((row, more)) = next_row(rest) else {
            return Err(Stop::NoRow);
        };
        let ended = run(alloc, &row)?;
        let text = printed(alloc, number, &row, &ended)?;
        write_all(&mut sink, text.as_slice()).map_err(|_failed| Stop::Failed)?;
        rest = more;
    }
    Ok(())
}

fn main(rt: HostRuntime) -> ExitCode {
    match run_all(&rt) {
        Ok(()) => ExitCode::from(0),
        Err(Stop::Failed) => ExitCode::from(1),
        Err(Stop::NoRow) => ExitCode::from(2),
    }
}
