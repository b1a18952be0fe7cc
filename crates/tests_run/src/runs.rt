//! Whole runs over memory.
use iv_io::{MemSink, MemSource};
use iv_kernel::Theorems;
use iv_run::{Status, run_isar};
use std::alloc::Global;
use std::process::Abort;

/// Three lines, and their report.
const THREE: &str =
    "lemma a: \"PROP A ==> PROP A\" by assumption\nlemma b: \"PROP A\" by assumption\noops end\n";

const THREE_REPORT: &str = "theorem a: PROP ?A ==> PROP ?A\nrefused 2:19 by empty\n";

/// How a run over memory ended.
#[derive(Drop)]
struct Ended {
    status: Status,
    written: Vec<u8>,
    theorems: usize,
}

fn bytes(rt: &impl Abort, alloc: Global, given: &[u8]) -> Vec<u8> {
    Vec::from_slice(alloc, given).expect(rt, "memory")
}

fn calls(rt: &impl Abort, alloc: Global, given: &[u64]) -> Vec<u64> {
    Vec::from_slice(alloc, given).expect(rt, "memory")
}

/// A word as the words of the command line. An empty word is none.
fn words(rt: &impl Abort, alloc: Global, word: &str) -> Vec<String> {
    let mut words = Vec::new(alloc);
    if !word.is_empty() {
        let word = String::from_str(alloc, word).expect(rt, "memory");
        words.push(word).expect(rt, "memory");
    }
    words
}

/// Runs a document that comes and goes in pieces, where some calls fail.
fn run(
    rt: &impl Abort,
    alloc: Global,
    word: &str,
    document: &[u8],
    piece: usize,
    read_fails: &[u64],
    write_fails: &[u64],
) -> Ended {
    let piece = if piece == 0 { 1 } else { piece };
    let words = words(rt, alloc, word);
    let document = bytes(rt, alloc, document);
    let mut source = MemSource::new(document, piece, calls(rt, alloc, read_fails));
    let made = MemSink::new(alloc, 65_536, piece, calls(rt, alloc, write_fails));
    let mut sink = made.expect(rt, "memory");
    let mut proved = Theorems::new(alloc);
    let status = run_isar(alloc, words.as_slice(), &mut source, &mut sink, &mut proved);
    Ended {
        status,
        written: bytes(rt, alloc, sink.written()),
        theorems: proved.len(),
    }
}

/// A document of four lines, of which the last has `blanks` spaces.
fn spaced(rt: &impl Abort, alloc: Global, blanks: usize) -> Vec<u8> {
    let mut document = bytes(rt, alloc, THREE.as_bytes());
    for _ in 0..blanks {
        document.push(b' ').expect(rt, "memory");
    }
    document.push(b'\n').expect(rt, "memory");
    document
}

/// The size of a piece, how many spaces the document has at its end, and how many reads and writes it takes.
const PIECES: [(usize, usize, u64, u64); 5] = [
    (1, 0, 86, 53),
    (2, 0, 44, 27),
    (4095, 9000, 4, 2),
    (4096, 9000, 4, 2),
    (4097, 9000, 4, 2),
];

/// Each of the first reads fails in turn, and nothing is written.
fn reads_fail(rt: &impl Abort, alloc: Global, document: &[u8], piece: usize, reads: u64) {
    for call in 0..reads {
        let ended = run(rt, alloc, "check", document, piece, &[call + 1], &[]);
        assert_eq!(rt; ended.status, Status::ReadFault);
        assert_eq!(rt; ended.written.len(), 0);
    }
}

/// Each of the first writes fails in turn, and a front part is written.
fn writes_fail(rt: &impl Abort, alloc: Global, document: &[u8], piece: usize, writes: u64) {
    for call in 0..writes {
        let ended = run(rt, alloc, "check", document, piece, &[], &[call + 1]);
        assert_eq!(rt; ended.status, Status::WriteFault);
        assert!(rt;
            THREE_REPORT
                .as_bytes()
                .starts_with(ended.written.as_slice())
        );
    }
}

#[test]
fn failing_calls(rt: HostRuntime) {
    for (piece, blanks, reads, writes) in PIECES {
        let document = spaced(&rt, rt.alloc(), blanks);
        reads_fail(&rt, rt.alloc(), document.as_slice(), piece, reads);
        writes_fail(&rt, rt.alloc(), document.as_slice(), piece, writes);
        let ended = run(
            &rt,
            rt.alloc(),
            "check",
            document.as_slice(),
            piece,
            &[],
            &[],
        );
        assert_eq!(rt; ended.written.as_slice(), THREE_REPORT.as_bytes());
    }
}

#[test]
fn limits(rt: HostRuntime) {
    for (length, status) in [(4_194_304, Status::Refused), (4_194_305, Status::TooLarge)] {
        let spaces = vec![in rt.alloc(); b' '; length].expect(&rt, "memory");
        let ended = run(
            &rt,
            rt.alloc(),
            "check",
            spaces.as_slice(),
            65_536,
            &[],
            &[],
        );
        assert_eq!(rt; ended.status, status);
        assert_eq!(rt; ended.written.len(), 0);
    }
}
