//! Sources and sinks, over memory and over `std`, and what is read and written whole.
use iv_io::{
    Failed, MemSink, MemSource, ReadError, Sink, Source, StdSink, StdSource, read_all, write_all,
};
use std::alloc::Global;
use std::io::{Error, ErrorKind, Read, Write};
use std::process::Abort;

/// A reader and writer that fails at its first call, then takes nothing, and from then on gives ones.
#[derive(Drop)]
struct Faulty {
    calls: u8,
}

impl Read for Faulty {
    fn read(&mut self, buf: &mut [u8]) -> std::io::Result<usize> {
        self.calls = self.calls.saturating_add(1);
        match buf {
            _ if self.calls == 1 => Err(Error::from(ErrorKind::Other)),
            [first, ..] if self.calls > 2 => {
                *first = b'1';
                Ok(1)
            }
            _ => Ok(0),
        }
    }
}

impl Write for Faulty {
    fn write(&mut self, buf: &[u8]) -> std::io::Result<usize> {
        self.calls = self.calls.saturating_add(1);
        match self.calls {
            1 => Err(Error::from(ErrorKind::Other)),
            2 => Ok(0),
            _ => Ok(buf.len()),
        }
    }

    fn flush(&mut self) -> std::io::Result<()> {
        Ok(())
    }
}

/// Some bytes that are all alike.
fn bytes(rt: &impl Abort, alloc: Global, count: usize) -> Vec<u8> {
    vec![in alloc; b'x'; count].expect(rt, "memory")
}

/// A list of the calls that fail.
fn calls(rt: &impl Abort, alloc: Global, given: &[u64]) -> Vec<u64> {
    Vec::from_slice(alloc, given).expect(rt, "memory")
}

fn push(rt: &impl Abort, out: &mut String, c: char) {
    out.push(c).expect(rt, "memory");
}

/// Writes a count, or `!` for a failure.
fn push_count(rt: &impl Abort, out: &mut String, count: Result<usize, Failed>) {
    match count {
        Ok(count) => write!(out, "{count}").expect(rt, "memory"),
        Err(_) => push(rt, out, '!'),
    }
    push(rt, out, ' ');
}

/// What each read into so many places of one buffer of four answers, and the buffer after it.
fn reads<S: Source>(rt: &impl Abort, alloc: Global, source: &mut S, sizes: &[usize]) -> String {
    let mut out = String::new(alloc);
    let mut into = [b'-'; 4];
    for size in sizes {
        let size = (*size).min(4);
        push_count(rt, &mut out, source.read(&mut into[..size]));
        for byte in &into {
            push(rt, &mut out, char::from(*byte));
        }
        push(rt, &mut out, ';');
    }
    out
}

/// What each write of a text answers.
fn writes<K: Sink>(rt: &impl Abort, alloc: Global, sink: &mut K, texts: &[&str]) -> String {
    let mut out = String::new(alloc);
    for text in texts {
        push_count(rt, &mut out, sink.write(text.as_bytes()));
    }
    out
}

/// Whether each text is written whole: `+` where it is, `!` where that fails.
fn wholes<K: Sink>(rt: &impl Abort, alloc: Global, sink: &mut K, texts: &[&str]) -> String {
    let mut out = String::new(alloc);
    for text in texts {
        match write_all(sink, text.as_bytes()) {
            Ok(()) => push(rt, &mut out, '+'),
            Err(_) => push(rt, &mut out, '!'),
        }
    }
    out
}

#[test]
fn sources(rt: HostRuntime) {
    let given = Vec::from_slice(rt.alloc(), b"abcde").expect(&rt, "memory");
    let mut source = MemSource::new(given, 3, calls(&rt, rt.alloc(), &[2]));
    assert_eq!(rt;
        reads(&rt, rt.alloc(), &mut source, &[2, 4, 4, 4]).as_str(),
        "2 ab--;! ab--;3 cde-;0 cde-;"
    );
    let mut source = StdSource::new(b"abcdef".as_slice());
    assert_eq!(rt;
        reads(&rt, rt.alloc(), &mut source, &[4, 4, 4]).as_str(),
        "4 abcd;2 efcd;0 efcd;"
    );
    let mut faulty = StdSource::new(Faulty { calls: 0 });
    assert_eq!(rt;
        reads(&rt, rt.alloc(), &mut faulty, &[4, 4, 4]).as_str(),
        "! ----;0 ----;1 1---;"
    );
}

#[test]
fn sinks(rt: HostRuntime) {
    let made = MemSink::new(rt.alloc(), 5, 2, calls(&rt, rt.alloc(), &[2]));
    let mut sink = made.expect(&rt, "memory");
    let texts = ["abcdef", "cdef", "cdef", "ef", "f", ""];
    assert_eq!(rt;
        writes(&rt, rt.alloc(), &mut sink, texts.as_slice()).as_str(),
        "2 ! 2 1 ! 0 "
    );
    assert_eq!(rt; sink.written(), b"abcde".as_slice());
    let mut text = Vec::new(rt.alloc());
    let mut sink = StdSink::new(&mut text);
    assert_eq!(rt;
        writes(&rt, rt.alloc(), &mut sink, &["abc", ""]).as_str(),
        "3 0 "
    );
    assert_eq!(rt; wholes(&rt, rt.alloc(), &mut sink, &["def"]).as_str(), "+");
    drop(sink);
    assert_eq!(rt; text.as_slice(), b"abcdef".as_slice());
    let mut faulty = StdSink::new(Faulty { calls: 0 });
    assert_eq!(rt;
        writes(&rt, rt.alloc(), &mut faulty, &["ab", "ab", "ab"]).as_str(),
        "! ! 2 "
    );
}

#[test]
fn sources_read_to_their_end(rt: HostRuntime) {
    // how many bytes in pieces of which size, the call that fails, the limit, and how many are read
    let rows: [(usize, usize, u64, usize, Result<usize, ReadError>); 3] = [
        (10_000, 1_000, 0, 10_000, Ok(10_000)),
        (10, 4, 0, 9, Err(ReadError::TooLarge)),
        (10, 4, 3, 10, Err(ReadError::Failed)),
    ];
    for (count, piece, fails, limit, expected) in rows {
        let given = bytes(&rt, rt.alloc(), count);
        let mut source = MemSource::new(given, piece.max(1), calls(&rt, rt.alloc(), &[fails]));
        let found = read_all(rt.alloc(), &mut source, limit).map(|bytes| bytes.len());
        assert_eq!(rt; found, expected);
    }
}

#[test]
fn texts_written_whole(rt: HostRuntime) {
    let made = MemSink::new(rt.alloc(), 8, 3, calls(&rt, rt.alloc(), &[4]));
    let mut sink = made.expect(&rt, "memory");
    assert_eq!(rt;
        wholes(&rt, rt.alloc(), &mut sink, &["abcdefg", "h", "hi"]).as_str(),
        "+!!"
    );
    assert_eq!(rt; sink.written(), b"abcdefgh".as_slice());
}
