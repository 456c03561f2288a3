use outside::{
    Fetch, Files, FolderFiles, Hold, HoldPoint, MemFiles, MemSink, NoHold, Sink, SinkFailed,
    WriterSink, write_whole,
};
use std::fs;
use std::io::{self, ErrorKind, Write};
use std::test::Fail;

fn is_shared<T: Send + Sync>(_value: &T) {}

fn is_sent<T: Send>(_value: &T) {}

/// A name, the most bytes that are taken, the answer and the bytes that come with it.
type Fetched = (&'static str, usize, Fetch, &'static [u8]);

const IN_MEMORY: [Fetched; 6] = [
    ("one.qml", 6, Fetch::Found, b"second"),
    ("none.qml", 6, Fetch::Failed, b""),
    ("one.qml", 6, Fetch::Found, b"second"),
    ("one.qml", 5, Fetch::TooLong, b""),
    ("none.qml", 0, Fetch::Found, b""),
    ("two.qml", usize::MAX, Fetch::Missing, b""),
];

#[test]
fn memory_files(rt: HostRuntime) -> Result<(), Fail> {
    let mut files = MemFiles::new(rt.alloc());
    files.add("one.qml", b"first")?;
    files.add("none.qml", b"")?;
    files.add("one.qml", b"second")?;
    files.fail(2)?;
    is_shared(&files);
    let mut out = vec![in rt.alloc(); 1, 2, 3]?;
    for (name, limit, answer, bytes) in IN_MEMORY {
        let got = files.fetch(name, limit, &mut out);
        assert!(rt; got == answer && out.as_slice() == bytes);
    }
    Ok(())
}

/// A piece, the answer to writing it, and what the sink has then.
const PIECES: [(&[u8], Result<usize, SinkFailed>, &[u8]); 6] = [
    (b"hello, world", Ok(7), b"hello, "),
    (b"", Ok(0), b"hello, "),
    (b"wo", Ok(2), b"hello, wo"),
    (b"rld!", Ok(3), b"hello, world"),
    (b"!", Err(SinkFailed), b"hello, world"),
    (b"", Ok(0), b"hello, world"),
];

#[test]
fn memory_sink(rt: HostRuntime) -> Result<(), Fail> {
    let mut sink = MemSink::new(rt.alloc(), 7, 12)?;
    is_shared(&sink);
    for (piece, answer, contents) in PIECES {
        let got = sink.write(piece);
        assert!(rt; got == answer && sink.contents() == contents);
    }
    Ok(())
}

#[test]
fn memory_sink_that_stops(rt: HostRuntime) -> Result<(), Fail> {
    let mut sink = MemSink::new(rt.alloc(), 7, 100)?;
    sink.stop_after(12);
    let first = write_whole(&mut sink, b"hello,").is_ok();
    let second = write_whole(&mut sink, b" world!").is_err();
    assert!(rt; first && second && sink.contents() == b"hello, world".as_slice());
    Ok(())
}

// A writer whose first call fails, whose second takes nothing, and which then takes a byte a call.
#[derive(Drop)]
struct Reluctant {
    calls: u64,
}

impl Write for Reluctant {
    fn write(&mut self, piece: &[u8]) -> io::Result<usize> {
        self.calls = self.calls.saturating_add(1);
        match self.calls {
            1 => Err(io::Error::from(ErrorKind::BrokenPipe)),
            2 => Ok(0),
            _ => Ok(piece.len().min(1)),
        }
    }

    fn flush(&mut self) -> io::Result<()> {
        Ok(())
    }
}

const WRITES: [(&[u8], Result<usize, SinkFailed>); 4] = [
    (b"hello", Err(SinkFailed)),
    (b"hello", Err(SinkFailed)),
    (b"hello", Ok(1)),
    (b"", Ok(0)),
];

#[test]
fn writer_sink(rt: HostRuntime) {
    let mut sink = WriterSink::new(Reluctant { calls: 0 });
    is_shared(&sink);
    for (piece, answer) in WRITES {
        assert!(rt; sink.write(piece) == answer);
    }
}

#[test]
fn writer_sink_over_a_vector(rt: HostRuntime) -> Result<(), Fail> {
    let mut bytes = Vec::new(rt.alloc());
    let mut sink = WriterSink::new(&mut bytes);
    let whole = write_whole(&mut sink, b"hello, ").is_ok();
    let more = write_whole(&mut sink, b"world").is_ok();
    assert!(rt; whole && more && bytes.as_slice() == b"hello, world".as_slice());
    Ok(())
}

const SHORT: &str = "outside_folder_files.txt";

const LONG: &str = "outside_long_file.txt";

const LONG_BYTES: [u8; 5000] = [b'x'; 5000];

const IN_A_FOLDER: [Fetched; 8] = [
    (SHORT, 12, Fetch::Found, b"twelve bytes"),
    (SHORT, 11, Fetch::TooLong, b""),
    (SHORT, usize::MAX, Fetch::Found, b"twelve bytes"),
    (SHORT, 0, Fetch::TooLong, b""),
    (LONG, 5000, Fetch::Found, &LONG_BYTES),
    (LONG, 4999, Fetch::TooLong, b""),
    ("outside_no_such_file.txt", 12, Fetch::Missing, b""),
    (".", 12, Fetch::Failed, b""),
];

#[test]
fn folder_files(rt: HostRuntime) -> Result<(), Fail> {
    fs::write(&rt, SHORT, "twelve bytes")?;
    fs::write(&rt, LONG, LONG_BYTES.as_slice())?;
    let mut files = FolderFiles::new(&rt);
    is_sent(&files);
    let mut out = vec![in rt.alloc(); 1, 2, 3]?;
    for (name, limit, answer, bytes) in IN_A_FOLDER {
        let got = files.fetch(name, limit, &mut out);
        assert!(rt; got == answer && out.as_slice() == bytes);
    }
    fs::remove_file(&rt, SHORT)?;
    fs::remove_file(&rt, LONG)?;
    Ok(())
}

#[test]
fn hold(_rt: HostRuntime) {
    NoHold.pass(HoldPoint::Command, 1);
    is_shared(&NoHold);
}
