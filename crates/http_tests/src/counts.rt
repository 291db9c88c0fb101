//! Readers and writers that are counted, and why a connection ends.
use http_reply::{Counted, Front};
use std::alloc::Global;
use std::io;
use std::io::{ErrorKind, Read, Write};

/// Fails at each call.
#[derive(Drop)]
struct Broken;

impl Read for Broken {
    fn read(&mut self, _: &mut [u8]) -> io::Result<usize> {
        Err(io::Error::from(ErrorKind::ConnectionReset))
    }
}

impl Write for Broken {
    fn write(&mut self, _: &[u8]) -> io::Result<usize> {
        Err(io::Error::from(ErrorKind::BrokenPipe))
    }

    fn flush(&mut self) -> io::Result<()> {
        Err(io::Error::from(ErrorKind::BrokenPipe))
    }
}

/// How many reads were made, and how many calls failed.
fn counts_of_reads(text: &[u8]) -> (u64, u64) {
    let mut reader = Counted::new(text);
    let mut room = [0; 4];
    for _ in 0..3 {
        let _ = reader.read(&mut room);
    }
    (reader.reads(), reader.failures())
}

/// The same of a reader and writer that fails: two reads, a write and a flush.
fn counts_of_failures() -> (u64, u64) {
    let mut broken = Counted::new(Broken);
    let mut room = [0; 4];
    let _ = broken.read(&mut room);
    let _ = broken.read(&mut room);
    let _ = broken.write(b"a");
    let _ = broken.flush();
    (broken.reads(), broken.failures())
}

/// The same of a writer that takes what comes: two writes and a flush, then a write of nothing.
fn counts_of_writes(alloc: Global) -> (u64, u64) {
    let mut writer = Counted::new(Vec::new(alloc));
    let _ = writer.write(b"ab");
    let _ = writer.write(b"c");
    let _ = writer.flush();
    let told = (writer.reads(), writer.failures());
    let taken = writer.into_inner();
    if taken.as_slice() == b"abc".as_slice() {
        told
    } else {
        (9, 9)
    }
}

#[test]
fn calls_are_counted(rt: HostRuntime) {
    assert_eq!(rt; counts_of_reads(b"abcdef"), (3, 0));
    assert_eq!(rt; counts_of_failures(), (2, 4));
    assert_eq!(rt; counts_of_writes(rt.alloc()), (0, 0));
}

const FRONTS: [(Front, u8, &str); 10] = [
    (Front::Head, 1, "http: bad head"),
    (Front::Length, 2, "http: bad length"),
    (Front::TooLong, 3, "http: too long"),
    (Front::Read, 4, "http: a read failed"),
    (Front::End, 5, "http: the input ended within a request"),
    (Front::Memory, 6, "http: out of memory"),
    (Front::Write(71), 7, "http: a write failed after 71 bytes"),
    (Front::Spawn, 8, "http: a thread could not be started"),
    (Front::Accept, 9, "http: a connection could not be accepted"),
    (Front::Unclosed, 10, "http: the engine could not be closed"),
];

/// The first that has another number or another text.
fn first_wrong(alloc: Global, cases: &[(Front, u8, &'static str)]) -> Option<u8> {
    for row in cases {
        let (front, number, expected) = *row;
        let is = match &format!(in alloc; "{front}") {
            Ok(text) => text.as_str() == expected,
            Err(_) => false,
        };
        if !is || front.number() != number {
            return Some(number);
        }
    }
    None
}

#[test]
fn numbers_and_texts_of_ends(rt: HostRuntime) {
    assert_eq!(rt; first_wrong(rt.alloc(), FRONTS.as_slice()), None);
}
