//! The line of a stream: what goes out of it, and when its writer has taken nothing for long.
use crate::peers::{Going, narrow};
use std::alloc::Global;
use std::io;
use std::io::{ErrorKind, Write};
use watch_streams::Line;

/// A writer to which a message and the end go out in so many bytes a write.
pub(crate) fn is_sent(alloc: Global, most: usize) -> bool {
    match Line::new(alloc, 7, 9, narrow(alloc, most)) {
        Ok(mut line) => {
            let is_new = line.number() == 7 && line.call() == 9 && !line.has_ended();
            let is_sent = is_new && goes(alloc, &mut line);
            drop(line);
            is_sent
        }
        Err(_) => false,
    }
}

/// Whether a message and the last chunk go out, and nothing besides; the end is told once.
fn goes(alloc: Global, line: &mut Line<Going>) -> bool {
    if !line.is_out() {
        return false;
    }
    if line.put(b"{}").is_err() || line.close().is_err() || line.close().is_err() {
        return false;
    }
    for _ in 0..20 {
        if !line.is_out() && line.send(alloc).is_err() {
            return false;
        }
    }
    let got = line.writer().got.as_slice();
    line.is_out() && line.has_ended() && got == b"3\r\n{}\n\r\n0\r\n\r\n".as_slice()
}

/// Takes nothing now.
#[derive(Drop)]
struct Full;

impl Write for Full {
    fn write(&mut self, _buf: &[u8]) -> io::Result<usize> {
        Err(io::Error::from(ErrorKind::WouldBlock))
    }

    fn flush(&mut self) -> io::Result<()> {
        Ok(())
    }
}

/// At how many looks a line counts as one whose writer took no byte for three; it is told nothing
/// before.
fn looks_to_three(alloc: Global) -> Option<u64> {
    let mut line = Line::new(alloc, 1, 1, Full).ok()?;
    if line.ages() || line.end().is_err() {
        return None;
    }
    for looks in 0..10 {
        if line.is_stale(3) {
            return Some(looks);
        }
        if line.send(alloc) != Err(true) || !line.ages() {
            return None;
        }
    }
    None
}

#[test]
fn lines_go_out(rt: HostRuntime) {
    let alloc = rt.alloc();
    for most in 1..15 {
        assert!(rt; is_sent(alloc, most), "{most}");
    }
    assert_eq!(rt; looks_to_three(alloc), Some(3));
}
