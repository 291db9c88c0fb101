//! Bad arguments, and readers and writers that fail.
use command_line::{Args, arguments};
use commands::{Fault, Verdict, check, replay};
use std::alloc::Global;
use std::io;
use std::io::{ErrorKind, Read, Write};
use std::test::Fail;

const SCRIPT: &[u8] = b"POST /v3/nothing {}\nbad\n";

const REPLIES: &[u8] =
    b"404 {\"code\":5,\"error\":\"gateway: no such path\",\"message\":\"gateway: no such path\"}\nbad line\n";

/// What the check of that script says.
const VERDICT: &[u8] = b"unreadable: line 1\n";

/// Gives one byte a read, is interrupted before each, and fails where it has given `good` bytes.
#[derive(Drop)]
struct Trickle<'a> {
    rest: &'a [u8],
    good: usize,
    interrupts: bool,
}

impl<'a> Read for Trickle<'a> {
    fn read(&mut self, buf: &mut [u8]) -> io::Result<usize> {
        self.interrupts = !self.interrupts;
        if self.interrupts {
            return Err(io::Error::from(ErrorKind::Interrupted));
        }
        if self.good == 0 {
            return Err(io::Error::from(ErrorKind::ConnectionReset));
        }
        self.good -= 1;
        match self.rest.split_first() {
            Some((first, rest)) => {
                if buf.is_empty() {
                    return Ok(0);
                }
                buf[0] = *first;
                self.rest = rest;
                Ok(1)
            }
            None => Ok(0),
        }
    }
}

fn slow_reader(good: usize) -> Trickle<'static> {
    Trickle {
        rest: SCRIPT,
        good,
        interrupts: false,
    }
}

/// Takes at most three bytes a write, and is interrupted before each. Once it has `good` bytes it
/// fails, or takes nothing, and after that it would take all.
#[derive(Drop)]
pub struct Choppy {
    pub got: Vec<u8>,
    good: usize,
    fails: bool,
    flushes: bool,
    interrupts: bool,
}

impl Write for Choppy {
    fn write(&mut self, buf: &[u8]) -> io::Result<usize> {
        self.interrupts = !self.interrupts;
        if self.interrupts {
            return Err(io::Error::from(ErrorKind::Interrupted));
        }
        let room = self.good.saturating_sub(self.got.len());
        if room == 0 && !buf.is_empty() {
            self.good = usize::MAX;
            return if self.fails {
                Err(io::Error::from(ErrorKind::BrokenPipe))
            } else {
                Ok(0)
            };
        }
        let most = buf.len().min(3).min(room);
        self.got.extend_from_slice(&buf[..most])?;
        Ok(most)
    }

    fn flush(&mut self) -> io::Result<()> {
        if self.flushes {
            Ok(())
        } else {
            Err(io::Error::from(ErrorKind::BrokenPipe))
        }
    }
}

pub fn small_writer(alloc: Global, good: usize, fails: bool, flushes: bool) -> Choppy {
    Choppy {
        got: Vec::new(alloc),
        good,
        fails,
        flushes,
        interrupts: false,
    }
}

/// Whether a script whose reads fail after so many good ones ends in that, and nothing is written.
fn is_left_unread(alloc: Global, good: usize) -> bool {
    let mut written = Vec::new(alloc);
    let ended = replay(alloc, &mut slow_reader(good), &mut written);
    matches!(ended, Err(Fault::Read(_))) && written.is_empty()
}

/// Whether a script that comes byte by byte is answered as one that comes whole.
fn is_read(alloc: Global) -> bool {
    let mut written = Vec::new(alloc);
    let ended = replay(alloc, &mut slow_reader(SCRIPT.len() + 1), &mut written);
    ended.is_ok() && written.as_slice() == REPLIES
}

#[test]
fn reads(rt: HostRuntime) {
    for good in 0..=SCRIPT.len() {
        assert!(rt; is_left_unread(rt.alloc(), good), "{good}");
    }
    assert!(rt; is_read(rt.alloc()));
}

/// Whether a text that cannot be read to its end gets no verdict.
fn is_left_unjudged(alloc: Global, good: usize) -> bool {
    let mut written = Vec::new(alloc);
    let ended = check(alloc, &mut slow_reader(good), &mut written);
    matches!(ended, Err(Fault::Read(_))) && written.is_empty()
}

#[test]
fn reads_of_a_check(rt: HostRuntime) {
    for good in 0..=SCRIPT.len() {
        assert!(rt; is_left_unjudged(rt.alloc(), good), "{good}");
    }
}

/// Whether a verdict ends where a write fails, or takes nothing, after these bytes.
fn is_verdict_cut(alloc: Global, wanted: &[u8], fails: bool) -> bool {
    let mut text = SCRIPT;
    let mut out = small_writer(alloc, wanted.len(), fails, true);
    let ended = check(alloc, &mut text, &mut out);
    matches!(ended, Err(Fault::Write(_))) && out.got.as_slice() == wanted
}

/// Whether short writes write the whole verdict.
fn is_verdict_written(alloc: Global, fails: bool) -> bool {
    let mut text = SCRIPT;
    let mut out = small_writer(alloc, VERDICT.len(), fails, true);
    let ended = check(alloc, &mut text, &mut out);
    matches!(ended, Ok(Verdict::Unreadable(1))) && out.got.as_slice() == VERDICT
}

/// Whether a writer that fails to hand on the verdict is told of.
fn is_verdict_kept_back(alloc: Global) -> bool {
    let mut text = SCRIPT;
    let mut out = small_writer(alloc, usize::MAX, true, false);
    let ended = check(alloc, &mut text, &mut out);
    matches!(ended, Err(Fault::Write(_))) && out.got.as_slice() == VERDICT
}

#[test]
fn writes_of_a_check(rt: HostRuntime) {
    for good in 0..VERDICT.len() {
        assert!(rt;
            is_verdict_cut(rt.alloc(), &VERDICT[..good], true),
            "{good}"
        );
        assert!(rt;
            is_verdict_cut(rt.alloc(), &VERDICT[..good], false),
            "{good}"
        );
    }
    assert!(rt; is_verdict_written(rt.alloc(), true));
    assert!(rt; is_verdict_written(rt.alloc(), false));
    assert!(rt; is_verdict_kept_back(rt.alloc()));
}

/// Whether a script ends where a write fails, or takes nothing, after these bytes, and nothing more
/// is written.
fn is_cut_short(alloc: Global, wanted: &[u8], fails: bool) -> bool {
    let mut script = SCRIPT;
    let mut out = small_writer(alloc, wanted.len(), fails, true);
    let ended = replay(alloc, &mut script, &mut out);
    matches!(ended, Err(Fault::Write(_))) && out.got.as_slice() == wanted
}

/// Whether short writes write all, where the writer has just the room for it.
fn is_written(alloc: Global, fails: bool) -> bool {
    let mut script = SCRIPT;
    let mut out = small_writer(alloc, REPLIES.len(), fails, true);
    let ended = replay(alloc, &mut script, &mut out);
    ended.is_ok() && out.got.as_slice() == REPLIES
}

/// Whether a writer that fails to hand on what it took is told of.
fn is_kept_back(alloc: Global) -> bool {
    let mut script = SCRIPT;
    let mut out = small_writer(alloc, usize::MAX, true, false);
    let ended = replay(alloc, &mut script, &mut out);
    matches!(ended, Err(Fault::Write(_))) && out.got.as_slice() == REPLIES
}

#[test]
fn writes(rt: HostRuntime) {
    for good in 0..REPLIES.len() {
        assert!(rt; is_cut_short(rt.alloc(), &REPLIES[..good], true), "{good}");
        assert!(rt; is_cut_short(rt.alloc(), &REPLIES[..good], false), "{good}");
    }
    assert!(rt; is_written(rt.alloc(), true));
    assert!(rt; is_written(rt.alloc(), false));
    assert!(rt; is_kept_back(rt.alloc()));
}

/// How these words are read: what they ask for, and the options with numbers.
fn said_of(alloc: Global, words: &[&str]) -> Result<(u8, Option<(u64, u64, u64, u64)>), Fail> {
    let line = line_of(alloc, words)?;
    let said = match arguments(alloc, line.as_slice()) {
        Ok(Args::Replay(ids)) => (0, Some((0, 0, ids.cluster, ids.member))),
        Ok(Args::Check) => (1, None),
        Ok(Args::Serve(s)) => (2, Some((s.workers, s.connections, s.cluster, s.member))),
        Err(Fault::Arguments) => (3, None),
        Err(_) => (4, None),
    };
    Ok(said)
}

const BAD_WORDS: [&[&str]; 27] = [
    &[],
    &[""],
    &["Replay"],
    &["repla"],
    &["serve"],
    &["check", "replay"],
    &["help"],
    &["--help"],
    &["--"],
    &["--", "replay"],
    &["replay", "--"],
    &["replay", "x"],
    &["replay", "--cluster-id"],
    &["replay", "--cluster-id", "0"],
    &["replay", "--member-id", "9223372036854775808"],
    &["replay", "--member-id", "2", "--"],
    &["replay", "--workers", "2"],
    &["check", "--member-id", "2"],
    &["check", "--"],
    &["serve", "--help"],
    &["serve", "--listen"],
    &["serve", "--listen", "x", "--"],
    &["serve", "--listen", "x", "--workers", "1"],
    &["serve", "--listen", "x", "--workers", "33"],
    &["serve", "--listen", "x", "--member-id", "0"],
    &["serve", "--listen", "x", "--listen", "y"],
    &[
        "serve",
        "--listen",
        "x",
        "--connections",
        "9223372036854775808",
    ],
];

/// `check` alone, and `replay` and `serve` with their options are the commands.
#[test]
fn command_lines(rt: HostRuntime) -> Result<(), Fail> {
    let alloc = rt.alloc();
    for words in BAD_WORDS {
        assert!(rt; said_of(alloc, words)? == (3, None), "{words:?}");
    }
    assert!(rt; said_of(alloc, &["replay"])? == (0, Some((0, 0, 1, 1))));
    let given = ["replay", "--member-id", "4", "--cluster-id", "9"];
    assert!(rt; said_of(alloc, given.as_slice())? == (0, Some((0, 0, 9, 4))));
    assert!(rt; said_of(alloc, &["check"])? == (1, None));
    let least = said_of(alloc, &["serve", "--listen", "x"])?;
    assert!(rt; least == (2, Some((8, 0, 1, 1))));
    let given = [
        "serve",
        "--member-id",
        "4",
        "--workers",
        "2",
        "--connections",
        "3",
        "--cluster-id",
        "9",
        "--listen",
        "x",
    ];
    assert!(rt; said_of(alloc, given.as_slice())? == (2, Some((2, 3, 9, 4))));
    Ok(())
}

fn line_of(alloc: Global, words: &[&str]) -> Result<Vec<String>, Fail> {
    let mut line = Vec::new(alloc);
    line.push("etcd_one".to_string(alloc)?)?;
    for word in words {
        line.push(word.to_string(alloc)?)?;
    }
    Ok(line)
}
