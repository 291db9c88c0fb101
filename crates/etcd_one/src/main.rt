//! `etcd_one`: a single-member, in-memory etcd, driven by a script, and the check of its
//! certificates.
//!
//! `etcd_one replay` reads a script on standard input and writes one reply for each line to
//! standard output. It ends with status 0 after the last reply. `etcd_one check` reads the text of
//! a certificate, as the script's line `CERTIFY` shows it, and writes one line: `least` and the
//! number of versions (status 0), `refused:` and the first fault (1), or `unreadable: line` and
//! the number of the first line that is not of its form (2). Bad arguments, a failed read or
//! write, and want of memory outside a request end both with status 2, one line on standard error,
//! and nothing more on standard output. `--help` and `--version` are bad arguments too, whose line
//! is what was asked for.
//!
//! `etcd_one serve` answers HTTP/1.1 instead, at the address that it is given; with `--from` it goes on
//! from a script, with `--control` time and trimming go by lines on standard input, and with `--record` the events of the server are put
//! into a file, as a script that `replay` answers as the server did.
//!
//! What each command does over any reader and writer is told, and proved, in the crates below:
//! [`arguments`], the words of the command line, in `command_words`, [`serve_by`], the server that they ask for,
//! in `command_line`, [`replay`] and [`check`] in `commands`. Here stand the program's words, its
//! standard input and output, and its exit status.
//!
//! The tests stand in the crate `server_tests`; `tests/program` of the repository asks the program
//! itself for its exit status and what it writes to standard error.
#![tactic(auto)]

pub use command_line::{
    Advice, Args, Gate, OpenGate, Recording, Serve, Start, Starts, Tells, advise, arguments,
    serve_by, serve_controlled, serve_on,
};
use commands::fault_of_words;
pub use commands::{Fault, Ids, Verdict, check, check_script, read_script, replay, replay_by};
use std::fs::File;
use std::io::BufWriter;
use std::net::{Net, TcpListener, TcpStream};
use std::process::ExitCode;
use std::rt::{Files, Runtime};
use std::sync::Wait;
use std::thread::Threads;
use std::{env, io};

/// The bytes that are written at once.
const BUFFER: usize = 65_536;

fn run<
    R: Runtime
        + Files<File = File>
        + AllocGlobal
        + Net<Listener = TcpListener, Stream = TcpStream>
        + Threads
        + Wait
        + Sync,
>(rt: &R) -> Result<ExitCode, Fault> {
    let mut words = Vec::new(rt.alloc());
    let given = env::args(rt).map_err(|error| fault_of_words(&error))?;
    for word in given {
        words.push(word).map_err(|_| Fault::Memory)?;
    }
    match arguments(rt.alloc(), words.as_slice()) {
        Ok(args) => run_as(rt, &args),
        Err(Fault::Arguments) => match advise(words.as_slice()) {
            Some(advice) => {
                let _ = rt.eprintln(advice.line());
                Ok(ExitCode::from(2))
            }
            None => Err(Fault::Arguments),
        },
        Err(fault) => Err(fault),
    }
}

/// Does what was asked for.
fn run_as<
    R: Runtime
        + Files<File = File>
        + AllocGlobal
        + Net<Listener = TcpListener, Stream = TcpStream>
        + Threads
        + Wait
        + Sync,
>(rt: &R, args: &Args<'_>) -> Result<ExitCode, Fault> {
    match args {
        Args::Replay(ids) => {
            replay_all(rt, ids)?;
            Ok(ExitCode::SUCCESS)
        }
        Args::Check => {
            let verdict = check_all(rt)?;
            Ok(status_of(verdict))
        }
        Args::Serve(serve) => {
            serve_all(rt, serve)?;
            Ok(ExitCode::SUCCESS)
        }
    }
}

/// The exit status that tells a verdict: 0 of a certificate that passes, 1 of one that is refused,
/// and 2 of a text that is none.
fn status_of(verdict: Verdict) -> ExitCode {
    match verdict {
        Verdict::Least(_) => ExitCode::SUCCESS,
        Verdict::Refused(_) => ExitCode::from(1),
        Verdict::Unreadable(_) => ExitCode::from(2),
    }
}

/// Judges the certificate on standard input on standard output.
fn check_all<R: Runtime + AllocGlobal>(rt: &R) -> Result<Verdict, Fault> {
    check(rt.alloc(), &mut rt.reader(), &mut io::writer(rt))
}

/// Answers standard input on standard output, through a buffer that is there before the first read.
fn replay_all<R: Runtime + AllocGlobal>(rt: &R, ids: &Ids) -> Result<(), Fault> {
    let made = BufWriter::with_capacity(rt.alloc(), BUFFER, io::writer(rt));
    let mut writer = made.map_err(|_| Fault::Memory)?;
    let ended = replay_by(rt.alloc(), ids, &mut rt.reader(), &mut writer);
    // A writer that is dropped would write what a failed write has left.
    let _ = writer.into_parts();
    ended
}

/// Listens, and serves; where that is asked for, going on from a script, with the server's events put
/// into a file, which is made anew once each line of the script was seen to ask for an event, and with
/// lines on standard input that direct it.
fn serve_all<
    R: Runtime
        + Files<File = File>
        + AllocGlobal
        + Net<Listener = TcpListener, Stream = TcpStream>
        + Threads
        + Wait
        + Sync,
>(rt: &R, serve: &Serve<'_>) -> Result<(), Fault> {
    let listener = TcpListener::bind(rt, serve.listen).map_err(Fault::Address)?;
    let telling = Telling { rt };
    if serve.from.is_none() && serve.recording.is_none() && !serve.control {
        telling.starts(&listener);
        let args = Args::Serve(*serve);
        return serve_on(rt, rt.alloc(), &listener, &args, &mut io::writer(rt));
    }
    let script = script_of(rt, serve)?;
    let start = Start {
        listener: &listener,
        script,
        hears: &telling,
    };
    match serve.recording {
        Some(path) => {
            let file = File::create(rt, path).map_err(Fault::Record)?;
            let gate = Recording::new(rt, rt.alloc(), file, Telling { rt });
            serve_start(rt, serve, start, &gate)
        }
        None => serve_start(rt, serve, start, &OpenGate),
    }
}

/// The script that a server goes on from, each line of which asks for an event; an empty one where
/// there is none.
fn script_of<R: Runtime + Files<File = File> + AllocGlobal>(
    rt: &R,
    serve: &Serve<'_>,
) -> Result<Vec<u8>, Fault> {
    let Some(path) = serve.from else {
        return Ok(Vec::new(rt.alloc()));
    };
    let mut file = File::open(rt, path).map_err(Fault::Script)?;
    let script = read_script(rt.alloc(), &mut file)?;
    check_script(script.as_slice())?;
    Ok(script)
}

/// Runs a server by a gate, directed by lines on standard input where that is asked for.
fn serve_start<
    G: Gate + Sync,
    R: Runtime
        + AllocGlobal
        + Net<Listener = TcpListener, Stream = TcpStream>
        + Threads
        + Wait
        + Sync,
>(rt: &R, serve: &Serve<'_>, start: Start<'_, Telling<'_, R>>, gate: &G) -> Result<(), Fault> {
    let args = Args::Serve(*serve);
    let mut writer = io::writer(rt);
    if !serve.control {
        return serve_by(rt, rt.alloc(), start, &args, gate, &mut writer);
    }
    let mut reader = rt.reader();
    serve_controlled(rt, rt.alloc(), start, &args, gate, &mut reader, &mut writer)
}

/// Tells on standard error where a server listens, and where a recording ends before its server does.
#[derive(Drop)]
struct Telling<'x, R> {
    rt: &'x R,
}

impl<'x, R: Eprint> Tells for Telling<'x, R> {
    fn tell(&self, fault: &Fault) {
        let _ = self.rt.eprintln(fault);
    }
}

impl<'x, R: Eprint> Starts for Telling<'x, R> {
    fn starts(&self, listener: &TcpListener) {
        if let Ok(address) = listener.local_addr() {
            let _ = eprintln!(self.rt; "listening on {address}");
        }
    }
}

fn main(rt: HostRuntime) -> ExitCode {
    match run(&rt) {
        Ok(status) => status,
        Err(fault) => {
            let _ = rt.eprintln(fault);
            ExitCode::from(2)
        }
    }
}
