//! Why the program ends before its work is done.
ghost use Rattle.std.specs.Prelude.{◌≡◌, ◌≢◌, true, is_ok, Err, MatchResult};
ghost use Rattle.std.specs.IoError.{error_kind};

use http_reply::Front;
use std::io;
use std::io::ErrorKind;
use thiserror::Error;

/// Each fault ends the program with status 2, and nothing more is written to standard output.
#[derive(Debug, Drop, Error)]
pub enum Fault {
    /// The words after the program's name are no command.
    #[error("etcd_one: bad arguments; usage: etcd_one replay [--cluster-id N] [--member-id N] < script, etcd_one check < certificate, or etcd_one serve --listen ADDR [--workers 2..32] [--connections N] [--cluster-id N] [--member-id N] [--from FILE] [--control] [--record FILE]")]
    Arguments,
    /// The input, a script or a certificate, could not be read to its end.
    #[error("etcd_one: the input could not be read: {0}")]
    Read(io::Error),
    /// The input did not end within 2^30 reads.
    #[error("etcd_one: the input has no end")]
    Endless,
    /// The replies, or the verdict, could not be written.
    #[error("etcd_one: the output could not be written: {0}")]
    Write(io::Error),
    /// A growth outside a request found no memory.
    #[error("etcd_one: out of memory")]
    Memory,
    /// The file of a recording could not be made, or no further line of it be written.
    #[error("etcd_one: the recording could not be written: {0}")]
    Record(io::Error),
    /// The script that a server goes on from could not be opened, or not be read to its end.
    #[error("etcd_one: the script could not be read: {0}")]
    Script(io::Error),
    /// The line of this number of that script, counted from 1, asks for no event.
    #[error("etcd_one: line {0} of the script is no event")]
    NoEvent(u64),
    /// The event of the line of this number found no memory.
    #[error("etcd_one: line {0} of the script found no memory")]
    Unplayed(u64),
    /// The server could not listen at its address.
    #[error("etcd_one: the address is refused: {0}")]
    Address(io::Error),
    /// The server ended before its connections did.
    #[error("etcd_one: {0}")]
    Server(Front),
}

/// How a command ends whose writes ended so.
pub fn written(ended: io::Result<()>) -> Result<(), Fault>
    ensures { MatchResult ended (λ _. is_ok result ≡ true)
        (λ error. result ≡ Err (Fault.Write error)) }
{
    match ended {
        Ok(()) => Ok(()),
        Err(error) => Err(Fault::Write(error)),
    }
}

/// Why the words of the command line could not be had: one that is not UTF-8 is no command.
pub fn fault_of_words(error: &io::Error) -> Fault
    ensures memory { error_kind error.now ≡ ErrorKind.OutOfMemory → result ≡ Fault.Memory }
    ensures other { error_kind error.now ≢ ErrorKind.OutOfMemory → result ≡ Fault.Arguments }
{
    match error.kind() {
        ErrorKind::OutOfMemory => Fault::Memory,
        _ => Fault::Arguments,
    }
}
