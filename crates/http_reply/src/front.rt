//! Why a connection, or a server, ends before its requests do.
ghost use Rattle.std.specs.Prelude.{◌≡◌};
ghost use Rattle.http_reply.specs.Fronts.{number_of};

use thiserror::Error;

/// Why a connection is not answered to its end. The first three have a reply of their own, which
/// [`write_refusal`](crate::write_refusal) writes; after the others nothing more is written. The
/// last three are of a server and not of one connection.
#[derive(Clone, Copy, Debug, PartialEq, Eq, Error)]
pub enum Front {
    /// No head of a request can come of the bytes: they are none by RFC 9112, they are of another
    /// version than HTTP/1.1, or they have more than 64 header lines.
    #[error("http: bad head")]
    Head,
    /// A `Transfer-Encoding` is given, or the `Content-Length` is given twice, or is not 1 to 18
    /// digits.
    #[error("http: bad length")]
    Length,
    /// The head is above 8,192 bytes, or the body above 1,572,864.
    #[error("http: too long")]
    TooLong,
    /// A read failed.
    #[error("http: a read failed")]
    Read,
    /// The input ended within a request.
    #[error("http: the input ended within a request")]
    End,
    /// A growth found no memory.
    #[error("http: out of memory")]
    Memory,
    /// A write failed, or took nothing, when so many bytes of the text had gone out.
    #[error("http: a write failed after {0} bytes")]
    Write(u64),
    /// A thread of the server could not be started.
    #[error("http: a thread could not be started")]
    Spawn,
    /// A connection could not be accepted.
    #[error("http: a connection could not be accepted")]
    Accept,
    /// The engine has no place for the server's clients, or not all of its clients came back.
    #[error("http: the engine could not be closed")]
    Unclosed,
}

impl Front {
    /// The number, by which tests name it. Takes no memory.
    pub fn number(self) -> u8
        ensures { result ≡ number_of self }
    {
        match self {
            Front::Head => 1,
            Front::Length => 2,
            Front::TooLong => 3,
            Front::Read => 4,
            Front::End => 5,
            Front::Memory => 6,
            Front::Write(_) => 7,
            Front::Spawn => 8,
            Front::Accept => 9,
            Front::Unclosed => 10,
        }
    }
}
