//! A server and its client, on loopback.
use crate::streams::small_writer;
use command_line::{Args, OpenGate, Serve, Start, Unheard, serve_by};
use commands::{Fault, check_script};
use std::io::Write;
use std::net::{Net, Shutdown, TcpListener, TcpStream};
use std::sync::Wait;
use std::test::Fail;
use std::thread::Threads;
use std::{io, time};

const PUT: &[u8] = b"POST /v3/kv/put HTTP/1.1\r\nHost: t\r\nContent-Length: 29\r\n\r\n\
    {\"key\":\"Zm9v\",\"value\":\"YmFy\"}";

const REPLY: &str =
    "HTTP/1.1 200 OK\r\nContent-Type: application/json\r\nContent-Length: 76\r\n\r\n\
    {\"header\":{\"cluster_id\":\"1\",\"member_id\":\"1\",\"raft_term\":\"1\",\"revision\":\"2\"}}";

/// The same from a member 4 of a cluster 9.
const OTHER_REPLY: &str =
    "HTTP/1.1 200 OK\r\nContent-Type: application/json\r\nContent-Length: 76\r\n\r\n\
    {\"header\":{\"cluster_id\":\"9\",\"member_id\":\"4\",\"raft_term\":\"1\",\"revision\":\"2\"}}";

/// A server of one connection.
const LEAST: Serve<'static> = Serve {
    listen: "",
    workers: 2,
    connections: 1,
    cluster: 1,
    member: 1,
    from: None,
    control: false,
    recording: None,
};

const CLOSED: &[u8] = b"closed at revision 2\n";

/// How a server of one connection ends, where a client has written one put and closed its sending side
/// before the server accepts, and whether that is answered so.
fn served<R, W: Write>(
    rt: &R,
    (cluster, member): (u64, u64),
    reply: &str,
    said: &mut W,
) -> Result<(Result<(), Fault>, bool), Fail>
where
    R: Net<Listener = TcpListener, Stream = TcpStream>
        + Wait
        + Threads
        + time::Clock
        + AllocGlobal
        + Sync,
{
    let alloc = rt.alloc();
    let listener = TcpListener::bind(rt, "127.0.0.1:0")?;
    let stream = TcpStream::connect(rt, listener.local_addr()?)?;
    let mut peer = &stream;
    peer.write_all(PUT)?;
    stream.shutdown(Shutdown::Write)?;
    let args = Args::Serve(Serve {
        cluster,
        member,
        ..LEAST
    });
    let start = Start {
        listener: &listener,
        script: Vec::new(alloc),
        hears: &Unheard,
    };
    let ended = serve_by(rt, alloc, start, &args, &OpenGate, said);
    let is_answered = io::read_to_string(alloc, peer)?.as_str() == reply;
    Ok((ended, is_answered))
}

#[test]
fn serves_one_connection(rt: HostRuntime) -> Result<(), Fail> {
    let mut said = Vec::new(rt.alloc());
    let ended = served(&rt, (1, 1), REPLY, &mut said)?;
    assert!(rt; matches!(ended, (Ok(()), true)));
    assert!(rt; said.as_slice() == CLOSED);
    Ok(())
}

/// The ids that answer are the cluster's and the member's, each in its place.
#[test]
fn answers_by_its_ids(rt: HostRuntime) -> Result<(), Fail> {
    let mut said = Vec::new(rt.alloc());
    let ended = served(&rt, (9, 4), OTHER_REPLY, &mut said)?;
    assert!(rt; matches!(ended, (Ok(()), true)));
    Ok(())
}

/// A closing line that is cut, or not handed on, is a fault.
#[test]
fn closing_lines_that_fail(rt: HostRuntime) -> Result<(), Fail> {
    let mut cut = small_writer(rt.alloc(), 6, true, true);
    let ended = served(&rt, (1, 1), REPLY, &mut cut)?;
    assert!(rt; matches!(ended, (Err(Fault::Write(_)), true)));
    assert!(rt; cut.got.as_slice() == b"closed".as_slice());
    let mut kept_back = small_writer(rt.alloc(), usize::MAX, true, false);
    let ended = served(&rt, (1, 1), REPLY, &mut kept_back)?;
    assert!(rt; matches!(ended, (Err(Fault::Write(_)), true)));
    assert!(rt; kept_back.got.as_slice() == CLOSED);
    Ok(())
}

/// A line that asks for no event ends it, and its number is told.
#[test]
fn does_not_begin_at_a_bad_line(rt: HostRuntime) -> Result<(), Fail> {
    let bad = b"AT 1\nAT 2\nPUT a\nAT 3\nPUT b\n".as_slice();
    assert!(rt; matches!(check_script(bad), Err(Fault::NoEvent(3))));
    assert!(rt; matches!(check_script(b"\n"), Err(Fault::NoEvent(1))));
    assert!(rt; check_script(b"").is_ok());
    let alloc = rt.alloc();
    let listener = TcpListener::bind(&rt, "127.0.0.1:0")?;
    let start = Start {
        listener: &listener,
        script: bad.to_vec(alloc)?,
        hears: &Unheard,
    };
    let mut said = Vec::new(alloc);
    let ended = serve_by(&rt, alloc, start, &Args::Serve(LEAST), &OpenGate, &mut said);
    assert!(rt; matches!(ended, Err(Fault::NoEvent(3))));
    assert!(rt; said.is_empty());
    Ok(())
}
