//! Connections of one server that are answered only when the last has been: each holds a thread.
ghost use Rattle.std.specs.Prelude.{◌≡◌, false};

use crate::texts::{LAST_PUT, LAST_PUT_REPLIES, ONES, Still};
use engine_lock::{Engine, EngineName, Opening};
use http_front::{Gate, pool};
use std::alloc::Global;
use std::io::Write;
use std::marker::Brand;
use std::net::{Net, TcpListener, TcpStream};
use std::sync::Wait;
use std::sync::atomic::{AtomicBool, Ordering};
use std::test::Fail;
use std::thread::Threads;
use std::time::Duration;
use std::{io, thread, time};

/// How often the first connection looks whether the second was answered.
const MOST_TURNS: u64 = 1_000_000;

/// Holds the requests of all connections but the last back until the last one's reply is written.
#[derive(Drop)]
struct LastFirst<'x, R: time::Clock> {
    rt: &'x R,
    last: u64,
    last_answered: AtomicBool,
    gave_up: AtomicBool,
}

impl<'x, R: time::Clock> Gate for LastFirst<'x, R> {
    fn before(&self, call: u64) {
        if call == self.last {
            return;
        }
        for _ in 0..MOST_TURNS {
            if self.last_answered.load(Ordering::SeqCst) {
                return;
            }
            thread::sleep(self.rt, Duration::from_micros(10));
        }
        self.gave_up.store(true, Ordering::SeqCst);
    }

    fn after(&self, call: u64) {
        if call == self.last {
            self.last_answered.store(true, Ordering::SeqCst);
        }
    }
}

/// Serves so many connections with as many workers: whether all others were held until the last was
/// answered, and the revision of the core that is left.
fn served<L: EngineName + Send + Sync, R: Wait + Threads + time::Clock + Net + Sync>(
    rt: &R,
    alloc: Global,
    opening: Opening,
    listener: &TcpListener,
    count: u64,
) -> Option<(bool, u64)>
    requires name { opening.name ≡ L.Ledger.name }
    requires parts { opening.parts ≡ L.Ledger.parts }
    requires book { opening.book ≡ L.ListName.book }
    requires recorded { L.recorded ≡ false }
    requires ids { L.ListName.ids ≡ record { cluster = 1; member = 1 } }
{
    let engine = Engine::<L>::new(alloc, opening, ONES);
    let gate = LastFirst {
        rt,
        last: count,
        last_answered: AtomicBool::new(false),
        gave_up: AtomicBool::new(false),
    };
    let ended = pool(rt, alloc, engine, &gate, &Still, listener, count, count);
    let held = !gate.gave_up.load(Ordering::SeqCst);
    match ended {
        Ok(core) => {
            let revision = core.status().revision;
            drop(core);
            Some((held, revision))
        }
        Err(_) => None,
    }
}

fn run_served<R: Wait + Threads + time::Clock + Net + Sync>(
    rt: &R,
    alloc: Global,
    listener: &TcpListener,
    count: u64,
) -> Option<(bool, u64)> {
    let opening = Opening::new(alloc, rt).ok()?;
    served::<Brand, R>(rt, alloc, opening, listener, count)
}

/// Both clients have written a request before the server accepts. One worker that served all
/// connections in turn would hold the first for ever.
#[test]
fn gate_two_connections(rt: HostRuntime) -> Result<(), Fail> {
    let alloc = rt.alloc();
    let listener = TcpListener::bind(&rt, "127.0.0.1:0")?;
    let first = TcpStream::connect(&rt, listener.local_addr()?)?;
    let second = TcpStream::connect(&rt, listener.local_addr()?)?;
    let (mut first, mut second) = (&first, &second);
    first.write_all(LAST_PUT)?;
    second.write_all(LAST_PUT)?;
    assert_eq!(rt; run_served(&rt, alloc, &listener, 2), Some((true, 3)));
    assert!(rt; io::read_to_string(alloc, first)?.as_str() == LAST_PUT_REPLIES[1]);
    assert!(rt; io::read_to_string(alloc, second)?.as_str() == LAST_PUT_REPLIES[0]);
    Ok(())
}

/// Of eight threads no more than have a core look out for connections; seven of them are held, and the
/// eighth connection is answered all the same. A server whose threads that stand by never look would
/// hold it for ever, on fewer than eight cores.
#[test]
fn gate_eight_connections(rt: HostRuntime) -> Result<(), Fail> {
    let alloc = rt.alloc();
    let listener = TcpListener::bind(&rt, "127.0.0.1:0")?;
    let mut streams = Vec::new(alloc);
    for _ in 0..8 {
        let stream = TcpStream::connect(&rt, listener.local_addr()?)?;
        let mut writer = &stream;
        writer.write_all(LAST_PUT)?;
        streams.push(stream)?;
    }
    assert_eq!(rt; run_served(&rt, alloc, &listener, 8), Some((true, 9)));
    let Some(last) = streams.pop() else {
        return Ok(());
    };
    assert!(rt; io::read_to_string(alloc, &last)?.as_str() == LAST_PUT_REPLIES[0]);
    Ok(())
}
