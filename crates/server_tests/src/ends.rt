//! Servers that let no connection in.
ghost use Rattle.std.specs.Prelude.{◌≡◌, false};

use crate::texts::{ONES, Still};
use engine_lock::{Engine, EngineName, Opening};
use http_front::{OpenGate, pool};
use http_reply::Front;
use std::alloc::Global;
use std::marker::Brand;
use std::net::{Net, TcpListener};
use std::sync::Wait;
use std::test::Fail;
use std::thread::Threads;
use std::time;

/// How a server with so many workers ends: by the revision of the core that is left.
fn ended<L: EngineName + Send + Sync, R: Wait + Threads + time::Clock + Net + Sync>(
    rt: &R,
    alloc: Global,
    opening: Opening,
    listener: &TcpListener,
    workers: u64,
) -> Result<u64, Front>
    requires name { opening.name ≡ L.Ledger.name }
    requires parts { opening.parts ≡ L.Ledger.parts }
    requires book { opening.book ≡ L.ListName.book }
    requires recorded { L.recorded ≡ false }
    requires ids { L.ListName.ids ≡ record { cluster = 1; member = 1 } }
{
    let engine = Engine::<L>::new(alloc, opening, ONES);
    match pool(rt, alloc, engine, &OpenGate, &Still, listener, workers, 0) {
        Ok(core) => {
            let revision = core.status().revision;
            drop(core);
            Ok(revision)
        }
        Err(front) => Err(front),
    }
}

fn run_ended<R: Wait + Threads + time::Clock + Net + Sync>(
    rt: &R,
    alloc: Global,
    listener: &TcpListener,
    workers: u64,
) -> Result<u64, Front> {
    match Opening::new(alloc, rt) {
        Ok(opening) => ended::<Brand, R>(rt, alloc, opening, listener, workers),
        Err(_) => Err(Front::Memory),
    }
}

/// An engine has 64 places for clients, of which the threads for leases, for streams and for trimming
/// take one each.
#[test]
fn workers_that_have_no_place(rt: HostRuntime) -> Result<(), Fail> {
    let alloc = rt.alloc();
    let listener = TcpListener::bind(&rt, "127.0.0.1:0")?;
    assert_eq!(rt; run_ended(&rt, alloc, &listener, 0), Ok(1));
    assert_eq!(rt; run_ended(&rt, alloc, &listener, 61), Ok(1));
    assert_eq!(rt; run_ended(&rt, alloc, &listener, 62), Err(Front::Unclosed));
    Ok(())
}
