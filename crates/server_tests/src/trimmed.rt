//! Trimming goes on beside the connections, whatever was done before.
ghost use Rattle.std.specs.Prelude.{◌≡◌, false};

use crate::texts::{COMPACTED_PUTS, ONES, Still};
use engine_lock::{Engine, EngineName, Opening};
use http_front::{Gate, pool};
use std::alloc::Global;
use std::io::Write;
use std::marker::Brand;
use std::net::{Net, Shutdown, TcpListener, TcpStream};
use std::sync::Wait;
use std::test::Fail;
use std::thread::Threads;
use std::time::Duration;
use std::{thread, time};

/// How long a request is held back, in milliseconds: longer than trimming rests.
const HELD: u64 = 200;

/// Holds each request back for a while.
#[derive(Drop)]
struct Slowly<'x, R: time::Clock> {
    rt: &'x R,
}

impl<'x, R: time::Clock> Gate for Slowly<'x, R> {
    fn before(&self, _call: u64) {
        thread::sleep(self.rt, Duration::from_millis(HELD));
    }

    fn after(&self, _call: u64) {}
}

/// Serves one connection: the revision of the core that is left, and how many versions it has.
fn served<L: EngineName + Send + Sync, R: Wait + Threads + time::Clock + Net + Sync>(
    rt: &R,
    alloc: Global,
    opening: Opening,
    listener: &TcpListener,
) -> Option<(u64, u64)>
    requires name { opening.name ≡ L.Ledger.name }
    requires parts { opening.parts ≡ L.Ledger.parts }
    requires book { opening.book ≡ L.ListName.book }
    requires recorded { L.recorded ≡ false }
    requires ids { L.ListName.ids ≡ record { cluster = 1; member = 1 } }
{
    let engine = Engine::<L>::new(alloc, opening, ONES);
    let gate = Slowly { rt };
    match pool(rt, alloc, engine, &gate, &Still, listener, 2, 1) {
        Ok(core) => {
            let status = core.status();
            drop(core);
            Some((status.revision, status.versions))
        }
        Err(_) => None,
    }
}

fn run_served<R: Wait + Threads + time::Clock + Net + Sync>(
    rt: &R,
    alloc: Global,
    listener: &TcpListener,
) -> Option<(u64, u64)> {
    let opening = Opening::new(alloc, rt).ok()?;
    served::<Brand, R>(rt, alloc, opening, listener)
}

/// Trimming has found nothing to do before the first put; three puts of a key and a compaction at the
/// last of them later it has taken the first version out, without a request that waits for that.
#[test]
fn trimming_goes_on(rt: HostRuntime) -> Result<(), Fail> {
    let alloc = rt.alloc();
    let listener = TcpListener::bind(&rt, "127.0.0.1:0")?;
    let client = TcpStream::connect(&rt, listener.local_addr()?)?;
    let mut peer = &client;
    peer.write_all(COMPACTED_PUTS)?;
    client.shutdown(Shutdown::Write)?;
    assert_eq!(rt; run_served(&rt, alloc, &listener), Some((4, 2)));
    Ok(())
}
