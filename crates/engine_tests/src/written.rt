//! What an engine writes down of its events.
ghost use Rattle.std.specs.Prelude.{◌≡◌, false, true};

use crate::lock_replies::ONES;
use crate::texts::{GRANT, PUT, WATCH};
use engine_lock::{Asked, Client, Engine, EngineName, Opening, locked};
use json_gateway::read;
use std::alloc::Global;
use std::marker::Brand;
use std::sync::Wait;

/// A watch of a key, a put of it, a grant of one second, one that is refused, since its lease is
/// there, and a put of a second key under the lease.
const REQUESTS: [(&str, &str); 5] = [
    (WATCH, "{\"create_request\":{\"key\":\"YQ==\"}}"),
    (PUT, "{\"key\":\n\"YQ==\"}"),
    (GRANT, "{\"TTL\":\"1\",\"ID\":\"7\"}"),
    (GRANT, "{\"TTL\":\"1\",\"ID\":\"7\"}"),
    (PUT, "{\"key\":\"Yg==\",\"lease\":\"7\"}"),
];

/// Their lines, at the moment 1,000.
const ASKED: &str = "AT 1000\n\
POST /v3/watch {\"create_request\":{\"key\":\"YQ==\"}}\n\
POST /v3/kv/put {\"key\": \"YQ==\"}\n\
POST /v3/lease/grant {\"TTL\":\"1\",\"ID\":\"7\"}\n\
POST /v3/lease/grant {\"TTL\":\"1\",\"ID\":\"7\"}\n\
POST /v3/kv/put {\"key\":\"Yg==\",\"lease\":\"7\"}\n";

/// The lines of what comes then: a delivery, and one that tells nothing; steps of expiry at 1,500,
/// where no lease is due, at 2,000, and there once more; two trimming steps that say Done; the end of
/// the watch, and once more; and a moment alone.
const DONE: &str = "DELIVER 1\nAT 2000\nEXPIRE\nTRIM\nCLOSE 1\n";

/// The lines that were taken, and whether they are all.
type Taken = (Vec<u8>, bool);

/// Makes a request by a client; says whether it was read.
fn requested<L: EngineName, R: Wait>(
    rt: &R,
    alloc: Global,
    engine: &Engine<L>,
    client: &mut Client<L>,
    path: &str,
    body: &str,
) -> bool {
    match read(alloc, path.as_bytes(), body.as_bytes()) {
        Ok(command) => {
            let asked = Asked::by(&command, path.as_bytes(), body.as_bytes());
            drop(engine.submit_request(rt, client, 1000, &asked));
            drop(asked);
            drop(command);
            true
        }
        Err(_) => false,
    }
}

fn request_all<L: EngineName, R: Wait>(
    rt: &R,
    alloc: Global,
    engine: &Engine<L>,
    client: &mut Client<L>,
) {
    for (path, body) in REQUESTS.iter() {
        let _is_read = requested(rt, alloc, engine, client, path, body);
    }
}

fn make_events<L: EngineName, R: Wait>(rt: &R, engine: &Engine<L>, client: &mut Client<L>) {
    drop(engine.deliver(rt, client, 1));
    drop(engine.deliver(rt, client, 1));
    drop(engine.expire_once(rt, client, 1500));
    drop(engine.expire_once(rt, client, 2000));
    drop(engine.expire_once(rt, client, 2000));
    drop(engine.trim_checked(rt, client));
    drop(engine.trim_once(rt, client));
    let _ended = engine.drop_watch(rt, client, 1);
    let _ended_again = engine.drop_watch(rt, client, 1);
    let _clock = engine.moment(rt, client, 3000);
}

/// A command for which there is no request.
fn unasked<L: EngineName, R: Wait>(
    rt: &R,
    alloc: Global,
    engine: &Engine<L>,
    client: &mut Client<L>,
) {
    if let Ok(command) = read(alloc, PUT.as_bytes(), b"{\"key\":\"YQ==\"}".as_slice()) {
        drop(engine.submit(rt, client, 0, &command));
        drop(command);
    }
}

/// Takes the lines of an engine that were not taken yet, and says whether none is missing.
fn taken<L: EngineName, R: Wait>(rt: &R, alloc: Global, engine: &Engine<L>) -> Taken {
    let mut text = Vec::new(alloc);
    let mut taken = locked(rt, engine.taken());
    let is_all = engine.take_lines(rt, &mut *taken, &mut text);
    (text, is_all)
}

/// The lines that are taken behind the requests, behind the other events, and behind a command for
/// which there is no request and one for which there is; each with whether they are all.
fn lines<L: EngineName, R: Wait>(
    rt: &R,
    alloc: Global,
    opening: Opening,
) -> Option<(Taken, Taken, Taken)>
    requires name { opening.name ≡ L.Ledger.name }
    requires parts { opening.parts ≡ L.Ledger.parts }
    requires book { opening.book ≡ L.ListName.book }
    requires recorded { L.recorded ≡ true }
    requires ids { L.ListName.ids ≡ record { cluster = 1; member = 1 } }
{
    let mut engine = Engine::<L>::recorded(alloc, opening, ONES);
    let taken = match engine.client(rt) {
        Ok(client) => Some(lines_by(rt, alloc, &engine, client)),
        Err(_) => None,
    };
    drop(engine);
    taken
}

/// The same, by a client.
fn lines_by<L: EngineName, R: Wait>(
    rt: &R,
    alloc: Global,
    engine: &Engine<L>,
    client: Client<L>,
) -> (Taken, Taken, Taken) {
    let mut client = client;
    request_all(rt, alloc, engine, &mut client);
    let asked = taken(rt, alloc, engine);
    make_events(rt, engine, &mut client);
    let done = taken(rt, alloc, engine);
    unasked(rt, alloc, engine, &mut client);
    request_all(rt, alloc, engine, &mut client);
    drop(client);
    (asked, done, taken(rt, alloc, engine))
}

fn run_lines<R: Wait>(rt: &R, alloc: Global) -> Option<(Taken, Taken, Taken)> {
    let opening = Opening::new(alloc, rt).ok()?;
    lines::<Brand, R>(rt, alloc, opening)
}

#[test]
fn the_lines_of_an_engine_are_a_script(rt: HostRuntime) {
    let taken = run_lines(&rt, rt.alloc());
    assert!(rt; taken.is_some());
    let Some(((asked, is_all), (done, is_all_done), (last, is_all_last))) = taken else {
        return;
    };
    assert!(rt; asked.as_slice() == ASKED.as_bytes());
    assert!(rt; done.as_slice() == DONE.as_bytes());
    assert!(rt; last.is_empty());
    assert!(rt; is_all && is_all_done && !is_all_last);
}

fn unrecorded<L: EngineName, R: Wait>(rt: &R, alloc: Global, opening: Opening) -> Option<Taken>
    requires name { opening.name ≡ L.Ledger.name }
    requires parts { opening.parts ≡ L.Ledger.parts }
    requires book { opening.book ≡ L.ListName.book }
    requires recorded { L.recorded ≡ false }
    requires ids { L.ListName.ids ≡ record { cluster = 1; member = 1 } }
{
    let mut engine = Engine::<L>::new(alloc, opening, ONES);
    let text = match engine.client(rt) {
        Ok(client) => Some(unrecorded_by(rt, alloc, &engine, client)),
        Err(_) => None,
    };
    drop(engine);
    text
}

/// The same, by a client.
fn unrecorded_by<L: EngineName, R: Wait>(
    rt: &R,
    alloc: Global,
    engine: &Engine<L>,
    client: Client<L>,
) -> Taken {
    let mut client = client;
    request_all(rt, alloc, engine, &mut client);
    drop(client);
    taken(rt, alloc, engine)
}

fn run_unrecorded<R: Wait>(rt: &R, alloc: Global) -> Option<Taken> {
    let opening = Opening::new(alloc, rt).ok()?;
    unrecorded::<Brand, R>(rt, alloc, opening)
}

#[test]
fn an_engine_without_a_record_writes_nothing(rt: HostRuntime) {
    let taken = run_unrecorded(&rt, rt.alloc());
    assert!(rt; taken.is_some());
    let Some((text, is_all)) = taken else {
        return;
    };
    assert!(rt; text.is_empty() && !is_all);
}
