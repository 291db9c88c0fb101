//! The event of a line on an engine, and the line that tells it.
use crate::IDS;
use crate::lines::{Event, event_of};
use crate::telling::{
    shown, tell, tell_expired, tell_number, tell_reply, tell_rev, tell_submitted,
};
use engine_lock::{Client, Engine, EngineName};
use json_gateway::{
    Expiry, Message, Refusal, Reply, ReplyBody, Settled, Trim, declined, dismissed, range_text,
    read,
};
use kv_model::call::{Command, RangeQuery};
use range_view::RangeReply;
use std::alloc::{AllocError, Global};
use std::io::{ErrorKind, Write};
use std::sync::Wait;
use std::{io, str};

/// Makes the event of each line, and writes what it came to.
pub fn answer_lines<L: EngineName, R: Wait, W: Write>(
    rt: &R,
    alloc: Global,
    engine: &Engine<L>,
    client: &mut Client<L>,
    script: &[u8],
    w: &mut W,
) -> io::Result<()> {
    let Ok(text) = str::from_utf8(script) else {
        return Err(io::Error::from(ErrorKind::InvalidData));
    };
    let mut now = 0;
    for line in text.lines() {
        let event = event_of(line);
        if let Event::At(moment) = event {
            now = moment;
        }
        answer(rt, alloc, engine, client, now, event, w)?;
    }
    Ok(())
}

/// Makes an event, and writes what it came to.
fn answer<L: EngineName, R: Wait, W: Write>(
    rt: &R,
    alloc: Global,
    engine: &Engine<L>,
    client: &mut Client<L>,
    now: u64,
    event: Event<'_>,
    w: &mut W,
) -> io::Result<()> {
    match event {
        Event::Post(path, body) => {
            match read(alloc, path.as_bytes(), body.as_bytes()) {
                Ok(command) => command_made(rt, alloc, engine, client, now, command, w),
                Err(bad) => tell_reply(w, client.share(), "unread", &dismissed(alloc, bad)),
            }
        }
        Event::At(moment) => tell_number(w, client.share(), "at", moment),
        Event::Deliver(number) => {
            let told = engine.deliver(rt, client, number);
            tell_message(w, client.share(), &told)
        }
        Event::Close(number) => {
            let ended = engine.drop_watch(rt, client, number);
            tell_closed(w, client.share(), ended)
        }
        Event::Trim => {
            let step = engine.trim_once(rt, client);
            tell_trim(w, client.share(), step)
        }
        Event::Expire => {
            let step = engine.expire_once(rt, client, now);
            tell_expiry(w, client.share(), step)
        }
        Event::Bad => tell(w, client.share(), "bad line"),
    }
}

/// Makes the event of a request that asks for a command, and writes what it came to.
fn command_made<L: EngineName, R: Wait, W: Write>(
    rt: &R,
    alloc: Global,
    engine: &Engine<L>,
    client: &mut Client<L>,
    now: u64,
    command: Command,
    w: &mut W,
) -> io::Result<()> {
    let written = match query_beside(&command) {
        Some(query) => {
            let settled = looked(alloc, client, query);
            tell_reply(w, client.share(), "beside", &settled)
        }
        None => submit(rt, engine, client, now, &command, w),
    };
    drop(command);
    written
}

/// The Range that a command is, where it is serializable.
fn query_beside(command: &Command) -> Option<&RangeQuery> {
    match command {
        Command::Range(query) if query.serializable => Some(query),
        _ => None,
    }
}

/// Submits a command, and writes what it came to.
fn submit<L: EngineName, R: Wait, W: Write>(
    rt: &R,
    engine: &Engine<L>,
    client: &mut Client<L>,
    now: u64,
    command: &Command,
    w: &mut W,
) -> io::Result<()> {
    let submitted = engine.submit(rt, client, now, command);
    tell_submitted(
        w,
        client.share(),
        submitted.published,
        submitted.revision,
        &submitted.outcome.settled,
    )
}

/// Answers a Range from what is published.
fn looked<L: EngineName>(alloc: Global, client: &mut Client<L>, query: &RangeQuery) -> Settled {
    if let Err(refusal) = client.enter() {
        return declined(refusal);
    }
    let settled = match client.range(alloc, query) {
        Ok(reply) => replied(alloc, &reply),
        Err(refusal) => declined(refusal),
    };
    client.leave();
    settled
}

/// How a Range ends that has this reply.
fn replied(alloc: Global, reply: &RangeReply<'_>) -> Settled {
    match range_text(alloc, reply, &IDS) {
        Ok(bytes) => Settled::Reply(Reply {
            status: 200,
            body: ReplyBody::Made(bytes),
        }),
        Err(_) => Settled::Memory,
    }
}

/// Writes what a watch was told.
fn tell_message<W: Write>(
    w: &mut W,
    share: u64,
    told: &Result<Message, AllocError>,
) -> io::Result<()> {
    match told {
        Ok(Message::NoWatch) => tell(w, share, "no watch"),
        Ok(Message::Nothing) => tell(w, share, "nothing"),
        Ok(Message::Text(text)) => tell(w, share, shown(text)),
        Err(_) => tell(w, share, "out of memory"),
    }
}

/// Writes whether a watch was closed.
fn tell_closed<W: Write>(w: &mut W, share: u64, ended: Result<(), Refusal>) -> io::Result<()> {
    match ended {
        Ok(()) => tell(w, share, "closed"),
        Err(_) => tell(w, share, "no watch"),
    }
}

/// Writes what a trimming step did.
fn tell_trim<W: Write>(w: &mut W, share: u64, step: Result<Trim, Refusal>) -> io::Result<()> {
    match step {
        Ok(Trim::Removed(rev)) => tell_rev(w, share, "removed", rev),
        Ok(Trim::Kept(rev)) => tell_rev(w, share, "kept", rev),
        Ok(Trim::Done(count)) => tell_number(w, share, "done", count),
        Err(_) => tell(w, share, "out of memory"),
    }
}

/// Writes what a step of expiry did.
fn tell_expiry<W: Write>(w: &mut W, share: u64, step: Result<Expiry, Refusal>) -> io::Result<()> {
    match step {
        Ok(Expiry::Nothing) => tell(w, share, "nothing"),
        Ok(Expiry::Expired { id, revision, .. }) => tell_expired(w, share, id, revision),
        Err(Refusal::Memory) => tell(w, share, "out of memory"),
        Err(_) => tell(w, share, "revisions are spent"),
    }
}
