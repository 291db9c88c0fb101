//! An engine answers a connection whose streams go on elsewhere.
ghost use Rattle.std.specs.Prelude.{◌≡◌, ◌<◌, None};
ghost use Rattle.engine_lock.specs.Locked.{naming};
ghost use Rattle.http_connections.specs.Handing as handing;
ghost use Rattle.http_connections.specs.Lines.{TrimsSome};

use crate::by_engine::ByEngine;
use crate::trimming::{Trimmed, trim_some};
use engine_lock::{Client, EngineName};
use gateway_read::Reading;
use http_input::Request;
use http_loop::{Answering, Told};
use http_peer::{Clock, Gate};
use json_gateway::Outcome;
use recorded_engine::GatedEngine;
use std::alloc::Global;
use std::marker::Model;
use std::sync::Wait;
use std::time;

/// A client that answers connections, and the watch whose stream goes on elsewhere, if there is one.
#[derive(Drop)]
pub struct Serving<L: EngineName> {
    pub client: Client<L>,
    pub handed: Option<u64>,
    /// The store's revision behind the last request.
    pub revision: u64,
    /// What is kept from one body to the next.
    reading: Reading,
}

impl<L: EngineName> Model for Serving<L> {
    ghost use Rattle.std.specs.Coded.{codes};
    ghost use Rattle.kv_model.specs.contracts.call.Command as commands;
    ghost use Rattle.snapshot_feed.specs.contracts.reader.SnapReader as reads;
    ghost use Rattle.http_connections.specs.Handing.{Hands};

    ghost Value = { Hands };

    ghost coded = { Prim.hlevel (codes, commands.the_row.coded, reads.the_row.coded) };

    ghost view = { λ s. record { client = s.client; handed = s.handed; revision = s.revision } };
}

impl<L: EngineName> Serving<L> {
    /// Nothing goes on elsewhere yet.
    pub fn new(alloc: Global, client: Client<L>) -> Self
        ensures { result ≡ record { client = client; handed = None; revision = 0 } }
    {
        Serving {
            client,
            handed: None,
            revision: 0,
            reading: Reading::new(alloc),
        }
    }

    /// Begins with a connection of this number: each next event is about it, and no stream of it goes on
    /// elsewhere yet.
    pub(crate) fn begin(&mut self, call: u64)
        ensures { self.new ≡ record self.old { client = naming self.old.client call; handed = None } }
    {
        self.client.set_about(call);
        self.handed = None;
    }

    /// Makes at most 100 trimming steps, as [`trim_some`] does.
    pub(crate) fn trim<G: Gate, R: Wait>(
        &mut self,
        events: &GatedEngine<'_, L, G, R>,
        refusals: u64,
    ) -> Trimmed
        requires { refusals < 1000 }
        ensures trims { TrimsSome events.now.engine.now.ids self.old.client refusals result self.new.client }
        ensures rest { self.new ≡ record self.old { client = self.new.client } }
    {
        trim_some(events, &mut self.client, refusals)
    }
}

/// What answers a connection, as [`ByEngine`] does, but for its streams: behind the created message
/// such a one goes on elsewhere; and but for answers that wait for trimming: that is not done here.
#[derive(Drop)]
pub struct ByWorker<'e, L: EngineName, G, C, R> {
    pub by: ByEngine<'e, L, G, C, R>,
}

impl<'e, L, G, C, R> Answering<Serving<L>> for ByWorker<'e, L, G, C, R>
where
    L: EngineName,
    G: Gate,
    C: Clock,
    R: Wait + time::Clock,
{
    ghost Answers = { λ w. handing.Answers w.by.events.engine.now.ids L.recorded (C.Tells w.by.clock.now) };

    ghost Tells = { λ w. handing.Tells };

    ghost Finishes = { λ w. handing.Finishes w.by.events.engine.now.ids };

    fn awaits(&self) {
        Answering::<Client<L>>::awaits(&self.by);
    }

    /// The trimming that an outcome waits for is not done yet.
    fn answer(&self, alloc: Global, state: &mut Serving<L>, request: &Request<'_>) -> Outcome {
        let Serving {
            client,
            reading,
            ..
        } = state;
        let submitted = self.by.begin(alloc, client, reading, request);
        state.revision = submitted.revision;
        submitted.outcome
    }

    /// The stream goes on elsewhere.
    fn tell(&self, _alloc: Global, state: &mut Serving<L>, number: u64) -> Told {
        state.handed = Some(number);
        Told::Away
    }

    /// The watch is ended where its stream does not go on elsewhere.
    fn finish(&self, state: &mut Serving<L>, watch: Option<u64>) {
        match state.handed {
            None => self.by.finish(&mut state.client, watch),
            Some(_) => {}
        }
    }
}
