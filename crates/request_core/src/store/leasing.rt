//! Leases: grant, keepalive, time to live, and the list of them.
ghost use Rattle.kv_model.specs.Leases.{lease_at, keys_of_lease};
ghost use Rattle.kv_model.specs.Ranges.{keys_of};
ghost use Rattle.store_laws.specs.Stores.{granted_lease, refusal_of_grant, reply_of_time_to_live};
ghost use Rattle.kv_model.specs.Told.{Reply};
ghost use Rattle.kv_model.specs.Txns.{if_asked};
ghost use Rattle.range_view.specs.Replies.{kv_view};
ghost use Rattle.request_core.specs.Answers.{answer_view};
ghost use Rattle.std.specs.Prelude.{◌≡◌, unwrap_or, option_map, map, None};
ghost use Rattle.std.specs.Prelude.{IfOk, IfErr, OnOk, OnErr};

use super::Core;
use crate::answer::{Answer, Todo};
use kv_model::refusal::Refusal;
use lease_book::Granted;
use range_view::reply::KvRef;
use std::alloc::{AllocError, Global};

impl Core {
    ghost use Rattle.kv_model.specs.Calls.{Call};
    ghost use Rattle.request_core.specs.State.{after_grant, after_keep_alive};
    ghost use Rattle.request_core.specs.Answers.{IsFault};
    ghost use Rattle.request_core.specs.Commands.{CarriesOut, Refuses};

    /// A grant takes one node of the book.
    pub(crate) fn apply_grant<'c>(&mut self, ttl: i64, id: i64) -> Result<Todo<'c>, Refusal>
        ensures done { IfOk result (λ t. CarriesOut self.old self.new (Call.grant ttl id) t) }
        ensures versions { OnOk result
            (self.new.store.versions ≡ self.old.store.versions) }
        ensures compacted { OnOk result
            (self.new.store.compacted ≡ self.old.store.compacted) }
        ensures refused { IfErr result (λ e. Refuses self.old self.new (Call.grant ttl id) e) }
    {
        match self.grant(ttl, id) {
            Ok(granted) => Ok(Todo::Grant {
                id: granted.id,
                ttl: granted.ttl,
            }),
            Err(refusal) => Err(refusal),
        }
    }

    fn grant(&mut self, ttl: i64, id: i64) -> Result<Granted, Refusal>
        ensures made { IfOk result
            (λ _. (refusal_of_grant self.old.store ttl id ≡ None)
            × (self.new ≡ after_grant self.old ttl id)) }
        ensures answer { IfOk result
            (λ g. (g.id ≡ (granted_lease self.old.store ttl id).id)
            × (g.ttl ≡ (granted_lease self.old.store ttl id).ttl)) }
        ensures refused { IfErr result (λ e. IsFault e (refusal_of_grant self.old.store ttl id)) }
        ensures err { OnErr result (self.new ≡ self.old) }
    {
        self.book.grant(ttl, id)
    }

    /// A keepalive changes nothing where the lease is not granted. Takes no memory.
    pub(crate) fn apply_keep_alive<'c>(&mut self, id: i64) -> Todo<'c>
        ensures done { CarriesOut self.old self.new (Call.keep_alive id) result }
        ensures versions { self.new.store.versions ≡ self.old.store.versions }
        ensures compacted { self.new.store.compacted ≡ self.old.store.compacted }
    {
        let ttl = self.keep_alive(id);
        Todo::KeepAlive { id, ttl }
    }

    fn keep_alive(&mut self, id: i64) -> Option<u64>
        ensures ttl { result ≡ option_map (λ l. l.ttl) (lease_at self.old.store.leases id) }
        ensures made { self.new ≡ after_keep_alive self.old id }
    {
        if !self.book.is_granted(id) {
            return None;
        }
        self.book.keep_alive(id)
    }

    /// A time to live is read for its answer. Takes no memory.
    pub(crate) fn apply_time_to_live<'c>(&self, id: i64, keys: bool) -> Todo<'c>
        ensures { CarriesOut self.now self.now (Call.time_to_live id keys) result }
    {
        Todo::TimeToLive { id, keys }
    }

    /// The IDs are read for the answer. Takes no memory.
    pub(crate) fn apply_leases<'c>(&self) -> Todo<'c>
        ensures { CarriesOut self.now self.now Call.leases result }
    {
        Todo::Leases
    }

    /// The answer to a time to live.
    pub(crate) fn time_to_live(
        &self,
        revision: u64,
        id: i64,
        keys: bool,
    ) -> Result<Answer<'_>, AllocError>
        ensures { IfOk result (λ a. answer_view a ≡ record {
          reply = reply_of_time_to_live self.now.store id keys (lease_at self.now.store.leases id);
          revision = revision;
        }) }
    {
        let left = self.book.time_left(id);
        let keys = self.names_of_lease(id, keys && left.is_some())?;
        Ok(Answer::TimeToLive {
            revision,
            id,
            left,
            keys,
        })
    }

    /// The live keys whose last put names the lease, where they are asked for.
    fn names_of_lease(&self, id: i64, asked: bool) -> Result<Vec<&[u8]>, AllocError>
        ensures { IfOk result
            (λ ks. map (λ k. k.now) ks.items
            ≡ if_asked asked (keys_of_lease self.now.store.versions self.now.store.revision id)) }
    {
        if asked {
            keys_of(self.alloc, &self.keys_of_lease(id)?)
        } else {
            Ok(Vec::new(self.alloc))
        }
    }
}

/// The keys of key-values, lent as they are.
fn keys_of<'a>(alloc: Global, kvs: &[KvRef<'a>]) -> Result<Vec<&'a [u8]>, AllocError>
    ensures { IfOk result (λ ks. map (λ k. k.now) ks.items ≡ keys_of (map kv_view kvs.now)) }
{
    let mut keys = Vec::with_capacity(alloc, kvs.len())?;
    for kv in kvs {
        keys.push(kv.key)?;
    }
    Ok(keys)
}

/// The answer to a grant.
pub fn granted<'a>(revision: u64, id: i64, ttl: u64) -> Answer<'a>
    ensures { answer_view result ≡ record { reply = Reply.grant id ttl; revision = revision } }
{
    Answer::Grant { revision, id, ttl }
}

/// The answer to a keepalive, where the time to live is that of the lease.
pub fn renewed<'a>(revision: u64, id: i64, ttl: Option<u64>) -> Answer<'a>
    ensures { answer_view result
        ≡ record { reply = Reply.keep_alive id (unwrap_or ttl 0); revision = revision } }
{
    Answer::KeepAlive {
        revision,
        id,
        ttl: ttl.unwrap_or(0),
    }
}
