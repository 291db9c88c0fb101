//! The requests, each from the fields of its object, in the order of the etcd documentation's
//! message.
ghost use Rattle.kv_model.specs.Commands.{call_of};
ghost use Rattle.kv_model.specs.Requests as requests;
ghost use Rattle.gateway_read.specs.Options.{flags_of, bounds_of};
ghost use Rattle.gateway_read.specs.Parts.{completed, call_read, takes_memory};
ghost use Rattle.gateway_read.specs.Objects.{seen};
ghost use Rattle.gateway_read.specs.Reading.{Gives, GivesBy, Tells};

use crate::bad::Bad;
use crate::compacting::compact_request;
use crate::deleting::delete_request;
use crate::field::Field;
use crate::leasing::{grant_request, keep_alive_request, revoke_request, time_to_live_request};
use crate::members::{bytes_field, integer_field, truth_field};
use crate::object::Object;
use crate::pair::key_and_value;
use crate::sorting::{sort_order, sort_target};
use crate::transacting::txn_request;
use crate::watching::watch_request;
use kv_model::call::{Command, PutRequest, RangeQuery};
use kv_model::version::KeyRange;
use std::alloc::Global;

/// What a path asks for.
#[derive(Clone, Copy)]
pub(crate) enum Request {
    Range,
    Put,
    Delete,
    Txn,
    Compact,
    Watch,
    Grant,
    Revoke,
    KeepAlive,
    TimeToLive,
    Leases,
}

/// Reads the fields of a request. The first fault counts. `Memory` comes only where some of them
/// are bytes or lists that are kept.
pub(crate) fn command(
    alloc: Global,
    request: Request,
    object: &Object<'_, '_>,
) -> Result<Command, Bad>
    ensures { GivesBy (takes_memory request) call_of result
        (call_read request (seen object.now)) }
{
    match request {
        Request::Range => Ok(Command::Range(range_query(alloc, object)?)),
        Request::Put => Ok(Command::Put(put_request(alloc, object)?)),
        Request::Delete => Ok(Command::Delete(delete_request(alloc, object)?)),
        Request::Txn => Ok(Command::Txn(txn_request(alloc, object)?)),
        Request::Compact => compact_request(object),
        Request::Watch => watch_request(alloc, object),
        Request::Grant => grant_request(object),
        Request::Revoke => revoke_request(object),
        Request::KeepAlive => keep_alive_request(object),
        Request::TimeToLive => time_to_live_request(object),
        Request::Leases => Ok(Command::Leases),
    }
}

#[tactic(auto, unfolding(kv_model::specs::Requests::range_query, crate::specs::Fields::snake_of))]
pub(crate) fn range_query(alloc: Global, object: &Object<'_, '_>) -> Result<RangeQuery, Bad>
    ensures { Gives (λ query. query) result
        (requests.range_query (seen object.now)) }
{
    let key = bytes_field(alloc, object, Field::Key)?;
    let end = bytes_field(alloc, object, Field::RangeEnd)?;
    let limit = integer_field(object, Field::Limit)?;
    let revision = integer_field(object, Field::Revision)?;
    let order = sort_order(object)?;
    let target = sort_target(object)?;
    let query = RangeQuery {
        range: KeyRange { key, end },
        limit,
        revision,
        order,
        target,
        serializable: false,
        keys_only: false,
        count_only: false,
        min_mod: 0,
        max_mod: 0,
        min_create: 0,
        max_create: 0,
    };
    completed(object, query)
}

/// The query with what is left to read of a Range. Takes no memory.
#[tactic(auto, unfolding(crate::specs::Parts::completed))]
fn completed(object: &Object<'_, '_>, query: RangeQuery) -> Result<RangeQuery, Bad>
    ensures { Tells (λ query. query) result (completed query (seen object.now)) }
{
    let flags = flags_of(object)?;
    let bounds = bounds_of(object)?;
    Ok(RangeQuery {
        serializable: flags.serializable,
        keys_only: flags.keys_only,
        count_only: flags.count_only,
        min_mod: bounds.min_mod,
        max_mod: bounds.max_mod,
        min_create: bounds.min_create,
        max_create: bounds.max_create,
        ..query
    })
}

/// How a Range is answered: by one member alone, by keys without values, by their number alone.
#[derive(Clone, Copy)]
struct Flags {
    serializable: bool,
    keys_only: bool,
    count_only: bool,
}

/// The revisions between which a Range shows a key; 0 sets no bound.
#[derive(Clone, Copy)]
struct Bounds {
    min_mod: i64,
    max_mod: i64,
    min_create: i64,
    max_create: i64,
}

#[tactic(auto, unfolding(crate::specs::Fields::snake_of, crate::specs::Options::flags_of))]
fn flags_of(object: &Object<'_, '_>) -> Result<Flags, Bad>
    ensures { Tells (λ flags. flags) result (flags_of (seen object.now)) }
{
    Ok(Flags {
        serializable: truth_field(object, Field::Serializable)?,
        keys_only: truth_field(object, Field::KeysOnly)?,
        count_only: truth_field(object, Field::CountOnly)?,
    })
}

#[tactic(auto, unfolding(crate::specs::Fields::snake_of, crate::specs::Options::bounds_of))]
fn bounds_of(object: &Object<'_, '_>) -> Result<Bounds, Bad>
    ensures { Tells (λ bounds. bounds) result (bounds_of (seen object.now)) }
{
    Ok(Bounds {
        min_mod: integer_field(object, Field::MinModRevision)?,
        max_mod: integer_field(object, Field::MaxModRevision)?,
        min_create: integer_field(object, Field::MinCreateRevision)?,
        max_create: integer_field(object, Field::MaxCreateRevision)?,
    })
}

#[tactic(auto, unfolding(crate::specs::Fields::snake_of))]
pub(crate) fn put_request(alloc: Global, object: &Object<'_, '_>) -> Result<PutRequest, Bad>
    ensures { Gives (λ request. request) result
        (requests.put_request (seen object.now)) }
{
    let (key, value) = key_and_value(alloc, object)?;
    Ok(PutRequest {
        key,
        value,
        lease: integer_field(object, Field::Lease)?,
        prev_kv: truth_field(object, Field::PrevKv)?,
        ignore_value: truth_field(object, Field::IgnoreValue)?,
        ignore_lease: truth_field(object, Field::IgnoreLease)?,
    })
}
