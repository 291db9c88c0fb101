//! The lease requests, each from the fields of its object.
ghost use Rattle.kv_model.specs.Calls.{Call};
ghost use Rattle.kv_model.specs.Commands.{call_of};
ghost use Rattle.kv_model.specs.Requests as requests;
ghost use Rattle.gateway_read.specs.Objects.{seen};
ghost use Rattle.gateway_read.specs.Reading.{Tells};

use crate::bad::Bad;
use crate::field::Field;
use crate::members::{integer_field, truth_field};
use crate::object::Object;
use kv_model::call::Command;

/// Reads the fields `TTL` and `ID`, in this order (the etcd documentation, LeaseGrantRequest). The
/// first fault counts: `BadField`.
#[tactic(auto, unfolding(kv_model::specs::Requests::grant_request, crate::specs::Fields::snake_of))]
pub(crate) fn grant_request(object: &Object<'_, '_>) -> Result<Command, Bad>
    ensures { Tells call_of result (requests.grant_request (seen object.now)) }
{
    let ttl = integer_field(object, Field::Ttl)?;
    let id = integer_field(object, Field::Id)?;
    Ok(Command::Grant { ttl, id })
}

/// Reads the field `ID` of a LeaseRevoke. Its fault is `BadField`.
#[tactic(auto, unfolding(crate::specs::Fields::snake_of))]
pub(crate) fn revoke_request(object: &Object<'_, '_>) -> Result<Command, Bad>
    ensures { Tells call_of result
        (requests.id_request Call.revoke (seen object.now)) }
{
    let id = integer_field(object, Field::Id)?;
    Ok(Command::Revoke { id })
}

/// Reads the field `ID` of a LeaseKeepAlive. Its fault is `BadField`.
#[tactic(auto, unfolding(crate::specs::Fields::snake_of))]
pub(crate) fn keep_alive_request(object: &Object<'_, '_>) -> Result<Command, Bad>
    ensures { Tells call_of result
        (requests.id_request Call.keep_alive (seen object.now)) }
{
    let id = integer_field(object, Field::Id)?;
    Ok(Command::KeepAlive { id })
}

/// Reads the fields `ID` and `keys`, in this order (the etcd documentation,
/// LeaseTimeToLiveRequest). The first fault counts: `BadField`.
#[tactic(auto, unfolding(kv_model::specs::Requests::time_to_live_request, crate::specs::Fields::snake_of))]
pub(crate) fn time_to_live_request(object: &Object<'_, '_>) -> Result<Command, Bad>
    ensures { Tells call_of result
        (requests.time_to_live_request (seen object.now)) }
{
    let id = integer_field(object, Field::Id)?;
    let keys = truth_field(object, Field::Keys)?;
    Ok(Command::TimeToLive { id, keys })
}
