//! The fields of a compaction.
ghost use Rattle.kv_model.specs.Commands.{call_of};
ghost use Rattle.kv_model.specs.Requests as requests;
ghost use Rattle.gateway_read.specs.Objects.{seen};
ghost use Rattle.gateway_read.specs.Reading.{Tells};

use crate::bad::Bad;
use crate::field::Field;
use crate::members::{integer_field, truth_field};
use crate::object::Object;
use kv_model::call::Command;

/// Reads the fields `revision` and `physical`, in this order (the etcd documentation,
/// CompactionRequest). The first fault counts: `BadField`.
#[tactic(auto, unfolding(kv_model::specs::Requests::compact_request, crate::specs::Fields::snake_of))]
pub(crate) fn compact_request(object: &Object<'_, '_>) -> Result<Command, Bad>
    ensures { Tells call_of result (requests.compact_request (seen object.now)) }
{
    let revision = integer_field(object, Field::Revision)?;
    let physical = truth_field(object, Field::Physical)?;
    Ok(Command::Compact { revision, physical })
}
