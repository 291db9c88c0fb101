//! The fields of a DeleteRange.
ghost use Rattle.kv_model.specs.Requests as requests;
ghost use Rattle.gateway_read.specs.Objects.{seen};
ghost use Rattle.gateway_read.specs.Reading.{Gives};

use crate::bad::Bad;
use crate::field::Field;
use crate::members::{bytes_field, truth_field};
use crate::object::Object;
use kv_model::call::DeleteRequest;
use kv_model::version::KeyRange;
use std::alloc::Global;

/// Reads the fields `key`, `range_end` and `prev_kv`, in this order (the etcd documentation,
/// DeleteRangeRequest). The first fault counts: `BadField` or `BadBase64`. `Memory` comes where a
/// growth finds no memory.
#[tactic(auto, unfolding(kv_model::specs::Requests::delete_request, crate::specs::Fields::snake_of))]
pub(crate) fn delete_request(alloc: Global, object: &Object<'_, '_>) -> Result<DeleteRequest, Bad>
    ensures { Gives (λ request. request) result
        (requests.delete_request (seen object.now)) }
{
    let key = bytes_field(alloc, object, Field::Key)?;
    let end = bytes_field(alloc, object, Field::RangeEnd)?;
    let prev_kv = truth_field(object, Field::PrevKv)?;
    Ok(DeleteRequest {
        range: KeyRange { key, end },
        prev_kv,
    })
}
