//! The fields of a request for a watch.
ghost use Rattle.std.specs.Prelude.{◌≡◌};
ghost use Rattle.gateway_read.specs.Values.{view, items_view};
ghost use Rattle.kv_model.specs.Commands.{call_of};
ghost use Rattle.kv_model.specs.Requests as requests;
ghost use Rattle.gateway_read.specs.Objects.{seen};
ghost use Rattle.gateway_read.specs.Reading.{Gives, Tells};
ghost use Rattle.gateway_read.specs.Watches.{filter_of, with_filter, filters_read};
ghost use Rattle.gateway_read.specs.Watches.{create_read, options_read, watch_with};

use crate::bad::Bad;
use crate::field::Field;
use crate::kinds;
use crate::members::{bytes_field, given, integer_field, list_field, object_under, truth_field};
use crate::object::Object;
use bytes::Bytes;
use json::Value;
use kv_model::call::{Command, Watched};
use kv_model::version::KeyRange;
use std::alloc::Global;

/// Which events a watch is not told of.
#[derive(Clone, Copy)]
enum Filter {
    NoPut,
    NoDelete,
}

const FILTERS: [(&str, Filter); 2] = [("NOPUT", Filter::NoPut), ("NODELETE", Filter::NoDelete)];

/// The filters of a watch together.
#[derive(Clone, Copy)]
struct Filters {
    no_put: bool,
    no_delete: bool,
}

/// What a request for a watch says beside its range.
#[derive(Clone, Copy)]
struct Options {
    start: i64,
    filters: Filters,
    prev_kv: bool,
    id: i64,
}

/// Reads the field `create_request`, an object: `BadField` where there is none. Within it `key`,
/// `range_end`, `start_revision`, `filters`, `prev_kv` and `watch_id`, in this order (the etcd
/// documentation, WatchCreateRequest). The first fault counts: `BadField` or `BadBase64`. `Memory`
/// comes where a growth finds no memory. Linear in the number of filters.
pub(crate) fn watch_request(alloc: Global, object: &Object<'_, '_>) -> Result<Command, Bad>
    ensures { Gives call_of result (requests.watch_request (seen object.now)) }
{
    let create = &create_request(object)?;
    watch_create(alloc, create)
}

/// The object under `create_request`.
#[tactic(auto, unfolding(crate::specs::Fields::snake_of))]
fn create_request<'v, 'a>(object: &Object<'v, 'a>) -> Result<Object<'v, 'a>, Bad>
    ensures { Tells seen result (create_read (seen object.now)) }
{
    match given(object, Field::CreateRequest) {
        Some(value) => object_under(value, Field::CreateRequest),
        None => Err(Bad::BadField(Field::CreateRequest)),
    }
}

/// The watch that the fields within `create_request` ask for.
fn watch_create(alloc: Global, object: &Object<'_, '_>) -> Result<Command, Bad>
    ensures { Gives call_of result (requests.watch_create (seen object.now)) }
{
    let key = bytes_field(alloc, object, Field::Key)?;
    let end = bytes_field(alloc, object, Field::RangeEnd)?;
    let options = options_of(object)?;
    Ok(watch_with(key, end, &options))
}

fn watch_with(key: Bytes, end: Bytes, options: &Options) -> Command
    ensures { call_of result ≡ watch_with key end options.now }
{
    Command::Watch {
        watched: Watched {
            range: KeyRange { key, end },
            no_put: options.filters.no_put,
            no_delete: options.filters.no_delete,
            prev_kv: options.prev_kv,
        },
        start: options.start,
        id: options.id,
    }
}

#[tactic(auto, unfolding(crate::specs::Fields::snake_of, crate::specs::Watches::options_read))]
fn options_of(object: &Object<'_, '_>) -> Result<Options, Bad>
    ensures { Tells (λ options. options) result (options_read (seen object.now)) }
{
    let start = integer_field(object, Field::StartRevision)?;
    let values = list_field(object, Field::Filters)?;
    let filters = filters_of(values)?;
    let prev_kv = truth_field(object, Field::PrevKv)?;
    let id = integer_field(object, Field::WatchId)?;
    Ok(Options {
        start,
        filters,
        prev_kv,
        id,
    })
}

/// The filters that these values name together.
fn filters_of(values: &[Value]) -> Result<Filters, Bad>
    ensures { Tells (λ filters. filters) result (filters_read (items_view values.now)) }
{
    let mut filters = Filters {
        no_put: false,
        no_delete: false,
    };
    for value in values {
        let filter = filter_request(value)?;
        filters = filters.with(filter);
    }
    Ok(filters)
}

impl Filters {
    /// These and one more.
    fn with(self, filter: Filter) -> Self
        ensures { result ≡ with_filter self (filter_of filter) }
    {
        match filter {
            Filter::NoPut => Filters {
                no_put: true,
                ..self
            },
            Filter::NoDelete => Filters {
                no_delete: true,
                ..self
            },
        }
    }
}

/// A filter by its name or its number.
#[tactic(auto, unfolding(crate::specs::Fields::snake_of))]
fn filter_request(value: &Value) -> Result<Filter, Bad>
    ensures { Tells filter_of result (requests.filter_request (view value.now)) }
{
    kinds::enum_of(&FILTERS, value).ok_or(Bad::BadField(Field::Filters))
}
