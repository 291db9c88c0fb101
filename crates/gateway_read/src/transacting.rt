//! The fields of a transaction, and of those within it.
ghost use Rattle.std.specs.Prelude.{◌≡◌, option_map};
ghost use Rattle.gateway_read.specs.Values.{view, items_view};
ghost use Rattle.kv_model.specs.Commands.{txn_view, op_view, ops_view};
ghost use Rattle.kv_model.specs.Requests as requests;
ghost use Rattle.gateway_read.specs.Fields.{snake_of};
ghost use Rattle.gateway_read.specs.Objects.{seen};
ghost use Rattle.gateway_read.specs.Reading.{Gives, Tells};
ghost use Rattle.gateway_read.specs.Transactions.{message_of, only_of, kind_read};
ghost use Rattle.gateway_read.specs.Transactions.{operations_read, compares_read};

use crate::bad::Bad;
use crate::comparing::compare_request;
use crate::deleting::delete_request;
use crate::field::Field;
use crate::members::{given, list_field, object_under};
use crate::object::Object;
use crate::requests::{put_request, range_query};
use json::Value;
use kv_model::call::{Compare, Operation, Txn};
use std::alloc::Global;

/// How many transactions may lie in one another: more than a JSON text nests.
const MOST_NESTED: u8 = 127;

/// What an operation asks for, with the object of its fields.
#[derive(Drop)]
enum Kind<'v, 'a> {
    Range(Object<'v, 'a>),
    Put(Object<'v, 'a>),
    Delete(Object<'v, 'a>),
    Inner(Object<'v, 'a>),
}

/// Reads the fields `compare`, `success` and `failure`, in this order (the etcd documentation,
/// TxnRequest), and the transactions that lie within. The first fault counts: `BadField` or
/// `BadBase64`. An operation is of one kind, or it is `BadField` of its list. `Memory` comes where
/// a growth finds no memory. Linear in the number of compares and operations.
pub(crate) fn txn_request(alloc: Global, object: &Object<'_, '_>) -> Result<Txn, Bad>
    ensures { Gives txn_view result
        (requests.txn_request requests.most_nested (seen object.now)) }
{
    txn_within(alloc, object, MOST_NESTED)
}

/// The transaction, where so many may lie in one another.
#[cycle(transacting)]
#[tactic(auto, unfolding(crate::specs::Fields::snake_of))]
fn txn_within(alloc: Global, object: &Object<'_, '_>, depth: u8) -> Result<Txn, Bad>
    ensures { Gives txn_view result
        (requests.txn_request depth (seen object.now)) }
{
    if depth == 0 {
        return Err(Bad::NotJson);
    }
    let compare = compares(alloc, object)?;
    let success = branch(alloc, object, Field::Success, depth - 1)?;
    let failure = branch(alloc, object, Field::Failure, depth - 1)?;
    Ok(Txn {
        compare,
        success,
        failure,
    })
}

/// The operations of a list, where so many transactions may lie in one another.
#[cycle(transacting)]
fn branch(
    alloc: Global,
    object: &Object<'_, '_>,
    list: Field,
    depth: u8,
) -> Result<Vec<Operation>, Bad>
    ensures { Gives (λ operations. ops_view operations.items) result
        (requests.branch (requests.txn_request depth) (snake_of list) (seen object.now)) }
{
    let values = list_field(object, list)?;
    operations(alloc, values, list, depth)
}

/// The operations that these values of a list ask for, where so many transactions may lie in one
/// another.
#[cycle(transacting)]
fn operations(
    alloc: Global,
    values: &[Value],
    list: Field,
    depth: u8,
) -> Result<Vec<Operation>, Bad>
    ensures { Gives (λ operations. ops_view operations.items) result
        (operations_read (requests.txn_request depth) (snake_of list) (items_view values.now)) }
{
    let mut operations = Vec::with_capacity(alloc, values.len())?;
    for value in values {
        let operation = operation(alloc, value, list, depth)?;
        operations.push(operation)?;
    }
    Ok(operations)
}

/// An operation of a list, where so many transactions may lie in one another.
#[cycle(transacting)]
fn operation(alloc: Global, value: &Value, list: Field, depth: u8) -> Result<Operation, Bad>
    ensures { Gives op_view result
        (requests.operation (requests.txn_request depth) (snake_of list) (view value.now)) }
{
    match kind_of(value, list)? {
        Kind::Range(object) => Ok(Operation::Range(range_query(alloc, &object)?)),
        Kind::Put(object) => Ok(Operation::Put(put_request(alloc, &object)?)),
        Kind::Delete(object) => Ok(Operation::Delete(delete_request(alloc, &object)?)),
        Kind::Inner(object) => Ok(Operation::Inner(txn_within(alloc, &object, depth)?)),
    }
}

/// The one kind of an operation of a list.
fn kind_of<'v, 'a>(value: &'v Value<'a>, list: Field) -> Result<Kind<'v, 'a>, Bad>
    ensures { Tells message_of result (kind_read (snake_of list) (view value.now)) }
{
    let object = &object_under(value, list)?;
    let range = given(object, Field::RequestRange);
    let put = given(object, Field::RequestPut);
    let delete = given(object, Field::RequestDeleteRange);
    let inner = given(object, Field::RequestTxn);
    only_kind(list, range, put, delete, inner)
}

/// The kind of the one value that is given, or `BadField` of the list.
#[tactic(auto, unfolding(crate::specs::Fields::snake_of))]
fn only_kind<'v, 'a>(
    list: Field,
    range: Option<&'v Value<'a>>,
    put: Option<&'v Value<'a>>,
    delete: Option<&'v Value<'a>>,
    inner: Option<&'v Value<'a>>,
) -> Result<Kind<'v, 'a>, Bad>
    ensures { Tells message_of result
        (only_of (snake_of list) (option_map (λ v. view v.now) range.entry)
        (option_map (λ v. view v.now) put.entry)
        (option_map (λ v. view v.now) delete.entry) (option_map (λ v. view v.now) inner.entry)) }
{
    match (range, put, delete, inner) {
        (Some(range), None, None, None) => {
            Ok(Kind::Range(object_under(range, Field::RequestRange)?))
        }
        (None, Some(put), None, None) => Ok(Kind::Put(object_under(put, Field::RequestPut)?)),
        (None, None, Some(delete), None) => Ok(Kind::Delete(object_under(
            delete,
            Field::RequestDeleteRange,
        )?)),
        (None, None, None, Some(inner)) => {
            Ok(Kind::Inner(object_under(inner, Field::RequestTxn)?))
        }
        _ => Err(Bad::BadField(list)),
    }
}

#[tactic(auto, unfolding(crate::specs::Fields::snake_of))]
fn compares(alloc: Global, object: &Object<'_, '_>) -> Result<Vec<Compare>, Bad>
    ensures { Gives (λ compares. compares.items) result
        (compares_read (seen object.now)) }
{
    let values = list_field(object, Field::Compare)?;
    compares_of(alloc, values)
}

fn compares_of(alloc: Global, values: &[Value]) -> Result<Vec<Compare>, Bad>
    ensures { Gives (λ compares. compares.items) result
        (requests.each requests.compare_request (items_view values.now)) }
{
    let mut compares = Vec::with_capacity(alloc, values.len())?;
    for value in values {
        let compare = compare_request(alloc, value)?;
        compares.push(compare)?;
    }
    Ok(compares)
}
