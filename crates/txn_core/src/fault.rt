//! The faults of a transaction that do not depend on the state (etcd: checkTxnRequest).
ghost use Rattle.std.specs.Prelude.{◌≡◌, length};
ghost use Rattle.std.specs.List.{list_any};
ghost use Rattle.std.specs.Option.{option_or};
ghost use Rattle.kv_model.specs.declared.call.Compare.{Compare};
ghost use Rattle.kv_model.specs.Commands.{txn_view, op_view, ops_view};
ghost use Rattle.kv_model.specs.Lists as lists;
ghost use Rattle.kv_model.specs.Ranges as ranges;
ghost use Rattle.kv_model.specs.Txns as txns;

use crate::put::put_fault;
use bytes::Bytes;
use kv_model::call::{Compare, Operation, Txn};
use kv_model::refusal::Refusal;

/// How many transactions may lie in one another.
const MOST_DEPTH: u8 = 8;

/// How many compares, and how many operations of a branch, a transaction may have.
const MOST_OPERATIONS: usize = 1_024;

/// The first fault of a transaction in the order of its document, whatever the state: a transaction
/// before its parts, and of those its compares, the operations on success and those on failure, in
/// branches that do not run too.
///
/// `TooDeep` comes of a ninth transaction in one another, `TooManyOps` of more than 1,024 compares or
/// operations of one branch, `NoKey` of an empty key of a compare or an operation, `ValueGiven` and
/// `LeaseGiven` of a put that brings what it is to keep. Operations that may not run together are
/// not looked for here.
///
/// Linear in the number of compares and operations. Takes no memory.
pub(crate) fn walk_fault(txn: &Txn) -> Option<Refusal>
    ensures { result ≡ txns.walk_fault 0 (txn_view txn.now) }
{
    txn_fault(txn, 0)
}

/// The first fault of a transaction that lies in so many others.
#[cycle(walk)]
fn txn_fault(txn: &Txn, depth: u8) -> Option<Refusal>
    ensures { result ≡ txns.walk_fault depth (txn_view txn.now) }
{
    if depth >= MOST_DEPTH {
        return Some(Refusal::TooDeep);
    }
    let own = own_fault(&txn.compare, &txn.success, &txn.failure);
    if own.is_some() {
        return own;
    }
    let success = row_fault(&txn.success, depth + 1);
    if success.is_some() {
        return success;
    }
    row_fault(&txn.failure, depth + 1)
}

/// The first fault of operations that lie in so many transactions.
#[cycle(walk)]
fn row_fault(row: &Vec<Operation>, depth: u8) -> Option<Refusal>
    ensures { result ≡ txns.walk_fault depth (ops_view row.now.items) }
{
    for operation in row {
        let fault = operation_fault(operation, depth);
        if fault.is_some() {
            return fault;
        }
    }
    None
}

/// The first fault of an operation that lies in so many transactions.
#[cycle(walk)]
fn operation_fault(operation: &Operation, depth: u8) -> Option<Refusal>
    ensures { result ≡ txns.walk_fault depth (op_view operation.now) }
{
    match operation {
        Operation::Range(query) => refuse_if(is_empty(&query.range.key), Refusal::NoKey),
        Operation::Put(put) => put_fault(put),
        Operation::Delete(delete) => refuse_if(is_empty(&delete.range.key), Refusal::NoKey),
        Operation::Inner(txn) => txn_fault(txn, depth),
    }
}

/// The fault of a transaction itself: its sizes, and then its compares.
fn own_fault(compares: &[Compare], success: &[Operation], failure: &[Operation]) -> Option<Refusal>
    ensures { result
        ≡ option_or
        (txns.size_fault (length compares.now) (length success.now) (length failure.now))
        (txns.compares_fault compares.now) }
{
    let size = size_fault(compares.len(), success.len(), failure.len());
    if size.is_some() {
        return size;
    }
    compares_fault(compares)
}

/// The fault of a transaction with so many compares and operations of its branches.
fn size_fault(compares: usize, success: usize, failure: usize) -> Option<Refusal>
    ensures { result ≡ txns.size_fault compares success failure }
{
    let most = MOST_OPERATIONS;
    refuse_if(
        compares > most || success > most || failure > most,
        Refusal::TooManyOps,
    )
}

/// The fault of compares.
fn compares_fault(compares: &[Compare]) -> Option<Refusal>
    ensures { result ≡ txns.compares_fault compares.now }
{
    refuse_if(has_empty_key(compares), Refusal::NoKey)
}

/// Whether the key of some compare is empty.
fn has_empty_key(compares: &[Compare]) -> bool
    ensures { result ≡ list_any (λ (c : Compare). lists.is_empty c.range.key) compares.now }
{
    compares.iter().any(|compare| is_empty(&compare.range.key))
}

fn is_empty(bytes: &Bytes) -> bool
    ensures { result ≡ lists.is_empty bytes.now }
{
    bytes.is_empty()
}

/// The refusal where the test holds.
fn refuse_if(test: bool, fault: Refusal) -> Option<Refusal>
    ensures { result ≡ ranges.refuse_if test fault }
{
    if test { Some(fault) } else { None }
}
