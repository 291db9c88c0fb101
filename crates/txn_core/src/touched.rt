//! What the operations of a transaction change.
ghost use Rattle.std.specs.Prelude.{◌≡◌, ◌∷◌, [], ◌++◌, map, OnOk};
ghost use Rattle.kv_model.specs.Commands.{txn_view, op_view, ops_view};
ghost use Rattle.kv_model.specs.Txns.{touches};
ghost use Rattle.txn_core.specs.Views.{touch_view};

use bytes::Bytes;
use kv_model::call::{Operation, Txn};
use kv_model::version::KeyRange;
use std::alloc::AllocError;

/// The key that a put changes, or the range of which a delete changes the keys.
#[derive(Clone, Copy)]
pub(crate) enum Touched<'a> {
    Put(&'a Bytes),
    Deleted(&'a KeyRange),
}

/// Adds what a transaction may change, in either branch, in the order of the document.
#[cycle(touch)]
pub(crate) fn push_txn<'a>(out: &mut Vec<Touched<'a>>, txn: &'a Txn) -> Result<(), AllocError>
    ensures { OnOk result
        (map touch_view out.new.items
        ≡ map touch_view out.old.items ++ touches (txn_view txn.now)) }
{
    push_row(out, &txn.success)?;
    push_row(out, &txn.failure)
}

/// Adds what operations may change.
#[cycle(touch)]
pub(crate) fn push_row<'a>(
    out: &mut Vec<Touched<'a>>,
    row: &'a Vec<Operation>,
) -> Result<(), AllocError>
    ensures { OnOk result
        (map touch_view out.new.items
        ≡ map touch_view out.old.items ++ touches (ops_view row.now.items)) }
{
    for operation in row {
        push_operation(out, operation)?;
    }
    Ok(())
}

/// Adds what an operation may change.
#[cycle(touch)]
pub(crate) fn push_operation<'a>(
    out: &mut Vec<Touched<'a>>,
    operation: &'a Operation,
) -> Result<(), AllocError>
    ensures { OnOk result
        (map touch_view out.new.items
        ≡ map touch_view out.old.items ++ touches (op_view operation.now)) }
{
    match operation {
        Operation::Range(_) => Ok(()),
        Operation::Put(put) => push(out, Touched::Put(&put.key)),
        Operation::Delete(delete) => push(out, Touched::Deleted(&delete.range)),
        Operation::Inner(txn) => push_txn(out, txn),
    }
}

fn push<'a>(out: &mut Vec<Touched<'a>>, touched: Touched<'a>) -> Result<(), AllocError>
    ensures { OnOk result
        (map touch_view out.new.items
        ≡ map touch_view out.old.items ++ touch_view touched.entry ∷ []) }
{
    out.push(touched)?;
    Ok(())
}
