//! Operations of a transaction that may not run together.
ghost use Rattle.std.specs.Prelude.{◌≡◌, true, false, map, IfOk};
ghost use Rattle.std.specs.List.{list_any};
ghost use Rattle.kv_model.specs.Commands.{txn_view, op_view, ops_view};
ghost use Rattle.kv_model.specs.Txns.{Touch};
ghost use Rattle.kv_model.specs.Txns as txns;
ghost use Rattle.txn_core.specs.Touching as touching;
ghost use Rattle.txn_core.specs.Touching.{OppositeBranchesDoNotClash, PutsAreAlone};
ghost use Rattle.txn_core.specs.Views.{touch_view, keys_view, AreSorted};

use crate::keys::{count, sorted_keys};
use crate::touched::{Touched, push_operation, push_row, push_txn};
use bytes::Bytes;
use kv_model::call::{Operation, Txn};
use std::alloc::{AllocError, Global};

/// Whether two operations that can run together change a key in common, at least one of them by a
/// put. Two can run together unless they lie in opposite branches of one transaction.
///
/// Where no key that is put is touched by any other operation of the transaction, nothing clashes:
/// that takes n log n comparisons of keys in the number of operations, at whatever levels they
/// stand. Else each level is looked into. The memory is linear, and the error is want of it.
pub(crate) fn any_clash(alloc: Global, txn: &Txn) -> Result<bool, AllocError>
    ensures { IfOk result (λ b. b ≡ txns.clashes (txn_view txn.now)) }
{
    if meets_nothing(alloc, txn)? {
        return Ok(false);
    }
    clashes(alloc, txn)
}

/// Whether no operation, in whichever branch, touches a key that another one puts.
fn meets_nothing(alloc: Global, txn: &Txn) -> Result<bool, AllocError>
    ensures { IfOk result (λ b. b ≡ touching.meets_none (txns.touches (txn_view txn.now))) }
{
    let mut touched = Vec::new(alloc);
    push_txn(&mut touched, txn)?;
    let keys = sorted_keys(alloc, &touched)?;
    Ok(!meets_others(&touched, &keys))
}

/// Whether some of what is touched touches another number of the keys than it puts.
fn meets_others(touched: &[Touched<'_>], keys: &[&Bytes]) -> bool
    requires { AreSorted keys.now }
    ensures { result ≡ list_any (λ t.
        touching.touches_others (keys_view keys.now) (touch_view t)) touched.now }
{
    touched.iter().any(|t| count(*t, keys) != own_count(*t))
}

/// How many keys an operation puts.
fn own_count(touched: Touched<'_>) -> usize
    ensures { result ≡ touching.own_of (touch_view touched.entry) }
{
    match touched {
        Touched::Put(_) => 1,
        Touched::Deleted(_) => 0,
    }
}

/// The same, looked for at each level.
///
/// For each row of operations the keys that are put in it are sorted, and so are those that each of
/// its operations puts. Two of the operations collide where one touches more of the row's keys than
/// of its own, which halving counts. So the time is n log n in the number of operations for each
/// level of transactions, and the memory linear. The error is want of it.
#[cycle(clash)]
fn clashes(alloc: Global, txn: &Txn) -> Result<bool, AllocError>
    ensures { IfOk result (λ b. b ≡ txns.clashes (txn_view txn.now)) }
{
    if row_clashes(alloc, &txn.success)? {
        return Ok(true);
    }
    row_clashes(alloc, &txn.failure)
}

#[cycle(clash)]
fn row_clashes(alloc: Global, row: &Vec<Operation>) -> Result<bool, AllocError>
    ensures { IfOk result (λ b. b ≡ txns.clashes (ops_view row.now.items)) }
{
    if row_collides(alloc, row)? {
        return Ok(true);
    }
    for operation in row {
        if operation_clashes(alloc, operation)? {
            return Ok(true);
        }
    }
    Ok(false)
}

#[cycle(clash)]
fn operation_clashes(alloc: Global, operation: &Operation) -> Result<bool, AllocError>
    ensures { IfOk result (λ b. b ≡ txns.clashes (op_view operation.now)) }
{
    match operation {
        Operation::Range(_) => Ok(false),
        Operation::Put(_) => Ok(false),
        Operation::Delete(_) => Ok(false),
        Operation::Inner(txn) => clashes(alloc, txn),
    }
}

/// Whether two operations of the row, or operations within two of them, collide.
fn row_collides(alloc: Global, row: &Vec<Operation>) -> Result<bool, AllocError>
    ensures { IfOk result (λ b. b
        ≡ touching.some_collide (map (λ o. txns.touches (op_view o)) row.now.items)) }
{
    let all = row_keys(alloc, row)?;
    for operation in row {
        if meets_more(alloc, &all, operation)? {
            return Ok(true);
        }
    }
    Ok(false)
}

/// The keys that the operations of a row put, those within them too, in order.
fn row_keys<'a>(alloc: Global, row: &'a Vec<Operation>) -> Result<Vec<&'a Bytes>, AllocError>
    ensures counts { IfOk result (λ v. (t : Touch) → touching.count_touched t (keys_view v.items)
        ≡ touching.count_touched t (touching.keys_put (txns.touches (ops_view row.now.items)))) }
    ensures sorted { IfOk result (λ v. AreSorted v.items) }
{
    let mut touched = Vec::new(alloc);
    push_row(&mut touched, row)?;
    sorted_keys(alloc, &touched)
}

/// Whether an operation touches more of all the keys than of those that it puts.
fn meets_more(alloc: Global, all: &[&Bytes], operation: &Operation) -> Result<bool, AllocError>
    requires { AreSorted all.now }
    ensures { IfOk result (λ b. b
        ≡ touching.meets_more (keys_view all.now) (txns.touches (op_view operation.now))) }
{
    let mut touched = Vec::new(alloc);
    push_operation(&mut touched, operation)?;
    let own = sorted_keys(alloc, &touched)?;
    Ok(any_more(&touched, all, &own))
}

/// Whether what is touched touches more of all the keys than of its own.
fn any_more(touched: &[Touched<'_>], all: &[&Bytes], own: &[&Bytes]) -> bool
    requires all { AreSorted all.now }
    requires own { AreSorted own.now }
    ensures { result
        ≡ list_any (λ t.
        touching.touches_more (keys_view all.now) (keys_view own.now) (touch_view t)) touched.now }
{
    touched.iter().any(|t| count(*t, all) != count(*t, own))
}

/// What the branches of a transaction change is not held against each other.
pub fn opposite_branches_do_not_clash()
    ensures { OppositeBranchesDoNotClash }
{}

/// Where nothing clashes, a key that is put is changed by no other operation that runs.
pub fn puts_are_alone()
    ensures { PutsAreAlone }
{}
