//! What the operations of a transaction are answered (the etcd documentation's TxnResponse).
ghost use Rattle.std.specs.Prelude.{◌≡◌, ◌+◌, ◌<◌, ◌^◌, IfOk, OnOk, map, length, option_map, None};
ghost use Rattle.kv_model.specs.History.{value_at};
ghost use Rattle.store_laws.specs.Plans.{ReadsKept};
ghost use Rattle.kv_model.specs.Ranges as ranges;
ghost use Rattle.kv_model.specs.Txns as txns;
ghost use Rattle.range_view.specs.Replies.{kv_view, op_reply_view, replies_view};
ghost use Rattle.txn_core.specs.Emptied.{AreEmptied};
ghost use Rattle.txn_core.specs.Known.{AreKnown};
ghost use Rattle.txn_core.specs.Steps.{step_view, steps_view};

use crate::emptied::{Emptied, live_left, note, settle};
use crate::known::{Known, nothing_known, pass, pass_put, range_reply};
use crate::step::Step;
use kv_model::call::{DeleteRequest, PutRequest};
use kv_model::version::Rev;
use range_view::Tables;
use range_view::reply::{KvRef, OpReply};
use range_view::revision::end_of;
use std::alloc::{AllocError, Global};

/// The answers to the operations of a transaction that ran, in their order, read in the tables that
/// have its changes. The transaction began at the revision `before`, and made its changes at the
/// next; each operation reads what those before it left. No Range of them is refused at `before`.
///
/// `AllocError` comes where a list of answers, of what one of them shows, of the live keys or of the
/// changes found no memory.
///
/// A Range costs what `LiveKeys::range` does: the first walk their keys, and from there on a list of
/// all live keys is made, and again behind the first change, and behind 64 operations in a row that
/// change keys. A put costs what `View::get` does where the key's value before is asked for and
/// nothing where it is not; a delete what `View::live` does, but for the keys of ranges that were
/// deleted before it and are put by no operation, which are walked twice in all, and before the first
/// change what `LiveKeys::live` does. Where the live keys are listed a delete walks its range once
/// more, or is a put looked up, and the place of its keys in the list is found by halving; those
/// behind it move. Keys and values are lent, and none is copied.
pub fn replies<'a>(
    alloc: Global,
    tables: &'a Tables,
    before: u64,
    steps: &[Step<'_>],
) -> Result<Vec<OpReply<'a>>, AllocError>
    requires room { before + 1 < 2 ^ 64 }
    requires reads { ReadsKept tables.now.compacted before (steps_view steps.now) }
    requires changes { txns.changes_of tables.now.versions (before + 1) 0 (steps_view steps.now)
        < 2 ^ 64 }
    ensures { IfOk result (λ rs. replies_view rs.items
        ≡ txns.replies_of tables.now.versions before 0
        (steps_view steps.now)) }
{
    let mut known = nothing_known(alloc, tables, before);
    let (replies, _) = row_replies(alloc, tables, before, 0, steps, &mut known)?;
    Ok(replies)
}

/// The answers to operations in a row, and the number of the next change. The first one stands
/// behind so many changes.
#[cycle(reply)]
fn row_replies<'a, 't>(
    alloc: Global,
    tables: &'a Tables,
    before: u64,
    sub: u64,
    steps: &'t [Step<'_>],
    known: &mut Known<'a, 't>,
) -> Result<(Vec<OpReply<'a>>, u64), AllocError>
    requires room { before + 1 < 2 ^ 64 }
    requires reads { ReadsKept tables.now.compacted before (steps_view steps.now) }
    requires changes { sub + txns.changes_of tables.now.versions (before + 1) sub
        (steps_view steps.now) < 2 ^ 64 }
    requires known { AreKnown tables.now before sub known.old }
    ensures known { IfOk result (λ r. AreKnown tables.now before r.1 known.new) }
    ensures replies { IfOk result (λ r. replies_view r.0.items
        ≡ txns.replies_of tables.now.versions before sub
        (steps_view steps.now)) }
    ensures next { IfOk result (λ r. r.1
        ≡ sub + txns.changes_of tables.now.versions (before + 1) sub (steps_view steps.now)) }
{
    let mut replies = Vec::new(alloc);
    let mut next = sub;
    for step in steps {
        let (reply, after) = step_reply(alloc, tables, before, next, step, known)?;
        replies.push(reply)?;
        next = after;
    }
    Ok((replies, next))
}

/// The answer to an operation that stands behind so many changes, and the number of the next one.
#[cycle(reply)]
fn step_reply<'a, 't>(
    alloc: Global,
    tables: &'a Tables,
    before: u64,
    sub: u64,
    step: &'t Step<'_>,
    known: &mut Known<'a, 't>,
) -> Result<(OpReply<'a>, u64), AllocError>
    requires room { before + 1 < 2 ^ 64 }
    requires reads { ReadsKept tables.now.compacted before (step_view step.now txns.Path.end) }
    requires changes { sub + txns.changes_of tables.now.versions (before + 1) sub
        (step_view step.now txns.Path.end) < 2 ^ 64 }
    requires known { AreKnown tables.now before sub known.old }
    ensures known { IfOk result (λ r. AreKnown tables.now before r.1 known.new) }
    ensures replies { IfOk result (λ r. (rest : txns.Path)
        → op_reply_view r.0
        (txns.replies_of tables.now.versions before r.1 rest)
        ≡ txns.replies_of tables.now.versions before sub
        (step_view step.now rest)) }
    ensures next { IfOk result (λ r. r.1
        ≡ sub + txns.changes_of tables.now.versions (before + 1) sub
        (step_view step.now txns.Path.end)) }
{
    match step {
        Step::Range(query) => Ok((OpReply::Range(range_reply(alloc, query, known)?), sub)),
        Step::Put(put) => {
            let previous = previous(tables, before, sub, put);
            pass_put(alloc, tables, before, sub, put, known)?;
            Ok((OpReply::Put(previous), sub + 1))
        }
        Step::Delete(delete) => {
            let (deleted, previous) = deleted(alloc, tables, before, sub, delete, known)?;
            let next = sub + deleted;
            pass(alloc, tables, before, sub, next, &delete.range, known)?;
            Ok((OpReply::Delete { deleted, previous }, next))
        }
        Step::Inner { succeeded, steps } => {
            let (replies, next) = row_replies(alloc, tables, before, sub, steps, known)?;
            let succeeded = *succeeded;
            Ok((OpReply::Inner { succeeded, replies }, next))
        }
    }
}

/// What the key of a put that stands behind so many changes held before it, where that is asked
/// for.
fn previous<'a>(tables: &'a Tables, before: u64, sub: u64, put: &PutRequest) -> Option<KvRef<'a>>
    requires { before + 1 < 2 ^ 64 }
    ensures { option_map kv_view result
        ≡ txns.previous_value put.now.prev_kv
        (value_at tables.now.versions (txns.place_before (before + 1) sub) put.now.key) }
{
    if !put.prev_kv {
        return None;
    }
    let view = tables.view_before(before, place_before(before, sub));
    view.get(&put.key)
}

/// How many keys a delete that stands behind so many changes took, and what they held where that is
/// asked for.
fn deleted<'a, 't>(
    alloc: Global,
    tables: &'a Tables,
    before: u64,
    sub: u64,
    delete: &'t DeleteRequest,
    known: &mut Known<'a, 't>,
) -> Result<(u64, Vec<KvRef<'a>>), AllocError>
    requires room { before + 1 < 2 ^ 64 }
    requires known { AreKnown tables.now before sub known.old }
    ensures known { OnOk result (AreKnown tables.now before sub known.new) }
    ensures count { IfOk result (λ r. r.0
        ≡ length (ranges.live tables.now.versions
        (txns.place_before (before + 1) sub) delete.now.range)) }
    ensures previous { IfOk result (λ r. map kv_view r.1.items
        ≡ txns.if_asked delete.now.prev_kv
        (ranges.live tables.now.versions (txns.place_before (before + 1) sub) delete.now.range)) }
{
    let kvs = found(alloc, tables, before, sub, delete, known)?;
    note(&mut known.emptied, &delete.range);
    let count = kvs.len() as u64;
    if !delete.prev_kv {
        return Ok((count, Vec::new(alloc)));
    }
    Ok((count, kvs))
}

/// What the live keys hold that a delete finds which stands behind so many changes.
fn found<'a, 't>(
    alloc: Global,
    tables: &'a Tables,
    before: u64,
    sub: u64,
    delete: &'t DeleteRequest,
    known: &mut Known<'a, 't>,
) -> Result<Vec<KvRef<'a>>, AllocError>
    requires room { before + 1 < 2 ^ 64 }
    requires known { AreKnown tables.now before sub known.old }
    ensures known { OnOk result (AreKnown tables.now before sub known.new) }
    ensures kvs { IfOk result (λ kvs. map kv_view kvs.items
        ≡ ranges.live tables.now.versions (txns.place_before (before + 1) sub) delete.now.range) }
{
    if sub == 0 || known.keys.is_listed() {
        return known.keys.live(alloc, &delete.range);
    }
    settle_before(alloc, tables, before, sub, delete, &mut known.emptied)?;
    let view = tables.view_before(before, place_before(before, sub));
    live_left(alloc, &view, &known.emptied, &delete.range)
}

/// Sees whether the range that was deleted last stays empty, where this delete has several keys.
fn settle_before<'a, 't>(
    alloc: Global,
    tables: &'a Tables,
    before: u64,
    sub: u64,
    delete: &'t DeleteRequest,
    emptied: &mut Emptied<'a, 't>,
) -> Result<(), AllocError>
    requires room { before + 1 < 2 ^ 64 }
    requires emptied { AreEmptied tables.now.versions (before + 1) sub emptied.old }
    ensures { OnOk result (AreEmptied tables.now.versions (before + 1) sub emptied.new) }
{
    if delete.range.end.is_empty() {
        return Ok(());
    }
    settle(alloc, tables, before, sub, emptied)
}

/// The place before the change of a number, in the revision after one.
pub(crate) fn place_before(before: u64, sub: u64) -> Rev
    requires { before + 1 < 2 ^ 64 }
    ensures { result ≡ txns.place_before (before + 1) sub }
{
    if sub == 0 {
        return end_of(before);
    }
    Rev {
        main: before + 1,
        sub: sub - 1,
    }
}
