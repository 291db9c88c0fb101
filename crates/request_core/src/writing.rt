//! What a put makes of a key, and a delete of the live keys of a range.
ghost use Rattle.std.specs.Option.{option_or};
ghost use Rattle.std.specs.Prelude.{◌≡◌, [], ◌∷◌, map, Some, None, option_map, IfOk, vec_capacity};
ghost use Rattle.kv_model.specs.Ranges.{refuse_if};
ghost use Rattle.kv_model.specs.Txns as txns;
ghost use Rattle.range_view.specs.Replies.{kv_view};
ghost use Rattle.request_core.specs.Writing as writing;
ghost use Rattle.txn_core.specs.KeyWrites as writes;

use kv_model::call::PutRequest;
use kv_model::refusal::Refusal;
use kv_model::version::{Rev, Version};
use range_view::reply::KvRef;
use std::alloc::{AllocError, Global};
use txn_core::{held_refusal, put_fault, put_version, tombstone};

/// The first refusal of a put whose key holds this, if there is one, by whether the lease that it
/// names is granted; that of spent revisions comes last.
pub fn fault_of_put(
    request: &PutRequest,
    held: Option<KvRef<'_>>,
    is_granted: bool,
    is_spent: bool,
) -> Option<Refusal>
    ensures { result ≡ option_or (option_or (txns.put_fault request.now)
        (writes.held_refusal (λ _. is_granted) request.now (option_map kv_view held.entry)))
        (refuse_if is_spent Refusal.RevisionsSpent) }
{
    if let Some(refusal) = put_fault(request) {
        return Some(refusal);
    }
    if let Some(refusal) = held_refusal(request, held, is_granted) {
        return Some(refusal);
    }
    if is_spent {
        Some(Refusal::RevisionsSpent)
    } else {
        None
    }
}

/// The version that a put makes at a place of a key that holds this, in a list of its own, which has
/// the memory of one version.
pub fn put_versions(
    alloc: Global,
    rev: Rev,
    request: &PutRequest,
    held: Option<KvRef<'_>>,
) -> Result<Vec<Version>, AllocError>
    requires { writes.CanCount (option_map kv_view held) }
    ensures made { IfOk result
        (λ vs. vs.items ≡ writes.put_version rev request.now (option_map kv_view held.entry) ∷ []) }
    ensures room { IfOk result (λ vs. vec_capacity vs ≡ 1) }
{
    let mut versions = Vec::with_capacity(alloc, 1)?;
    versions.insert(0, put_version(alloc, rev, request, held)?)?;
    Ok(versions)
}

/// The tombstones of live keys at a revision, numbered from 0 in the order of the keys, which are
/// copied.
pub fn tombstones(alloc: Global, main: u64, live: &[KvRef<'_>]) -> Result<Vec<Version>, AllocError>
    ensures { IfOk result (λ vs. vs.items ≡ writing.tombstones main 0 (map kv_view live.now)) }
{
    let mut versions = Vec::with_capacity(alloc, live.len())?;
    for (sub, kv) in live.iter().enumerate() {
        let sub = sub as u64;
        versions.push(tombstone(alloc, Rev { main, sub }, kv.key)?)?;
    }
    Ok(versions)
}
