//! What one put does, alone or within a transaction: its fault by itself, its refusal by the state,
//! and the version that it makes.
ghost use Rattle.std.specs.Prelude.{◌≡◌, IfOk, Some, None, option_map};
ghost use Rattle.kv_model.specs.Txns as txns;
ghost use Rattle.range_view.specs.Replies.{kv_view};
ghost use Rattle.txn_core.specs.KeyWrites as writes;

use bytes::Bytes;
use kv_model::call::PutRequest;
use kv_model::refusal::Refusal;
use kv_model::version::{Body, Rev, Version};
use range_view::reply::KvRef;
use std::alloc::{AllocError, Global};

/// The first fault of a put by itself, whatever the state: `NoKey` where its key is empty,
/// `ValueGiven` where it brings a value and is to keep the old one, and `LeaseGiven` where it names
/// a lease and is to keep the old one. Constant time. Takes no memory.
pub fn put_fault(put: &PutRequest) -> Option<Refusal>
    ensures { result ≡ txns.put_fault put.now }
{
    if put.key.is_empty() {
        return Some(Refusal::NoKey);
    }
    if put.ignore_value && !put.value.is_empty() {
        return Some(Refusal::ValueGiven);
    }
    if put.ignore_lease && put.lease != 0 {
        return Some(Refusal::LeaseGiven);
    }
    None
}

/// The first refusal of a put that depends on the state: by what its key holds before it, nothing
/// where the key is not live, and by whether the lease that the request names is granted, which
/// counts only where it names one.
///
/// `KeyMissing` comes where the put keeps the value or the lease of a key that is not live, and
/// then `LeaseMissing` where it names a lease that is not granted. Constant time. Takes no memory.
pub fn held_refusal(
    request: &PutRequest,
    held: Option<KvRef<'_>>,
    is_granted: bool,
) -> Option<Refusal>
    ensures { result
        ≡ writes.held_refusal (λ _. is_granted) request.now (option_map kv_view held.entry) }
{
    if (request.ignore_value || request.ignore_lease) && held.is_none() {
        Some(Refusal::KeyMissing)
    } else if request.lease != 0 && !is_granted {
        Some(Refusal::LeaseMissing)
    } else {
        None
    }
}

/// The version that a put makes at a place, by what its key holds before it, nothing where the key
/// is not live. The caller has found no refusal of the put.
///
/// It shares the request's key and value. A value that is kept is copied, in time linear in its
/// length; else the time is constant. The error is want of memory.
pub fn put_version(
    alloc: Global,
    rev: Rev,
    request: &PutRequest,
    held: Option<KvRef<'_>>,
) -> Result<Version, AllocError>
    requires { writes.CanCount (option_map kv_view held) }
    ensures { IfOk result (λ v. v
        ≡ writes.put_version rev request.now (option_map kv_view held.entry)) }
{
    match version_put(alloc, rev, request, held) {
        Ok(version) => Ok(version),
        Err(error) => Err(error),
    }
}

/// The same, where the count of the key's puts may be the greatest number of 64 bits: then it stays
/// that.
pub(crate) fn version_put(
    alloc: Global,
    rev: Rev,
    request: &PutRequest,
    held: Option<KvRef<'_>>,
) -> Result<Version, AllocError>
    ensures { IfOk result (λ v. v
        ≡ writes.as_kept (writes.put_version rev request.now (option_map kv_view held.entry))) }
{
    let body = match held {
        Some(kv) => body_after(alloc, request, kv)?,
        None => first_body(rev.main, request)?,
    };
    Ok(Version {
        rev,
        key: request.key.clone()?,
        body,
    })
}

/// The number after one, and the greatest where there is none.
pub(crate) fn number_after(number: u64) -> u64
    ensures { result ≡ writes.number_after number }
{
    number.saturating_add(1)
}

/// What a put makes of a key that holds something.
fn body_after(alloc: Global, request: &PutRequest, kv: KvRef<'_>) -> Result<Body, AllocError>
    ensures { IfOk result (λ b. b
        ≡ writes.body_kept
        (txns.next_body kv.entry.modified (txns.put_action request.now (Some (kv_view kv.entry)))
        (Some (kv_view kv.entry)))) }
{
    Ok(Body::Put {
        create: kv.create,
        version: number_after(kv.version),
        lease: if request.ignore_lease {
            kv.lease
        } else {
            request.lease
        },
        value: if request.ignore_value {
            Bytes::copy_from_slice(alloc, kv.value)?
        } else {
            request.value.clone()?
        },
    })
}

/// What a put makes at a revision of a key that holds nothing.
fn first_body(main: u64, request: &PutRequest) -> Result<Body, AllocError>
    ensures { IfOk result (λ b. b ≡ txns.next_body main (txns.put_action request.now None) None) }
{
    Ok(Body::Put {
        create: main,
        version: 1,
        lease: if request.ignore_lease {
            0
        } else {
            request.lease
        },
        value: if request.ignore_value {
            Bytes::new()
        } else {
            request.value.clone()?
        },
    })
}
