//! What the keys of a lease hold.
ghost use Rattle.std.specs.Prelude.{◌≡◌, Some, map, filter, filter_map, option_map, IfOk};
ghost use Rattle.std.specs.Ordering.{int_eq};
ghost use Rattle.kv_model.specs.Keys.{all_keys};
ghost use Rattle.kv_model.specs.History.{value_at};
ghost use Rattle.kv_model.specs.Ranges.{live};
ghost use Rattle.range_view.specs.Replies.{kv_view};
ghost use Rattle.lease_keys.specs.Holding.{Holds, under};

use crate::index::LeaseKeys;
use bytes::Bytes;
use kv_model::version::KeyRange;
use range_view::reply::KvRef;
use range_view::view::View;
use std::alloc::{AllocError, Global};

impl LeaseKeys {
    /// The live keys at the view's place whose last put names the lease, in the order of the keys,
    /// lent from the versions.
    ///
    /// `AllocError` comes where a list found no memory. Only the pairs of the lease are walked,
    /// each in the time of `View::get`; 0 is no lease, and for it all keys are walked.
    pub fn live<'a>(
        &self,
        alloc: Global,
        view: &View<'a>,
        lease: i64,
    ) -> Result<Vec<KvRef<'a>>, AllocError>
        requires { Holds self.now (value_at view.now.versions view.now.place) }
        ensures { IfOk result (λ kvs. map kv_view kvs.items
            ≡ filter (λ kv.
            int_eq kv.lease lease) (live view.now.versions view.now.place all_keys)) }
    {
        if lease == 0 {
            return walk(alloc, view, lease);
        }
        let keys = self.keys_of(lease)?;
        held_by(alloc, view, &keys, lease)
    }
}

/// The range of all keys.
fn all_keys() -> KeyRange
    ensures { result ≡ all_keys }
{
    KeyRange {
        key: Bytes::from_static(b"\0"),
        end: Bytes::from_static(b"\0"),
    }
}

/// The same by a walk over all keys.
fn walk<'a>(alloc: Global, view: &View<'a>, lease: i64) -> Result<Vec<KvRef<'a>>, AllocError>
    ensures { IfOk result (λ kvs. map kv_view kvs.items
        ≡ filter (λ kv. int_eq kv.lease lease) (live view.now.versions view.now.place all_keys)) }
{
    let mut kvs = view.live(alloc, &all_keys())?;
    kvs.retain(|kv| kv.lease == lease);
    Ok(kvs)
}

/// What those of the keys hold that were last put under the lease.
fn held_by<'a>(
    alloc: Global,
    view: &View<'a>,
    keys: &[&Bytes],
    lease: i64,
) -> Result<Vec<KvRef<'a>>, AllocError>
    ensures { IfOk result (λ kvs. map kv_view kvs.items
        ≡ filter_map (λ k.
        under lease (value_at view.now.versions view.now.place k)) (map (λ k. k.now) keys.now)) }
{
    let mut kvs = Vec::with_capacity(alloc, keys.len())?;
    for key in keys {
        match held(view, key, lease) {
            Some(kv) => kvs.push(kv)?,
            None => {}
        }
    }
    Ok(kvs)
}

/// What a key holds, where it was last put under the lease.
pub(crate) fn held<'a>(view: &View<'a>, key: &Bytes, lease: i64) -> Option<KvRef<'a>>
    ensures { option_map kv_view result
        ≡ under lease (value_at view.now.versions view.now.place key.now) }
{
    match view.get(key) {
        Some(kv) => under(kv, lease),
        None => None,
    }
}

/// A key-value, where it was put under the lease.
fn under(kv: KvRef<'_>, lease: i64) -> Option<KvRef<'_>>
    ensures { option_map kv_view result ≡ under lease (Some (kv_view kv.entry)) }
{
    if kv.lease == lease { Some(kv) } else { None }
}
