//! Keys in order, among which those that an operation touches are counted by halving.
ghost use Rattle.std.specs.Prelude.{◌≡◌, ◌&&◌, ◌∷◌, [], ◌++◌, map, OnOk, IfOk};
ghost use Rattle.kv_model.specs.Keys.{key_lt, key_le, in_range, same_key};
ghost use Rattle.kv_model.specs.Txns.{Touch};
ghost use Rattle.txn_core.specs.Touching.{count_of, keys_put, count_touched};
ghost use Rattle.txn_core.specs.Views.{touch_view, keys_view, AreSorted};

use crate::touched::Touched;
use bytes::Bytes;
use kv_model::span::Span;
use kv_model::version::KeyRange;
use std::alloc::{AllocError, Global};

/// The keys that are put, in order.
pub(crate) fn sorted_keys<'a>(
    alloc: Global,
    touched: &[Touched<'a>],
) -> Result<Vec<&'a Bytes>, AllocError>
    ensures counts { IfOk result (λ v. (t : Touch)
        → count_touched t (keys_view v.items)
        ≡ count_touched t (keys_put (map touch_view touched.now))) }
    ensures sorted { IfOk result (λ v. AreSorted v.items) }
{
    let mut keys = Vec::new(alloc);
    for one in touched {
        push_key(&mut keys, *one)?;
    }
    sort(&mut keys)?;
    Ok(keys)
}

/// Adds the key of a put.
fn push_key<'a>(keys: &mut Vec<&'a Bytes>, touched: Touched<'a>) -> Result<(), AllocError>
    ensures { OnOk result
        (keys_view keys.new.items
        ≡ keys_view keys.old.items ++ keys_put (touch_view touched.entry ∷ [])) }
{
    if let Touched::Put(key) = touched {
        keys.push(key)?;
    }
    Ok(())
}

fn sort(keys: &mut Vec<&Bytes>) -> Result<(), AllocError>
    ensures counts { OnOk result
        ((t : Touch)
        → count_touched t (keys_view keys.new.items) ≡ count_touched t (keys_view keys.old.items)) }
    ensures sorted { OnOk result (AreSorted keys.new.items) }
{
    keys.sort_by(|a, b| a.cmp(b))
}

/// How many of the keys an operation touches.
pub(crate) fn count(touched: Touched<'_>, keys: &[&Bytes]) -> usize
    requires { AreSorted keys.now }
    ensures { result ≡ count_touched (touch_view touched.entry) (keys_view keys.now) }
{
    match touched {
        Touched::Put(key) => count_same(keys, key),
        Touched::Deleted(range) => count_within(keys, range),
    }
}

/// How many of the keys lie in the range.
pub(crate) fn count_within(keys: &[&Bytes], range: &KeyRange) -> usize
    requires { AreSorted keys.now }
    ensures { result ≡ count_of (in_range range.now) (keys_view keys.now) }
{
    match range.span() {
        Span::Key(key) => count_same(keys, key),
        Span::All => keys.len(),
        Span::From(from) => keys.len() - count_below(keys, from),
        Span::Interval { from, to } => count_between(keys, from, to),
    }
}

/// How many of the keys lie from one on and before another.
fn count_between(keys: &[&Bytes], from: &Bytes, to: &Bytes) -> usize
    requires { AreSorted keys.now }
    ensures { result ≡ count_of (λ k. key_le from.now k && key_lt k to.now) (keys_view keys.now) }
{
    if to.cmp(from).is_lt() {
        return 0;
    }
    count_below(keys, to) - count_below(keys, from)
}

/// How many of the keys are this one.
fn count_same(keys: &[&Bytes], key: &Bytes) -> usize
    requires { AreSorted keys.now }
    ensures { result ≡ count_of (same_key key.now) (keys_view keys.now) }
{
    count_up_to(keys, key) - count_below(keys, key)
}

/// How many of the keys are below this one.
fn count_below(keys: &[&Bytes], key: &Bytes) -> usize
    requires { AreSorted keys.now }
    ensures { result ≡ count_of (λ k. key_lt k key.now) (keys_view keys.now) }
{
    keys.partition_point(|k| k.cmp(&key).is_lt())
}

/// How many of the keys are not above this one.
fn count_up_to(keys: &[&Bytes], key: &Bytes) -> usize
    requires { AreSorted keys.now }
    ensures { result ≡ count_of (λ k. key_le k key.now) (keys_view keys.now) }
{
    keys.partition_point(|k| k.cmp(&key).is_le())
}
