//! In which order a Range shows what it found (the etcd documentation's RangeRequest: SortOrder and
//! SortTarget).
ghost use Rattle.std.specs.Prelude.{◌≡◌, OnOk, OnErr, map};
ghost use Rattle.kv_model.specs.Ranges.{order_cmp, target_cmp, sorted};
ghost use Rattle.range_view.specs.Replies.{kv_view};
ghost use Rattle.range_view.specs.Selecting.{keeps_order};

use crate::reply::KvRef;
use kv_model::call::{SortOrder, SortTarget};
use std::alloc::AllocError;
use std::cmp::Ordering;

/// How two key-values stand by what a Range sorts by, ascending.
fn compare_target(target: SortTarget, a: &KvRef<'_>, b: &KvRef<'_>) -> Ordering
    ensures { result ≡ target_cmp target (kv_view a.now) (kv_view b.now) }
{
    match target {
        SortTarget::ByKey => a.key.cmp(&b.key),
        SortTarget::ByVersion => a.version.cmp(&b.version),
        SortTarget::ByCreate => a.create.cmp(&b.create),
        SortTarget::ByMod => a.modified.cmp(&b.modified),
        SortTarget::ByValue => a.value.cmp(&b.value),
    }
}

/// How two key-values stand in the order asked for. No order asked for is ascending.
fn compare(order: SortOrder, target: SortTarget, a: &KvRef<'_>, b: &KvRef<'_>) -> Ordering
    ensures { result ≡ order_cmp order (target_cmp target (kv_view a.now) (kv_view b.now)) }
{
    match order {
        SortOrder::Unsorted | SortOrder::Ascend => compare_target(target, a, b),
        SortOrder::Descend => compare_target(target, a, b).reverse(),
    }
}

/// Sorts key-values that stand in the order of their keys. What ties stays in that order, whichever
/// way the sort goes.
///
/// It takes n log n comparisons of n key-values, and memory for half of them. `AllocError` comes
/// where there is none, and then they stay as they were.
pub fn sort(
    kvs: &mut Vec<KvRef<'_>>,
    order: SortOrder,
    target: SortTarget,
) -> Result<(), AllocError>
    ensures ok { OnOk result
        (map kv_view kvs.new.items ≡ sorted order target (map kv_view kvs.old.items)) }
    ensures err { OnErr result (kvs.new.items ≡ kvs.old.items) }
{
    kvs.sort_by(|a, b| compare(order, target, a, b))
}

/// Whether the order of the keys is the one asked for, so that nothing has to be sorted.
pub fn keeps_order(order: SortOrder, target: SortTarget) -> bool
    ensures { result ≡ keeps_order order target }
{
    match target {
        SortTarget::ByKey => order != SortOrder::Descend,
        _ => false,
    }
}
