//! Which key-values a Range shows (the etcd documentation's RangeRequest: its bounds on revisions).
ghost use Rattle.std.specs.Prelude.{◌≡◌};
ghost use Rattle.kv_model.specs.Ranges.{within, passes_filters};
ghost use Rattle.range_view.specs.Replies.{kv_view};

use crate::reply::KvRef;
use kv_model::call::RangeQuery;

/// Whether a number is not below a least and not above a greatest one, where 0 bounds nothing.
fn is_within(least: i64, greatest: i64, number: u64) -> bool
    ensures { result ≡ within least greatest number }
{
    let is_low = least > 0 && number < least as u64;
    let is_high = greatest < 0 || (greatest > 0 && number > greatest as u64);
    !is_low && !is_high
}

/// Whether the bounds of a Range on the modified and the created revision let a key-value pass.
/// Takes no memory.
pub fn passes(query: &RangeQuery, kv: &KvRef<'_>) -> bool
    ensures { result ≡ passes_filters query.now (kv_view kv.now) }
{
    is_within(query.min_mod, query.max_mod, kv.modified)
        && is_within(query.min_create, query.max_create, kv.create)
}
