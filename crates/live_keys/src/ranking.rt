//! The key-values of a list in an order that a Range asks for.
ghost use Rattle.std.specs.Prelude.{◌≡◌, List, [], IfOk, MatchOption, OnOk, ⊤};
ghost use Rattle.std.specs.List.{AllByRecursion};
ghost use Rattle.kv_model.specs.Ranges.{sorted_by};
ghost use Rattle.range_view.specs.declared.reply.KvRef.{KvRef};
ghost use Rattle.live_keys.specs.Ranked as ranked;
ghost use Rattle.shown_ranges.specs.Shown.{gathered};

use crate::order::{Placed, placed_of};
use crate::part::Part;
use kv_model::call::{RangeQuery, SortOrder, SortTarget};
use range_view::reply::KvRef;
use shown_ranges::shown::{is_enough, passes};
use shown_ranges::sorting::compare;
use std::alloc::{AllocError, Global};

/// The key-values of a list with their places, in an order that a Range asks for; those that tie by
/// their places.
#[derive(Drop)]
pub(crate) struct Ranking<'a> {
    pub(crate) order: SortOrder,
    pub(crate) target: SortTarget,
    pub(crate) placed: Vec<Placed<'a>>,
}

/// The list in an order: n log n comparisons. The error is want of memory.
pub(crate) fn ranking_over<'a>(
    alloc: Global,
    order: SortOrder,
    target: SortTarget,
    kvs: &[KvRef<'a>],
) -> Result<Ranking<'a>, AllocError>
    ensures { IfOk result (λ r. (r.order ≡ order) × (r.target ≡ target)
        × ranked.IsRanking kvs.now r) }
{
    let mut placed = placed_of(alloc, kvs)?;
    rank(&mut placed, order, target)?;
    Ok(Ranking {
        order,
        target,
        placed,
    })
}

/// Sorts them so.
fn rank(
    placed: &mut Vec<Placed<'_>>,
    order: SortOrder,
    target: SortTarget,
) -> Result<(), AllocError>
    ensures { OnOk result
        (placed.new.items ≡ sorted_by (ranked.ranked_cmp order target) placed.old.items) }
{
    placed.sort_by(|a, b| compare(order, target, &a.kv, &b.kv))
}

/// The list in this order, if it is there.
pub(crate) fn ranking_of<'l, 'a>(
    rankings: &'l [Ranking<'a>],
    order: SortOrder,
    target: SortTarget,
) -> Option<&'l Ranking<'a>>
    ensures order { MatchOption result ⊤ (λ r. r.now.order ≡ order) }
    ensures target { MatchOption result ⊤ (λ r. r.now.target ≡ target) }
    ensures listed { (over : List KvRef) → AllByRecursion (ranked.IsRanking over) rankings.now
        → MatchOption result ⊤ (λ r. ranked.IsRanking over r.now) }
{
    for ranking in rankings {
        if ranking.order == order && ranking.target == target {
            return Some(ranking);
        }
    }
    None
}

/// Whether one stands in the part, and the filters let it pass.
fn is_shown(query: &RangeQuery, part: Part, one: &Placed<'_>) -> bool
    ensures { result ≡ ranked.is_shown query.now part one.now }
{
    part.from <= one.place && one.place < part.to && passes(query, &one.kv)
}

/// The first that stand in a part and pass the filters, as many as the limit asks for and one more.
/// The error is want of memory.
pub(crate) fn first_ranked<'a>(
    alloc: Global,
    placed: &[Placed<'a>],
    query: &RangeQuery,
    part: Part,
) -> Result<Vec<KvRef<'a>>, AllocError>
    ensures { IfOk result (λ v. v.items ≡ gathered query.now.limit
        (ranked.is_shown query.now part) (λ r. r.kv) [] placed.now) }
{
    let mut shown = Vec::new(alloc);
    for one in placed {
        if is_enough(query, shown.len()) {
            return Ok(shown);
        }
        if is_shown(query, part, one) {
            shown.push(one.kv)?;
        }
    }
    Ok(shown)
}
