//! The first few of key-values in an order that a Range asks for, kept in that order while the
//! key-values are looked through.
ghost use Rattle.std.specs.Prelude.{◌≡◌, ◌++◌, ◌≤◌, List, [], ◌∷◌, IfOk, OnOk, filter, length, not};
ghost use Rattle.std.specs.Ordering.{is_gt};
ghost use Rattle.kv_model.specs.Ranges.{sorted_by};
ghost use Rattle.range_view.specs.declared.reply.KvRef.{KvRef};
ghost use Rattle.store_laws.specs.Rising.{count_while};
ghost use Rattle.shown_ranges.specs.Best.{asked_cmp};
ghost use Rattle.shown_ranges.specs.Shown.{beyond, shows};

use crate::shown::{is_enough, passes};
use crate::sorting::compare;
use kv_model::call::RangeQuery;
use range_view::reply::KvRef;
use std::alloc::{AllocError, Global};

/// What a limit may ask for at most where it is one of a few.
const MOST_FEW: i64 = 64;

/// Whether the limit asks for a few.
pub fn is_few(query: &RangeQuery) -> bool {
    query.limit > 0 && query.limit <= MOST_FEW
}

/// Of key-values the first that pass the filters, in the order asked for, as many as the limit asks
/// for and one more. The error is want of memory.
pub(crate) fn first_sorted<'a>(
    alloc: Global,
    kvs: &[KvRef<'a>],
    query: &RangeQuery,
) -> Result<Vec<KvRef<'a>>, AllocError>
    ensures { IfOk result (λ v. v.items ≡ beyond query.now.limit
        (sorted_by (asked_cmp query.now) (filter (shows query.now) kvs.now))) }
{
    let mut few = Vec::new(alloc);
    for kv in kvs {
        note(&mut few, query, kv)?;
    }
    Ok(few)
}

/// Takes the next one, if it passes. The error is want of memory.
fn note<'a>(few: &mut Vec<KvRef<'a>>, query: &RangeQuery, kv: &KvRef<'a>) -> Result<(), AllocError>
    ensures { (seen : List KvRef) → few.old.items ≡ beyond query.now.limit
        (sorted_by (asked_cmp query.now) (filter (shows query.now) seen))
        → OnOk result (few.new.items ≡ beyond query.now.limit
        (sorted_by (asked_cmp query.now) (filter (shows query.now) (seen ++ kv.now ∷ [])))) }
{
    if !passes(query, kv) {
        return Ok(());
    }
    put_in_order(few, query, kv)
}

/// Puts the next one that passes in its place, behind those that tie with it. The error is want of
/// memory.
fn put_in_order<'a>(
    few: &mut Vec<KvRef<'a>>,
    query: &RangeQuery,
    kv: &KvRef<'a>,
) -> Result<(), AllocError>
    ensures { (seen : List KvRef)
        → few.old.items ≡ beyond query.now.limit (sorted_by (asked_cmp query.now) seen)
        → OnOk result (few.new.items ≡ beyond query.now.limit
        (sorted_by (asked_cmp query.now) (seen ++ kv.now ∷ []))) }
{
    let place = place_in(few, query, kv);
    if is_enough(query, place) {
        return Ok(());
    }
    few.insert(place, *kv)?;
    cut_beyond(few, query);
    Ok(())
}

/// How many of the first few are not above one: a halving.
fn place_in(few: &[KvRef<'_>], query: &RangeQuery, kv: &KvRef<'_>) -> usize
    ensures bound { result ≤ length few.now }
    ensures count { (seen : List KvRef)
        → few.now ≡ beyond query.now.limit (sorted_by (asked_cmp query.now) seen)
        → result ≡ count_while (λ one. not (is_gt (asked_cmp query.now one kv.now))) few.now }
{
    few.partition_point(|one| !compare(query.order, query.target, one, kv).is_gt())
}

/// Cuts a list to what the limit asks for and one more, where 0 and below is no limit.
fn cut_beyond(few: &mut Vec<KvRef<'_>>, query: &RangeQuery)
    ensures { few.new.items ≡ beyond query.now.limit few.old.items }
{
    if query.limit > 0 {
        few.truncate(query.limit as usize + 1);
    }
}
