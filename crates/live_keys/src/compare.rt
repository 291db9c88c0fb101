//! Whether a compare holds of key-values (the etcd documentation's Compare).
ghost use Rattle.std.specs.Prelude.{◌≡◌, pos, map};
ghost use Rattle.std.specs.List.{list_all};
ghost use Rattle.std.specs.Ordering.{int_cmp};
ghost use Rattle.kv_model.specs.Txns as txns;
ghost use Rattle.range_view.specs.Replies.{kv_view};
ghost use Rattle.live_keys.specs.Extremes as extremes;

use kv_model::call::{Compare, Operand, Relation};
use range_view::reply::KvRef;
use std::cmp::Ordering;

/// Whether the compare holds where the keys of its range hold these.
pub(crate) fn holds_of(compare: &Compare, kvs: &[KvRef<'_>]) -> bool
    ensures { result ≡ txns.holds_of compare.now (map kv_view kvs.now) }
{
    if kvs.is_empty() {
        holds_of_none(compare.relation, &compare.operand)
    } else {
        holds_of_all(compare, kvs)
    }
}

/// Whether each of the key-values stands to the operand as the compare says.
fn holds_of_all(compare: &Compare, kvs: &[KvRef<'_>]) -> bool
    ensures { result
        ≡ list_all (λ kv.
        txns.relates compare.now.relation (txns.operand_cmp compare.now.operand kv))
        (map kv_view kvs.now) }
{
    for kv in kvs {
        if !relates_to(compare, kv) {
            return false;
        }
    }
    true
}

/// Whether a key-value stands to the operand as the compare says.
pub(crate) fn relates_to(compare: &Compare, kv: &KvRef<'_>) -> bool
    ensures { result ≡ extremes.passes compare.now kv.now }
{
    relates(compare.relation, operand_cmp(&compare.operand, kv))
}

/// Whether a compare holds where no key of its range is live: any number is 0, and a value has no
/// answer.
fn holds_of_none(relation: Relation, operand: &Operand) -> bool
    ensures { result ≡ txns.holds_of_none relation operand.now }
{
    match operand {
        Operand::OfVersion(number) => relates(relation, number_cmp(0, *number)),
        Operand::OfCreate(number) => relates(relation, number_cmp(0, *number)),
        Operand::OfMod(number) => relates(relation, number_cmp(0, *number)),
        Operand::OfValue(_) => false,
        Operand::OfLease(number) => relates(relation, number_cmp(0, *number)),
    }
}

/// How a key-value stands to the operand.
pub(crate) fn operand_cmp(operand: &Operand, kv: &KvRef<'_>) -> Ordering
    ensures { result ≡ txns.operand_cmp operand.now (kv_view kv.now) }
{
    match operand {
        Operand::OfVersion(number) => number_cmp(kv.version, *number),
        Operand::OfCreate(number) => number_cmp(kv.create, *number),
        Operand::OfMod(number) => number_cmp(kv.modified, *number),
        Operand::OfValue(value) => kv.value.cmp(&value.as_slice()),
        Operand::OfLease(number) => kv.lease.cmp(number),
    }
}

/// How a number that is kept stands to one that is given, which may be below 0.
fn number_cmp(kept: u64, given: i64) -> Ordering
    ensures { result ≡ int_cmp (pos kept) given }
{
    if given < 0 {
        Ordering::Greater
    } else {
        kept.cmp(&(given as u64))
    }
}

/// Whether the relation is the one that two things stand in.
fn relates(relation: Relation, order: Ordering) -> bool
    ensures { result ≡ txns.relates relation order }
{
    match relation {
        Relation::IsEqual => order == Ordering::Equal,
        Relation::IsGreater => order == Ordering::Greater,
        Relation::IsLess => order == Ordering::Less,
        Relation::IsNotEqual => order != Ordering::Equal,
    }
}
