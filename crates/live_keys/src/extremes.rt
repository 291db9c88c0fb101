//! The least and the greatest of key-values by what a compare looks at.
ghost use Rattle.std.specs.Prelude.{◌≡◌};
ghost use Rattle.live_keys.specs.Extremes as extremes;

use crate::compare::operand_cmp;
use crate::field::{Field, field_cmp};
use kv_model::call::{Compare, Relation};
use range_view::reply::KvRef;
use std::cmp::Ordering;

/// One of some key-values that is least by a field, and one that is greatest.
#[derive(Clone, Copy)]
pub(crate) struct Extremes<'a> {
    pub(crate) least: KvRef<'a>,
    pub(crate) greatest: KvRef<'a>,
}

/// Which of two is less by a field; the first where they tie.
fn lesser<'a>(field: Field, a: &KvRef<'a>, b: &KvRef<'a>) -> KvRef<'a>
    ensures { result ≡ extremes.lesser field a.now b.now }
{
    match field_cmp(field, a, b) {
        Ordering::Greater => *b,
        _ => *a,
    }
}

/// Which of two is greater by a field; the second where they tie.
fn greater<'a>(field: Field, a: &KvRef<'a>, b: &KvRef<'a>) -> KvRef<'a>
    ensures { result ≡ extremes.greater field a.now b.now }
{
    match field_cmp(field, a, b) {
        Ordering::Greater => *a,
        _ => *b,
    }
}

/// Those of two.
pub(crate) fn of_two<'a>(field: Field, a: &KvRef<'a>, b: &KvRef<'a>) -> Extremes<'a>
    ensures { result ≡ extremes.of_two field a.now b.now }
{
    Extremes {
        least: lesser(field, a, b),
        greatest: greater(field, a, b),
    }
}

/// Those of what two are those of.
pub(crate) fn joined<'a>(field: Field, a: &Extremes<'a>, b: &Extremes<'a>) -> Extremes<'a>
    ensures { result ≡ extremes.joined field a.now b.now }
{
    Extremes {
        least: lesser(field, &a.least, &b.least),
        greatest: greater(field, &a.greatest, &b.greatest),
    }
}

/// Whether all of what these are the extremes of stand to the operand as the compare says, where it
/// is not that they differ from it.
pub(crate) fn meets(compare: &Compare, found: &Extremes<'_>) -> bool
    ensures { result ≡ extremes.meets compare.now found.now }
{
    let least = operand_cmp(&compare.operand, &found.least);
    let greatest = operand_cmp(&compare.operand, &found.greatest);
    match compare.relation {
        Relation::IsEqual => least != Ordering::Less && greatest != Ordering::Greater,
        Relation::IsGreater => least == Ordering::Greater,
        Relation::IsLess => greatest == Ordering::Less,
        Relation::IsNotEqual => false,
    }
}
