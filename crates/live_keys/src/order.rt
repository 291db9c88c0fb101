//! The key-values of a list in the order of a field.
ghost use Rattle.std.specs.Prelude.{◌≡◌, List, IfOk, OnOk};
ghost use Rattle.std.specs.List.{list_all};
ghost use Rattle.std.specs.List.Sorted.{IsPermutation, IsSortedBy};
ghost use Rattle.std.specs.Ordering.{is_lt, is_ne};
ghost use Rattle.kv_model.specs.Txns as txns;
ghost use Rattle.range_view.specs.declared.reply.KvRef.{KvRef};
ghost use Rattle.range_view.specs.Replies.{kv_view};
ghost use Rattle.store_laws.specs.Rising.{count_while};
ghost use Rattle.live_keys.specs.Fields as fields;
ghost use Rattle.live_keys.specs.Orders as orders;
ghost use Rattle.live_keys.specs.Parts as parts;

use crate::compare::operand_cmp;
use crate::field::{Field, field_cmp};
use crate::part::Part;
use kv_model::call::Operand;
use range_view::reply::KvRef;
use std::alloc::{AllocError, Global};
use std::cmp::Ordering;

/// A key-value, and where it stands in a list.
#[derive(Clone, Copy)]
pub(crate) struct Placed<'a> {
    pub(crate) kv: KvRef<'a>,
    pub(crate) place: usize,
}

/// The key-values of a list by a field, and those that tie by their places.
#[derive(Drop)]
pub(crate) struct Order<'a> {
    pub(crate) field: Field,
    pub(crate) placed: Vec<Placed<'a>>,
}

/// The order of a list by a field: n log n comparisons. The error is want of memory.
pub(crate) fn order_over<'a>(
    alloc: Global,
    field: Field,
    kvs: &[KvRef<'a>],
) -> Result<Order<'a>, AllocError>
    ensures { IfOk result (λ o. (o.field ≡ field) × orders.IsOrder kvs.now o) }
{
    let mut placed = placed_of(alloc, kvs)?;
    sort(&mut placed, field)?;
    Ok(Order { field, placed })
}

/// The key-values of a list with their places.
pub(crate) fn placed_of<'a>(alloc: Global, kvs: &[KvRef<'a>]) -> Result<Vec<Placed<'a>>, AllocError>
    ensures { IfOk result (λ v. v.items ≡ orders.placed_from 0 kvs.now) }
{
    let mut placed = Vec::with_capacity(alloc, kvs.len())?;
    for kv in kvs {
        let place = placed.len();
        placed.push(Placed { kv: *kv, place })?;
    }
    Ok(placed)
}

/// How two stand by a field, and where they tie, by their places.
fn placed_cmp(field: Field, a: &Placed<'_>, b: &Placed<'_>) -> Ordering
    ensures { result ≡ orders.placed_cmp field a.now b.now }
{
    match field_cmp(field, &a.kv, &b.kv) {
        Ordering::Equal => a.place.cmp(&b.place),
        order => order,
    }
}

/// Sorts them so.
fn sort(placed: &mut Vec<Placed<'_>>, field: Field) -> Result<(), AllocError>
    ensures all { IsPermutation placed.old.items placed.new.items }
    ensures rises { OnOk result
        (IsSortedBy (λ a b. is_lt (orders.placed_cmp field a b)) placed.new.items) }
{
    placed.sort_by(|a, b| placed_cmp(field, a, b))
}

/// Whether one comes before what equals the operand from a place on.
fn is_before(operand: &Operand, from: usize, placed: &Placed<'_>) -> bool
    ensures { result ≡ orders.is_before operand.now from placed.now }
{
    match operand_cmp(operand, &placed.kv) {
        Ordering::Less => true,
        Ordering::Equal => placed.place < from,
        Ordering::Greater => false,
    }
}

/// Whether one equals the operand, and stands before a place.
fn is_there(operand: &Operand, to: usize, placed: &Placed<'_>) -> bool
    ensures { result ≡ orders.is_there operand.now to placed.now }
{
    match operand_cmp(operand, &placed.kv) {
        Ordering::Equal => placed.place < to,
        _ => false,
    }
}

/// How many come before what equals the operand from a place on: a halving.
fn count_before(placed: &[Placed<'_>], operand: &Operand, from: usize) -> usize
    ensures { IsSortedBy (λ a b. is_lt (orders.placed_cmp (fields.field_of operand.now) a b)) placed.now
        → result ≡ count_while (orders.is_before operand.now from) placed.now }
{
    placed.partition_point(|one| is_before(operand, from, one))
}

/// Whether none of a part of the list equals the operand, by the order of its field: logarithmic in
/// the length of the list.
pub(crate) fn all_differ(placed: &[Placed<'_>], operand: &Operand, part: Part) -> bool
    ensures { (kvs : List KvRef) → orders.AreOrdered (fields.field_of operand.now) kvs placed.now
        → result ≡ list_all (λ kv. is_ne (txns.operand_cmp operand.now (kv_view kv)))
        (parts.of_part part kvs) }
{
    let count = count_before(placed, operand, part.from);
    match placed.get(count) {
        Some(one) => !is_there(operand, part.to, one),
        None => true,
    }
}
