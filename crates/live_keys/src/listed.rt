//! A list of all live keys, and what was found about it.
ghost use Rattle.std.specs.Prelude.{◌≡◌, ◌≢◌, IfOk, List, MatchOption, OnOk, false, map, ℕ, ⊤};
ghost use Rattle.std.specs.List.{AllByRecursion, list_all};
ghost use Rattle.kv_model.specs.declared.call.Relation.TheVariants.{IsNotEqual};
ghost use Rattle.kv_model.specs.History.{value_at};
ghost use Rattle.kv_model.specs.Keys.{in_range};
ghost use Rattle.kv_model.specs.Ranges.{live};
ghost use Rattle.kv_model.specs.Txns as txns;
ghost use Rattle.range_view.specs.declared.reply.KvRef.{KvRef};
ghost use Rattle.range_view.specs.Replies.{kv_view};
ghost use Rattle.range_view.specs.Stored.{Viewed};
ghost use Rattle.live_keys.specs.Exchanging as exchanging;
ghost use Rattle.live_keys.specs.Extremes as extremes;
ghost use Rattle.live_keys.specs.Fields as fields;
ghost use Rattle.live_keys.specs.Listing as listing;
ghost use Rattle.live_keys.specs.Orders as ordered;
ghost use Rattle.live_keys.specs.Parts as parts;

use crate::compare::{holds_of, relates_to};
use crate::field::{Field, field_of};
use crate::order::{Order, all_differ, order_over};
use crate::part::{Part, part_of};
use crate::ranking::Ranking;
use crate::tree::{Tree, all_relate, tree_over};
use bytes::Bytes;
use kv_model::call::{Compare, Relation};
use kv_model::version::KeyRange;
use range_view::View;
use range_view::reply::KvRef;
use std::alloc::{AllocError, Global};

/// How many key-values are looked at one after another, whatever is known.
pub(crate) const FEW: usize = 32;

/// How often as many as live keys are looked at one after another, before a tree or an order is made.
const MOST_SCANS: usize = 8;

/// All live keys at the view's place, in the order of the keys, with trees over them and their orders
/// by fields, of each field at most one, and in orders that Ranges asked for.
#[derive(Drop)]
pub(crate) struct Listed<'a> {
    pub(crate) kvs: Vec<KvRef<'a>>,
    pub(crate) trees: Vec<Tree<'a>>,
    pub(crate) orders: Vec<Order<'a>>,
    /// How many were looked at one after another.
    pub(crate) scanned: usize,
    pub(crate) rankings: Vec<Ranking<'a>>,
    /// How many were sorted.
    pub(crate) sorted: usize,
}

/// The list of all live keys at the view's place, which are walked. The error is want of memory.
pub(crate) fn list_all<'a>(alloc: Global, view: &View<'a>) -> Result<Listed<'a>, AllocError>
    ensures { IfOk result (listing.IsListed view.now) }
{
    let all = KeyRange {
        key: Bytes::from_static(b"\0"),
        end: Bytes::from_static(b"\0"),
    };
    let kvs = view.live(alloc, &all)?;
    Ok(Listed {
        kvs,
        trees: Vec::new(alloc),
        orders: Vec::new(alloc),
        scanned: 0,
        rankings: Vec::new(alloc),
        sorted: 0,
    })
}

/// Whether a compare of a range of several keys holds, by the list: logarithmic in its length where
/// the tree or the order that it asks for is there, else what that takes. The error is want of memory.
pub(crate) fn holds_in(
    alloc: Global,
    view: &View<'_>,
    listed: &mut Listed<'_>,
    compare: &Compare,
) -> Result<bool, AllocError>
    requires { listing.IsListed view.now listed.old }
    ensures hold { IfOk result (λ b. b ≡ txns.holds_of compare.now
        (live view.now.versions view.now.place compare.now.range)) }
    ensures listed { listing.IsListed view.now listed.new }
{
    let part = part_of(&listed.kvs, &compare.range);
    if part.from >= part.to {
        return Ok(holds_of(compare, &[]));
    }
    all_in_part(
        alloc,
        &listed.kvs,
        &mut listed.trees,
        &mut listed.orders,
        &mut listed.scanned,
        compare,
        part,
    )
}

/// Whether each key-value of a part of the list stands to the operand as the compare says. The
/// error is want of memory.
fn all_in_part<'a>(
    alloc: Global,
    kvs: &[KvRef<'a>],
    trees: &mut Vec<Tree<'a>>,
    orders: &mut Vec<Order<'a>>,
    scanned: &mut usize,
    compare: &Compare,
    part: Part,
) -> Result<bool, AllocError>
    requires inside { parts.IsWithin part kvs.now }
    requires trees { AllByRecursion (extremes.IsTree kvs.now) trees.old.items }
    requires orders { AllByRecursion (ordered.IsOrder kvs.now) orders.old.items }
    ensures all { IfOk result (λ b.
        b ≡ list_all (extremes.passes compare.now) (parts.of_part part kvs.now)) }
    ensures trees { AllByRecursion (extremes.IsTree kvs.now) trees.new.items }
    ensures orders { AllByRecursion (ordered.IsOrder kvs.now) orders.new.items }
{
    if part.len() <= FEW || *scanned < kvs.len().saturating_mul(MOST_SCANS) {
        *scanned = scanned.saturating_add(part.len());
        return Ok(each_relates(kvs, compare, part));
    }
    if compare.relation == Relation::IsNotEqual {
        return by_order(alloc, kvs, orders, compare, part);
    }
    by_tree(alloc, kvs, trees, compare, part)
}

/// The same, one after another.
fn each_relates(kvs: &[KvRef<'_>], compare: &Compare, part: Part) -> bool
    requires { parts.IsWithin part kvs.now }
    ensures { result ≡ list_all (extremes.passes compare.now) (parts.of_part part kvs.now) }
{
    all_of(&kvs[part.from..part.to], compare)
}

/// Whether each key-value stands to the operand as the compare says.
fn all_of(kvs: &[KvRef<'_>], compare: &Compare) -> bool
    ensures { result ≡ list_all (extremes.passes compare.now) kvs.now }
{
    for kv in kvs {
        if !relates_to(compare, kv) {
            return false;
        }
    }
    true
}

/// The same by the tree of its field, which is made where there is none.
fn by_tree<'a>(
    alloc: Global,
    kvs: &[KvRef<'a>],
    trees: &mut Vec<Tree<'a>>,
    compare: &Compare,
    part: Part,
) -> Result<bool, AllocError>
    requires inside { parts.IsWithin part kvs.now }
    requires trees { AllByRecursion (extremes.IsTree kvs.now) trees.old.items }
    ensures all { compare.now.relation ≢ IsNotEqual → IfOk result (λ b.
        b ≡ list_all (extremes.passes compare.now) (parts.of_part part kvs.now)) }
    ensures trees { AllByRecursion (extremes.IsTree kvs.now) trees.new.items }
{
    let field = field_of(&compare.operand);
    if let Some(tree) = tree_of(trees, field) {
        return Ok(all_relate(tree, kvs, compare, part));
    }
    let tree = tree_over(alloc, field, kvs)?;
    let is_so = all_relate(&tree, kvs, compare, part);
    trees.push(tree)?;
    Ok(is_so)
}

/// The tree of a field, if it is there.
fn tree_of<'l, 'a>(trees: &'l [Tree<'a>], field: Field) -> Option<&'l Tree<'a>>
    ensures field { MatchOption result ⊤ (λ t. t.now.field ≡ field) }
    ensures listed { (over : List KvRef) → AllByRecursion (extremes.IsTree over) trees.now
        → MatchOption result ⊤ (λ t. extremes.IsTree over t.now) }
{
    for tree in trees {
        if tree.field == field {
            return Some(tree);
        }
    }
    None
}

/// Whether none of a part of the list equals the operand, by the order of its field, which is made
/// where there is none.
fn by_order<'a>(
    alloc: Global,
    kvs: &[KvRef<'a>],
    orders: &mut Vec<Order<'a>>,
    compare: &Compare,
    part: Part,
) -> Result<bool, AllocError>
    requires orders { AllByRecursion (ordered.IsOrder kvs.now) orders.old.items }
    ensures all { compare.now.relation ≡ IsNotEqual → IfOk result (λ b.
        b ≡ list_all (extremes.passes compare.now) (parts.of_part part kvs.now)) }
    ensures orders { AllByRecursion (ordered.IsOrder kvs.now) orders.new.items }
{
    let field = field_of(&compare.operand);
    if let Some(order) = order_of(orders, field) {
        return Ok(differ_by(order, compare, part));
    }
    let order = order_over(alloc, field, kvs)?;
    let is_so = differ_by(&order, compare, part);
    orders.push(order)?;
    Ok(is_so)
}

/// The same by its order.
fn differ_by(order: &Order<'_>, compare: &Compare, part: Part) -> bool
    requires { order.now.field ≡ fields.field_of compare.now.operand }
    ensures { compare.now.relation ≡ IsNotEqual → (over : List KvRef)
        → ordered.IsOrder over order.now
        → result ≡ list_all (extremes.passes compare.now) (parts.of_part part over) }
{
    all_differ(&order.placed, &compare.operand, part)
}

/// The order of a field, if it is there.
fn order_of<'l, 'a>(orders: &'l [Order<'a>], field: Field) -> Option<&'l Order<'a>>
    ensures field { MatchOption result ⊤ (λ o. o.now.field ≡ field) }
    ensures listed { (over : List KvRef) → AllByRecursion (ordered.IsOrder over) orders.now
        → MatchOption result ⊤ (λ o. ordered.IsOrder over o.now) }
{
    for order in orders {
        if order.field == field {
            return Some(order);
        }
    }
    None
}

/// The list, where the keys of the range hold these and every other key what it held: what was found
/// about it is dropped. `None` where there is no memory.
pub(crate) fn exchanged<'a>(
    listed: Listed<'a>,
    range: &KeyRange,
    kvs: Vec<KvRef<'a>>,
) -> Option<Listed<'a>>
    ensures { (v w : Viewed) → listing.IsListed v listed.entry
        → map kv_view kvs.entry.items ≡ live w.versions w.place range.now
        → ((k : List ℕ) → in_range range.now k ≡ false
        → value_at w.versions w.place k ≡ value_at v.versions v.place k)
        → listing.MayBeListed w result }
{
    let mut listed = listed;
    listed.trees.clear();
    listed.orders.clear();
    listed.scanned = 0;
    listed.rankings.clear();
    listed.sorted = 0;
    let part = part_of(&listed.kvs, range);
    match put_in(&mut listed.kvs, part, kvs) {
        Ok(()) => Some(listed),
        Err(_) => None,
    }
}

/// Puts key-values in the place of a part of a list. The error is want of memory.
fn put_in<'a>(kvs: &mut Vec<KvRef<'a>>, part: Part, new: Vec<KvRef<'a>>) -> Result<(), AllocError>
    requires { parts.IsWithin part kvs.old.items }
    ensures { OnOk result
        (kvs.new.items ≡ exchanging.exchanged part new.entry.items kvs.old.items) }
{
    kvs.splice(part.from..part.to, new)?;
    Ok(())
}
