//! A tree over a list of key-values, of the extremes of a field in its parts.
ghost use Rattle.std.specs.Prelude.{◌≡◌, ◌≢◌, ◌<◌, ◌≤◌, ◌&&◌, IfOk, length};
ghost use Rattle.std.specs.List.{list_all};
ghost use Rattle.kv_model.specs.declared.call.Relation.TheVariants.{IsNotEqual};
ghost use Rattle.live_keys.specs.Extremes as extremes;
ghost use Rattle.live_keys.specs.Fields as fields;
ghost use Rattle.live_keys.specs.Parts as parts;

use crate::compare::relates_to;
use crate::extremes::{Extremes, joined, meets, of_two};
use crate::field::Field;
use crate::part::Part;
use kv_model::call::Compare;
use range_view::reply::KvRef;
use std::alloc::{AllocError, Global};

/// The extremes of a field: of each two neighbours in a list, of each two of these, and so on up to
/// those of all but a rest at the end.
#[derive(Drop)]
pub(crate) struct Tree<'a> {
    pub(crate) field: Field,
    pub(crate) levels: Vec<Vec<Extremes<'a>>>,
}

/// The tree of a field over a list. Linear in its length; so is its memory. The error is want of
/// that.
pub(crate) fn tree_over<'a>(
    alloc: Global,
    field: Field,
    kvs: &[KvRef<'a>],
) -> Result<Tree<'a>, AllocError>
    ensures { IfOk result (λ t. (t.field ≡ field) × extremes.IsTree kvs.now t) }
{
    let mut levels = Vec::new(alloc);
    let mut level = first_level(alloc, field, kvs)?;
    while !level.is_empty() {
        let above = level_above(alloc, field, &level)?;
        levels.push(level)?;
        level = above;
    }
    Ok(Tree { field, levels })
}

/// The extremes of each two neighbours.
fn first_level<'a>(
    alloc: Global,
    field: Field,
    kvs: &[KvRef<'a>],
) -> Result<Vec<Extremes<'a>>, AllocError>
    ensures { IfOk result (λ v. v.items ≡ parts.pairs_by (extremes.of_two field) kvs.now) }
{
    let mut level = Vec::with_capacity(alloc, kvs.len() / 2)?;
    let mut rest = kvs;
    while let [a, b, behind @ ..] = rest {
        level.push(of_two(field, a, b))?;
        rest = behind;
    }
    Ok(level)
}

/// The same of two neighbours of a level each.
fn level_above<'a>(
    alloc: Global,
    field: Field,
    below: &[Extremes<'a>],
) -> Result<Vec<Extremes<'a>>, AllocError>
    ensures { IfOk result (λ v. v.items ≡ parts.pairs_by (extremes.joined field) below.now) }
{
    let mut level = Vec::with_capacity(alloc, below.len() / 2)?;
    let mut rest = below;
    while let [a, b, behind @ ..] = rest {
        level.push(joined(field, a, b))?;
        rest = behind;
    }
    Ok(level)
}

/// Whether each of a part of the list stands to the operand as the compare says, where that is not
/// that it differs from it: logarithmic in the length of the list.
pub(crate) fn all_relate(tree: &Tree<'_>, kvs: &[KvRef<'_>], compare: &Compare, part: Part) -> bool
    requires tree { extremes.IsTree kvs.now tree.now }
    requires field { tree.now.field ≡ fields.field_of compare.now.operand }
    requires inside { parts.IsWithin part kvs.now }
    ensures { compare.now.relation ≢ IsNotEqual
        → result ≡ list_all (extremes.passes compare.now) (parts.of_part part kvs.now) }
{
    if part.from >= part.to {
        return true;
    }
    if !first_relates(kvs, compare, part) {
        return false;
    }
    if !last_relates(kvs, compare, part) {
        return false;
    }
    all_meet(&tree.levels, compare, halved(part))
}

/// The part of a level that is over a part of the level below, without what is over its ends alone.
fn halved(part: Part) -> Part
    requires { part.from < part.to }
    ensures { result ≡ parts.halved part }
{
    Part {
        from: part.from / 2 + part.from % 2,
        to: part.to / 2,
    }
}

/// Whether the first of a part, if no pair within it has that, stands to the operand as the compare
/// says.
fn first_relates(kvs: &[KvRef<'_>], compare: &Compare, part: Part) -> bool
    requires some { part.from < part.to }
    requires inside { part.to ≤ length kvs.now }
    ensures { list_all (extremes.passes compare.now) (parts.of_part part kvs.now) ≡ (result
        && list_all (extremes.passes compare.now)
        (parts.between (parts.paired_from part) part.to kvs.now)) }
{
    part.from % 2 == 0 || relates_to(compare, &kvs[part.from])
}

/// Whether the last of a part, if no pair within it has that, stands to the operand as the compare
/// says.
fn last_relates(kvs: &[KvRef<'_>], compare: &Compare, part: Part) -> bool
    requires some { part.from < part.to }
    requires inside { part.to ≤ length kvs.now }
    ensures { list_all (extremes.passes compare.now)
        (parts.between (parts.paired_from part) part.to kvs.now)
        ≡ (result && list_all (extremes.passes compare.now) (parts.paired part kvs.now)) }
{
    part.to % 2 == 0 || relates_to(compare, &kvs[part.to - 1])
}

/// The same of the first of a part of a level.
fn first_meets(level: &[Extremes<'_>], compare: &Compare, part: Part) -> bool
    requires some { part.from < part.to }
    requires inside { part.to ≤ length level.now }
    ensures { list_all (extremes.meets compare.now) (parts.of_part part level.now) ≡ (result
        && list_all (extremes.meets compare.now)
        (parts.between (parts.paired_from part) part.to level.now)) }
{
    part.from % 2 == 0 || meets(compare, &level[part.from])
}

/// The same of its last.
fn last_meets(level: &[Extremes<'_>], compare: &Compare, part: Part) -> bool
    requires some { part.from < part.to }
    requires inside { part.to ≤ length level.now }
    ensures { list_all (extremes.meets compare.now)
        (parts.between (parts.paired_from part) part.to level.now)
        ≡ (result && list_all (extremes.meets compare.now) (parts.paired part level.now)) }
{
    part.to % 2 == 0 || meets(compare, &level[part.to - 1])
}

/// Whether all of a part of the lowest of some levels meet the compare.
fn all_meet(levels: &[Vec<Extremes<'_>>], compare: &Compare, part: Part) -> bool
    requires levels { extremes.AreLevels (fields.field_of compare.now.operand)
        (extremes.lowest levels.now) levels.now }
    requires inside { part.to ≤ length (extremes.lowest levels.now) }
    ensures { result
        ≡ list_all (extremes.meets compare.now) (parts.of_part part (extremes.lowest levels.now)) }
{
    match levels.split_first() {
        Some((level, above)) if part.from < part.to => {
            if !first_meets(level, compare, part) {
                return false;
            }
            if !last_meets(level, compare, part) {
                return false;
            }
            all_meet(above, compare, halved(part))
        }
        _ => true,
    }
}
