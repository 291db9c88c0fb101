//! Ranges whose live keys a transaction has deleted, and what of another range lies beside them.
ghost use Rattle.std.specs.Prelude.{◌≡◌, ◌||◌, ◌&&◌, ◌++◌, ◌≤◌, ℕ, List, Bool, true, map, length};
ghost use Rattle.std.specs.Prelude.{IfOk, MatchOption, OnOk, drop, false, min, option_copied, take};
ghost use Rattle.std.specs.Prelude.{⊤};
ghost use Rattle.std.specs.List.{insert};
ghost use Rattle.kv_model.specs.Lists.{is_empty};
ghost use Rattle.store_laws.specs.Rising.{count_while};
ghost use Rattle.kv_model.specs.declared.version.KeyRange.{KeyRange};
ghost use Rattle.kv_model.specs.Keys.{in_range, key_le};
ghost use Rattle.kv_model.specs.Ranges.{live};
ghost use Rattle.range_view.specs.Replies.{kv_view};
ghost use Rattle.swept_ranges.specs.Swept.{AreBut, covers, of_keys};
ghost use Rattle.swept_ranges.specs.Ends as ends;
ghost use Rattle.swept_ranges.specs.Walks as walks;

use crate::stretch::{Stretch, is_below, is_zero_byte, range_of, stretch_of};
use kv_model::version::KeyRange;
use range_view::View;
use range_view::reply::KvRef;
use std::alloc::{AllocError, Global};

/// What lies ahead from a key on, of ranges that are swept.
#[derive(Clone, Copy)]
pub(crate) enum Ahead<'t> {
    /// All is covered.
    Covered,
    /// All is covered that comes before this key.
    Until(&'t [u8]),
    /// The key is not known to be covered, and a range begins here.
    Gap(&'t [u8]),
    /// It is not, and none begins behind it.
    Open,
}

/// How far a walk has come.
#[derive(Clone, Copy)]
enum Walked<'t> {
    /// To this key.
    On(&'t [u8]),
    /// To the end.
    Done,
    /// To a stretch that no range is.
    Lost,
}

/// Adds a range of several keys, and drops those that lie within it. They stay in the order of
/// their first keys, and that is the order of their ends too (`add_in_order`). The error is want of
/// memory.
///
/// It halves, moves those behind its place, and drops each range once.
pub fn add<'t>(swept: &mut Vec<&'t KeyRange>, range: &'t KeyRange) -> Result<(), AllocError>
    ensures { OnOk result ((k : List ℕ) → covers swept.new.items k ≡ true
        → (covers swept.old.items k || in_range range.now k) ≡ true) }
{
    add_in_order(swept, range)
}

/// The same: where the ranges are in order they stay so.
fn add_in_order<'t>(swept: &mut Vec<&'t KeyRange>, range: &'t KeyRange) -> Result<(), AllocError>
    ensures covered { OnOk result ((k : List ℕ) → covers swept.new.items k ≡ true
        → (covers swept.old.items k || in_range range.now k) ≡ true) }
    ensures ordered { OnOk result (ends.AreInOrder swept.old.items
        → ends.AreInOrder swept.new.items) }
{
    let Some(place) = place_of(swept, range) else {
        return Ok(());
    };
    drop_within(swept, place, end_of(range));
    put_in(swept, place, range)
}

/// Where a range goes among ranges in order: `None` where it is one key or has none, and where one
/// of them reaches its end that begins with its first key or before it.
fn place_of(swept: &[&KeyRange], range: &KeyRange) -> Option<usize>
    ensures { ends.AreInOrder swept.now
        → MatchOption result ⊤ (λ i. ends.Fits swept.now range.now i) }
{
    if range.end.is_empty() {
        return None;
    }
    if !is_below(end_of(range), start_of(range)) {
        return None;
    }
    place_behind(swept, begun(swept, start_of(range)), range)
}

/// The same of a range of several keys, where so many begin with its first key or before it.
fn place_behind(swept: &[&KeyRange], count: usize, range: &KeyRange) -> Option<usize>
    requires { count ≤ length swept.now }
    ensures { is_empty range.now.end ≡ false → ends.AreInOrder swept.now
        → count_while (ends.begins_by (ends.start_of range.now)) swept.now ≡ count
        → MatchOption result ⊤ (λ i. ends.Fits swept.now range.now i) }
{
    if count == 0 {
        return Some(0);
    }
    let last = swept[count - 1];
    if reaches(last, end_of(range)) {
        return None;
    }
    if start_of(last) == start_of(range) {
        return Some(count - 1);
    }
    Some(count)
}

/// Drops the ranges from a place on that end by an end, up to the first that does not.
fn drop_within(swept: &mut Vec<&KeyRange>, place: usize, to: Option<&[u8]>)
    ensures covered { (k : List ℕ) → covers swept.new.items k ≡ true
        → covers swept.old.items k ≡ true }
    ensures rest { swept.new.items ≡ take place swept.old.items
        ++ ends.past_ends (option_copied to.entry) (drop place swept.old.items) }
{
    while place < swept.len() && ends_by(swept[place], to) {
        swept.remove(place);
    }
}

/// Puts a range into its place, or behind all where there is none.
fn put_in<'t>(
    swept: &mut Vec<&'t KeyRange>,
    place: usize,
    range: &'t KeyRange,
) -> Result<(), AllocError>
    ensures covered { OnOk result ((k : List ℕ) → covers swept.new.items k ≡ true
        → (covers swept.old.items k || in_range range.now k) ≡ true) }
    ensures put { OnOk result (swept.new.items
        ≡ insert swept.old.items (min place (length swept.old.items)) range.entry) }
{
    let place = place.min(swept.len());
    swept.insert(place, range)?;
    Ok(())
}

/// Where the ranges end, in their order, that begin at a key or before it.
fn begun(swept: &[&KeyRange], key: &[u8]) -> usize
    ensures bound { result ≤ length swept.now }
    ensures count { ends.AreInOrder swept.now
        → count_while (ends.begins_by key.now) swept.now ≡ result }
{
    swept.partition_point(|range| begins_by(range, key))
}

/// Whether a range begins with a key or before it.
fn begins_by(range: &KeyRange, key: &[u8]) -> bool
    ensures { result ≡ key_le (ends.start_of range.now) key.now }
{
    start_of(range).cmp(key).is_le()
}

/// The key that a range begins with, in the order of the ranges.
fn start_of(range: &KeyRange) -> &[u8]
    ensures { result.now ≡ ends.start_of range.now }
{
    if is_zero_byte(range.end.as_slice()) && is_zero_byte(range.key.as_slice()) {
        return b"";
    }
    range.key.as_slice()
}

/// The key that is the first behind a range of several keys; `None` where it has all keys from its
/// first one on.
fn end_of(range: &KeyRange) -> Option<&[u8]>
    ensures { option_copied result ≡ ends.end_of range.now }
{
    if is_zero_byte(range.end.as_slice()) {
        return None;
    }
    Some(range.end.as_slice())
}

/// Whether an end is another or lies behind it; no end lies behind all.
fn is_from(end: Option<&[u8]>, to: Option<&[u8]>) -> bool
    ensures { result ≡ ends.is_from (option_copied end.entry) (option_copied to.entry) }
{
    match (end, to) {
        (None, _) => true,
        (Some(_), None) => false,
        (Some(end), Some(to)) => to.cmp(end).is_le(),
    }
}

/// Whether a range of several keys goes on to an end at least.
fn reaches(range: &KeyRange, to: Option<&[u8]>) -> bool
    ensures { result ≡ ends.reaches range.now (option_copied to.entry) }
{
    if range.end.is_empty() {
        return false;
    }
    is_from(end_of(range), to)
}

/// Whether a range of several keys goes on to an end at most.
fn ends_by(range: &KeyRange, to: Option<&[u8]>) -> bool
    ensures { result ≡ ends.ends_by range.now (option_copied to.entry) }
{
    if range.end.is_empty() {
        return false;
    }
    is_from(to, end_of(range))
}

/// The key-values of the live keys of a range at the view's place, in the order of the keys, but
/// for some of those that the ranges cover: whoever takes nothing of what they cover takes from
/// these what he would take from all.
///
/// `AllocError` comes where a list of keys or of what they hold found no memory. The keys of the
/// range that no range covers are walked, live or not, each in time logarithmic in the versions, and
/// beside it each range that the walk comes to, in time logarithmic in their number.
pub fn live_beside<'a, 't>(
    alloc: Global,
    view: &View<'a>,
    swept: &[&'t KeyRange],
    range: &'t KeyRange,
) -> Result<Vec<KvRef<'a>>, AllocError>
    ensures { IfOk result (λ kvs. AreBut (covers swept.now) (map kv_view kvs.items)
        (live view.now.versions view.now.place range.now)) }
{
    match stretch_of(range) {
        Some(whole) if !swept.is_empty() => walk(alloc, view, swept, range, &whole),
        _ => view.live(alloc, range),
    }
}

/// The same by a walk, of a range that is this stretch.
fn walk<'a, 't>(
    alloc: Global,
    view: &View<'a>,
    swept: &[&'t KeyRange],
    range: &'t KeyRange,
    whole: &Stretch<'t>,
) -> Result<Vec<KvRef<'a>>, AllocError>
    requires { (k : List ℕ) → walks.has whole.now k ≡ in_range range.now k }
    ensures { IfOk result (λ kvs. AreBut (covers swept.now) (map kv_view kvs.items)
        (live view.now.versions view.now.place range.now)) }
{
    let mut kvs = Vec::new(alloc);
    let mut from = whole.from;
    for _ in 0..swept.len().saturating_mul(2).saturating_add(2) {
        match step(alloc, view, swept, range, whole, from, &mut kvs)? {
            Walked::On(next) => from = next,
            Walked::Done => return Ok(kvs),
            Walked::Lost => break,
        }
    }
    view.live(alloc, range)
}

/// One step of the walk: past what is covered, or through a gap.
fn step<'a, 't>(
    alloc: Global,
    view: &View<'a>,
    swept: &[&'t KeyRange],
    range: &KeyRange,
    whole: &Stretch<'t>,
    from: &'t [u8],
    kvs: &mut Vec<KvRef<'a>>,
) -> Result<Walked<'t>, AllocError>
    requires whole { (k : List ℕ) → walks.has whole.now k ≡ in_range range.now k }
    requires from { key_le whole.now.from.now from.now ≡ true }
    requires so_far { walks.AreButFrom (covers swept.now) from.now
        (map kv_view kvs.old.items) (live view.now.versions view.now.place range.now) }
    ensures { IfOk result (λ w. walks.IsWalked (covers swept.now) whole.now.from.now
        (map kv_view kvs.new.items) (live view.now.versions view.now.place range.now) w) }
{
    match look_ahead(swept, from) {
        Ahead::Covered => Ok(Walked::Done),
        Ahead::Until(to) => Ok(Walked::On(to)),
        Ahead::Gap(to) if is_below(whole.to, to) => {
            let gap = Stretch { from, to: Some(to) };
            if !push_live(alloc, view, &gap, kvs)? {
                return Ok(Walked::Lost);
            }
            Ok(Walked::On(to))
        }
        _ => {
            let rest = Stretch { from, to: whole.to };
            if !push_live(alloc, view, &rest, kvs)? {
                return Ok(Walked::Lost);
            }
            Ok(Walked::Done)
        }
    }
}

/// Adds the key-values of the live keys of a stretch; adds none and answers that it is lost where
/// no range is this stretch.
fn push_live<'a>(
    alloc: Global,
    view: &View<'a>,
    stretch: &Stretch<'_>,
    kvs: &mut Vec<KvRef<'a>>,
) -> Result<bool, AllocError>
    ensures { IfOk result (λ b. b ≡ true → (r : KeyRange) (g : List ℕ → Bool)
        → ((k : List ℕ) → walks.has stretch.now k ≡ (in_range r k && g k))
        → map kv_view kvs.new.items ≡ map kv_view kvs.old.items
        ++ of_keys g (live view.now.versions view.now.place r)) }
{
    let Some(range) = range_of(alloc, stretch)? else {
        return Ok(false);
    };
    let found = view.live(alloc, &range)?;
    kvs.extend_from_slice(&found)?;
    Ok(true)
}

/// What lies ahead from a key on.
fn look_ahead<'t>(swept: &[&'t KeyRange], from: &[u8]) -> Ahead<'t>
    ensures { walks.IsAhead (covers swept.now) from.now result }
{
    let place = begun(swept, from);
    if place > 0 {
        match covering(swept[place - 1], from) {
            Ahead::Open => {}
            covered => return covered,
        }
    }
    match swept.get(place) {
        Some(next) => gap_to(start_of(next), from),
        None => Ahead::Open,
    }
}

/// A gap up to a key, where that is not below another.
fn gap_to<'t>(to: &'t [u8], from: &[u8]) -> Ahead<'t>
    ensures { (c : List ℕ → Bool) → walks.IsAhead c from.now result }
{
    if from.cmp(to).is_le() {
        Ahead::Gap(to)
    } else {
        Ahead::Open
    }
}

/// What a range covers from a key on.
fn covering<'t>(range: &'t KeyRange, from: &[u8]) -> Ahead<'t>
    ensures { walks.IsAhead (in_range range.now) from.now result }
{
    let Some(stretch) = stretch_of(range) else {
        return Ahead::Open;
    };
    if !range.contains(from) {
        return Ahead::Open;
    }
    covered_up_to(stretch.to)
}

/// What a range covers that goes on to an end, from a key that it has.
fn covered_up_to(to: Option<&[u8]>) -> Ahead<'_>
    ensures { result ≡ walks.covered_up_to to.entry }
{
    match to {
        Some(to) => Ahead::Until(to),
        None => Ahead::Covered,
    }
}
