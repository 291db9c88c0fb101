//! Parts of a list of key-values in the order of their keys.
ghost use Rattle.std.specs.Prelude.{◌≡◌, ◌-◌, ◌≤◌, filter, length, map};
ghost use Rattle.store_laws.specs.Rising.{count_while};
ghost use Rattle.kv_model.specs.Keys.{in_range, key_le, key_lt};
ghost use Rattle.range_view.specs.Replies.{kv_view};
ghost use Rattle.range_view.specs.Selecting.{AreByKey};
ghost use Rattle.live_keys.specs.Exchanging.{Stands};
ghost use Rattle.live_keys.specs.Parts as parts;

use kv_model::span::Span;
use kv_model::version::KeyRange;
use range_view::reply::KvRef;

/// The places of a list from one on, up to another, which is not one of them.
#[derive(Clone, Copy)]
pub(crate) struct Part {
    pub(crate) from: usize,
    pub(crate) to: usize,
}

impl Part {
    /// How many places it has.
    pub(crate) fn len(self) -> usize
        ensures { result ≡ self.to - self.from }
    {
        self.to.saturating_sub(self.from)
    }
}

/// Where the key-values of a range stand in a list in the order of the keys, and where there are
/// none of them, where they would: two halvings.
pub(crate) fn part_of(kvs: &[KvRef<'_>], range: &KeyRange) -> Part
    ensures inside { parts.IsWithin result kvs.now }
    ensures exact { AreByKey (map kv_view kvs.now) → parts.of_part result (map kv_view kvs.now)
        ≡ filter (λ kv. in_range range.now kv.key) (map kv_view kvs.now) }
    ensures stands { AreByKey (map kv_view kvs.now)
        → Stands range.now result (map kv_view kvs.now) }
{
    match range.span() {
        Span::Key(key) => interval(
            place_of(kvs, key.as_slice()),
            place_behind(kvs, key.as_slice()),
        ),
        Span::All => Part {
            from: 0,
            to: kvs.len(),
        },
        Span::From(from) => Part {
            from: place_of(kvs, from.as_slice()),
            to: kvs.len(),
        },
        Span::Interval { from, to } => interval(
            place_of(kvs, from.as_slice()),
            place_of(kvs, to.as_slice()),
        ),
    }
}

/// The places from one on, up to another, if that comes behind it.
fn interval(from: usize, to: usize) -> Part
    ensures { result ≡ parts.interval from to }
{
    if from <= to {
        Part { from, to }
    } else {
        Part { from: to, to }
    }
}

/// How many of the key-values have keys below a key.
fn place_of(kvs: &[KvRef<'_>], key: &[u8]) -> usize
    ensures bound { result ≤ length kvs.now }
    ensures count { AreByKey (map kv_view kvs.now)
        → result ≡ count_while (λ kv. key_lt kv.key key.now) (map kv_view kvs.now) }
{
    kvs.partition_point(|kv| kv.key.cmp(key).is_lt())
}

/// How many of the key-values have this key or one below it.
fn place_behind(kvs: &[KvRef<'_>], key: &[u8]) -> usize
    ensures bound { result ≤ length kvs.now }
    ensures count { AreByKey (map kv_view kvs.now)
        → result ≡ count_while (λ kv. key_le kv.key key.now) (map kv_view kvs.now) }
{
    kvs.partition_point(|kv| kv.key.cmp(key).is_le())
}
