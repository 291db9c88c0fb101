//! Where the ranges of keys begin and end.
ghost use Rattle.std.specs.Prelude.{◌≡◌};
ghost use Rattle.kv_model.specs.Keys.{same_key, zero_byte};
ghost use Rattle.watch_hub.specs.Guards.{ends_at, ends_by, first_key, has_begun, is_past};

use kv_model::span::Span;
use kv_model::version::KeyRange;

/// Whether a range has all keys from one on.
fn is_endless(range: &KeyRange) -> bool
    ensures { result ≡ same_key range.now.end zero_byte }
{
    match range.span() {
        Span::All => true,
        Span::From(_) => true,
        Span::Key(_) => false,
        Span::Interval { .. } => false,
    }
}

/// The key from which on a range may have keys. The range of all keys begins with the key of no
/// byte.
pub(crate) fn first_key(range: &KeyRange) -> &[u8]
    ensures { result.now ≡ first_key range.now }
{
    match range.span() {
        Span::All => &[],
        Span::From(from) => from.as_slice(),
        Span::Key(_) => range.key.as_slice(),
        Span::Interval { .. } => range.key.as_slice(),
    }
}

/// Whether a range begins with this key or before it.
pub(crate) fn has_begun(range: &KeyRange, key: &[u8]) -> bool
    ensures { result ≡ has_begun range.now key.now }
{
    first_key(range).cmp(key).is_le()
}

/// Whether a key is behind all of a range.
pub(crate) fn is_past(range: &KeyRange, key: &[u8]) -> bool
    ensures { result ≡ is_past range.now key.now }
{
    if range.end.is_empty() {
        return range.key.as_slice().cmp(key).is_lt();
    }
    if is_endless(range) {
        return false;
    }
    range.end.as_slice().cmp(key).is_le()
}

/// Whether a range has no key behind this one.
fn ends_at(range: &KeyRange, key: &[u8]) -> bool
    ensures { result ≡ ends_at range.now key.now }
{
    if range.end.is_empty() {
        return range.key.as_slice().cmp(key).is_le();
    }
    is_past(range, key)
}

/// Whether a range ends no later than another.
pub(crate) fn ends_by(range: &KeyRange, other: &KeyRange) -> bool
    ensures { result ≡ ends_by range.now other.now }
{
    if other.end.is_empty() {
        return ends_at(range, other.key.as_slice());
    }
    if is_endless(other) {
        return true;
    }
    is_past(range, other.end.as_slice())
}
