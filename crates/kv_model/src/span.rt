//! The kinds of range, each with the keys that bound it.
ghost use Rattle.std.specs.Prelude.{◌≡◌, ℕ, List};
ghost use Rattle.kv_model.specs.Keys.{in_range, same_key, zero_byte};
ghost use Rattle.kv_model.specs.Spans.{is_within};

use crate::version::KeyRange;
use bytes::Bytes;

/// Which keys a range has (etcd: `key` and `range_end` of a RangeRequest), the keys that bound it
/// lent from the range.
#[derive(Clone, Copy, Debug)]
pub enum Span<'a> {
    /// One key.
    Key(&'a Bytes),
    /// All keys.
    All,
    /// All keys from one on.
    From(&'a Bytes),
    /// The keys from one on that come before another: none where that one is not above the first.
    Interval { from: &'a Bytes, to: &'a Bytes },
}

impl KeyRange {
    /// Which keys the range has: with no end its key alone, with the end 0 all keys from its key
    /// on, of which the key 0 makes all keys, and else those from its key on that come before its
    /// end. Constant time. Takes no memory.
    pub fn span(&self) -> Span<'_>
        ensures { (k : List ℕ) → is_within result k ≡ in_range self.now k }
    {
        if self.end.is_empty() {
            return Span::Key(&self.key);
        }
        if !is_zero_byte(&self.end) {
            return Span::Interval {
                from: &self.key,
                to: &self.end,
            };
        }
        if is_zero_byte(&self.key) {
            Span::All
        } else {
            Span::From(&self.key)
        }
    }

    /// Whether a key is in the range. Linear in the length of the key. Takes no memory.
    pub fn contains(&self, key: &[u8]) -> bool
        ensures { result ≡ in_range self.now key.now }
    {
        match self.span() {
            Span::Key(one) => key == one.as_slice(),
            Span::All => true,
            Span::From(from) => from.as_slice().cmp(key).is_le(),
            Span::Interval { from, to } => {
                from.as_slice().cmp(key).is_le() && key.cmp(to.as_slice()).is_lt()
            }
        }
    }
}

/// Whether a key is the single byte 0.
fn is_zero_byte(key: &Bytes) -> bool
    ensures { result ≡ same_key key.now zero_byte }
{
    key.as_slice() == [0].as_slice()
}
