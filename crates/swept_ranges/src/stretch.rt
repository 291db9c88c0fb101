//! Stretches of keys.
ghost use Rattle.std.specs.Prelude.{◌≡◌, ℕ, List, MatchOption, IfOk, ⊤};
ghost use Rattle.std.specs.Prelude.{◌&&◌};
ghost use Rattle.kv_model.specs.Keys.{in_range, same_key, zero_byte, key_le, key_lt};
ghost use Rattle.swept_ranges.specs.Walks as walks;

use bytes::Bytes;
use kv_model::span::Span;
use kv_model::version::KeyRange;
use std::alloc::{AllocError, Global};

/// The keys from one on, up to the first that is not below another, or all of them.
#[derive(Clone, Copy)]
pub(crate) struct Stretch<'t> {
    pub(crate) from: &'t [u8],
    pub(crate) to: Option<&'t [u8]>,
}

/// The stretch that a range is; `None` where it is one key.
pub(crate) fn stretch_of(range: &KeyRange) -> Option<Stretch<'_>>
    ensures { MatchOption result ⊤ (λ s. (k : List ℕ) → walks.has s k ≡ in_range range.now k) }
{
    match range.span() {
        Span::Key(_) => None,
        Span::All => Some(Stretch {
            from: b"",
            to: None,
        }),
        Span::From(from) => Some(Stretch {
            from: from.as_slice(),
            to: None,
        }),
        Span::Interval { from, to } => Some(Stretch {
            from: from.as_slice(),
            to: Some(to.as_slice()),
        }),
    }
}

/// Whether a key comes before an end, if there is one.
pub(crate) fn is_below(to: Option<&[u8]>, key: &[u8]) -> bool
    ensures { result ≡ walks.is_below to.entry key.now }
{
    match to {
        None => true,
        Some(to) => key.cmp(to).is_lt(),
    }
}

/// The range that a stretch is, its keys copied; `None` where an end of it would say something else
/// in a range. The error is want of memory.
pub(crate) fn range_of(alloc: Global, stretch: &Stretch<'_>) -> Result<Option<KeyRange>, AllocError>
    ensures { IfOk result (λ o. MatchOption o ⊤ (λ r.
        (k : List ℕ) → in_range r k ≡ walks.has stretch.now k)) }
{
    match stretch.to {
        Some(to) => interval(alloc, stretch.from, to),
        None => onward(alloc, stretch.from),
    }
}

fn interval(alloc: Global, from: &[u8], to: &[u8]) -> Result<Option<KeyRange>, AllocError>
    ensures { IfOk result (λ o. MatchOption o ⊤ (λ r.
        (k : List ℕ) → in_range r k ≡ (key_le from.now k && key_lt k to.now))) }
{
    if to.is_empty() || is_zero_byte(to) {
        return Ok(None);
    }
    Ok(Some(KeyRange {
        key: Bytes::copy_from_slice(alloc, from)?,
        end: Bytes::copy_from_slice(alloc, to)?,
    }))
}

fn onward(alloc: Global, from: &[u8]) -> Result<Option<KeyRange>, AllocError>
    ensures { IfOk result (λ o. MatchOption o ⊤ (λ r.
        (k : List ℕ) → in_range r k ≡ key_le from.now k)) }
{
    if is_zero_byte(from) {
        return Ok(None);
    }
    Ok(Some(KeyRange {
        key: Bytes::copy_from_slice(alloc, from)?,
        end: Bytes::from_static(b"\0"),
    }))
}

/// Whether a key is the single byte 0.
pub(crate) fn is_zero_byte(key: &[u8]) -> bool
    ensures { result ≡ same_key key.now zero_byte }
{
    key == [0].as_slice()
}
