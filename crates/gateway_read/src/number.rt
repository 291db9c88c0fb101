//! The number that a JSON text writes.
ghost use Rattle.std.specs.Prelude.{◌≡◌, ◌==◌, true, false, option_map, option_and_then, slice_index};
ghost use Rattle.serde_json.specs.Find.{as_i64, as_u64};
ghost use Rattle.serde_json.specs.Read.{number_of, number_from, float_of};

use fast_float::Numeral;

/// An integer of 64 bits, or a finite float. One below zero is never 0.
#[derive(Clone, Copy)]
pub(crate) enum Number {
    Unsigned(u64),
    Negative(i64),
    Float(f64),
}

impl Number {
    ghost use Rattle.gateway_read.specs.Values.{number_view};

    /// The number that a token of JSON writes (RFC 8259, section 6), or `None` where it is too
    /// large for a float. The time is linear in the text; takes no memory.
    pub(crate) fn read(text: &str) -> Option<Self>
        ensures { option_map number_view result ≡ number_of text.now }
    {
        let bytes = text.as_bytes();
        if has_minus(bytes) {
            Number::below_zero(&Numeral::scan(&bytes[1..]))
        } else {
            Number::unsigned(&Numeral::scan(bytes))
        }
    }

    fn unsigned(numeral: &Numeral<'_>) -> Option<Self>
        ensures { option_map number_view result ≡ number_from false numeral.now }
    {
        match numeral.to_u64() {
            Some(n) => Some(Number::Unsigned(n)),
            None => Number::nearest(false, numeral),
        }
    }

    fn below_zero(numeral: &Numeral<'_>) -> Option<Self>
        ensures { option_map number_view result ≡ number_from true numeral.now }
    {
        if let Some(n) = numeral.to_i64(true) {
            if n < 0 {
                return Some(Number::Negative(n));
            }
        }
        Number::nearest(true, numeral)
    }

    fn nearest(negative: bool, numeral: &Numeral<'_>) -> Option<Self>
        ensures { option_map number_view result ≡ float_of negative numeral.now }
    {
        let nearest = numeral.to_float::<f64>(negative);
        if nearest.is_finite() {
            Some(Number::Float(nearest))
        } else {
            None
        }
    }

    /// The integer of 64 signed bits that the number is.
    pub(crate) fn signed(self) -> Option<i64>
        ensures { result ≡ as_i64 (number_view self) }
    {
        match self {
            Number::Unsigned(n) => i64::try_from(n).ok(),
            Number::Negative(n) => Some(n),
            Number::Float(_) => None,
        }
    }

    /// The integer of 64 bits, none below zero, that the number is.
    pub(crate) fn place(self) -> Option<u64>
        ensures { result ≡ as_u64 (number_view self) }
    {
        match self {
            Number::Unsigned(n) => Some(n),
            Number::Negative(_) | Number::Float(_) => None,
        }
    }
}

fn has_minus(bytes: &[u8]) -> bool
    ensures { result ≡ (slice_index bytes.now 0 == 45) }
{
    !bytes.is_empty() && bytes[0] == b'-'
}
